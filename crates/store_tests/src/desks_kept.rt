//! What desks leave in their keepers, and what a store without a place for one more session does.
use crate::databases::in_memory;
use crate::desks::{
    DeskWork, ENTERS, GIVE, LEAVE_7, ONE_LEFT, ONE_READER, READ_7, READ_8, Shift, Told, answered,
    over, over_memory,
};
use crate::stores::{At, Opened, Step, are_told};
use admission_core::Ask;
use desk_log::{Desk, Run, Runs, Transcript};
use site_store::{Keeper, StoreOpenError};
use sqlite::{Alter, Connection};
use std::alloc::Global;

/// Whether a reader enters over a keeper in memory, and over a store.
fn enters_over_both(alloc: Global) -> [bool; 2] {
    [
        over_memory(alloc, &ENTERS) == Some(true),
        are_told(alloc, &[Step::Serve(ENTERS)]),
    ]
}

#[test]
fn keepers_of_both_kinds_keep_the_same(rt: HostRuntime) {
    assert!(rt; enters_over_both(rt.alloc()) == [true, true]);
}

// ---- the store with one reader

/// A statement, a number of sites and a site, and what an opening of the store with one reader comes to then.
static JUDGED: [(&str, u16, u16, Opened); 7] = [
    ("", 2, 0, Opened::Holds(1, 1, true)),
    ("", 3, 0, Opened::Holds(1, 1, true)),
    ("", 2, 1, Opened::Refused(StoreOpenError::WrongSite)),
    ("", 1, 0, Opened::Refused(StoreOpenError::WrongLayout)),
    (
        "UPDATE meta SET value = '9' WHERE name = 'version'",
        2,
        0,
        Opened::Refused(StoreOpenError::BadStore),
    ),
    (
        "DROP TABLE cells; CREATE TABLE cells (x INTEGER)",
        2,
        0,
        Opened::Refused(StoreOpenError::BadStore),
    ),
    (
        "CREATE TABLE other (x INTEGER)",
        2,
        0,
        Opened::Holds(1, 1, true),
    ),
];

fn is_judged(alloc: Global, row: (&'static str, u16, u16, Opened)) -> bool {
    let at = At {
        sites: row.1,
        seats: 2,
        site: row.2,
        group: None,
    };
    are_told(
        alloc,
        &[Step::Serve(ENTERS), Step::Run(row.0), Step::Open(at, row.3)],
    )
}

/// The first row that is judged otherwise.
fn wrongly_judged(alloc: Global) -> Option<usize> {
    let mut at = 0usize;
    for row in JUDGED {
        if !is_judged(alloc, row) {
            return Some(at);
        }
        at = at.saturating_add(1);
    }
    None
}

#[test]
fn a_store_with_a_reader_is_judged(rt: HostRuntime) {
    assert!(rt; wrongly_judged(rt.alloc()) == None);
}

/// The place of the one reader is the last but one: another enters behind it.
static LAST_PLACE: [Step; 4] = [
    Step::Serve(ENTERS),
    Step::Run("UPDATE sessions SET place = 4611686018427387903"),
    Step::Serve(Shift {
        sites: 2,
        first: ONE_READER,
        calls: &[(READ_8, Told::Admitted), (LEAVE_7, Told::Left)],
        left: Some(ONE_LEFT),
    }),
    Step::Serve(Shift {
        sites: 2,
        first: ONE_LEFT,
        calls: &[],
        left: Some(ONE_LEFT),
    }),
];

/// Its place is the last: there is none for another, and the desk stops.
static NO_PLACE: [Step; 4] = [
    Step::Serve(ENTERS),
    Step::Run("UPDATE sessions SET place = 4611686018427387904"),
    Step::Serve(Shift {
        sites: 2,
        first: ONE_READER,
        calls: &[(READ_8, Told::StoreFault), (LEAVE_7, Told::Frozen)],
        left: None,
    }),
    Step::Serve(Shift {
        sites: 2,
        first: ONE_READER,
        calls: &[],
        left: Some(ONE_READER),
    }),
];

#[test]
fn a_session_without_a_place_stops_the_desk(rt: HostRuntime) {
    let alloc = rt.alloc();
    assert!(rt; [are_told(alloc, &LAST_PLACE), are_told(alloc, &NO_PLACE)] == [true, true]);
}

// ---- a layout that grows

/// What a site that is alone answers to a reader and to a gift.
const ALONE: [(Ask, Told); 2] = [(READ_7, Told::Admitted), (GIVE, Told::NoSite)];

/// What it answers to the gift once it has a second site beside it.
const GROWN: [(Ask, Told); 1] = [(GIVE, Told::Given)];

/// A desk that answers calls so, and its run.
#[derive(Drop)]
struct Answers(&'static [(Ask, Told)]);

impl DeskWork for Answers {
    type Found = Run;

    fn at<K: Keeper + Drop>(&self, _alloc: Global, desk: Desk<K>) -> Option<(Run, K)> {
        let mut desk = desk;
        if answered(&mut desk, self.0).1.is_some() {
            return None;
        }
        let sites = desk.core().layout().sites();
        let (first, entries, keeper) = desk.into_parts();
        let run = Run {
            sites,
            first,
            entries,
        };
        Some((run, keeper))
    }
}

/// The runs of a desk before and after its layout has grown.
fn both_runs<S: Alter + Drop>(alloc: Global, empty: Connection<S>) -> Option<(Run, Run)> {
    let (first, connection) = over(alloc, empty, 1, &Answers(&ALONE))?;
    let (second, _) = over(alloc, connection, 2, &Answers(&GROWN))?;
    Some((first?, second?))
}

/// The transcript of one run at site 0.
fn transcript_of(alloc: Global, run: Run) -> Option<Transcript> {
    let mut runs = Vec::new(alloc);
    runs.push(run).ok()?;
    Some(Transcript {
        site: 0,
        runs: Runs::from_vec(runs),
    })
}

/// The transcript of two runs.
fn joined(alloc: Global, first: Run, second: Run) -> Option<Transcript> {
    let mut all = transcript_of(alloc, first)?;
    all.append(transcript_of(alloc, second)?).ok()?;
    Some(all)
}

/// The numbers of sites and of entries of a transcript's runs.
pub fn sizes(transcript: &Transcript) -> Option<(u16, usize, u16, usize)> {
    match transcript.runs.as_slice() {
        [first, second] => Some((
            first.sites,
            first.entries.len(),
            second.sites,
            second.entries.len(),
        )),
        _ => None,
    }
}

fn grown(alloc: Global) -> Option<(u16, usize, u16, usize)> {
    let (first, second) = both_runs(alloc, in_memory(alloc)?)?;
    sizes(&joined(alloc, first, second)?)
}

#[test]
fn a_site_goes_on_under_a_layout_that_has_grown(rt: HostRuntime) {
    assert!(rt; grown(rt.alloc()) == Some((1, 2, 2, 1)));
}
