//! Sites behind their locks over stores, with one pass each: how far they come where the store stops, and one whose layout
//! grows between two openings.
ghost use Rattle.std.specs.Prelude.{◌≡◌, ◌<◌};
ghost use Rattle.admission_core.specs.Kept.{DurableState};
ghost use Rattle.desk_log.specs.Desk.{IsMadeFor};

use crate::databases::layout;
use crate::desks::{GIVE, READ_7, Told, told_by};
use crate::desks_kept::sizes;
use crate::files::{Work, closed_after, empty_files};
use admission_core::{Ask, Call};
use desk_log::Transcript;
use merge_core::Layout;
use session_book::{Opening, Pass, Site};
use site_store::{Keeper, SqlKeeper};
use sqlite::{Alter, Connection};
use std::alloc::Global;
use std::marker::Brand;
use std::sync::Wait;
use std::sync::ledger::Blank;

/// How far a site came: its store was not opened, or it was answered as it was to so many calls, up to the last or up to
/// one that was answered `StoreFault`.
#[derive(Clone, Copy, PartialEq, Eq)]
pub enum At {
    Unopened,
    Served(usize),
    Stopped(usize),
}

fn called<K: Keeper, L: Opening, R: Wait>(
    rt: &R,
    site: &Site<K, L>,
    pass: &mut Pass<L>,
    ask: Ask,
) -> Told {
    told_by(&site.call(rt, pass, Call::Ask(ask)))
}

/// How many calls a site answers as it is to, and its first other answer.
fn answers<K: Keeper, L: Opening, R: Wait>(
    rt: &R,
    site: &Site<K, L>,
    pass: &mut Pass<L>,
    calls: &[(Ask, Told)],
) -> (usize, Option<Told>) {
    let mut right = 0usize;
    for (call, wanted) in calls {
        let told = called(rt, site, pass, *call);
        if told != *wanted {
            return (right, Some(told));
        }
        right = right.saturating_add(1);
    }
    (right, None)
}

/// Whether a site has stopped, and says so.
fn is_stopped<K: Keeper, L: Opening, R: Wait>(
    rt: &R,
    site: &Site<K, L>,
    pass: &mut Pass<L>,
) -> bool {
    called(rt, site, pass, Ask::Leave { r: 0, h: 9 }) == Told::Frozen && pass.was_frozen()
}

/// How far a site comes with its calls. It has to stop where its store fails.
fn come<K: Keeper, L: Opening, R: Wait>(
    rt: &R,
    site: &Site<K, L>,
    passes: &mut [Pass<L>],
    calls: &[(Ask, Told)],
) -> Option<At> {
    if passes.is_empty() {
        return None;
    }
    let pass = &mut passes[0];
    match answers(rt, site, pass, calls) {
        (right, None) => Some(At::Served(right)),
        (right, Some(Told::StoreFault)) => {
            is_stopped(rt, site, pass).then_some(At::Stopped(right))
        }
        _ => None,
    }
}

/// Whether a transcript of one run has the calls that were answered, and the one that the store did not take.
fn has_calls(transcript: &Transcript, at: At) -> bool {
    let [run] = transcript.runs.as_slice() else {
        return false;
    };
    match at {
        At::Unopened => false,
        At::Served(calls) => run.entries.len() == calls,
        At::Stopped(calls) => run.entries.len() == calls.saturating_add(1),
    }
}

/// Opens a site over a keeper, makes the calls by its one pass, and closes it.
fn run_over<K: Keeper + Drop, L: Opening, R: Wait>(
    rt: &R,
    alloc: Global,
    blank: Blank,
    keeper: K,
    layout: Layout,
    calls: &[(Ask, Told)],
) -> Option<(At, Option<Transcript>, K)>
    requires name { blank.name ≡ L.name }
    requires parts { blank.parts ≡ L.parts }
    requires one { blank.parts ≡ 1 }
    requires made_for { 0 < layout.sites → IsMadeFor K.Keeper keeper layout 0 }
    requires kept { (d : DurableState) → L.kept d → K.keeps keeper d }
{
    let (site, mut passes) = match Site::<K, L>::open(alloc, blank, keeper, layout, 0, 1, 16) {
        Ok(opened) => opened,
        Err((_, keeper)) => return Some((At::Unopened, None, keeper)),
    };
    let at = come(rt, &site, passes.as_mut_slice(), calls)?;
    let Ok((transcript, keeper)) = site.close(rt, passes) else {
        return None;
    };
    if has_calls(&transcript, at) {
        Some((at, Some(transcript), keeper))
    } else {
        None
    }
}

fn run_keeper<K: Keeper + Drop, R: Wait>(
    rt: &R,
    alloc: Global,
    keeper: K,
    layout: Layout,
    calls: &[(Ask, Told)],
) -> Option<(At, Option<Transcript>, K)>
    requires { 0 < layout.sites → IsMadeFor K.Keeper keeper layout 0 }
{
    run_over::<K, Brand, R>(rt, alloc, Blank::new(1), keeper, layout, calls)
}

/// Opens a site over a connection, makes the calls by its pass, and closes it: how far it came, its transcript where it
/// was opened, and its connection. Nothing where it was answered otherwise, or did not close.
pub fn run_site<S: Alter + Drop, R: Wait>(
    rt: &R,
    alloc: Global,
    connection: Connection<S>,
    sites: u16,
    calls: &[(Ask, Told)],
) -> Option<(At, Option<Transcript>, Connection<S>)> {
    let layout = layout(alloc, sites, 2)?;
    if !connection.is_autocommit() {
        return Some((At::Unopened, None, connection));
    }
    match SqlKeeper::open(alloc, connection, &layout, 0, None) {
        Ok(keeper) => {
            let (at, transcript, keeper) = run_keeper(rt, alloc, keeper, layout, calls)?;
            Some((at, transcript, keeper.into_connection()))
        }
        Err((_, back)) => Some((At::Unopened, None, back)),
    }
}

// ---- a site whose layout grows

/// What a site that is alone answers to a reader and to a gift.
const ALONE: [(Ask, Told); 2] = [(READ_7, Told::Admitted), (GIVE, Told::NoSite)];

/// What it answers once it has a second site beside it.
const GROWN: [(Ask, Told); 3] = [
    (READ_7, Told::AlreadyHere),
    (GIVE, Told::Given),
    (GIVE, Told::Other),
];

/// The transcript of an opening in which all calls were answered, and the database.
fn served<S: Alter + Drop, R: Wait>(
    rt: &R,
    alloc: Global,
    connection: Connection<S>,
    sites: u16,
    calls: &[(Ask, Told)],
) -> Option<(Transcript, Connection<S>)> {
    let (at, transcript, connection) = run_site(rt, alloc, connection, sites, calls)?;
    match (at, transcript) {
        (At::Served(_), Some(transcript)) => Some((transcript, connection)),
        _ => None,
    }
}

/// An opening with these calls at so many sites.
#[derive(Drop)]
struct Serves {
    sites: u16,
    calls: &'static [(Ask, Told)],
}

impl Work for Serves {
    type Found = Transcript;

    fn over<S: Alter + Drop, R: Wait>(
        &self,
        rt: &R,
        alloc: Global,
        connection: Connection<S>,
    ) -> Option<(Transcript, Connection<S>)> {
        served(rt, alloc, connection, self.sites, self.calls)
    }
}

/// A site that is alone, and the same beside a second one.
static OPENINGS: [Serves; 2] = [
    Serves {
        sites: 1,
        calls: &ALONE,
    },
    Serves {
        sites: 2,
        calls: &GROWN,
    },
];

/// The numbers of sites and of entries of the runs of a site that was opened alone, and then beside a second one.
fn grown<R: Wait>(rt: &R, alloc: Global) -> Option<(u16, usize, u16, usize)> {
    let (mut all, files) = closed_after(rt, alloc, empty_files(alloc), &OPENINGS[0])?;
    let (second, _) = closed_after(rt, alloc, files, &OPENINGS[1])?;
    all.append(second).ok()?;
    sizes(&all)
}

#[test]
fn a_site_is_opened_again_under_a_layout_that_has_grown(rt: HostRuntime) {
    assert!(rt; grown(&rt, rt.alloc()) == Some((1, 2, 2, 3)));
}
