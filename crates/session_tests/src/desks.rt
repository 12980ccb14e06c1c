//! The desk of a site: its replies, what it logs, openings one after another, and a store that fails.
use crate::asked::{Asked, Numbers, call_of, served};
use crate::fakes::{desk_of, small_desk};
use admission_core::Durable;
use durable_keeper::Keeper;
use session_book::{AppendError, Desk, OpenError, Run, Runs, Transcript};
use std::alloc::Global;
use test_keepers::{Fake, Fault, store_with};

// What is asked, and the reply's numbers.
type Row = (Asked, Numbers);

// What a desk answers.
fn answer(alloc: Global, desk: &mut Desk<Fake>, asked: Asked) -> Option<Numbers> {
    let call = call_of(alloc, asked)?;
    Some(served(desk, &call))
}

// The first row that is answered otherwise, and how many entries the log has then.
fn first_other(alloc: Global, desk: &mut Desk<Fake>, rows: &[Row]) -> (Option<usize>, usize) {
    for (place, (asked, reply)) in rows.iter().enumerate() {
        if answer(alloc, desk, *asked) != Some(*reply) {
            return (Some(place), desk.entries().len());
        }
    }
    (None, desk.entries().len())
}

// A writer that waits for a reader, at the only site and its only seat.
static WAITING: [Row; 6] = [
    (Asked::Read(1), (1, 0, 0)),
    (Asked::Announce(2), (2, 1, 0)),
    (Asked::Quill(2), (9, 0, 1)),
    (Asked::Leave(2), (3, 0, 0)),
    (Asked::Help, (15, 0, 0)),
    (Asked::Snapshot, (7, 0, 1)),
];

// Seats that can't be given, and one that can.
static GIVING: [Row; 8] = [
    (Asked::Give(1, 3), (10, 2, 0)),
    (Asked::Give(1, u64::MAX), (11, 0, 0)),
    (Asked::Give(0, 1), (12, 0, 0)),
    (Asked::Give(1, 0), (13, 0, 0)),
    (Asked::Give(1, 1), (4, 0, 0)),
    (Asked::Read(7), (1, 0, 0)),
    (Asked::Read(7), (14, 0, 0)),
    (Asked::Read(8), (8, 0, 0)),
];

// 15 readers at two seats; then one that gets the last place of a log of 16, and one that finds it full.
static FILLING: [Row; 17] = [
    (Asked::Read(0), (1, 0, 0)),
    (Asked::Read(1), (1, 0, 0)),
    (Asked::Read(2), (8, 0, 0)),
    (Asked::Read(3), (8, 0, 0)),
    (Asked::Read(4), (8, 0, 0)),
    (Asked::Read(5), (8, 0, 0)),
    (Asked::Read(6), (8, 0, 0)),
    (Asked::Read(7), (8, 0, 0)),
    (Asked::Read(8), (8, 0, 0)),
    (Asked::Read(9), (8, 0, 0)),
    (Asked::Read(10), (8, 0, 0)),
    (Asked::Read(11), (8, 0, 0)),
    (Asked::Read(12), (8, 0, 0)),
    (Asked::Read(13), (8, 0, 0)),
    (Asked::Read(14), (8, 0, 0)),
    (Asked::Read(15), (8, 0, 0)),
    (Asked::Read(16), (22, 0, 0)),
];

// The first row that a new desk of site 0 answers otherwise, and how many entries its log has then.
fn answered(alloc: Global, sites: u16, seats: u32, rows: &[Row]) -> Option<(Option<usize>, usize)> {
    let store = store_with(0, Fault::Never);
    let mut desk = desk_of(alloc, (sites, seats), 0, 16, store).ok()?;
    Some(first_other(alloc, &mut desk, rows))
}

#[test]
fn a_desk_answers_as_its_core(rt: HostRuntime) {
    let waiting = answered(rt.alloc(), 1, 1, &WAITING);
    assert!(rt; waiting == Some((None, 6)), "{waiting:?}");
    let giving = answered(rt.alloc(), 2, 2, &GIVING);
    assert!(rt; giving == Some((None, 8)), "{giving:?}");
}

#[test]
fn a_log_takes_as_many_entries_as_its_limit(rt: HostRuntime) {
    let before = answered(rt.alloc(), 2, 2, &FILLING[..15]);
    assert!(rt; before == Some((None, 15)), "{before:?}");
    let filled = answered(rt.alloc(), 2, 2, &FILLING);
    assert!(rt; filled == Some((None, 16)), "{filled:?}");
}

// The transcript of a desk.
fn transcript_of(alloc: Global, site: u16, desk: Desk<Fake>) -> Option<Transcript> {
    let (first, entries, _keeper) = desk.into_parts();
    let mut runs = Vec::new(alloc);
    runs.push(Run {
        sites: 2,
        first,
        entries,
    })
    .ok()?;
    let runs = Runs::from_vec(runs);
    Some(Transcript { site, runs })
}

// The same desk opened again on what it left.
fn opened_again(alloc: Global, desk: Desk<Fake>) -> Option<Desk<Fake>> {
    let Ok(layout) = desk.core().layout().try_copy(alloc) else {
        return None;
    };
    let site = desk.core().site();
    Desk::open(alloc, desk.into_keeper(), layout, site, 16).ok()
}

/// The durable part of a desk's core.
pub fn durable_of(desk: &Desk<Fake>) -> Option<Durable> {
    desk.core().durable().ok()
}

// How many sessions the durable part of a desk has.
fn session_count(desk: &Desk<Fake>) -> Option<usize> {
    Some(durable_of(desk)?.sessions().len())
}

// The transcript of a site that admitted a reader, and was then opened again.
fn second_transcript(alloc: Global) -> Option<(usize, Transcript)> {
    let mut desk = small_desk(alloc, 0)?;
    let _ = answer(alloc, &mut desk, Asked::Read(7));
    let mut more = opened_again(alloc, desk)?;
    let known = session_count(&more)?;
    let _ = answer(alloc, &mut more, Asked::Read(7));
    let _ = answer(alloc, &mut more, Asked::Read(8));
    Some((known, transcript_of(alloc, 0, more)?))
}

// The transcript of a new desk that served nobody.
fn empty_transcript(alloc: Global, site: u16) -> Option<Transcript> {
    transcript_of(alloc, site, small_desk(alloc, site)?)
}

// How many sessions the second opening of site 0 knows, how many runs and entries are left, and what another site's
// transcript meets.
fn appended(alloc: Global) -> Option<(usize, usize, usize, Option<AppendError>)> {
    let (known, mut all) = second_transcript(alloc)?;
    all.append(empty_transcript(alloc, 0)?).ok()?;
    let refused = all.append(empty_transcript(alloc, 1)?).err();
    let refused = refused.map(|(error, _)| error);
    let entries = all.runs.as_slice().first()?.entries.len();
    Some((known, all.runs.len(), entries, refused))
}

#[test]
fn openings_of_a_site_join_as_runs(rt: HostRuntime) {
    let wanted = Some((1, 2, 2, Some(AppendError::OtherSite)));
    assert_eq!(rt; appended(rt.alloc()), wanted);
}

// The store fails at the second change, which is reader 8.
static STOPPED: [Row; 5] = [
    (Asked::Read(7), (1, 0, 0)),
    (Asked::Help, (15, 0, 0)),
    (Asked::Leave(9), (16, 0, 0)),
    (Asked::Read(8), (23, 0, 0)),
    (Asked::Read(9), (21, 0, 0)),
];

// How many sessions a keeper has after its device is mended.
fn kept_sessions(alloc: Global, desk: Desk<Fake>) -> Option<usize> {
    let mut kept = desk.into_keeper().kept;
    Some(kept.load(alloc).ok()?.sessions().len())
}

// The first row that a desk whose store fails answers otherwise, and its entries; its sessions, and how many of them
// were kept.
fn stopped(alloc: Global, keeps: bool) -> Option<(Option<usize>, usize, usize, usize)> {
    let store = store_with(1, Fault::Refused(keeps));
    let mut desk = desk_of(alloc, (2, 2), 0, 16, store).ok()?;
    let (other, entries) = first_other(alloc, &mut desk, &STOPPED);
    let sessions = session_count(&desk)?;
    Some((other, entries, sessions, kept_sessions(alloc, desk)?))
}

// What was kept is the old or the new.
#[test]
fn a_desk_whose_store_fails_serves_no_more(rt: HostRuntime) {
    for (keeps, kept) in [(false, 1), (true, 2)] {
        let stopped = stopped(rt.alloc(), keeps);
        assert!(rt; stopped == Some((None, 4, 1, kept)), "{keeps}");
    }
}

// Why a desk of so many places is not opened at this site, over a device that has failed or not.
fn refused_opening(alloc: Global, site: u16, limit: usize, failed: bool) -> Option<OpenError> {
    let mut store = store_with(0, Fault::Refused(false));
    store.failed = failed;
    match desk_of(alloc, (2, 2), site, limit, store) {
        Ok(_) => None,
        Err(error) => error,
    }
}

static OPENINGS: [(u16, usize, bool, Option<OpenError>); 5] = [
    (0, 16, true, Some(OpenError::StoreFault)),
    (2, 15, false, Some(OpenError::BadSite)),
    (1, 15, false, Some(OpenError::BadLimit)),
    (1, 65_537, false, Some(OpenError::BadLimit)),
    (1, 65_536, false, None),
];

#[test]
fn openings_are_refused_in_order(rt: HostRuntime) {
    for (site, limit, failed, error) in OPENINGS {
        let refused = refused_opening(rt.alloc(), site, limit, failed);
        assert!(rt; refused == error, "{site} {limit}");
    }
}
