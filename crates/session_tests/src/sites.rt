//! Sites that work at the same time, sites that are opened again, and callers on several threads.
use crate::asked::{Asked, Numbers, served};
use crate::desks::durable_of;
use crate::fakes::small_desk;
use crate::growths::story;
use crate::openings::{Outcome, Plan, Stop, run_opening};
use admission_core::{Ask, Call, Durable};
use durable_keeper::Keeper;
use session_book::{CloseError, OpenError, Run, Transcript};
use std::alloc::Global;
use std::sync::atomic::{AtomicU64, Ordering};
use std::sync::{Arc, Wait};
use std::thread;
use std::thread::Threads;
use test_keepers::{Fault, Store, store_with};

// Site 0 of two, with two seats and one pass.
const ONE_PASS: Plan = Plan {
    sites: 2,
    seats: 2,
    problem: 1,
    site: 0,
    passes: 1,
    limit: 16,
    in_threads: false,
};

// What one of two sites at work is and answered, whether its store saw that the other one had answered, and its
// entries.
#[derive(Clone, Copy, PartialEq, Eq)]
struct AtWork {
    seen: (u16, u16, u16),
    first: Numbers,
    second: Numbers,
    saw: bool,
    entries: usize,
}

// What came of a site at work.
fn at_work(ended: &Outcome) -> Option<AtWork> {
    Some(AtWork {
        seen: ended.seen,
        first: *ended.told.first()?,
        second: *ended.told.last()?,
        saw: ended.keeper.store.saw,
        entries: ended.transcript.runs.as_slice().first()?.entries.len(),
    })
}

// Site 0 gives a seat and admits a reader; its store holds the second of these up until the mark is set.
fn wait_for_mark<R: Threads + Wait + Sync>(
    rt: &R,
    alloc: Global,
    mark: &Arc<AtomicU64, Global>,
) -> Option<AtWork> {
    let mark = Arc::try_clone(mark).ok()?;
    let store = store_with(1, Fault::Waits(mark));
    let all = [Asked::Give(1, 1), Asked::Read(7)];
    at_work(&run_opening(rt, alloc, ONE_PASS, store, &all).ok()?)
}

// Site 1 hears of a seat, admits a reader, and sets the mark.
fn set_mark<R: Threads + Wait + Sync>(
    rt: &R,
    alloc: Global,
    mark: &Arc<AtomicU64, Global>,
) -> Option<AtWork> {
    let mut plan = ONE_PASS;
    plan.site = 1;
    let store = store_with(0, Fault::Never);
    let ended = run_opening(rt, alloc, plan, store, &[Asked::Gift, Asked::Read(8)]);
    mark.store(1, Ordering::SeqCst);
    at_work(&ended.ok()?)
}

// Both sites, each in a thread of its own.
fn work_at_once<R: Threads + Wait + Sync>(
    rt: &R,
    alloc: Global,
) -> Option<(Option<AtWork>, Option<AtWork>)> {
    let mark = Arc::new(alloc, AtomicU64::new(0)).ok()?;
    let all = thread::map_indices(
        rt,
        alloc,
        2,
        &|i| {
            if i == 0 {
                wait_for_mark(rt, alloc, &mark)
            } else {
                set_mark(rt, alloc, &mark)
            }
        },
    )
    .ok()?;
    let first = *all.first()?;
    let second = *all.last()?;
    Some((first, second))
}

const WAITING: AtWork = AtWork {
    seen: (0, 1, 2),
    first: (4, 0, 0),
    second: (1, 0, 0),
    saw: true,
    entries: 2,
};

const OTHER: AtWork = AtWork {
    seen: (1, 1, 2),
    first: (6, 1, 0),
    second: (1, 0, 0),
    saw: false,
    entries: 2,
};

#[test]
fn a_site_that_waits_for_its_store_holds_up_no_other(rt: HostRuntime) {
    let both = work_at_once(&rt, rt.alloc());
    assert!(rt; both == Some((Some(WAITING), Some(OTHER))));
}

// What the first opening answers, whose store fails at reader 8.
static STOPPED: [Numbers; 3] = [(1, 0, 0), (23, 0, 0), (21, 0, 0)];

// An opening of site 0 over this device that answers readers from 7 on so, where as many passes have the mark of a
// stopped site.
fn opening_of<R: Threads + Wait + Sync>(
    rt: &R,
    alloc: Global,
    store: Store,
    readers: &[Asked],
    replies: &[Numbers],
    frozen: u64,
) -> Option<Outcome> {
    let ended = run_opening(rt, alloc, ONE_PASS, store, readers).ok()?;
    if ended.told.as_slice() != replies || ended.marks != (0, frozen) {
        return None;
    }
    Some(ended)
}

// The transcript of an opening whose store fails, and what the store has kept.
fn failed_opening<R: Threads + Wait + Sync>(
    rt: &R,
    alloc: Global,
    keeps: bool,
) -> Option<(Transcript, Durable)> {
    let store = store_with(1, Fault::Refused(keeps));
    let readers = [Asked::Read(7), Asked::Read(8), Asked::Read(9)];
    let mut ended = opening_of(rt, alloc, store, &readers, &STOPPED, 1)?;
    let kept = ended.keeper.kept.load(alloc).ok()?;
    Some((ended.transcript, kept))
}

// The transcript of an opening that begins with this and answers reader 8 so.
fn next_opening<R: Threads + Wait + Sync>(
    rt: &R,
    alloc: Global,
    kept: Durable,
    reply: Numbers,
) -> Option<Transcript> {
    let mut store = store_with(9, Fault::Never);
    store.first = Some(kept);
    let ended = opening_of(rt, alloc, store, &[Asked::Read(8)], &[reply], 0)?;
    Some(ended.transcript)
}

// How many runs and entries two transcripts have together.
fn joined(first: Transcript, second: Transcript) -> Option<(usize, usize)> {
    let mut all = first;
    all.append(second).ok()?;
    let mut entries = 0usize;
    for run in all.runs.as_slice() {
        entries = entries.saturating_add(run.entries.len());
    }
    Some((all.runs.len(), entries))
}

// Two openings, of which the second begins with what was kept and answers reader 8 so.
fn opened_again<R: Threads + Wait + Sync>(
    rt: &R,
    alloc: Global,
    keeps: bool,
    reply: Numbers,
) -> Option<(usize, usize)> {
    let (first, kept) = failed_opening(rt, alloc, keeps)?;
    joined(first, next_opening(rt, alloc, kept, reply)?)
}

#[test]
fn a_site_whose_store_failed_goes_on_with_what_was_kept(rt: HostRuntime) {
    for (keeps, reply) in [(false, (1, 0, 0)), (true, (14, 0, 0))] {
        assert!(rt;
            opened_again(&rt, rt.alloc(), keeps, reply) == Some((2, 3)),
            "{keeps}"
        );
    }
}

// What a site is asked of which seven calls change it: refusals, a snapshot and what was merged before do not.
static CHANGING: [Asked; 12] = [
    Asked::Read(7),
    Asked::Read(7),
    Asked::Snapshot,
    Asked::Read(8),
    Asked::Read(9),
    Asked::Announce(5),
    Asked::Leave(5),
    Asked::Announcement,
    Asked::Announcement,
    Asked::Help,
    Asked::Leave(7),
    Asked::Give(1, 1),
];

static CHANGING_REPLIES: [Numbers; 12] = [
    (1, 0, 0),
    (14, 0, 0),
    (7, 0, 1),
    (1, 0, 0),
    (8, 0, 0),
    (2, 1, 0),
    (3, 0, 0),
    (6, 1, 0),
    (6, 0, 0),
    (15, 0, 0),
    (3, 0, 0),
    (4, 0, 0),
];

// How often a store was asked in an opening what it keeps, and how often to keep a change, be it an empty one.
fn store_calls<R: Threads + Wait + Sync>(rt: &R, alloc: Global) -> Option<(u64, u64)> {
    let store = store_with(0, Fault::Never);
    let ended = opening_of(rt, alloc, store, &CHANGING, &CHANGING_REPLIES, 0)?;
    Some((ended.keeper.store.loads, ended.keeper.store.commits.get()))
}

#[test]
fn a_store_is_called_once_an_opening_and_once_a_change(rt: HostRuntime) {
    let calls = store_calls(&rt, rt.alloc());
    assert!(rt; calls == Some((1, 7)), "{calls:?}");
}

// What a site of two has kept after it admitted reader 7.
fn kept_of_two(alloc: Global) -> Option<Durable> {
    let mut desk = small_desk(alloc, 0)?;
    let reply = served(&mut desk, &Call::Ask(Ask::Read { r: 0, h: 7 }));
    if reply == (1, 0, 0) {
        durable_of(&desk)
    } else {
        None
    }
}

// The first reply, and the number of sites in the run.
fn known_of(ended: &Outcome) -> Option<(Numbers, u16)> {
    let run = ended.transcript.runs.as_slice().first()?;
    Some((*ended.told.first()?, run.sites))
}

// What reader 7 is answered by a site that knows so many sites, after this beginning; and the number in its run.
fn known<R: Threads + Wait + Sync>(rt: &R, alloc: Global, sites: u16) -> Option<(Numbers, u16)> {
    let mut plan = ONE_PASS;
    plan.sites = sites;
    let mut store = store_with(0, Fault::Never);
    store.first = Some(kept_of_two(alloc)?);
    known_of(&run_opening(rt, alloc, plan, store, &[Asked::Read(7)]).ok()?)
}

#[test]
fn a_run_tells_how_many_sites_its_opening_knew(rt: HostRuntime) {
    for sites in [2, 3] {
        let known = known(&rt, rt.alloc(), sites);
        assert!(rt; known == Some(((14, 0, 0), sites)), "{sites}");
    }
}

// How many of these are such a reply.
fn count_of(all: &[Numbers], reply: Numbers) -> usize {
    let mut count = 0usize;
    for one in all {
        if *one == reply {
            count = count.saturating_add(1);
        }
    }
    count
}

// The holder that a call names.
fn holder(call: &Call) -> u64 {
    match call {
        Call::Ask(Ask::Read { h, .. }) => *h,
        _ => u64::MAX,
    }
}

// How many entries of a pass stand in a run, each with the holder after the one before.
fn in_order(run: &Run, pass: u16) -> u64 {
    let start: u64 = if pass == 0 { 0 } else { 8 };
    let mut next = start;
    for entry in run.entries.as_slice() {
        if entry.pass == pass && holder(&entry.call) == next {
            next = next.saturating_add(1);
        }
    }
    next.saturating_sub(start)
}

// What came of two threads with eight readers each at two seats, and of one reader more.
#[derive(Clone, Copy, PartialEq, Eq)]
struct Counts {
    admitted: usize,
    refused: usize,
    late: Numbers,
    marks: (u64, u64),
    missing: CloseError,
    runs: usize,
    entries: usize,
    in_order: (u64, u64),
}

fn counts_of(ended: &Outcome) -> Option<Counts> {
    let runs = ended.transcript.runs.as_slice();
    let run = runs.first()?;
    Some(Counts {
        admitted: count_of(ended.receipts.as_slice(), (1, 0, 0)),
        refused: count_of(ended.receipts.as_slice(), (8, 0, 0)),
        late: *ended.told.first()?,
        marks: ended.marks,
        missing: ended.missing,
        runs: runs.len(),
        entries: run.entries.len(),
        in_order: (in_order(run, 0), in_order(run, 1)),
    })
}

fn two_threads<R: Threads + Wait + Sync>(rt: &R, alloc: Global) -> Option<Counts> {
    let mut plan = ONE_PASS;
    plan.passes = 2;
    plan.in_threads = true;
    let store = store_with(0, Fault::Never);
    counts_of(&run_opening(rt, alloc, plan, store, &[Asked::Read(99)]).ok()?)
}

#[test]
fn two_seats_admit_two_of_sixteen_readers(rt: HostRuntime) {
    let wanted = Counts {
        admitted: 2,
        refused: 14,
        late: (22, 0, 0),
        marks: (1, 0),
        missing: CloseError::PassMissing,
        runs: 1,
        entries: 16,
        in_order: (8, 8),
    };
    let counts = two_threads(&rt, rt.alloc());
    assert!(rt; counts == Some(wanted));
}

// Calls that each leave an entry, since the holder that leaves is not there, and a reader behind them.
fn fillers(alloc: Global, entries: u64) -> Option<Vec<Asked>> {
    let mut all = Vec::new(alloc);
    for h in 0..entries {
        all.push(Asked::Leave(h)).ok()?;
    }
    all.push(Asked::Read(1)).ok()?;
    Some(all)
}

// How many entries a log has, the last reply, how many calls were answered that the holder is not there, and the marks.
fn filled(ended: &Outcome) -> Option<(usize, Numbers, usize, (u64, u64))> {
    let entries = ended.transcript.runs.as_slice().first()?.entries.len();
    let last = *ended.told.last()?;
    let left = count_of(ended.told.as_slice(), (16, 0, 0));
    Some((entries, last, left, ended.marks))
}

fn longest<R: Threads + Wait + Sync>(
    rt: &R,
    alloc: Global,
    passes: u16,
    all: &[Asked],
) -> Option<(usize, Numbers, usize, (u64, u64))> {
    let mut plan = ONE_PASS;
    plan.passes = passes;
    plan.limit = 65_536;
    let store = store_with(0, Fault::Never);
    filled(&run_opening(rt, alloc, plan, store, all).ok()?)
}

#[test]
fn the_longest_log_is_closed_by_all_passes(rt: HostRuntime) {
    let all = fillers(rt.alloc(), 65_536).expect(&rt, "memory");
    let longest = longest(&rt, rt.alloc(), 64, all.as_slice());
    assert!(rt; longest == Some((65_536, (22, 0, 0), 65_536, (1, 0))));
}

#[test]
fn the_longest_log_is_closed_by_one_pass(rt: HostRuntime) {
    let all = fillers(rt.alloc(), 65_536).expect(&rt, "memory");
    let longest = longest(&rt, rt.alloc(), 1, all.as_slice());
    assert!(rt; longest == Some((65_536, (22, 0, 0), 65_536, (1, 0))));
}

// Why a site is not opened with so many passes and a log of 15 places.
fn refused<R: Threads + Wait + Sync>(rt: &R, alloc: Global, passes: u16) -> Option<Stop> {
    let mut plan = ONE_PASS;
    plan.passes = passes;
    plan.limit = 15;
    run_opening(rt, alloc, plan, store_with(0, Fault::Never), &[]).err()
}

#[test]
fn a_site_has_1_to_64_passes(rt: HostRuntime) {
    for (passes, error) in [
        (0, OpenError::BadPasses),
        (65, OpenError::BadPasses),
        (64, OpenError::BadLimit),
    ] {
        let refused = refused(&rt, rt.alloc(), passes);
        assert!(rt; refused == Some(Stop::Opening(error)), "{passes}");
    }
}

#[test]
fn a_story_of_a_site_is_logged(rt: HostRuntime) {
    assert!(rt; story(&rt, rt.alloc()) == Some(true));
}
