//! Closed logs of site 0 over stores on files, judged: its layout grows between two openings, or its store stops at each call in
//! turn. Site 1 was opened and closed.
use crate::databases::layout;
use crate::desks::{GIVE, READ_7, READ_8, Told};
use crate::files::{
    Stop, StoppedBy, Work, closed_after, empty_files, found_after_crash, left_after, left_by,
    stopping,
};
use crate::sites::{At, run_site};
use admission_core::Ask;
use desk_log::{Desk, Run, Runs, Transcript};
use log_judge::{Verdict, are_of_sites, judge};
use merge_core::Layout;
use site_store::MemoryKeeper;
use sqlite::{Alter, Connection, Files};
use sqlite_disk::{Fuse, Memory};
use std::alloc::Global;
use std::sync::Wait;

/// The log of a site that was opened and closed.
fn idle(alloc: Global, layout: &Layout) -> Option<Transcript> {
    let keeper = MemoryKeeper::new(alloc, layout, 1).ok()?;
    let desk = Desk::open(alloc, keeper, layout.try_copy(alloc).ok()?, 1, 16).ok()?;
    let (first, entries, _keeper) = desk.into_parts();
    let mut runs = Vec::new(alloc);
    runs.push(Run {
        sites: 2,
        first,
        entries,
    })
    .ok()?;
    let runs = Runs::from_vec(runs);
    Some(Transcript { site: 1, runs })
}

/// The verdict on the log of site 0 and on that of a site that did nothing.
fn verdict_on(alloc: Global, first: Transcript, cut: &[u64]) -> Option<Verdict> {
    let layout = layout(alloc, 2, 2)?;
    let mut all = Vec::new(alloc);
    all.push(first).ok()?;
    all.push(idle(alloc, &layout)?).ok()?;
    if !are_of_sites(&layout, all.as_slice()) {
        return None;
    }
    judge(alloc, &layout, all.as_slice(), cut).ok()
}

/// An opening of site 0 with these calls at so many sites: how far it comes, and its log.
#[derive(Drop)]
struct Opens {
    sites: u16,
    calls: &'static [(Ask, Told)],
}

impl Work for Opens {
    type Found = (At, Option<Transcript>);

    fn over<S: Alter + Drop, R: Wait>(
        &self,
        rt: &R,
        alloc: Global,
        connection: Connection<S>,
    ) -> Option<((At, Option<Transcript>), Connection<S>)> {
        let (at, log, connection) = run_site(rt, alloc, connection, self.sites, self.calls)?;
        Some(((at, log), connection))
    }
}

/// A site that is alone answers to a reader and to a gift.
static ALONE: Opens = Opens {
    sites: 1,
    calls: &[(READ_7, Told::Admitted), (GIVE, Told::NoSite)],
};

/// It has a second site beside it.
static GROWN: Opens = Opens {
    sites: 2,
    calls: &[(GIVE, Told::Given)],
};

/// Two readers enter.
static TWO_ENTER: Opens = Opens {
    sites: 2,
    calls: &[(READ_7, Told::Admitted), (READ_8, Told::Admitted)],
};

/// The second reader once more: it enters, or is there.
const ENTERS_8: [(Ask, Told); 1] = [(READ_8, Told::Admitted)];

const FINDS_8: [(Ask, Told); 1] = [(READ_8, Told::AlreadyHere)];

// ---- a layout that grows

/// The log of a site that was opened alone, and then beside a second one, over one store.
fn grown<R: Wait>(rt: &R, alloc: Global) -> Option<Transcript> {
    let ((at, first), files) = closed_after(rt, alloc, empty_files(alloc), &ALONE)?;
    let ((then, later), _) = closed_after(rt, alloc, files, &GROWN)?;
    let mut all = first?;
    all.append(later?).ok()?;
    (at == At::Served(2) && then == At::Served(1)).then_some(all)
}

fn verdict_on_grown<R: Wait>(rt: &R, alloc: Global, cut: &[u64]) -> Option<Verdict> {
    verdict_on(alloc, grown(rt, alloc)?, cut)
}

#[test]
fn a_site_whose_layout_grows_leaves_a_consistent_log(rt: HostRuntime) {
    for (entries, verdict) in [(3u64, Verdict::Consistent), (4, Verdict::BadCut)] {
        let told = verdict_on_grown(&rt, rt.alloc(), &[entries, 0]);
        assert!(rt; told == Some(verdict), "{entries}: {told:?}");
    }
}

// ---- a store that stops

/// How many sessions the first run of a log begins with.
fn sessions_before(log: &Transcript) -> Option<usize> {
    Some(log.runs.as_slice().first()?.first.sessions().len())
}

/// How many sessions a store has.
fn sessions_in<S: Alter + Drop, R: Wait>(
    rt: &R,
    alloc: Global,
    connection: Connection<S>,
) -> Option<(usize, Connection<S>)> {
    let (_, log, connection) = run_site(rt, alloc, connection, 2, &[])?;
    let sessions = sessions_before(log.as_ref()?)?;
    Some((sessions, connection))
}

/// A site is opened again and answers the second reader by what its store has: its log, and how many sessions it began with.
#[derive(Drop)]
struct GoesOn;

impl Work for GoesOn {
    type Found = (Transcript, usize);

    fn over<S: Alter + Drop, R: Wait>(
        &self,
        rt: &R,
        alloc: Global,
        connection: Connection<S>,
    ) -> Option<((Transcript, usize), Connection<S>)> {
        let (sessions, connection) = sessions_in(rt, alloc, connection)?;
        let calls = if sessions == 2 { &FINDS_8 } else { &ENTERS_8 };
        let (at, log, connection) = run_site(rt, alloc, connection, 2, calls)?;
        if at != At::Served(1) {
            return None;
        }
        Some(((log?, sessions), connection))
    }
}

/// The verdict on the log of one opening and that of the next one behind it, at the end of both.
fn verdict_on_both(alloc: Global, first: Transcript, later: Transcript) -> Option<Verdict> {
    let entries = first.runs.as_slice().first()?.entries.len() as u64;
    let mut all = first;
    all.append(later).ok()?;
    verdict_on(alloc, all, &[entries.saturating_add(1), 0])
}

/// Each file of a machine that stops.
static MACHINE: [Stop; 2] = [
    Stop {
        of_log: true,
        by: StoppedBy::Machine,
    },
    Stop {
        of_log: false,
        by: StoppedBy::Machine,
    },
];

/// The log of a process that dies.
const PROCESS: Stop = Stop {
    of_log: true,
    by: StoppedBy::Process,
};

/// What the next opening of a site leaves after a stop.
fn next_opening<R: Wait>(
    rt: &R,
    alloc: Global,
    files: Files<Fuse<Memory>>,
    by: StoppedBy,
) -> Option<(Transcript, usize)> {
    found_after_crash(rt, alloc, left_by(alloc, files, by)?, &GoesOn)
}

/// How far a site came that was stopped after so many calls, how many sessions it then began with, and the verdict on both
/// openings; without a log of the first one there is nothing to judge.
fn stopped<R: Wait>(rt: &R, alloc: Global, row: Stop, calls: u64) -> Option<(At, usize, Verdict)> {
    let (first, files) = left_after(rt, alloc, stopping(alloc, row, calls), &TWO_ENTER)?;
    let Some((at, Some(first))) = first else {
        return Some((At::Unopened, 0, Verdict::Consistent));
    };
    let (later, began_with) = next_opening(rt, alloc, files, row.by)?;
    Some((at, began_with, verdict_on_both(alloc, first, later)?))
}

/// At how many calls a site was stopped until it ran to its end; and at how many of these its store had kept the call in doubt,
/// and at how many it had not.
#[derive(Clone, Copy, Debug, PartialEq, Eq)]
struct Count {
    calls: u64,
    kept: u64,
    lost: u64,
}

const NONE: Count = Count {
    calls: 0,
    kept: 0,
    lost: 0,
};

/// The count with one more stop, at which a site came so far and then began with so many sessions.
fn with_stop(count: Count, at: At, began_with: usize) -> Count {
    let mut more = count;
    more.calls = count.calls.saturating_add(1);
    match at {
        At::Stopped(right) if began_with > right => more.kept = count.kept.saturating_add(1),
        At::Stopped(_) => more.lost = count.lost.saturating_add(1),
        _ => {}
    }
    more
}

/// The stops of a row at each call, one after another, if each log is consistent.
fn counted<R: Wait>(rt: &R, alloc: Global, row: Stop) -> Option<Count> {
    let mut count = NONE;
    for calls in 0..600u64 {
        let (at, began_with, verdict) = stopped(rt, alloc, row, calls)?;
        if verdict != Verdict::Consistent {
            return None;
        }
        if let At::Served(_) = at {
            return Some(count);
        }
        count = with_stop(count, at, began_with);
    }
    None
}

#[test]
fn a_site_whose_machine_stops_leaves_a_consistent_log(rt: HostRuntime) {
    for (k, row) in MACHINE.iter().enumerate() {
        let count = counted(&rt, rt.alloc(), *row);
        assert!(rt;
            matches!(count, Some(Count { calls: 10.., .. })),
            "row {k}: {count:?}"
        );
    }
}

#[test]
fn a_process_that_dies_leaves_the_call_in_doubt_kept_or_not(rt: HostRuntime) {
    let count = counted(&rt, rt.alloc(), PROCESS);
    let both = matches!(
        count,
        Some(Count {
            kept: 1..,
            lost: 1..,
            ..
        })
    );
    assert!(rt; both, "{count:?}");
}
