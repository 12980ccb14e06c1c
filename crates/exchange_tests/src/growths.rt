//! Three sites with all their links, of which any one allocation may be refused. A turn that meets the refusal is counted.
//! For each link, the turns that are counted and the texts that are merged are as many as the turns of a runner.
use crate::gates::TestGate;
use crate::nets::{THREE, jobs_of, port_to};
use crate::sites::{Job, Outcome, job_of, run_site};
use admission_core::{Ask, Call};
use crossbeam_channel::unbounded;
use exchange_threads::{End, Report};
use std::alloc::Global;
use std::sync::Wait;
use std::thread;
use std::thread::{JoinHandle, Threads};

/// The turns of each runner.
pub const TURNS: u64 = 8;

// The number of the port by which a site receives from another, where three are linked.
fn port_from(from: u16, to: u16) -> u16 {
    if from < to {
        from
    } else {
        from.saturating_add(1)
    }
}

// How many merges a pass of a site has in its log.
fn merges_of(ended: &Outcome, pass: u16) -> Option<u64> {
    let mut merges = 0u64;
    for entry in ended.transcript.runs.as_slice().first()?.entries.as_slice() {
        if entry.pass == pass && matches!(entry.call, Call::Merge(_)) {
            merges = merges.saturating_add(1);
        }
    }
    Some(merges)
}

// The turns without memory of both ends of a link, if the reports are right. With these turns, the texts that were merged
// are as many as the turns. Each text that was taken was merged, or its turn is counted. The outbox sent a text in each turn
// that it doesn't count, but perhaps for the last: an inbox that found no memory for a name skipped that turn, so it may
// end before the last text is sent. That text finds the link closed, and is lost.
fn lacks_of(from: &Outcome, to: &Outcome, (sends, hears): (u16, u16)) -> Option<u64> {
    let Report::Sent(told) = from.reports.as_slice().get(usize::from(sends))? else {
        return None;
    };
    let Report::Got(heard) = to.reports.as_slice().get(usize::from(hears))? else {
        return None;
    };
    let merges = merges_of(to, hears)?;
    let lacks = told.memory.saturating_add(heard.memory);
    let all_merged = told.turns == TURNS && merges.saturating_add(lacks) == TURNS;
    let all_sent = told.sent.saturating_add(told.memory) <= TURNS
        && told.sent.saturating_add(lacks) >= TURNS;
    let all_taken = heard.taken <= told.sent
        && heard.taken >= merges
        && heard.taken <= merges.saturating_add(heard.memory);
    if all_merged && all_sent && all_taken && heard.refused.is_empty() {
        Some(lacks)
    } else {
        None
    }
}

/// The turns without memory of all runners, if all reports fit.
pub fn all_lacks(all: &[Outcome]) -> Option<u64> {
    let mut lacks = 0u64;
    for from in 0..3u16 {
        for to in 0..3u16 {
            if from != to {
                let sender = all.get(usize::from(from))?;
                let hearer = all.get(usize::from(to))?;
                let ports = (port_to(from, to), port_from(from, to));
                lacks = lacks.saturating_add(lacks_of(sender, hearer, ports)?);
            }
        }
    }
    Some(lacks)
}

// Starts each site on a thread of its own, up to the first thread that can't be started. Then the ends of the sites that
// are left are dropped, so no site that runs waits for them. `thread::map_vec` would run such a site on the thread of
// another one, after it, and that one might wait for it for ever.
fn started<R>(rt: R, alloc: Global, jobs: Vec<Job>) -> Option<Vec<JoinHandle<Option<Outcome>>>>
where
    R: Threads + Wait + Sync + Send + Copy + 'static,
{
    let mut threads = Vec::with_capacity(alloc, jobs.len()).ok()?;
    for job in jobs {
        let Ok(thread) = thread::spawn(&rt, move || run_site(&rt, alloc, job)) else {
            break;
        };
        let _ = threads.push(thread);
    }
    Some(threads)
}

// The sites' outcomes, where there was memory to start, to open and to close them all.
fn ended<R>(rt: R, alloc: Global) -> Option<Vec<Outcome>>
where
    R: Threads + Wait + Sync + Send + Copy + 'static,
{
    let mut jobs = jobs_of(alloc, THREE, TURNS, 0)?;
    jobs.get_mut(1)?.before = Some(Ask::Announce { r: 0, h: 5 });
    let mut all = Vec::with_capacity(alloc, jobs.len()).ok()?;
    for thread in started(rt, alloc, jobs)? {
        if let Some(outcome) = thread.join(&rt) {
            let _ = all.push(outcome);
        }
    }
    if all.len() == 3 { Some(all) } else { None }
}

// The turns without memory of a run. Where that run met the refusal before or after the turns, another run, which meets
// none, has no such turn.
fn counted<R>(rt: R, alloc: Global) -> Option<u64>
where
    R: Threads + Wait + Sync + Send + Copy + 'static,
{
    match ended(rt, alloc) {
        Some(all) => all_lacks(all.as_slice()),
        None => match all_lacks(ended(rt, alloc)?.as_slice())? {
            0 => Some(0),
            _ => None,
        },
    }
}

// The turns of an outbox whose channel takes memory for its texts, those of them that met want of memory, the texts that it
// sent, and those that are there.
fn unbounded_counts<R: Threads + Wait + Sync>(rt: &R, alloc: Global) -> Option<[u64; 4]> {
    let (sender, receiver) = unbounded(alloc).ok()?;
    let mut ends = Vec::new(alloc);
    ends.push(End::Outlet(sender, TestGate::Always)).ok()?;
    let ended = run_site(rt, alloc, job_of(THREE, 0, ends, 40))?;
    let Report::Sent(told) = ended.reports.as_slice().first()? else {
        return None;
    };
    Some([told.turns, told.memory, told.sent, receiver.len() as u64])
}

// At most one allocation is refused. Where a site could not be opened or closed, another run meets no refusal.
#[test]
fn refused_growths_of_an_unbounded_channel_are_counted(rt: HostRuntime) {
    let counts = match unbounded_counts(&rt, rt.alloc()) {
        Some(counts) => counts,
        None => unbounded_counts(&rt, rt.alloc()).unwrap_or([0; 4]),
    };
    let whole = counts == [40, 0, 40, 40];
    let lacking = counts == [40, 1, 39, 39];
    assert!(rt; whole || lacking, "{counts:?}");
}

// At most one allocation is refused, so at most one turn is counted.
#[test]
fn refused_growths_are_counted_turn_by_turn(rt: HostRuntime) {
    let lacks = counted(rt, rt.alloc());
    assert!(rt; matches!(lacks, Some(0 | 1)), "{lacks:?}");
}
