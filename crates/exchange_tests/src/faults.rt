//! Peers that go away, logs that get full, and stores that fail.
use crate::ends::inlet;
use crate::gates::TestGate;
use crate::nets::{THREE, has_reports, jobs_of, numbers, run_sites};
use crate::sites::{Job, Outcome, TWO, job_of, run_site};
use admission_core::{Ask, Refusal, Reply};
use crossbeam_channel::unbounded;
use exchange_threads::End;
use std::alloc::Global;
use std::sync::Wait;
use std::thread::Threads;

// Site 0 runs 40 turns, and site 1 goes away after 4.
fn jobs_left(alloc: Global) -> Option<Vec<Job>> {
    let mut jobs = jobs_of(alloc, TWO, 40, 0)?;
    jobs.get_mut(1)?.turns = 4;
    Some(jobs)
}

// Whether site 0 sent until its peer was gone, and the peer took what it asked for.
fn are_early(all: &[Option<Outcome>]) -> Option<bool> {
    let stays = all.get(0)?.as_ref()?;
    let leaves = all.get(1)?.as_ref()?;
    let (_, turns, sent, _) = numbers(stays.reports.as_slice().first()?);
    let early = 4 <= sent && sent <= 21 && turns == sent.saturating_add(1);
    let heard = numbers(stays.reports.as_slice().last()?) == (2, 4, 0, 0);
    Some(early && heard && has_reports(leaves, 2, &[(1, 4, 4, 0), (2, 4, 0, 0)]))
}

fn ends_early<R: Threads + Wait + Sync>(rt: &R, alloc: Global) -> Option<bool> {
    let all = run_sites(rt, alloc, jobs_left(alloc)?)?;
    are_early(all.as_slice())
}

#[test]
fn a_peer_that_goes_away_ends_the_run(rt: HostRuntime) {
    assert!(rt; ends_early(&rt, rt.alloc()) == Some(true));
}

// What site 1 tells of a writer that it announced.
const NOTICE: &str =
    "{\"from\":1,\"rows\":[{\"ann\":1,\"fin\":0,\"out\":[0,0,0],\"r\":0,\"s\":1,\"taken\":0}],\"v\":1}";

// Site 0 with an outlet that may always send, whose texts nobody takes, and an inlet with 40 texts.
fn job_with_two(alloc: Global, texts: End<TestGate>, sends: End<TestGate>) -> Option<Job> {
    let mut ends = Vec::new(alloc);
    ends.push(sends).ok()?;
    ends.push(texts).ok()?;
    let mut job = job_of(THREE, 0, ends, 40);
    job.after = Some(Ask::Read { r: 0, h: 1 });
    Some(job)
}

// What comes of site 0 with a log of 16 entries, or with a store that fails at the first change.
fn stopped<R: Threads + Wait + Sync>(
    rt: &R,
    alloc: Global,
    limit: usize,
    left: Option<u64>,
) -> Option<Outcome> {
    let (sender, receiver) = unbounded(alloc).ok()?;
    let texts = inlet(rt, alloc, &[NOTICE; 40])?;
    let mut job = job_with_two(alloc, texts, End::Outlet(sender, TestGate::Always))?;
    job.limit = limit;
    job.left = left;
    let ended = run_site(rt, alloc, job);
    drop(receiver);
    ended
}

// How many entries there are, and how many of them the store refused.
fn entries_of(ended: &Outcome) -> Option<(usize, usize)> {
    let entries = ended.transcript.runs.as_slice().first()?.entries.as_slice();
    let mut faults = 0usize;
    for entry in entries {
        if matches!(entry.reply, Reply::Refused(Refusal::StoreFault)) {
            faults = faults.saturating_add(1);
        }
    }
    Some((entries.len(), faults))
}

// Whether both runners ended as the log was full.
fn is_full(ended: &Outcome) -> Option<bool> {
    let after = matches!(ended.after, Some(Reply::Refused(Refusal::LogFull)));
    let (_, turns, sent, memory) = numbers(ended.reports.as_slice().first()?);
    let early = turns <= 9 && sent <= turns && memory == 0;
    Some(early && after && ended.marks == (0, 2) && entries_of(ended)? == (16, 0))
}

fn fills<R: Threads + Wait + Sync>(rt: &R, alloc: Global) -> Option<bool> {
    is_full(&stopped(rt, alloc, 16, None)?)
}

#[test]
fn a_full_log_ends_all_runs(rt: HostRuntime) {
    assert!(rt; fills(&rt, rt.alloc()) == Some(true));
}

// Whether both runners ended as the store failed, one of them with its fault.
fn is_frozen(ended: &Outcome) -> Option<bool> {
    let after = matches!(ended.after, Some(Reply::Refused(Refusal::Frozen)));
    let sends = numbers(ended.reports.as_slice().first()?);
    let hears = numbers(ended.reports.as_slice().last()?);
    let fault = match hears {
        (2, 2, 1, 0) => sends == (1, 1, 0, 0),
        (2, 1, 0, 0) => sends == (1, 1, 0, 0),
        _ => false,
    };
    Some(fault && after && ended.marks == (2, 0) && entries_of(ended)? == (1, 1))
}

fn freezes<R: Threads + Wait + Sync>(rt: &R, alloc: Global) -> Option<bool> {
    is_frozen(&stopped(rt, alloc, 1024, Some(0))?)
}

#[test]
fn a_store_that_fails_ends_all_runs(rt: HostRuntime) {
    assert!(rt; freezes(&rt, rt.alloc()) == Some(true));
}

// So many turns that no runner is through before a thread that starts late.
const MANY_TURNS: u64 = 20_000;

// Two sites, of which site 1 announces a writer. Site 0 gives a seat away and hears of the writer; its store keeps one of
// these changes, and fails at the other.
fn jobs_stopped(alloc: Global) -> Option<Vec<Job>> {
    let mut jobs = jobs_of(alloc, TWO, MANY_TURNS, 0)?;
    for job in jobs.as_mut_slice() {
        job.limit = 65_536;
    }
    jobs.get_mut(0)?.left = Some(1);
    jobs.get_mut(0)?.after = Some(Ask::Read { r: 0, h: 1 });
    jobs.get_mut(1)?.before = Some(Ask::Announce { r: 0, h: 5 });
    Some(jobs)
}

// Whether each runner of a site ended before its last turn.
fn ended_early(ended: &Outcome) -> bool {
    for report in ended.reports.as_slice() {
        let (_, turns, _, _) = numbers(report);
        if turns >= MANY_TURNS {
            return false;
        }
    }
    ended.reports.len() == 2
}

// Whether the store of site 0 failed in the middle of the runs, both its runners ended as it was frozen, and those of site 1
// as their links were closed.
fn stops_in_the_middle<R: Threads + Wait + Sync>(rt: &R, alloc: Global) -> Option<bool> {
    let all = run_sites(rt, alloc, jobs_stopped(alloc)?)?;
    let stopped = all.get(0)?.as_ref()?;
    let peer = all.get(1)?.as_ref()?;
    let frozen = matches!(stopped.after, Some(Reply::Refused(Refusal::Frozen)));
    let (entries, faults) = entries_of(stopped)?;
    let early = ended_early(stopped) && ended_early(peer);
    Some(
        frozen
            && early
            && entries > 1
            && faults == 1
            && (stopped.marks, peer.marks) == ((2, 0), (0, 0)),
    )
}

#[test]
fn a_store_that_stops_in_the_middle_ends_all_runs(rt: HostRuntime) {
    assert!(rt; stops_in_the_middle(&rt, rt.alloc()) == Some(true));
}
