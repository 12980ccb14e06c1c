//! Two sites with links that keep their order, one each way: gates, what one site hears of the other, early ends, many turns.
ghost use Rattle.std.specs.Prelude.{◌≡◌};
ghost use Rattle.admission_core.specs.Kept.{DurableState};

use crate::gates::{Shared, TestGate};
use crate::sites::{
    Job, Outcome, Shape, WRITER_FIRST, answered, closed, job_of, marks_of, opened, told,
};
use crate::stops::{Stop, ends_by_the_stop, stopping_gates, stopping_jobs};
use crate::verdicts::full_verdict;
use admission_core::{Ask, Refusal, Reply};
use exchange_threads::Fate;
use log_judge::Verdict;
use ruled_pair::{PairError, PairReport, RuledEnd, run_ruled_pair};
use session_book::{Opening, Pass, Site};
use std::alloc::Global;
use std::marker::Brand;
use std::sync::atomic::{AtomicU64, Ordering};
use std::sync::ledger::Blank;
use std::sync::{Arc, Wait};
use std::thread::Threads;
use test_keepers::Fake;

// The passes of a site: those of its runners, and its caller's.
const PASSES: u16 = 3;

// What came of both sites, and of both directions.
#[derive(Drop)]
struct PairOutcome {
    first: Outcome,
    second: Outcome,
    there: PairReport,
    back: PairReport,
}

// A site that is open, the ends of its links, its caller's pass, and what its caller was answered before the links ran.
#[derive(Drop)]
struct Side<L: Opening> {
    site: Site<Fake, L>,
    end: RuledEnd<L, TestGate>,
    caller: Pass<L>,
    before: Option<Reply>,
}

// Takes the passes of a new site apart.
fn end_of<L: Opening>(
    passes: Vec<Pass<L>>,
    gate: TestGate,
) -> Option<(RuledEnd<L, TestGate>, Pass<L>)> {
    let mut passes = passes;
    let (Some(caller), Some(in_pass), Some(out_pass)) = (passes.pop(), passes.pop(), passes.pop())
    else {
        return None;
    };
    let end = RuledEnd {
        out_pass,
        in_pass,
        gate,
    };
    Some((end, caller))
}

// Opens a site, whose caller then asks what it has to ask first.
fn side_of<L: Opening, R: Wait>(
    rt: &R,
    alloc: Global,
    blank: Blank,
    job: &Job,
    gate: TestGate,
) -> Option<Side<L>>
    requires name { blank.name ≡ L.name }
    requires parts { blank.parts ≡ L.parts }
    requires unknown { (d : DurableState) → ¬ L.kept d }
    requires one_each { blank.parts ≡ 3 }
{
    let (site, passes) = opened::<L>(alloc, blank, job, PASSES)?;
    let (end, mut caller) = end_of(passes, gate)?;
    let before = answered(rt, &site, &mut caller, job.before);
    Some(Side {
        site,
        end,
        caller,
        before,
    })
}

// The passes of a site's runners, in a vector with a place more, and how many tell a stopped site, and how many a full log.
fn passes_of<L: Opening>(
    alloc: Global,
    end: RuledEnd<L, TestGate>,
) -> Option<(Vec<Pass<L>>, (u64, u64))> {
    let RuledEnd {
        out_pass,
        in_pass,
        gate: _,
    } = end;
    let mut all = Vec::with_capacity(alloc, 3).ok()?;
    all.push(out_pass).ok()?;
    all.push(in_pass).ok()?;
    let marks = marks_of(all.as_slice());
    Some((all, marks))
}

// What came of a site whose runners have ended.
fn outcome_of<L: Opening, R: Wait>(
    rt: &R,
    alloc: Global,
    side: Side<L>,
    after: Option<Ask>,
) -> Option<Outcome> {
    let Side {
        site,
        end,
        caller,
        before,
    } = side;
    let mut caller = caller;
    let after = answered(rt, &site, &mut caller, after);
    let known = told(rt, &site, &mut caller);
    let (mut all, marks) = passes_of(alloc, end)?;
    all.push(caller).ok()?;
    let transcript = closed(rt, site, all)?;
    Some(Outcome {
        before,
        reports: Vec::new(alloc),
        after,
        known,
        marks,
        transcript,
    })
}

fn run_two_over<L: Opening + Send + Sync, M: Opening + Send + Sync, R: Threads + Wait + Sync>(
    rt: &R,
    alloc: Global,
    one: Blank,
    other: Blank,
    first: &Job,
    second: &Job,
    gates: (TestGate, TestGate),
) -> Option<Result<PairOutcome, PairError>>
    requires name { one.name ≡ L.name }
    requires parts { one.parts ≡ L.parts }
    requires unknown { (d : DurableState) → ¬ L.kept d }
    requires one_each { one.parts ≡ 3 }
    requires other_name { other.name ≡ M.name }
    requires other_parts { other.parts ≡ M.parts }
    requires other_unknown { (d : DurableState) → ¬ M.kept d }
    requires other_each { other.parts ≡ 3 }
{
    let mut side = side_of::<L, R>(rt, alloc, one, first, gates.0)?;
    let mut peer = side_of::<M, R>(rt, alloc, other, second, gates.1)?;
    let linked = link_sides(rt, alloc, &mut side, &mut peer, first.turns);
    let first = outcome_of(rt, alloc, side, first.after)?;
    let second = outcome_of(rt, alloc, peer, second.after)?;
    match linked {
        Ok((there, back)) => Some(Ok(PairOutcome {
            first,
            second,
            there,
            back,
        })),
        Err(error) => Some(Err(error)),
    }
}

// Runs the links of two sites.
fn link_sides<L: Opening + Send + Sync, M: Opening + Send + Sync, R: Threads + Wait + Sync>(
    rt: &R,
    alloc: Global,
    side: &mut Side<L>,
    peer: &mut Side<M>,
    turns: u64,
) -> Result<(PairReport, PairReport), PairError> {
    run_ruled_pair(
        rt,
        alloc,
        &side.site,
        &peer.site,
        &mut side.end,
        &mut peer.end,
        turns.min(1_000_000_000),
    )
}

// Opens two sites, runs their links and closes them; `None` where there was no memory to open or to close.
fn run_pair<R: Threads + Wait + Sync>(
    rt: &R,
    alloc: Global,
    jobs: (&Job, &Job),
    gates: (TestGate, TestGate),
) -> Option<Result<PairOutcome, PairError>> {
    let one = Blank::new(3);
    let other = Blank::new(3);
    run_two_over::<Brand, Brand, R>(rt, alloc, one, other, jobs.0, jobs.1, gates)
}

// The jobs of two sites that do nothing but tell each other.
fn pair_jobs(alloc: Global, shape: Shape, turns: u64) -> (Job, Job) {
    let first = job_of(shape, 0, Vec::new(alloc), turns);
    let second = job_of(shape, 1, Vec::new(alloc), turns);
    (first, second)
}

// Whether the texts that were taken are the first of those that were put, each with its place and its fate.
fn is_prefix(report: &PairReport) -> bool {
    let put = report.put.as_slice();
    let taken = report.taken.as_slice();
    let counts = put.len() as u64 == report.out.sent && taken.len() as u64 == report.got.taken;
    let lists = report.sent_at.len() == put.len() && report.fates.len() == taken.len();
    counts && lists && put.starts_with(taken)
}

// The verdict on the logs of both sites.
fn verdict_of(alloc: Global, shape: Shape, first: Outcome, second: Outcome) -> Option<Verdict> {
    let mut all = Vec::new(alloc);
    all.push(Some(first)).ok()?;
    all.push(Some(second)).ok()?;
    full_verdict(alloc, shape, all)
}

// Gates that wait for each other, and how often one saw the other.
fn meeting_gates(alloc: Global, seen: &Shared) -> Option<(TestGate, TestGate)> {
    let met: Shared = Arc::new(alloc, AtomicU64::new(0)).ok()?;
    let first = TestGate::Meets {
        met: Arc::try_clone(&met).ok()?,
        all: 2,
        seen: Arc::try_clone(seen).ok()?,
    };
    let second = TestGate::Meets {
        met,
        all: 2,
        seen: Arc::try_clone(seen).ok()?,
    };
    Some((first, second))
}

// How many texts were put and taken from the first site to the second, and from the second to the first.
fn counts_of<R: Threads + Wait + Sync>(
    rt: &R,
    alloc: Global,
    turns: u64,
    gates: (TestGate, TestGate),
) -> Option<[usize; 4]> {
    let (first, second) = pair_jobs(alloc, WRITER_FIRST, turns);
    let ended = run_pair(rt, alloc, (&first, &second), gates)?.ok()?;
    Some([
        ended.there.put.len(),
        ended.there.taken.len(),
        ended.back.put.len(),
        ended.back.taken.len(),
    ])
}

// How often a gate saw the other, and how many texts were put and taken.
fn meets<R: Threads + Wait + Sync>(rt: &R, alloc: Global) -> Option<(u64, [usize; 4])> {
    let seen: Shared = Arc::new(alloc, AtomicU64::new(0)).ok()?;
    let counts = counts_of(rt, alloc, 4, meeting_gates(alloc, &seen)?)?;
    Some((seen.load(Ordering::SeqCst), counts))
}

// Both directions run at the same time: the gate of each outbox sees that the other was asked.
#[test]
fn gates_of_both_sites_wait_for_each_other(rt: HostRuntime) {
    let found = meets(&rt, rt.alloc());
    assert!(rt; found == Some((2, [4, 4, 4, 4])), "{found:?}");
}

// A gate that is open at turns 1 and 4 of 6, at one of the sites, and one that is open at each turn at the other.
fn uneven_gates(first: bool) -> (TestGate, TestGate) {
    if first {
        (TestGate::Thirds, TestGate::Always)
    } else {
        (TestGate::Always, TestGate::Thirds)
    }
}

// Each outbox asks the gate of its own site.
#[test]
fn a_gate_that_is_shut_stops_its_own_site_alone(rt: HostRuntime) {
    for (first, counts) in [(true, [2, 2, 6, 6]), (false, [6, 6, 2, 2])] {
        let found = counts_of(&rt, rt.alloc(), 6, uneven_gates(first));
        assert!(rt; found == Some(counts), "{first} {found:?}");
    }
}

// What a reader at site 0 is answered once site 1 has announced a writer and told of it, and the verdict on both logs.
fn hears<R: Threads + Wait + Sync>(rt: &R, alloc: Global) -> Option<(bool, Verdict)> {
    let (mut first, mut second) = pair_jobs(alloc, WRITER_FIRST, 8);
    second.before = Some(Ask::Announce { r: 0, h: 5 });
    first.after = Some(Ask::Read { r: 0, h: 1 });
    let gates = (TestGate::Always, TestGate::Always);
    let PairOutcome {
        first,
        second,
        there,
        back,
    } = run_pair(rt, alloc, (&first, &second), gates)?.ok()?;
    let waits = matches!(
        first.after,
        Some(Reply::Refused(Refusal::WriterAnnounced { site: 1 }))
    );
    let whole = is_prefix(&there) && is_prefix(&back);
    let verdict = verdict_of(alloc, WRITER_FIRST, first, second)?;
    Some((waits && whole, verdict))
}

#[test]
fn a_site_hears_of_the_other_sites_writer(rt: HostRuntime) {
    let found = hears(&rt, rt.alloc());
    assert!(rt; found == Some((true, Verdict::Consistent)), "{found:?}");
}

// Whether all four runners end by the stop of one site, with reports that fit, and the verdict on both logs.
fn stops<R: Threads + Wait + Sync>(
    rt: &R,
    alloc: Global,
    site: u16,
    stop: Stop,
) -> Option<(bool, Verdict)> {
    let (first, second) = stopping_jobs(alloc, site, stop);
    let shape = first.shape;
    let gates = stopping_gates(alloc, site, stop)?;
    let PairOutcome {
        first,
        second,
        there,
        back,
    } = run_pair(rt, alloc, (&first, &second), gates)?.ok()?;
    let ended = if site == 0 {
        ends_by_the_stop(stop, &first, &there, &back)?
    } else {
        ends_by_the_stop(stop, &second, &back, &there)?
    };
    let fits = is_prefix(&there) && is_prefix(&back);
    let verdict = verdict_of(alloc, shape, first, second)?;
    Some((ended && fits, verdict))
}

#[test]
fn a_site_that_stops_ends_all_four_runners(rt: HostRuntime) {
    for (site, stop) in [
        (0, Stop::Full),
        (1, Stop::Full),
        (0, Stop::Hears),
        (1, Stop::Hears),
        (0, Stop::Gives),
        (1, Stop::Gives),
    ] {
        let found = stops(&rt, rt.alloc(), site, stop);
        assert!(rt;
            found == Some((true, Verdict::Consistent)),
            "{site} {stop:?} {found:?}"
        );
    }
}

const MANY: Shape = Shape {
    sites: 2,
    records: 64,
    seats: 2,
    home: 0,
    problem: 1,
};

// How many texts were merged of those that were put each way in so many turns, and the verdict on both logs.
fn runs_long<R: Threads + Wait + Sync>(
    rt: &R,
    alloc: Global,
    turns: u64,
) -> Option<(bool, [usize; 2], Verdict)> {
    let (mut first, mut second) = pair_jobs(alloc, MANY, turns);
    first.limit = 8192;
    second.limit = 8192;
    first.before = Some(Ask::Announce { r: 1, h: 5 });
    second.before = Some(Ask::Announce { r: 63, h: 6 });
    let gates = (TestGate::Always, TestGate::Always);
    let PairOutcome {
        first,
        second,
        there,
        back,
    } = run_pair(rt, alloc, (&first, &second), gates)?.ok()?;
    let fits = is_prefix(&there) && is_prefix(&back);
    let merged = [merges_in(&there), merges_in(&back)];
    let verdict = verdict_of(alloc, MANY, first, second)?;
    Some((fits, merged, verdict))
}

// How many texts of a direction were merged.
fn merges_in(report: &PairReport) -> usize {
    let mut merges = 0usize;
    for fate in report.fates.as_slice() {
        if let Fate::Merge(_) = fate {
            merges = merges.saturating_add(1);
        }
    }
    merges
}

#[test]
fn more_than_a_thousand_turns_with_64_records(rt: HostRuntime) {
    let found = runs_long(&rt, rt.alloc(), 1001);
    assert!(rt;
        found == Some((true, [1001, 1001], Verdict::Consistent)),
        "{found:?}"
    );
}

// Why two sites with one number are not linked, if they are not.
fn links_itself<R: Threads + Wait + Sync>(rt: &R, alloc: Global) -> Option<PairError> {
    let (first, mut second) = pair_jobs(alloc, WRITER_FIRST, 4);
    second.site = 0;
    let gates = (TestGate::Always, TestGate::Always);
    run_pair(rt, alloc, (&first, &second), gates)?.err()
}

#[test]
fn a_site_is_not_linked_to_itself(rt: HostRuntime) {
    assert!(rt; links_itself(&rt, rt.alloc()) == Some(PairError::NoLink));
}

const GROWTH_TURNS: u64 = 8;

// The turns without memory of a direction, if its report fits: what was taken is what was put first, each text has its place
// or its fate, and each turn brought a text that was merged or met want of memory.
fn lacks_of(report: &PairReport) -> Option<u64> {
    let lacks = report.out.memory.saturating_add(report.got.memory);
    let each = (merges_in(report) as u64).saturating_add(lacks) == GROWTH_TURNS;
    if each && report.out.turns == GROWTH_TURNS && is_prefix(report) {
        Some(lacks)
    } else {
        None
    }
}

// What came of the turns of two sites under a refused allocation.
#[derive(Clone, Copy, Debug, PartialEq, Eq)]
enum Growth {
    // So many turns met want of memory; `None` where a report does not fit.
    Ran(Option<u64>),
    // No runner was started.
    Refused(PairError),
    // A site was not opened or not closed.
    NotOpen,
}

// What came of a run of two sites.
fn growth_of<R: Threads + Wait + Sync>(rt: &R, alloc: Global) -> Growth {
    let (first, mut second) = pair_jobs(alloc, WRITER_FIRST, GROWTH_TURNS);
    second.before = Some(Ask::Announce { r: 0, h: 5 });
    let gates = (TestGate::Always, TestGate::Always);
    match run_pair(rt, alloc, (&first, &second), gates) {
        Some(Ok(ended)) => match (lacks_of(&ended.there), lacks_of(&ended.back)) {
            (Some(there), Some(back)) => Growth::Ran(Some(there.saturating_add(back))),
            _ => Growth::Ran(None),
        },
        Some(Err(error)) => Growth::Refused(error),
        None => Growth::NotOpen,
    }
}

// At most one allocation is refused: before the runners start no link is made for want of memory, or a site is not open, and
// another run, which meets no refusal, has no turn without memory; later at most one turn is counted.
#[test]
fn refused_growths_of_a_pair_are_counted(rt: HostRuntime) {
    let found = growth_of(&rt, rt.alloc());
    let again = match found {
        Growth::Refused(PairError::Memory) | Growth::NotOpen => growth_of(&rt, rt.alloc()),
        _ => Growth::Ran(Some(0)),
    };
    let fits = !matches!(
        found,
        Growth::Ran(None | Some(2..)) | Growth::Refused(PairError::NoLink)
    );
    assert!(rt;
        fits && again == Growth::Ran(Some(0)),
        "{found:?} {again:?}"
    );
}
