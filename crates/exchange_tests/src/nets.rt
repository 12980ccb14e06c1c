//! Several sites with links between all of them, each at work on a thread of its own.
use crate::gates::TestGate;
use crate::sites::{Job, Outcome, Shape, job_of, layout_of, run_site};
use crate::verdicts::full_verdict;
use admission_core::{Ask, Refusal, Reply};
use exchange_threads::{End, Report, make_link};
use log_judge::Verdict;
use merge_core::Layout;
use std::alloc::Global;
use std::sync::Wait;
use std::thread;
use std::thread::Threads;

/// Three sites, one record with three seats, problem 2.
pub const THREE: Shape = Shape {
    sites: 3,
    records: 1,
    seats: 3,
    home: 0,
    problem: 2,
};

// Adds a link between two sites to their ends. Its gate is open at every turn, or at turns that the seed picks.
fn add_link(
    alloc: Global,
    layout: &Layout,
    all: &mut [Vec<End<TestGate>>],
    (from, to): (u16, u16),
    seed: u32,
) -> Option<()> {
    let (sender, receiver) = make_link(alloc, layout, from, to).ok()?;
    let gate = if seed == 0 {
        TestGate::Always
    } else {
        TestGate::Random(u64::from(seed) + u64::from(from) * 97 + u64::from(to) * 7)
    };
    all.get_mut(usize::from(from))?
        .push(End::Outlet(sender, gate))
        .ok()?;
    all.get_mut(usize::from(to))?
        .push(End::Inlet(receiver))
        .ok()
}

// Adds the links from a site to all others.
fn add_links(
    alloc: Global,
    layout: &Layout,
    all: &mut [Vec<End<TestGate>>],
    from: u16,
    seed: u32,
) -> Option<()> {
    for to in 0..layout.sites() {
        if from != to {
            add_link(alloc, layout, all, (from, to), seed)?;
        }
    }
    Some(())
}

// The ends of the links between all sites, site by site.
fn all_ends(alloc: Global, shape: Shape, seed: u32) -> Option<Vec<Vec<End<TestGate>>>> {
    let layout = layout_of(alloc, shape)?;
    let mut all = Vec::new(alloc);
    for _ in 0..shape.sites {
        all.push(Vec::new(alloc)).ok()?;
    }
    for from in 0..shape.sites {
        add_links(alloc, &layout, all.as_mut_slice(), from, seed)?;
    }
    Some(all)
}

/// The number of the port by which one site sends to another, where all are linked.
pub fn port_to(from: u16, to: u16) -> u16 {
    let before = from.saturating_add(to);
    if to < from {
        before
    } else {
        before.saturating_sub(1)
    }
}

/// A job for each site, with links between all.
pub fn jobs_of(alloc: Global, shape: Shape, turns: u64, seed: u32) -> Option<Vec<Job>> {
    let mut jobs = Vec::new(alloc);
    let mut site = 0u16;
    for ends in all_ends(alloc, shape, seed)? {
        jobs.push(job_of(shape, site, ends, turns)).ok()?;
        site = site.saturating_add(1);
    }
    Some(jobs)
}

/// What comes of each job, on a thread of its own.
pub fn run_sites<R: Threads + Wait + Sync>(
    rt: &R,
    alloc: Global,
    jobs: Vec<Job>,
) -> Option<Vec<Option<Outcome>>> {
    thread::map_vec(rt, jobs, &|job| run_site(rt, alloc, job)).ok()
}

/// A report as numbers: of an outbox its turns, the texts sent and the turns without memory, of an inbox the texts taken,
/// the refusals of different names and the turns without memory.
pub type Numbers = (u8, u64, u64, u64);

/// The numbers of a report.
pub fn numbers(report: &Report) -> Numbers {
    match report {
        Report::Sent(told) => (1, told.turns, told.sent, told.memory),
        Report::Got(heard) => (2, heard.taken, heard.refused.len() as u64, heard.memory),
    }
}

/// Whether a site has so many ports, each with one of these reports.
pub fn has_reports(outcome: &Outcome, count: usize, all: &[Numbers]) -> bool {
    for report in outcome.reports.as_slice() {
        if !all.contains(&numbers(report)) {
            return false;
        }
    }
    outcome.reports.len() == count
}

// Three sites of which site 1 has a writer that waits, and whom site 0 answers a reader at the end.
fn three_jobs(alloc: Global) -> Option<Vec<Job>> {
    let mut jobs = jobs_of(alloc, THREE, 8, 0)?;
    jobs.get_mut(1)?.before = Some(Ask::Announce { r: 0, h: 5 });
    jobs.get_mut(0)?.after = Some(Ask::Read { r: 0, h: 1 });
    Some(jobs)
}

static WHOLE_RUN: [Numbers; 2] = [(1, 8, 8, 0), (2, 8, 0, 0)];

// Whether three sites were told of each other's seats and writers, and all closed.
fn are_told(all: &[Option<Outcome>]) -> Option<bool> {
    for (site, ended) in all.iter().enumerate() {
        let ended = ended.as_ref()?;
        if !has_reports(ended, 4, &WHOLE_RUN) || ended.marks != (0, 0) {
            return Some(false);
        }
        let wanted = match site {
            0 => matches!(
                ended.after,
                Some(Reply::Refused(Refusal::WriterAnnounced { site: 1 }))
            ),
            1 => matches!(ended.before, Some(Reply::Announced(1))),
            _ => true,
        };
        if !wanted {
            return Some(false);
        }
    }
    Some(true)
}

// The same of a run, and the verdict on its logs.
fn told_and_judged<R: Threads + Wait + Sync>(rt: &R, alloc: Global) -> Option<(bool, Verdict)> {
    let all = run_sites(rt, alloc, three_jobs(alloc)?)?;
    let told = are_told(all.as_slice())?;
    Some((told, full_verdict(alloc, THREE, all)?))
}

#[test]
fn three_sites_hear_of_a_writer(rt: HostRuntime) {
    let told = told_and_judged(&rt, rt.alloc());
    assert!(rt; told == Some((true, Verdict::Consistent)), "{told:?}");
}
