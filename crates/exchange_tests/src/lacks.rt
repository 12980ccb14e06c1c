//! Three sites with all their links, where one store has no memory for one change. The turn that meets this is counted,
//! and nothing else is lacking.
use crate::gates::Shared;
use crate::growths::{TURNS, all_lacks};
use crate::nets::{THREE, jobs_of, numbers, run_sites};
use crate::sites::{Job, Outcome};
use admission_core::{Ask, Refusal, Reply};
use std::alloc::Global;
use std::sync::atomic::{AtomicU64, Ordering};
use std::sync::{Arc, Wait};
use std::thread::Threads;

// Three sites of which site 1 announces a writer. The store of one site has no memory for the change behind so many others.
fn lacking_jobs(alloc: Global, site: u16, left: u64, met: &Shared) -> Option<Vec<Job>> {
    let mut jobs = jobs_of(alloc, THREE, TURNS, 0)?;
    jobs.get_mut(1)?.before = Some(Ask::Announce { r: 0, h: 5 });
    let job = jobs.get_mut(usize::from(site))?;
    job.left = Some(left);
    job.lacks = Some(Arc::try_clone(met).ok()?);
    Some(jobs)
}

// The outcomes of all sites.
fn all_of(alloc: Global, ended: Vec<Option<Outcome>>) -> Option<Vec<Outcome>> {
    let mut all = Vec::new(alloc);
    for outcome in ended {
        all.push(outcome?).ok()?;
    }
    Some(all)
}

// Whether site 1 found no memory to announce its writer.
fn lacked_before(all: &[Outcome]) -> Option<bool> {
    let before = &all.get(1)?.before;
    Some(matches!(before, Some(Reply::Refused(Refusal::Memory))))
}

// How many turns without memory the reports of a site have.
fn lacks_at(ended: &Outcome) -> u64 {
    let mut lacks = 0u64;
    for report in ended.reports.as_slice() {
        let (_, _, _, memory) = numbers(report);
        lacks = lacks.saturating_add(memory);
    }
    lacks
}

// How many turns without memory the reports of all sites have, how many those of this site, and how many its runners met:
// each refusal of the store but that of the announcement.
fn lacks_and_met<R: Threads + Wait + Sync>(
    rt: &R,
    alloc: Global,
    site: u16,
    left: u64,
) -> Option<(u64, u64, u64)> {
    let met: Shared = Arc::new(alloc, AtomicU64::new(0)).ok()?;
    let ended = run_sites(rt, alloc, lacking_jobs(alloc, site, left, &met)?)?;
    let all = all_of(alloc, ended)?;
    let lacks = all_lacks(all.as_slice())?;
    let before = u64::from(lacked_before(all.as_slice())?);
    let met = met.load(Ordering::SeqCst).checked_sub(before)?;
    Some((lacks, lacks_at(all.get(usize::from(site))?), met))
}

// Each site has a first change: of the writer that site 1 announces, or of a notice of it.
#[test]
fn a_change_without_memory_is_a_turn_that_is_counted(rt: HostRuntime) {
    for site in 0..3u16 {
        for left in 0..4u64 {
            let counted = lacks_and_met(&rt, rt.alloc(), site, left);
            let wanted = match (site, left) {
                (1, 0) => matches!(counted, Some((0, 0, 0))),
                (_, 0) => matches!(counted, Some((1, 1, 1))),
                _ => matches!(counted, Some((0, 0, 0) | (1, 1, 1))),
            };
            assert!(rt; wanted, "{site} {left} {counted:?}");
        }
    }
}
