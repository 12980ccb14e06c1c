//! What sites know after runs whose gates open at random, compared with all that was sent to them.
use crate::nets::{THREE, jobs_of, port_to, run_sites};
use crate::sites::{Outcome, layout_of};
use crate::verdicts::full_verdict;
use admission_core::{Ask, Call, Reply};
use log_judge::Verdict;
use merge_core::{Book, Delta};
use session_book::Entry;
use std::alloc::Global;
use std::sync::Wait;
use std::thread::Threads;

// The book of three sites before any operation.
fn fresh(alloc: Global) -> Option<Book> {
    Book::genesis(alloc, &layout_of(alloc, THREE)?).ok()
}

// How many counters of a book a delta raises.
fn join(book: &mut Book, delta: &Delta) -> Option<u64> {
    book.check(delta).ok()?;
    Some(book.join(delta))
}

// The rows of a delta that are of other sites.
fn foreign(alloc: Global, delta: &Delta, site: u16) -> Option<Delta> {
    let mut rows = Vec::new(alloc);
    for row in delta.rows() {
        if row.s != site {
            rows.push(row.try_copy(alloc).ok()?).ok()?;
        }
    }
    Delta::new(delta.from_site(), rows).ok()
}

// The snapshot that an entry of a pass has told, if it has.
fn snapshot_in(entry: &Entry, pass: u16) -> Option<&Delta> {
    match (&entry.call, &entry.reply) {
        (Call::Snapshot, Reply::Snapshot(delta)) if entry.pass == pass => Some(delta),
        _ => None,
    }
}

// Joins what one site has told by a pass into two books, and adds how many counters of the second rose.
fn join_told(ended: &Outcome, pass: u16, told: &mut Book, known: &mut Book) -> Option<u64> {
    let mut rose = 0u64;
    for entry in ended.transcript.runs.as_slice().first()?.entries.as_slice() {
        if let Some(delta) = snapshot_in(entry, pass) {
            join(told, delta)?;
            rose = rose.saturating_add(join(known, delta)?);
        }
    }
    Some(rose)
}

// The same of what all others have told to a site.
fn join_all_told(
    all: &[Option<Outcome>],
    site: u16,
    told: &mut Book,
    known: &mut Book,
) -> Option<u64> {
    let mut unknown = 0u64;
    for from in 0..3u16 {
        if from != site {
            let ended = all.get(usize::from(from))?.as_ref()?;
            let rose = join_told(ended, port_to(from, site), told, known)?;
            unknown = unknown.saturating_add(rose);
        }
    }
    Some(unknown)
}

// How many counters that were told to a site it does not know, and how many it knows of others that nobody told.
fn unlike(alloc: Global, all: &[Option<Outcome>], site: u16) -> Option<(u64, u64)> {
    let knows = all.get(usize::from(site))?.as_ref()?.known.as_ref()?;
    let others = foreign(alloc, knows, site)?;
    let mut told = fresh(alloc)?;
    let mut known = fresh(alloc)?;
    join(&mut known, knows)?;
    let unknown = join_all_told(all, site, &mut told, &mut known)?;
    Some((unknown, join(&mut told, &others)?))
}

// How many counters differ at all sites after a run whose gates the seed picks, and the verdict on its logs.
fn differences<R: Threads + Wait + Sync>(
    rt: &R,
    alloc: Global,
    seed: u32,
) -> Option<(u64, u64, Verdict)> {
    let mut jobs = jobs_of(alloc, THREE, 24, seed)?;
    jobs.get_mut(1)?.before = Some(Ask::Announce { r: 0, h: 5 });
    jobs.get_mut(0)?.before = Some(Ask::Read { r: 0, h: 7 });
    let all = run_sites(rt, alloc, jobs)?;
    let mut sums = (0u64, 0u64);
    for site in 0..3u16 {
        let (unknown, untold) = unlike(alloc, all.as_slice(), site)?;
        sums = (
            sums.0.saturating_add(unknown),
            sums.1.saturating_add(untold),
        );
    }
    Some((sums.0, sums.1, full_verdict(alloc, THREE, all)?))
}

// Each site knows what was told to it, and of the others nothing else; the logs agree.
#[test]
fn a_site_knows_what_it_was_told(rt: HostRuntime) {
    for seed in [1, 7, 2026, 31_337] {
        let found = differences(&rt, rt.alloc(), seed);
        assert!(rt;
            found == Some((0, 0, Verdict::Consistent)),
            "{seed} {found:?}"
        );
    }
}
