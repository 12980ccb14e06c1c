//! The verdicts on a log of 100,000 entries in one run, and of 80,000 in two.
use crate::judged::verdict_at;
use admission_core::{Ask, Call, Durable, Phase, Refusal, Reply};
use desk_log::{Entries, Entry, Run, Runs, Transcript};
use log_judge::{Verdict, full_cut};
use std::alloc::Global;
use test_keepers::layout_of;

// How many readers enter and leave, one after another.
const READERS: u64 = 50_000;

// What the last one was doing, as its reply says, a length of the log, and the verdict.
static CASES: [(Phase, u64, Verdict); 2] = [
    (Phase::Reader, 100_000, Verdict::Consistent),
    (
        Phase::Waiting,
        0,
        Verdict::BadReply {
            site: 0,
            at: 99_999,
        },
    ),
];

// The entry of a reader that enters, and that of one that leaves.
fn enters(h: u64) -> Entry {
    Entry {
        pass: 0,
        call: Call::Ask(Ask::Read { r: 0, h }),
        reply: Reply::Admitted,
    }
}

fn leaves(h: u64, phase: Phase) -> Entry {
    Entry {
        pass: 0,
        call: Call::Ask(Ask::Leave { r: 0, h }),
        reply: Reply::Left(phase),
    }
}

// All entries, the last one with this phase.
fn entries_with(alloc: Global, last: Phase) -> Option<Vec<Entry>> {
    let mut entries = Vec::new(alloc);
    for h in 1..READERS {
        entries.push(enters(h)).ok()?;
        entries.push(leaves(h, Phase::Reader)).ok()?;
    }
    entries.push(enters(READERS)).ok()?;
    entries.push(leaves(READERS, last)).ok()?;
    Some(entries)
}

// A run of these entries that begins with nothing.
fn run_with(alloc: Global, entries: Vec<Entry>) -> Run {
    Run {
        sites: 1,
        first: Durable::new(Vec::new(alloc), Vec::new(alloc)),
        entries: Entries::from_vec(entries),
    }
}

// The log of one site, which has one run.
fn log_with(alloc: Global, last: Phase) -> Option<Vec<Transcript>> {
    let mut runs = Vec::new(alloc);
    runs.push(run_with(alloc, entries_with(alloc, last)?)).ok()?;
    log_of(alloc, runs)
}

// The log of one site, which has these runs.
fn log_of(alloc: Global, runs: Vec<Run>) -> Option<Vec<Transcript>> {
    let mut all = Vec::new(alloc);
    all.push(Transcript {
        site: 0,
        runs: Runs::from_vec(runs),
    })
    .ok()?;
    Some(all)
}

// The verdict on the log.
fn verdict_on(alloc: Global, last: Phase, cut: u64) -> Option<Verdict> {
    let layout = layout_of(alloc, 1, 2, 1)?;
    let all = log_with(alloc, last)?;
    verdict_at(alloc, &layout, all.as_slice(), &[cut])
}

// The first case with another verdict, and that verdict.
fn first_other(alloc: Global) -> Option<(usize, Option<Verdict>)> {
    for (k, (last, cut, wanted)) in CASES.iter().enumerate() {
        let verdict = verdict_on(alloc, *last, *cut);
        if verdict != Some(*wanted) {
            return Some((k, verdict));
        }
    }
    None
}

// So many entries of nobody who leaves.
fn refused_entries(alloc: Global, many: u64) -> Option<Vec<Entry>> {
    let mut entries = Vec::new(alloc);
    for h in 0..many {
        let entry = Entry {
            pass: 0,
            call: Call::Ask(Ask::Leave { r: 0, h }),
            reply: Reply::Refused(Refusal::NotHere),
        };
        entries.push(entry).ok()?;
    }
    Some(entries)
}

// The verdict on a log of two runs with so many entries each, at its end.
fn verdict_on_two(alloc: Global, many: u64) -> Option<Verdict> {
    let layout = layout_of(alloc, 1, 2, 1)?;
    let mut runs = Vec::new(alloc);
    for _ in 0..2 {
        runs.push(run_with(alloc, refused_entries(alloc, many)?))
            .ok()?;
    }
    let all = log_of(alloc, runs)?;
    let cut = full_cut(alloc, all.as_slice()).ok()?;
    verdict_at(alloc, &layout, all.as_slice(), cut.as_slice())
}

#[test]
fn two_runs_of_40000_entries_are_judged_at_their_end(rt: HostRuntime) {
    let verdict = verdict_on_two(rt.alloc(), 40_000);
    assert!(rt; verdict == Some(Verdict::Consistent), "{verdict:?}");
}

#[test]
fn a_log_of_100000_entries_is_judged(rt: HostRuntime) {
    let other = first_other(rt.alloc());
    assert!(rt; other == None, "{other:?}");
}
