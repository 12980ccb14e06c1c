//! A story of a site of which any one allocation may be refused. With ample memory each call is answered.
use crate::asked::{Asked, Numbers, call_of};
use crate::openings::{Plan, Stop, run_opening};
use admission_core::Call;
use session_book::same::same_call;
use session_book::{Entry, OpenError};
use std::alloc::Global;
use std::sync::Wait;
use std::thread::Threads;
use test_keepers::{Fault, store_with};

// Site 0 of two, with three seats under problem 2 and two passes.
const TWO_PASSES: Plan = Plan {
    sites: 2,
    seats: 3,
    problem: 2,
    site: 0,
    passes: 2,
    limit: 16,
    in_threads: false,
};

// Readers and a writer, what another site tells, help for its writer, and what is told then.
static STORY: [Asked; 10] = [
    Asked::Read(1),
    Asked::Snapshot,
    Asked::Announcement,
    Asked::Help,
    Asked::Announce(2),
    Asked::Leave(1),
    Asked::Help,
    Asked::Leave(2),
    Asked::Leave(2),
    Asked::Snapshot,
];

// Whether an entry is this call of the story, made by its pass. A delta may find no memory to compare with.
fn is_entry(alloc: Global, entry: &Entry, k: usize, asked: Asked) -> bool {
    let same = match call_of(alloc, asked) {
        Some(call) => same_call(&entry.call, &call),
        None => matches!(entry.call, Call::Merge(_)),
    };
    same && usize::from(entry.pass) == k % 2
}

// Whether a call was made, and not answered with want of memory.
fn is_served(reply: Numbers) -> bool {
    reply != (0, 0, 0) && reply != (20, 0, 0)
}

// Whether the entries are exactly the calls that were served, in their order.
fn are_served(alloc: Global, entries: &[Entry], told: &[Numbers]) -> bool {
    let mut next = 0usize;
    for (k, (asked, reply)) in STORY.iter().zip(told).enumerate() {
        if is_served(*reply) {
            match entries.get(next) {
                Some(entry) if is_entry(alloc, entry, k, *asked) => next = next.saturating_add(1),
                _ => return false,
            }
        }
    }
    next == entries.len()
}

/// Whether the story is told by the log, if there is memory to open the site.
pub fn story<R: Threads + Wait + Sync>(rt: &R, alloc: Global) -> Option<bool> {
    let store = store_with(0, Fault::Never);
    match run_opening(rt, alloc, TWO_PASSES, store, &STORY) {
        Ok(ended) => {
            let run = ended.transcript.runs.as_slice().first()?;
            Some(are_served(alloc, run.entries.as_slice(), ended.told.as_slice()))
        }
        Err(Stop::Memory | Stop::Opening(OpenError::Memory)) => None,
        Err(_) => Some(false),
    }
}

// The same; told again where there was no memory to open the site.
fn story_again<R: Threads + Wait + Sync>(rt: &R, alloc: Global) -> Option<bool> {
    match story(rt, alloc) {
        None => story(rt, alloc),
        told => told,
    }
}

#[test]
fn the_log_has_each_call_that_found_memory(rt: HostRuntime) {
    assert!(rt; story_again(&rt, rt.alloc()) == Some(true));
}
