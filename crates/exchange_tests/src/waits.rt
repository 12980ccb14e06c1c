//! An outbox waits while its channel is full.
use crate::ends::outlet;
use crate::gates::{Shared, TestGate, is_reached_soon};
use crate::sites::{TWO, job_of, run_site};
use crossbeam_channel::Receiver;
use exchange_threads::Report;
use std::alloc::Global;
use std::sync::atomic::{AtomicU64, Ordering};
use std::sync::{Arc, Wait};
use std::thread;
use std::thread::Threads;

// The turns of the outbox, which are more than its channel holds texts.
const TURNS: u64 = 40;

// How many texts come. The first is taken only once the gate was asked for the 17th time, when the channel holds 16 texts,
// and after a while, in which an outbox that does not wait would end.
fn late_count<R: Wait>(rt: &R, receiver: Receiver<String>, asked: Shared) -> u64 {
    let _ = is_reached_soon(&asked, 17);
    for _ in 0..20_000u64 {
        if asked.load(Ordering::SeqCst) >= TURNS {
            break;
        }
        thread::yield_now();
    }
    let mut count = 0u64;
    for _ in receiver.iter(rt) {
        count = count.saturating_add(1);
    }
    count
}

// A gate that is open at every turn and counts how often it is asked.
fn counting_gate(asked: &Shared) -> Option<TestGate> {
    Some(TestGate::Follows {
        asked: Arc::try_clone(asked).ok()?,
        at: TURNS,
        other: Arc::try_clone(asked).ok()?,
        often: 0,
    })
}

// The turns of an outbox whose receiver takes no text before the channel is full, the texts that it sent, and those that
// came.
fn full_channel<R>(rt: R, alloc: Global) -> Option<(u64, u64, u64)>
where
    R: Threads + Wait + Sync + Send + Copy + 'static,
{
    let asked: Shared = Arc::new(alloc, AtomicU64::new(0)).ok()?;
    let (end, receiver) = outlet(alloc, counting_gate(&asked)?)?;
    let mut ends = Vec::new(alloc);
    ends.push(end).ok()?;
    let Ok(counter) = thread::spawn(&rt, move || late_count(&rt, receiver, asked)) else {
        return None;
    };
    let ended = run_site(&rt, alloc, job_of(TWO, 0, ends, TURNS));
    let came = counter.join(&rt);
    match ended?.reports.as_slice().first()? {
        Report::Sent(told) => Some((told.turns, told.sent, came)),
        Report::Got(_) => None,
    }
}

#[test]
fn an_outbox_waits_while_its_channel_is_full(rt: HostRuntime) {
    let found = full_channel(rt, rt.alloc());
    assert!(rt; found == Some((TURNS, TURNS, TURNS)), "{found:?}");
}
