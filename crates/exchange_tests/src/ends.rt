//! Ends whose other side the test holds, and gates that wait for one another.
use crate::gates::{Shared, TestGate};
use crate::nets::{THREE, numbers};
use crate::sites::{Shape, job_of, layout_of, run_site};
use crossbeam_channel::{Receiver, bounded};
use exchange_threads::{End, LINK_CAPACITY, LinkError, Report, make_link};
use std::alloc::Global;
use std::sync::atomic::{AtomicU64, Ordering};
use std::sync::{Arc, Wait};
use std::thread::Threads;

/// An end that takes these texts, behind which nothing comes.
pub fn inlet<R: Wait>(rt: &R, alloc: Global, texts: &[&str]) -> Option<End<TestGate>> {
    let (sender, receiver) = bounded(alloc, texts.len().saturating_add(1).min(64)).ok()?;
    for text in texts {
        sender.send(rt, String::from_str(alloc, text).ok()?).ok()?;
    }
    Some(End::Inlet(receiver))
}

/// An end that sends where its gate is open, and what is sent.
pub fn outlet(alloc: Global, gate: TestGate) -> Option<(End<TestGate>, Receiver<String>)> {
    let (sender, receiver) = bounded(alloc, LINK_CAPACITY).ok()?;
    Some((End::Outlet(sender, gate), receiver))
}

// Ends that send, whose gates wait at turn 0 until all of them have been asked, and what is sent.
fn meeting_ends(
    alloc: Global,
    gates: u64,
    seen: &Shared,
) -> Option<(Vec<End<TestGate>>, Vec<Receiver<String>>)> {
    let met: Shared = Arc::new(alloc, AtomicU64::new(0)).ok()?;
    let mut ends = Vec::new(alloc);
    let mut held = Vec::new(alloc);
    for _ in 0..gates {
        let (end, receiver) = outlet(alloc, meeting_gate(gates, &met, seen)?)?;
        ends.push(end).ok()?;
        held.push(receiver).ok()?;
    }
    Some((ends, held))
}

// One of so many gates that wait for one another.
fn meeting_gate(all: u64, met: &Shared, seen: &Shared) -> Option<TestGate> {
    let met = Arc::try_clone(met).ok()?;
    let seen = Arc::try_clone(seen).ok()?;
    Some(TestGate::Meets { met, all, seen })
}

// Adds so many ends that hear nothing.
fn push_inlets<R: Wait>(
    rt: &R,
    alloc: Global,
    ends: &mut Vec<End<TestGate>>,
    count: u64,
) -> Option<()> {
    for _ in 0..count {
        ends.push(inlet(rt, alloc, &[])?).ok()?;
    }
    Some(())
}

// How many reports tell of a whole run: four texts were sent, or none was heard.
fn count_whole(reports: &[Report]) -> u64 {
    let mut whole = 0u64;
    for report in reports {
        if matches!(numbers(report), (1, 4, 4, 0) | (2, 0, 0, 0)) {
            whole = whole.saturating_add(1);
        }
    }
    whole
}

// How many gates saw that all had been asked, and how many ports ran whole; half of the ports send, and the others hear
// nothing.
fn seen_by_gates<R: Threads + Wait + Sync>(
    rt: &R,
    alloc: Global,
    shape: Shape,
    gates: u64,
    inlets: u64,
) -> Option<(u64, u64)> {
    let seen: Shared = Arc::new(alloc, AtomicU64::new(0)).ok()?;
    let (mut ends, _held) = meeting_ends(alloc, gates, &seen)?;
    push_inlets(rt, alloc, &mut ends, inlets)?;
    let ended = run_site(rt, alloc, job_of(shape, 0, ends, 4))?;
    let whole = count_whole(ended.reports.as_slice());
    Some((seen.load(Ordering::SeqCst), whole))
}

const SIXTEEN: Shape = Shape {
    sites: 16,
    records: 1,
    seats: 3,
    home: 0,
    problem: 1,
};

// Ports of one site run at the same time: each gate sees that all others were asked.
#[test]
fn gates_of_one_site_wait_for_one_another(rt: HostRuntime) {
    let two = seen_by_gates(&rt, rt.alloc(), THREE, 2, 0);
    assert!(rt; two == Some((2, 2)), "{two:?}");
    let thirty = seen_by_gates(&rt, rt.alloc(), SIXTEEN, 15, 15);
    assert!(rt; thirty == Some((15, 30)), "{thirty:?}");
}

// Why there is no link between two of three sites, or how many texts it holds.
fn link_of(alloc: Global, from: u16, to: u16) -> Option<(Option<LinkError>, Option<usize>)> {
    let layout = layout_of(alloc, THREE)?;
    match make_link(alloc, &layout, from, to) {
        Ok((sender, _receiver)) => Some((None, sender.capacity())),
        Err(error) => Some((Some(error), None)),
    }
}

#[test]
fn a_link_leads_from_a_site_to_another(rt: HostRuntime) {
    for (from, to, link) in [
        (0, 0, (Some(LinkError::NoLink), None)),
        (0, 3, (Some(LinkError::NoLink), None)),
        (65_535, 1, (Some(LinkError::NoLink), None)),
        (2, 0, (None, Some(16))),
    ] {
        assert!(rt; link_of(rt.alloc(), from, to) == Some(link), "{from} {to}");
    }
}
