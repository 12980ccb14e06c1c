//! Calls and replies are copied with ample memory.
use crate::layouts::{Counters, delta, same_delta};
use admission_model::*;
use std::alloc::Global;

// A row of site 1 of two sites.
const ROW: Counters = (0, 1, &[3, 0], [0, 1, 0]);

// Whether two calls are the same.
fn same_call(alloc: Global, one: &Call, other: &Call) -> Option<bool> {
    match (one, other) {
        (Call::Ask(one), Call::Ask(other)) => Some(one == other),
        (Call::Merge(one), Call::Merge(other)) => same_delta(alloc, one, other),
        (Call::Snapshot, Call::Snapshot) => Some(true),
        _ => Some(false),
    }
}

// Whether a call's copy is the same.
fn call_copies(alloc: Global, call: &Call) -> Option<bool> {
    let copy = call.try_copy(alloc).ok()?;
    same_call(alloc, call, &copy)
}

fn merge_copies(alloc: Global) -> Option<bool> {
    call_copies(alloc, &Call::Merge(delta(alloc, ROW)?))
}

const ASKS: [Ask; 6] = [
    Ask::Read { r: 1, h: 2 },
    Ask::Announce { r: 3, h: 4 },
    Ask::Quill { r: 5, h: 6 },
    Ask::Leave { r: 7, h: 8 },
    Ask::Give {
        r: 9,
        to: 10,
        seats: 11,
    },
    Ask::Help { r: 12 },
];

// The first ask whose call is copied otherwise.
fn first_wrong_ask(alloc: Global) -> Option<usize> {
    for (k, ask) in ASKS.iter().enumerate() {
        if call_copies(alloc, &Call::Ask(*ask)) != Some(true) {
            return Some(k);
        }
    }
    None
}

#[test]
fn calls_are_copied(rt: HostRuntime) {
    assert_eq!(rt; first_wrong_ask(rt.alloc()), None);
    let others = (
        merge_copies(rt.alloc()),
        call_copies(rt.alloc(), &Call::Snapshot),
    );
    assert!(rt; others == (Some(true), Some(true)));
}

// Whether two replies are the same.
fn same_reply(alloc: Global, one: &Reply, other: &Reply) -> Option<bool> {
    match (one, other) {
        (Reply::Admitted, Reply::Admitted) | (Reply::Given, Reply::Given) => Some(true),
        (Reply::Announced(one), Reply::Announced(other)) => Some(one == other),
        (Reply::Left(one), Reply::Left(other)) => Some(one == other),
        (
            Reply::Gave { to, seats },
            Reply::Gave {
                to: other,
                seats: more,
            },
        ) => Some(to == other && seats == more),
        (Reply::Merged(one), Reply::Merged(other)) => Some(one == other),
        (Reply::Snapshot(one), Reply::Snapshot(other)) => same_delta(alloc, one, other),
        (Reply::Refused(one), Reply::Refused(other)) => Some(one == other),
        _ => Some(false),
    }
}

// A reply of each kind.
fn reply(alloc: Global, kind: u8) -> Option<Reply> {
    Some(match kind {
        0 => Reply::Admitted,
        1 => Reply::Announced(7),
        2 => Reply::Left(Phase::Writer),
        3 => Reply::Given,
        4 => Reply::Gave { to: 1, seats: 2 },
        5 => Reply::Merged(3),
        6 => Reply::Snapshot(delta(alloc, ROW)?),
        _ => Reply::Refused(Refusal::MissingSeats {
            rights: 0,
            seats: 1,
        }),
    })
}

// Whether the copy of a reply of this kind is the same.
fn reply_copies(alloc: Global, kind: u8) -> Option<bool> {
    let reply = reply(alloc, kind)?;
    let copy = reply.try_copy(alloc).ok()?;
    same_reply(alloc, &reply, &copy)
}

// The first kind whose reply is copied otherwise.
fn first_wrong_kind(alloc: Global) -> Option<u8> {
    for kind in 0..8 {
        if reply_copies(alloc, kind) != Some(true) {
            return Some(kind);
        }
    }
    None
}

#[test]
fn replies_are_copied(rt: HostRuntime) {
    assert_eq!(rt; first_wrong_kind(rt.alloc()), None);
}
