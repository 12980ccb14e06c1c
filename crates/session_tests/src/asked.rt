//! What the tests ask of a site, and its replies as numbers.
use crate::fakes::small_desk;
use admission_core::{Ask, Call, Refusal, Reply};
use grow_counters::Counts;
use merge_core::{Delta, Row};
use session_book::Desk;
use std::alloc::Global;
use test_keepers::Fake;

/// A reply as numbers, by which replies are compared.
pub type Numbers = (u8, u64, u64);

/// One call of a site with one record.
#[derive(Clone, Copy)]
pub enum Asked {
    Read(u64),
    Announce(u64),
    Quill(u64),
    Leave(u64),
    Help,
    /// So many seats for this site.
    Give(u16, u64),
    Snapshot,
    /// What site 0 of two tells after it has given one of its two seats to site 1.
    Gift,
    /// What site 1 of two tells: a writer is announced there.
    Announcement,
}

/// What a desk replies.
pub fn served(desk: &mut Desk<Fake>, call: &Call) -> Numbers {
    numbers(&desk.serve(3, call))
}

// What a desk tells.
fn snapshot_of(desk: &mut Desk<Fake>) -> Option<Delta> {
    match desk.serve(3, &Call::Snapshot) {
        Reply::Snapshot(delta) => Some(delta),
        _ => None,
    }
}

// What a desk of site 0 tells after it has given one of its two seats to site 1.
fn gift(alloc: Global) -> Option<Delta> {
    let mut desk = small_desk(alloc, 0)?;
    let give = Ask::Give {
        r: 0,
        to: 1,
        seats: 1,
    };
    if served(&mut desk, &Call::Ask(give)) != (4, 0, 0) {
        return None;
    }
    snapshot_of(&mut desk)
}

fn announcement(alloc: Global) -> Option<Delta> {
    let out = Counts::from_vec(Vec::from_slice(alloc, &[0u64, 0]).ok()?);
    let mut rows = Vec::new(alloc);
    rows.push(Row {
        r: 0,
        s: 1,
        out,
        taken: 0,
        ann: 1,
        fin: 0,
    })
    .ok()?;
    Delta::new(1, rows).ok()
}

/// The call, if there is memory for it.
pub fn call_of(alloc: Global, asked: Asked) -> Option<Call> {
    let ask = match asked {
        Asked::Read(h) => Ask::Read { r: 0, h },
        Asked::Announce(h) => Ask::Announce { r: 0, h },
        Asked::Quill(h) => Ask::Quill { r: 0, h },
        Asked::Leave(h) => Ask::Leave { r: 0, h },
        Asked::Help => Ask::Help { r: 0 },
        Asked::Give(to, seats) => Ask::Give { r: 0, to, seats },
        Asked::Snapshot => return Some(Call::Snapshot),
        Asked::Gift => return Some(Call::Merge(gift(alloc)?)),
        Asked::Announcement => return Some(Call::Merge(announcement(alloc)?)),
    };
    Some(Call::Ask(ask))
}

/// A reply's numbers.
pub fn numbers(reply: &Reply) -> Numbers {
    match reply {
        Reply::Admitted => (1, 0, 0),
        Reply::Announced(n) => (2, *n, 0),
        Reply::Left(_) => (3, 0, 0),
        Reply::Given => (4, 0, 0),
        Reply::Gave { to, seats } => (5, u64::from(*to), *seats),
        Reply::Merged(n) => (6, *n, 0),
        Reply::Snapshot(delta) => (7, u64::from(delta.from_site()), delta.rows().len() as u64),
        Reply::Refused(refusal) => refusal_numbers(*refusal),
    }
}

fn refusal_numbers(refusal: Refusal) -> Numbers {
    match refusal {
        Refusal::NoSeat { rights } => (8, rights, 0),
        Refusal::MissingSeats { rights, seats } => (9, rights, u64::from(seats)),
        Refusal::TooFewRights { rights } => (10, rights, 0),
        Refusal::CounterFull => (11, 0, 0),
        Refusal::ToSelf => (12, 0, 0),
        Refusal::ZeroSeats => (13, 0, 0),
        Refusal::AlreadyHere => (14, 0, 0),
        Refusal::NoPlan => (15, 0, 0),
        Refusal::NotHere => (16, 0, 0),
        Refusal::Memory => (20, 0, 0),
        Refusal::Frozen => (21, 0, 0),
        Refusal::LogFull => (22, 0, 0),
        Refusal::StoreFault => (23, 0, 0),
        _ => (24, 0, 0),
    }
}
