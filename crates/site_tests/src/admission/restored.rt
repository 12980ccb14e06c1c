//! A site that is restored from what it kept, and durable parts that are refused.
use super::sites::{Answer, Shape, TWO_SITES, first_wrong, layout};
use admission_core::*;
use std::alloc::Global;

// A slot of record 0 and its value.
type Slot = (u16, u64);

// A session: its record, its holder and its phase.
type Who = (u16, u64, Phase);

fn push_slot(cells: &mut Vec<DurableCell>, r: u16, slot: &Slot) -> bool {
    cells
        .push(DurableCell {
            r,
            slot: slot.0,
            value: slot.1,
        })
        .is_ok()
}

// The counters of these slots, at a record.
fn counters(alloc: Global, r: u16, slots: &[Slot]) -> Option<Vec<DurableCell>> {
    let mut cells = Vec::new(alloc);
    for slot in slots {
        if !push_slot(&mut cells, r, slot) {
            return None;
        }
    }
    Some(cells)
}

// The durable part of these slots, at a record, and these sessions.
fn durable(alloc: Global, r: u16, slots: &[Slot], sessions: &[Who]) -> Option<Durable> {
    let cells = counters(alloc, r, slots)?;
    Some(Durable::new(cells, listed(alloc, sessions)?))
}

// The sessions of a list.
fn listed(alloc: Global, sessions: &[Who]) -> Option<Vec<Session>> {
    let mut list = Vec::new(alloc);
    for (r, h, phase) in sessions {
        list.push(Session {
            r: *r,
            h: *h,
            phase: *phase,
        })
        .ok()?;
    }
    Some(list)
}

// What is restored at a site of a layout of one record.
fn restored(
    alloc: Global,
    shape: Shape,
    site: u16,
    durable: Durable,
) -> Option<Result<SiteCore, RestoreError>> {
    Some(SiteCore::restore(alloc, layout(alloc, shape)?, site, durable))
}

// Why this is no durable part of site 0, if it is none.
fn fault(alloc: Global, slots: &[Slot], sessions: &[Who]) -> Option<Option<RestoreError>> {
    let part = durable(alloc, 0, slots, sessions)?;
    Some(restored(alloc, TWO_SITES, 0, part)?.err())
}

const TAKEN_UP: [Slot; 2] = [(0, 1_000_000_000_001), (200, 1_000_000_000_000)];

// A reader whose seat was the last that the counter takes.
const AFTER_THE_LAST: [(Ask, Answer); 4] = [
    (
        Ask::Read { r: 0, h: 8 },
        Answer::Refused(Refusal::CounterFull),
    ),
    (Ask::Leave { r: 0, h: 7 }, Answer::Left(Phase::Reader)),
    (
        Ask::Read { r: 0, h: 8 },
        Answer::Refused(Refusal::CounterFull),
    ),
    (
        Ask::Give {
            r: 0,
            to: 1,
            seats: 2,
        },
        Answer::Given,
    ),
];

fn wrong_after_the_last(alloc: Global) -> Option<Option<(usize, Answer)>> {
    let part = durable(alloc, 0, &TAKEN_UP, &[(0, 7, Phase::Reader)])?;
    let mut core = restored(alloc, TWO_SITES, 0, part)?.ok()?;
    Some(first_wrong(&mut core, &AFTER_THE_LAST))
}

#[test]
fn a_full_counter_comes_back(rt: HostRuntime) {
    assert!(rt; wrong_after_the_last(rt.alloc()) == Some(None));
    assert!(rt; fault(rt.alloc(), &TAKEN_UP, &[]) == Some(Some(RestoreError::WrongSessions)));
}

// Counters that no site of two with two seats has: slots that name nothing, a start, slots that do not rise, more
// given back than was taken, more sent than a counter takes, rights below 0, 65 writers, and notices of the other
// site that are none.
const WRONG: [&[Slot]; 12] = [
    &[(2, 1)],
    &[(100, 1)],
    &[(203, 1)],
    &[(300, 1)],
    &[(402, 1)],
    &[(0, 2)],
    &[(201, 1), (200, 1)],
    &[(0, 3)],
    &[(101, 1_000_000_000_001)],
    &[(200, 3)],
    &[(201, 65)],
    &[(301, 1), (401, 2)],
];

const WRONG_COUNTERS: Option<Option<RestoreError>> = Some(Some(RestoreError::WrongCounters));

// The first of these that is not refused for its counters.
fn first_taken(alloc: Global) -> Option<usize> {
    for (k, slots) in WRONG.iter().enumerate() {
        if fault(alloc, slots, &[]) != WRONG_COUNTERS {
            return Some(k);
        }
    }
    None
}

#[test]
fn wrong_counters_are_refused(rt: HostRuntime) {
    assert!(rt; first_taken(rt.alloc()).is_none());
}

// One reader's seat is taken, and one writer is announced.
const ONE_EACH: [Slot; 2] = [(200, 1), (201, 1)];

// Sessions that do not go with these counters: of no record, of no holder, one twice, a seat too few, a seat too
// many, and no writer.
const ASTRAY: [&[Who]; 6] = [
    &[(1, 7, Phase::Reader), (0, 8, Phase::Waiting)],
    &[
        (0, 1_000_000_000_001, Phase::Reader),
        (0, 8, Phase::Waiting),
    ],
    &[(0, 7, Phase::Reader), (0, 7, Phase::Waiting)],
    &[(0, 8, Phase::Waiting)],
    &[(0, 7, Phase::Reader), (0, 8, Phase::Writer)],
    &[(0, 7, Phase::Reader)],
];

const WRONG_SESSIONS: Option<Option<RestoreError>> = Some(Some(RestoreError::WrongSessions));

// The first of these that is not refused for its sessions.
fn first_held(alloc: Global) -> Option<usize> {
    for (k, sessions) in ASTRAY.iter().enumerate() {
        if fault(alloc, &ONE_EACH, sessions) != WRONG_SESSIONS {
            return Some(k);
        }
    }
    None
}

#[test]
fn wrong_sessions_are_refused(rt: HostRuntime) {
    assert!(rt; first_held(rt.alloc()).is_none());
}

// What is answered at a site that is not there, and for a record that is not.
fn astray(alloc: Global) -> Option<[Option<RestoreError>; 2]> {
    let nothing = durable(alloc, 0, &[], &[])?;
    let elsewhere = durable(alloc, 1, &[(200, 1)], &[])?;
    Some([
        restored(alloc, TWO_SITES, 2, nothing)?.err(),
        restored(alloc, TWO_SITES, 0, elsewhere)?.err(),
    ])
}

#[test]
fn no_site_and_no_record_are_refused(rt: HostRuntime) {
    let want = [
        Some(RestoreError::BadSite),
        Some(RestoreError::WrongCounters),
    ];
    assert!(rt; astray(rt.alloc()) == Some(want));
}

const UNDER_MORE_SITES: [(Ask, Answer); 3] = [
    (
        Ask::Give {
            r: 0,
            to: 2,
            seats: 1,
        },
        Answer::Given,
    ),
    (Ask::Leave { r: 0, h: 7 }, Answer::Left(Phase::Reader)),
    (Ask::Leave { r: 0, h: 8 }, Answer::Left(Phase::Waiting)),
];

// A site of two, with a reader and a waiting writer, comes back as one of three.
fn wrong_under_more_sites(alloc: Global) -> Option<Option<(usize, Answer)>> {
    let part = durable(
        alloc,
        0,
        &ONE_EACH,
        &[(0, 7, Phase::Reader), (0, 8, Phase::Waiting)],
    )?;
    let mut core = restored(alloc, (3, 2, 1), 0, part)?.ok()?;
    Some(first_wrong(&mut core, &UNDER_MORE_SITES))
}

#[test]
fn a_site_comes_back_under_more_sites(rt: HostRuntime) {
    assert!(rt; wrong_under_more_sites(rt.alloc()) == Some(None));
}
