//! A site with as many records, seats, writers and readers as there may be.
use super::rows::first_unannounced;
use super::sites::{
    Answer, first_wrong, is_same, kept, serve, site_of, sizes, sizes_after_restart, told,
};
use crate::layouts::{full_delta, greatest_layout};
use admission_core::*;
use grow_counters::COUNTER_LIMIT;
use merge_core::Delta;
use std::alloc::Global;

// The first of 242 records at which a reader is turned away.
fn first_unread(core: &mut SiteCore, h: u64) -> Option<(u16, Answer)> {
    for r in 0..242 {
        let answer = serve(core, Ask::Read { r, h });
        if answer != Answer::Admitted {
            return Some((r, answer));
        }
    }
    None
}

// Eight readers at each of 242 records, if all are admitted.
fn fill(core: &mut SiteCore) -> Option<()> {
    for h in 1..=8 {
        if first_unread(core, h).is_some() {
            return None;
        }
    }
    Some(())
}

fn fills(core: &mut SiteCore) -> bool {
    first_unannounced(core, 255, 64).is_none() && fill(core).is_some()
}

// Site 0 with 64 writers that wait at the last record, and 1,936 readers.
fn full(alloc: Global) -> Option<SiteCore> {
    let mut core = site_of(alloc, greatest_layout(alloc, 0)?, 0)?;
    fills(&mut core).then_some(core)
}

fn full_sizes(alloc: Global) -> Option<[usize; 3]> {
    sizes(&full(alloc)?)
}

#[test]
fn a_full_site_tells_and_keeps(rt: HostRuntime) {
    assert!(rt; full_sizes(rt.alloc()) == Some([243, 243, 2_000]));
}

const AT_THE_LIMITS: [(Ask, Answer); 15] = [
    (
        Ask::Announce { r: 255, h: 65 },
        Answer::Refused(Refusal::TooManyWriters),
    ),
    (Ask::Quill { r: 255, h: 1 }, Answer::Admitted),
    (
        Ask::Quill { r: 255, h: 2 },
        Answer::Refused(Refusal::MissingSeats {
            rights: 0,
            seats: 65_535,
        }),
    ),
    (Ask::Leave { r: 255, h: 1 }, Answer::Left(Phase::Writer)),
    (Ask::Announce { r: 255, h: 65 }, Answer::Announced(65)),
    (
        Ask::Read { r: 255, h: 66 },
        Answer::Refused(Refusal::WriterAnnounced { site: 0 }),
    ),
    (
        Ask::Read {
            r: 0,
            h: HOLDER_LIMIT,
        },
        Answer::Admitted,
    ),
    (
        Ask::Leave {
            r: 0,
            h: HOLDER_LIMIT,
        },
        Answer::Left(Phase::Reader),
    ),
    (
        Ask::Read {
            r: 0,
            h: HOLDER_LIMIT + 1,
        },
        Answer::Refused(Refusal::BadHolder),
    ),
    (
        Ask::Read { r: 256, h: 1 },
        Answer::Refused(Refusal::NoRecord),
    ),
    (
        Ask::Give {
            r: 1,
            to: 15,
            seats: 1,
        },
        Answer::Given,
    ),
    (
        Ask::Give {
            r: 1,
            to: 16,
            seats: 1,
        },
        Answer::Refused(Refusal::NoSite),
    ),
    // Of 65,527 seats that are left an even share of 4,096 stays.
    (
        Ask::Help { r: 2 },
        Answer::Gave {
            to: 1,
            seats: 61_431,
        },
    ),
    (Ask::Help { r: 2 }, Answer::Refused(Refusal::NoPlan)),
    (Ask::Help { r: 255 }, Answer::Refused(Refusal::NoPlan)),
];

fn wrong_at_the_limits(alloc: Global) -> Option<Option<(usize, Answer)>> {
    let mut core = full(alloc)?;
    Some(first_wrong(&mut core, &AT_THE_LIMITS))
}

#[test]
fn a_full_site_serves(rt: HostRuntime) {
    assert!(rt; wrong_at_the_limits(rt.alloc()) == Some(None));
}

// All rows of all other sites, with every counter at its greatest.
fn greatest_delta(alloc: Global) -> Option<Delta> {
    full_delta(alloc, 1, COUNTER_LIMIT)
}

// The full site that heard that, and its answer.
fn heard(alloc: Global) -> Option<(SiteCore, Answer)> {
    let delta = greatest_delta(alloc)?;
    let mut core = full(alloc)?;
    let answer = told(&core.merge(&delta));
    Some((core, answer))
}

fn heard_sizes(alloc: Global) -> Option<(Answer, [usize; 3])> {
    let (core, answer) = heard(alloc)?;
    Some((answer, sizes(&core)?))
}

// Of each other row 19 counters rise, of which the site keeps three.
#[test]
fn a_full_site_hears_all(rt: HostRuntime) {
    let want = (
        Answer::Merged(3_840 * 19),
        [243 + 3_840, 243 + 3_840 * 3, 2_000],
    );
    assert!(rt; heard_sizes(rt.alloc()) == Some(want));
}

// A site that was sent all that can be sent moves on to another what a counter takes.
const AFTER_ALL: [(Ask, Answer); 4] = [
    (Ask::Read { r: 0, h: 9 }, Answer::Admitted),
    (
        Ask::Give {
            r: 0,
            to: 1,
            seats: COUNTER_LIMIT,
        },
        Answer::Given,
    ),
    (
        Ask::Give {
            r: 0,
            to: 1,
            seats: 1,
        },
        Answer::Refused(Refusal::CounterFull),
    ),
    (Ask::Help { r: 0 }, Answer::Refused(Refusal::CounterFull)),
];

fn wrong_after_all(alloc: Global) -> Option<Option<(usize, Answer)>> {
    let (mut core, _) = heard(alloc)?;
    Some(first_wrong(&mut core, &AFTER_ALL))
}

#[test]
fn counters_fill(rt: HostRuntime) {
    assert!(rt; wrong_after_all(rt.alloc()) == Some(None));
}

// What a full site that heard all keeps after a restart, and how many counters come back.
fn restarted(alloc: Global) -> Option<([usize; 3], Answer)> {
    let delta = greatest_delta(alloc)?;
    let (mut core, _) = heard(alloc)?;
    let kept = sizes_after_restart(&mut core)?;
    Some((kept, told(&core.merge(&delta))))
}

// Of each other row it forgets 15 counters of seats and that of seats taken.
#[test]
fn a_full_site_restarts(rt: HostRuntime) {
    let want = (
        [243 + 3_840, 243 + 3_840 * 3, 2_000],
        Answer::Merged(3_840 * 16),
    );
    assert!(rt; restarted(rt.alloc()) == Some(want));
}

// What a full site keeps that comes back from a store.
fn kept_again(alloc: Global, left: Durable) -> Option<Durable> {
    let layout = greatest_layout(alloc, 0)?;
    let again = SiteCore::restore(alloc, layout, 0, left).ok()?;
    kept(&again)
}

// What a full site that heard all keeps, twice.
fn kept_twice(alloc: Global) -> Option<(Durable, Durable)> {
    let (core, _) = heard(alloc)?;
    Some((kept(&core)?, kept(&core)?))
}

// Whether a full site that heard all is restored from what it keeps.
fn is_restored(alloc: Global) -> Option<bool> {
    let (before, left) = kept_twice(alloc)?;
    Some(is_same(&before, &kept_again(alloc, left)?))
}

#[test]
fn a_full_site_is_restored(rt: HostRuntime) {
    assert!(rt; is_restored(rt.alloc()) == Some(true));
}
