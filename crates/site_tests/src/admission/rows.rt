//! The refusals of a site, row by row of the rules.
use super::sites::{Answer, Shape, TWO_SITES, first_wrong, rows_said, serve, site, told};
use crate::layouts::delta;
use admission_core::*;
use std::alloc::Global;

// The first ask that a fresh site answers otherwise.
fn wrong(
    alloc: Global,
    shape: Shape,
    s: u16,
    steps: &[(Ask, Answer)],
) -> Option<Option<(usize, Answer)>> {
    let mut core = site(alloc, shape, s)?;
    Some(first_wrong(&mut core, steps))
}

// The order of a hand-over's refusals, at two seats.
const HAND_OVERS: [(Ask, Answer); 4] = [
    (
        Ask::Give {
            r: 0,
            to: 1,
            seats: 3,
        },
        Answer::Refused(Refusal::TooFewRights { rights: 2 }),
    ),
    (
        Ask::Give {
            r: 0,
            to: 1,
            seats: u64::MAX,
        },
        Answer::Refused(Refusal::CounterFull),
    ),
    (
        Ask::Give {
            r: 0,
            to: 0,
            seats: 1,
        },
        Answer::Refused(Refusal::ToSelf),
    ),
    (
        Ask::Give {
            r: 0,
            to: 1,
            seats: 0,
        },
        Answer::Refused(Refusal::ZeroSeats),
    ),
];

#[test]
fn hand_overs_are_refused(rt: HostRuntime) {
    assert!(rt; wrong(rt.alloc(), TWO_SITES, 0, &HAND_OVERS) == Some(None));
}

// A reader holds the one seat that a writer needs, and one site has no other to help.
const ONE_SEAT: [(Ask, Answer); 5] = [
    (Ask::Read { r: 0, h: 1 }, Answer::Admitted),
    (Ask::Announce { r: 0, h: 2 }, Answer::Announced(1)),
    (
        Ask::Quill { r: 0, h: 2 },
        Answer::Refused(Refusal::MissingSeats {
            rights: 0,
            seats: 1,
        }),
    ),
    (Ask::Leave { r: 0, h: 2 }, Answer::Left(Phase::Waiting)),
    (Ask::Help { r: 0 }, Answer::Refused(Refusal::NoPlan)),
];

#[test]
fn a_writer_waits_for_the_only_seat(rt: HostRuntime) {
    assert!(rt; wrong(rt.alloc(), (1, 1, 1), 0, &ONE_SEAT) == Some(None));
}

// The first of so many holders whose writer is not announced under the holder's number.
pub fn first_unannounced(core: &mut SiteCore, r: u16, holders: u64) -> Option<(u64, Answer)> {
    for h in 1..=holders {
        let answer = serve(core, Ask::Announce { r, h });
        if answer != Answer::Announced(h) {
            return Some((h, answer));
        }
    }
    None
}

// Behind 64 announced writers one comes only after another has left.
const AFTER_64: [(Ask, Answer); 3] = [
    (
        Ask::Announce { r: 0, h: 65 },
        Answer::Refused(Refusal::TooManyWriters),
    ),
    (Ask::Leave { r: 0, h: 1 }, Answer::Left(Phase::Waiting)),
    (Ask::Announce { r: 0, h: 65 }, Answer::Announced(65)),
];

type Wrong = (Option<(u64, Answer)>, Option<(usize, Answer)>);

fn wrong_writers(alloc: Global) -> Option<Wrong> {
    let mut core = site(alloc, TWO_SITES, 1)?;
    let first = first_unannounced(&mut core, 0, 64);
    Some((first, first_wrong(&mut core, &AFTER_64)))
}

#[test]
fn a_site_has_64_unfinished_writers(rt: HostRuntime) {
    assert!(rt; wrong_writers(rt.alloc()) == Some((None, None)));
}

// The answer to a delta that tells more of the site than it did, and the rows that the site tells then.
fn own_row_ahead(alloc: Global) -> Option<(Answer, usize)> {
    let delta = delta(alloc, (0, 0, &[2, 1], [0, 0, 0]))?;
    let mut core = site(alloc, TWO_SITES, 0)?;
    let answer = told(&core.merge(&delta));
    Some((answer, rows_said(&core)?))
}

#[test]
fn a_site_learns_nothing_of_itself(rt: HostRuntime) {
    let want = (Answer::Refused(Refusal::OwnRowAhead { rec: 0 }), 0);
    assert!(rt; own_row_ahead(rt.alloc()) == Some(want));
}

// The answers to a reader, to the notice of a writer at site 1, and to a second reader.
fn readers_round_a_notice(alloc: Global, problem: u16) -> Option<[Answer; 3]> {
    let notice = delta(alloc, (0, 1, &[0, 0, 0], [0, 1, 0]))?;
    let mut core = site(alloc, (3, 3, problem), 0)?;
    let first = serve(&mut core, Ask::Read { r: 0, h: 1 });
    let merged = told(&core.merge(&notice));
    let second = serve(&mut core, Ask::Read { r: 0, h: 2 });
    Some([first, merged, second])
}

#[test]
fn a_notice_holds_readers_under_problem_2(rt: HostRuntime) {
    let held = Answer::Refused(Refusal::WriterAnnounced { site: 1 });
    let second = readers_round_a_notice(rt.alloc(), 2);
    let first = readers_round_a_notice(rt.alloc(), 1);
    assert!(rt; second == Some([Answer::Admitted, Answer::Merged(1), held]));
    assert!(rt; first == Some([Answer::Admitted, Answer::Merged(1), Answer::Admitted]));
}
