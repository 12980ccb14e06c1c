//! The verdicts on stories of sites, at cuts through their logs.
use crate::changes::{Change, Said, make};
use crate::judged::verdict_at;
use crate::stories::{Plan, Step, told};
use log_judge::Verdict;
use std::alloc::Global;

/// The stories.
#[derive(Clone, Copy)]
pub enum Told {
    Helped,
    Relayed,
    NewKeeper,
    Grows,
    Kept,
    NotKept,
    Twice,
    Heard,
    NotHeard,
    Noticed,
    Forged,
    Claimed,
}

// A story, what of its logs is changed, a cut, and the verdict.
type Case = (Told, &'static [Change], &'static [u64], Verdict);

// Two sites with two seats under problem 1.
const TWO: Plan = Plan {
    sites: 2,
    seats: 2,
    problem: 1,
    first: 2,
};

// The same, of which site 0 knows itself alone at first.
const GROWING: Plan = Plan {
    sites: 2,
    seats: 2,
    problem: 1,
    first: 1,
};

// Three sites with three seats under problem 2.
const THREE: Plan = Plan {
    sites: 3,
    seats: 3,
    problem: 2,
    first: 3,
};

// A writer at site 1 is helped to all seats by site 0, which has 8 entries; site 1 has 6.
static HELPED: [Step; 14] = [
    Step::Announce(1, 5),
    Step::Read(0, 1),
    Step::Send(1),
    Step::Take(0, 0),
    Step::Read(0, 2),
    Step::Help(0),
    Step::Send(0),
    Step::Take(1, 1),
    Step::Quill(1, 5),
    Step::Leave(0, 1),
    Step::Help(0),
    Step::Send(0),
    Step::Take(1, 2),
    Step::Quill(1, 5),
];

// Site 0 tells site 2 of a writer at site 1.
static RELAYED: [Step; 5] = [
    Step::Announce(1, 5),
    Step::Send(1),
    Step::Take(0, 0),
    Step::Send(0),
    Step::Take(2, 1),
];

static NEW_KEEPER: [Step; 2] = [Step::Read(0, 7), Step::Renew(0)];

static GROWS: [Step; 4] = [
    Step::Read(0, 7),
    Step::Give(0, 1, 1),
    Step::Open(0, 2),
    Step::Give(0, 1, 1),
];

// Both readers are kept.
static KEPT: [Step; 4] = [
    Step::Read(0, 7),
    Step::Read(0, 8),
    Step::Open(0, 2),
    Step::Read(0, 8),
];

// The second reader comes after the second opening.
static NOT_KEPT: [Step; 3] = [Step::Read(0, 7), Step::Open(0, 2), Step::Read(0, 8)];

static TWICE: [Step; 3] = [Step::Read(0, 7), Step::Read(0, 7), Step::Open(0, 2)];

// Site 1 hears of a seat, and is opened again.
static HEARD: [Step; 4] = [
    Step::Give(0, 1, 1),
    Step::Send(0),
    Step::Take(1, 0),
    Step::Open(1, 2),
];

// Site 1 is opened again before it hears of a seat.
static NOT_HEARD: [Step; 3] = [Step::Give(0, 1, 1), Step::Send(0), Step::Open(1, 2)];

// Site 1 hears of a reader and of a writer at site 0. When it is opened again it knows the writer alone, and hears of both once
// more.
static NOTICED: [Step; 6] = [
    Step::Read(0, 7),
    Step::Announce(0, 5),
    Step::Send(0),
    Step::Take(1, 0),
    Step::Open(1, 2),
    Step::Take(1, 0),
];

// A reader is at site 0, and site 1 hears that it has both seats.
static FORGED: [Step; 4] = [
    Step::Read(0, 7),
    Step::Claim(1, 2, 0),
    Step::Announce(1, 5),
    Step::Quill(1, 5),
];

// Site 1 hears of a reader at site 0.
static CLAIMED: [Step; 2] = [Step::Read(0, 7), Step::Claim(1, 0, 1)];

/// The layout and the steps of a story.
pub fn story_of(told: Told) -> (Plan, &'static [Step]) {
    match told {
        Told::Helped => (THREE, &HELPED),
        Told::Relayed => (THREE, &RELAYED),
        Told::NewKeeper => (TWO, &NEW_KEEPER),
        Told::Grows => (GROWING, &GROWS),
        Told::Kept => (TWO, &KEPT),
        Told::NotKept => (TWO, &NOT_KEPT),
        Told::Twice => (TWO, &TWICE),
        Told::Heard => (TWO, &HEARD),
        Told::NotHeard => (TWO, &NOT_HEARD),
        Told::Noticed => (TWO, &NOTICED),
        Told::Forged => (TWO, &FORGED),
        Told::Claimed => (TWO, &CLAIMED),
    }
}

// What comes of a story.
fn verdict_of(alloc: Global, story: Told, changes: &[Change], cut: &[u64]) -> Option<Verdict> {
    let (plan, steps) = story_of(story);
    let (layout, mut transcripts, messages) = told(alloc, plan, steps)?;
    make(
        alloc,
        messages.as_slice(),
        transcripts.as_mut_slice(),
        changes,
    )?;
    verdict_at(alloc, &layout, transcripts.as_slice(), cut)
}

// The first of these cases with another verdict, and that verdict.
fn first_other(alloc: Global, cases: &[Case]) -> Option<(usize, Option<Verdict>)> {
    for (k, (story, changes, cut, wanted)) in cases.iter().enumerate() {
        let verdict = verdict_of(alloc, *story, *changes, *cut);
        if verdict != Some(*wanted) {
            return Some((k, verdict));
        }
    }
    None
}

static CUTS: [Case; 14] = [
    (Told::Helped, &[], &[8, 6, 0], Verdict::Consistent),
    (
        Told::Helped,
        &[],
        &[0, 6, 0],
        Verdict::Exceeds {
            site: 1,
            at: 2,
            rec: 0,
            origin: 0,
        },
    ),
    (Told::Helped, &[], &[9, 6, 0], Verdict::BadCut),
    (Told::Helped, &[], &[8, 7, 0], Verdict::BadCut),
    (Told::Helped, &[], &[8, 6], Verdict::BadCut),
    (Told::Helped, &[], &[8, 6, 0, 0], Verdict::BadCut),
    (Told::Helped, &[], &[0, 2, 0], Verdict::Consistent),
    (Told::Helped, &[], &[2, 1, 0], Verdict::Consistent),
    (
        Told::Helped,
        &[],
        &[2, 0, 0],
        Verdict::Exceeds {
            site: 0,
            at: 1,
            rec: 0,
            origin: 1,
        },
    ),
    (
        Told::Helped,
        &[],
        &[4, 6, 0],
        Verdict::Exceeds {
            site: 1,
            at: 4,
            rec: 0,
            origin: 0,
        },
    ),
    (
        Told::Relayed,
        &[],
        &[0, 0, 1],
        Verdict::Exceeds {
            site: 2,
            at: 0,
            rec: 0,
            origin: 1,
        },
    ),
    (Told::Relayed, &[], &[2, 2, 1], Verdict::Consistent),
    (
        Told::Forged,
        &[],
        &[1, 3],
        Verdict::Exceeds {
            site: 1,
            at: 0,
            rec: 0,
            origin: 0,
        },
    ),
    (Told::Claimed, &[], &[1, 1], Verdict::Consistent),
];

static RUNS: [Case; 13] = [
    (Told::NewKeeper, &[], &[1, 0], Verdict::BadJoint { site: 0 }),
    (Told::Grows, &[], &[3, 0], Verdict::Consistent),
    (
        Told::Grows,
        &[Change::Sites(0, 0, 2)],
        &[3, 0],
        Verdict::BadReply { site: 0, at: 1 },
    ),
    (
        Told::Grows,
        &[Change::Sites(0, 1, 1)],
        &[3, 0],
        Verdict::BadReply { site: 0, at: 2 },
    ),
    (
        Told::Grows,
        &[Change::Sites(0, 1, 3)],
        &[3, 0],
        Verdict::BadJoint { site: 0 },
    ),
    (
        Told::NotKept,
        &[Change::Sites(0, 1, 1)],
        &[2, 0],
        Verdict::BadJoint { site: 0 },
    ),
    (
        Told::NotKept,
        &[Change::Sites(1, 0, 1)],
        &[2, 0],
        Verdict::BadJoint { site: 1 },
    ),
    (
        Told::NotKept,
        &[Change::Nothing(1)],
        &[2, 0],
        Verdict::Consistent,
    ),
    (Told::Noticed, &[], &[3, 2], Verdict::Consistent),
    (
        Told::Noticed,
        &[Change::Reply(1, 0, 0, Said::Merged(2))],
        &[3, 2],
        Verdict::Consistent,
    ),
    (
        Told::Noticed,
        &[Change::Reply(1, 1, 0, Said::Merged(1))],
        &[3, 2],
        Verdict::Consistent,
    ),
    (
        Told::Noticed,
        &[Change::Reply(1, 1, 0, Said::Merged(0))],
        &[3, 2],
        Verdict::BadReply { site: 1, at: 1 },
    ),
    (
        Told::Noticed,
        &[Change::Reply(1, 1, 0, Said::Merged(2))],
        &[3, 2],
        Verdict::BadReply { site: 1, at: 1 },
    ),
];

static DOUBTS: [Case; 9] = [
    (
        Told::Kept,
        &[Change::Reply(0, 0, 1, Said::Fault)],
        &[3, 0],
        Verdict::Consistent,
    ),
    (
        Told::NotKept,
        &[Change::More(0, 0, Step::Read(0, 8), Said::Fault)],
        &[3, 0],
        Verdict::Consistent,
    ),
    (
        Told::Kept,
        &[Change::Reply(0, 0, 0, Said::Fault)],
        &[3, 0],
        Verdict::BadReply { site: 0, at: 0 },
    ),
    (
        Told::Twice,
        &[Change::Reply(0, 0, 1, Said::Fault)],
        &[2, 0],
        Verdict::BadReply { site: 0, at: 1 },
    ),
    (
        Told::Kept,
        &[Change::Reply(0, 1, 0, Said::Fault)],
        &[3, 0],
        Verdict::BadReply { site: 0, at: 2 },
    ),
    (
        Told::Heard,
        &[Change::Reply(1, 0, 0, Said::Fault)],
        &[0, 1],
        Verdict::Exceeds {
            site: 1,
            at: 0,
            rec: 0,
            origin: 0,
        },
    ),
    (
        Told::Heard,
        &[Change::Reply(1, 0, 0, Said::Fault)],
        &[1, 1],
        Verdict::Consistent,
    ),
    (
        Told::Heard,
        &[Change::Reply(1, 0, 0, Said::Fault)],
        &[0, 0],
        Verdict::Consistent,
    ),
    (
        Told::NotHeard,
        &[Change::More(1, 0, Step::Take(1, 0), Said::Fault)],
        &[0, 1],
        Verdict::Consistent,
    ),
];

static REPLIES: [Case; 7] = [
    (
        Told::Helped,
        &[Change::Reply(1, 0, 3, Said::Admitted)],
        &[8, 6, 0],
        Verdict::BadReply { site: 1, at: 3 },
    ),
    (
        Told::Helped,
        &[
            Change::Reply(1, 0, 5, Said::Given),
            Change::Reply(1, 0, 3, Said::Admitted),
        ],
        &[8, 6, 0],
        Verdict::BadReply { site: 1, at: 3 },
    ),
    (
        Told::Helped,
        &[
            Change::Reply(1, 0, 3, Said::Admitted),
            Change::Reply(0, 0, 7, Said::Given),
        ],
        &[0, 6, 0],
        Verdict::BadReply { site: 0, at: 7 },
    ),
    (
        Told::Kept,
        &[Change::Reply(0, 1, 0, Said::Admitted)],
        &[0, 0],
        Verdict::BadReply { site: 0, at: 2 },
    ),
    (
        Told::Kept,
        &[Change::Reply(0, 1, 0, Said::Memory)],
        &[0, 0],
        Verdict::BadReply { site: 0, at: 2 },
    ),
    (
        Told::NewKeeper,
        &[Change::Reply(0, 0, 0, Said::Given)],
        &[0, 0],
        Verdict::BadReply { site: 0, at: 0 },
    ),
    (
        Told::Kept,
        &[Change::Reply(0, 1, 0, Said::Given)],
        &[4, 0],
        Verdict::BadCut,
    ),
];

#[test]
fn cuts_are_judged(rt: HostRuntime) {
    let other = first_other(rt.alloc(), &CUTS);
    assert!(rt; other == None, "{other:?}");
}

#[test]
fn runs_are_judged(rt: HostRuntime) {
    let other = first_other(rt.alloc(), &RUNS);
    assert!(rt; other == None, "{other:?}");
}

#[test]
fn calls_in_doubt_are_judged(rt: HostRuntime) {
    let other = first_other(rt.alloc(), &DOUBTS);
    assert!(rt; other == None, "{other:?}");
}

#[test]
fn replies_are_judged(rt: HostRuntime) {
    let other = first_other(rt.alloc(), &REPLIES);
    assert!(rt; other == None, "{other:?}");
}
