//! The verdicts on the logs of sites behind their locks.
use crate::changes::{Said, reply_of};
use crate::judged::{has_table, verdict_at};
use crate::posts::{Device, Opened, opened_twice, three_closed};
use crate::stories::Step;
use crate::verdicts::{Told, story_of};
use desk_log::same::same_reply;
use desk_log::{Entry, Transcript};
use log_judge::Verdict;
use std::alloc::Global;
use std::sync::Wait;
use test_keepers::layout_of;

// Cuts through the logs of three sites, and the verdicts.
static CUTS: [([u64; 3], Verdict); 3] = [
    ([8, 6, 0], Verdict::Consistent),
    (
        [0, 6, 0],
        Verdict::Exceeds {
            site: 1,
            at: 2,
            rec: 0,
            origin: 0,
        },
    ),
    ([9, 6, 0], Verdict::BadCut),
];

static TABLE: &str =
    "site      cut  entries  runs\n   0        8        8     1\n   1        6        6     1\n   2        0        0     1\n";

// The first cut with another verdict, and whether the first one has its table.
fn first_other_cut<R: Wait>(rt: &R, alloc: Global) -> Option<(Option<usize>, bool)> {
    let (plan, steps) = story_of(Told::Helped);
    let layout = layout_of(alloc, plan.sites, plan.seats, plan.problem)?;
    let transcripts = three_closed(rt, alloc, plan, (steps, true))?;
    let table = has_table(alloc, transcripts.as_slice(), &[8, 6, 0], TABLE);
    for (k, (cut, wanted)) in CUTS.iter().enumerate() {
        if verdict_at(alloc, &layout, transcripts.as_slice(), cut.as_slice()) != Some(*wanted) {
            return Some((Some(k), table));
        }
    }
    Some((None, table))
}

#[test]
fn three_sites_behind_their_locks_are_judged(rt: HostRuntime) {
    let other = first_other_cut(&rt, rt.alloc());
    assert!(rt; other == Some((None, true)), "{other:?}");
}

// Two openings of site 0, the replies in its log, a cut, and the verdict.
type Case = ((Opened, Opened), &'static [Said], [u64; 2], Verdict);

static CASES: [Case; 5] = [
    // The second opening goes on with what the first one left.
    (
        (
            (2, Device::New, &[Step::Read(0, 7)]),
            (2, Device::Left, &[Step::Read(0, 7), Step::Read(0, 8)]),
        ),
        &[Said::Admitted, Said::AlreadyHere, Said::Admitted],
        [3, 0],
        Verdict::Consistent,
    ),
    // The store fails, and what stands is the old content.
    (
        (
            (
                2,
                Device::Stops(false),
                &[Step::Read(0, 7), Step::Read(0, 8), Step::Read(0, 9)],
            ),
            (2, Device::Left, &[Step::Read(0, 8)]),
        ),
        &[Said::Admitted, Said::Fault, Said::Admitted],
        [3, 0],
        Verdict::Consistent,
    ),
    // The same, and what stands is the new content.
    (
        (
            (
                2,
                Device::Stops(true),
                &[Step::Read(0, 7), Step::Read(0, 8), Step::Read(0, 9)],
            ),
            (2, Device::Left, &[Step::Read(0, 8)]),
        ),
        &[Said::Admitted, Said::Fault, Said::AlreadyHere],
        [3, 0],
        Verdict::Consistent,
    ),
    // The second opening is over a new store.
    (
        ((2, Device::New, &[Step::Read(0, 7)]), (2, Device::New, &[])),
        &[Said::Admitted],
        [1, 0],
        Verdict::BadJoint { site: 0 },
    ),
    // The site knows itself alone at first.
    (
        (
            (1, Device::New, &[Step::Read(0, 7), Step::Give(0, 1, 1)]),
            (2, Device::Left, &[Step::Give(0, 1, 1)]),
        ),
        &[Said::Admitted, Said::NoSite, Said::Given],
        [3, 0],
        Verdict::Consistent,
    ),
];

// Whether the entry has this reply.
fn has_reply(entry: &Entry, said: Said) -> bool {
    same_reply(&entry.reply, &reply_of(said))
}

// Whether the log has two runs, and these replies in all its entries.
fn has_replies(transcript: &Transcript, replies: &[Said]) -> bool {
    let mut rest = replies;
    for run in transcript.runs.as_slice() {
        for entry in run.entries.as_slice() {
            match rest {
                [said, later @ ..] if has_reply(entry, *said) => rest = later,
                _ => return false,
            }
        }
    }
    rest.is_empty() && transcript.runs.len() == 2
}

// The verdict on two openings, if their log has these replies.
fn verdict_on<R: Wait>(rt: &R, alloc: Global, case: &Case) -> Option<Verdict> {
    let (openings, replies, cut, _) = case;
    let layout = layout_of(alloc, 2, 2, 1)?;
    let transcripts = opened_twice(rt, alloc, &layout, *openings)?;
    if !has_replies(transcripts.first()?, *replies) {
        return None;
    }
    verdict_at(alloc, &layout, transcripts.as_slice(), cut.as_slice())
}

// The first case with another verdict, and that verdict.
fn first_other_case<R: Wait>(rt: &R, alloc: Global) -> Option<(usize, Option<Verdict>)> {
    for (k, case) in CASES.iter().enumerate() {
        let verdict = verdict_on(rt, alloc, case);
        if verdict != Some(case.3) {
            return Some((k, verdict));
        }
    }
    None
}

#[test]
fn openings_one_after_another_are_judged(rt: HostRuntime) {
    let other = first_other_case(&rt, rt.alloc());
    assert!(rt; other == None, "{other:?}");
}
