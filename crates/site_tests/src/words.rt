//! Replies written with ample memory, and lines read by the code that is run.
use crate::layouts::{Line, layout_of};
use admission_model::{Ask, Phase, Refusal, Reply};
use merge_core::Delta;
use script_text::laws::{ask_examples, record_examples, reply_examples, word_examples};
use script_text::{ask_in, push_refusal, push_reply};
use std::alloc::Global;

// Each refusal and its text, behind a text that is there already.
const REFUSALS: [(Refusal, &str); 3] = [
    (Refusal::NoSite, "> refused NoSite"),
    (
        Refusal::MissingSeats {
            rights: 18_446_744_073_709_551_615,
            seats: 65_535,
        },
        "> refused MissingSeats 18446744073709551615 65535",
    ),
    (
        Refusal::WriterAnnounced { site: 15 },
        "> refused WriterAnnounced 15",
    ),
];

fn refusal_behind(alloc: Global, refusal: Refusal) -> Option<String> {
    let mut text = String::from_str(alloc, "> ").ok()?;
    push_refusal(&mut text, refusal).ok()?;
    Some(text)
}

fn refusal_says(alloc: Global, refusal: Refusal, want: &str) -> bool {
    match refusal_behind(alloc, refusal) {
        Some(text) => text.as_str() == want,
        None => false,
    }
}

// The first refusal that is written otherwise.
fn first_wrong_refusal(alloc: Global) -> Option<usize> {
    for (k, (refusal, text)) in REFUSALS.iter().enumerate() {
        if !refusal_says(alloc, *refusal, *text) {
            return Some(k);
        }
    }
    None
}

#[test]
fn refusals_are_written(rt: HostRuntime) {
    assert_eq!(rt; first_wrong_refusal(rt.alloc()), None);
}

fn reply_behind(alloc: Global, reply: &Reply) -> Option<String> {
    let mut text = String::from_str(alloc, "> ").ok()?;
    push_reply(&mut text, reply).ok()?;
    Some(text)
}

fn reply_says(alloc: Global, reply: &Reply, want: &str) -> bool {
    match reply_behind(alloc, reply) {
        Some(text) => text.as_str() == want,
        None => false,
    }
}

// The first of these replies that is written otherwise.
fn first_wrong_reply(alloc: Global, replies: &[(Reply, &str)]) -> Option<usize> {
    for (k, (reply, text)) in replies.iter().enumerate() {
        if !reply_says(alloc, reply, *text) {
            return Some(k);
        }
    }
    None
}

// The same for a reply of each of four kinds, the last with a delta of no rows.
fn first_wrong_of_four(alloc: Global) -> Option<Option<usize>> {
    let empty = Delta::new(1, Vec::new(alloc)).ok()?;
    let replies = [
        (Reply::Left(Phase::Waiting), "> withdrawn"),
        (Reply::Gave { to: 1, seats: 20 }, "> gave 1 20"),
        (Reply::Refused(Refusal::NoRecord), "> refused NoRecord"),
        (Reply::Snapshot(empty), "> {\"from\":1,\"rows\":[],\"v\":1}"),
    ];
    Some(first_wrong_reply(alloc, &replies))
}

#[test]
fn replies_are_written(rt: HostRuntime) {
    assert_eq!(rt; first_wrong_of_four(rt.alloc()), Some(None));
}

const RECORDS: [Line; 2] = [("a", 2, 0, 1), ("stock-2", 2, 0, 1)];

// Lines, and what each asks of the two records.
const LINES: [(&str, Option<Ask>); 4] = [
    (
        "read stock-2 18446744073709551615",
        Some(Ask::Read {
            r: 1,
            h: 18_446_744_073_709_551_615,
        }),
    ),
    ("read stock-2 18446744073709551616", None),
    ("help stock-3", Some(Ask::Help { r: 65_535 })),
    ("help stock-2 ", None),
];

// The first line that is read otherwise.
fn first_wrong_line(alloc: Global) -> Option<Option<usize>> {
    let layout = layout_of(alloc, 2, &RECORDS)?;
    for (k, (line, ask)) in LINES.iter().enumerate() {
        if ask_in(&layout, line.as_bytes()) != *ask {
            return Some(Some(k));
        }
    }
    Some(None)
}

#[test]
fn lines_are_read(rt: HostRuntime) {
    word_examples();
    record_examples();
    ask_examples();
    reply_examples();
    assert_eq!(rt; first_wrong_line(rt.alloc()), Some(None));
}
