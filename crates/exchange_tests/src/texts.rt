//! The texts that an outbox sends, and those that an inbox refuses.
use crate::ends::inlet;
use crate::gates::TestGate;
use crate::sites::{Outcome, Shape, TWO, job_of, run_site};
use crossbeam_channel::unbounded;
use exchange_threads::{End, RefusalName, Refusals, Report};
use std::alloc::Global;
use std::sync::Wait;
use std::thread::Threads;

// A text with a blank, one that is cut, and one of a layout of three sites.
static UNFIT: [&str; 3] = [
    "{\"from\":0, \"rows\":[{\"ann\":0,\"fin\":0,\"out\":[2,1],\"r\":0,\"s\":0,\"taken\":0}],\"v\":1}",
    "{\"from\":0,\"rows\":[{\"",
    "{\"from\":0,\"rows\":[{\"ann\":0,\"fin\":0,\"out\":[2,1,0],\"r\":0,\"s\":0,\"taken\":0}],\"v\":1}",
];

static NAMES: [(RefusalName, u64); 3] = [
    (RefusalName::NotCanonical, 1),
    (RefusalName::NotJson, 1),
    (RefusalName::OtherLayout, 1),
];

// Whether exactly these were counted, in this order.
fn are_counted(refused: &Refusals, names: &[(RefusalName, u64)]) -> bool {
    for (place, counted) in names.iter().enumerate() {
        if refused.at(place) != Some(*counted) {
            return false;
        }
    }
    refused.len() == names.len()
}

// Whether an inbox of site 1 counts each text by its name.
fn counts_unfit<R: Threads + Wait + Sync>(rt: &R, alloc: Global) -> Option<bool> {
    let mut ends = Vec::new(alloc);
    ends.push(inlet(rt, alloc, &UNFIT)?).ok()?;
    let ended = run_site(rt, alloc, job_of(TWO, 1, ends, 8))?;
    match ended.reports.as_slice().first()? {
        Report::Got(heard) => Some(
            are_counted(&heard.refused, &NAMES)
                && (heard.taken, heard.raised, heard.memory) == (3, 0, 0),
        ),
        Report::Sent(_) => Some(false),
    }
}

#[test]
fn an_inbox_counts_refusals_in_order(rt: HostRuntime) {
    assert!(rt; counts_unfit(&rt, rt.alloc()) == Some(true));
}

// Two records: site 0 gives a seat of the first away at turn 0, and one of the second at turn 1.
const TWO_RECORDS: Shape = Shape {
    sites: 2,
    records: 2,
    seats: 2,
    home: 0,
    problem: 1,
};

const FIRST: &str =
    "{\"from\":0,\"rows\":[{\"ann\":0,\"fin\":0,\"out\":[2,1],\"r\":0,\"s\":0,\"taken\":0}],\"v\":1}";

const SECOND: &str =
    "{\"from\":0,\"rows\":[{\"ann\":0,\"fin\":0,\"out\":[2,1],\"r\":1,\"s\":0,\"taken\":0}],\"v\":1}";

const NOTHING: &str = "{\"from\":0,\"rows\":[],\"v\":1}";

const BOTH: &str =
    "{\"from\":0,\"rows\":[{\"ann\":0,\"fin\":0,\"out\":[2,1],\"r\":0,\"s\":0,\"taken\":0},{\"ann\":0,\"fin\":0,\"out\":[2,1],\"r\":1,\"s\":0,\"taken\":0}],\"v\":1}";

// The text that is sent as this number, at each turn or at each third one, from turn 1 on.
fn wanted_text(thirds: bool, number: u64) -> &'static str {
    match (thirds, number) {
        (false, 0) => FIRST,
        (false, 1) => SECOND,
        (_, 0 | 16 | 32) => BOTH,
        _ => NOTHING,
    }
}

// Whether the outbox told of 34 turns, of two gifts, and of so many texts.
fn tells_all(ended: &Outcome, sent: u64) -> bool {
    match ended.reports.as_slice().first() {
        Some(Report::Sent(told)) => {
            (told.turns, told.helped, told.sent, told.memory) == (34, 2, sent, 0)
        }
        _ => false,
    }
}

// The number of the first text that is another than wanted, or the number of texts.
fn first_other<R: Threads + Wait + Sync>(
    rt: &R,
    alloc: Global,
    thirds: bool,
    sent: u64,
) -> Option<(bool, u64)> {
    let (sender, receiver) = unbounded(alloc).ok()?;
    let mut ends = Vec::new(alloc);
    let gate = if thirds {
        TestGate::Thirds
    } else {
        TestGate::Always
    };
    ends.push(End::Outlet(sender, gate)).ok()?;
    let ended = run_site(rt, alloc, job_of(TWO_RECORDS, 0, ends, 34))?;
    let mut number = 0u64;
    for text in receiver.iter(rt) {
        if text.as_str() != wanted_text(thirds, number) {
            break;
        }
        number = number.saturating_add(1);
    }
    Some((tells_all(&ended, sent), number))
}

// Texts 0, 16 and 32 are whole, and all others have what is new. A shut gate sends none.
#[test]
fn most_texts_have_what_is_new_alone(rt: HostRuntime) {
    for (thirds, sent) in [(false, 34), (true, 11)] {
        let other = first_other(&rt, rt.alloc(), thirds, sent);
        assert!(rt; other == Some((true, sent)), "{thirds} {other:?}");
    }
}
