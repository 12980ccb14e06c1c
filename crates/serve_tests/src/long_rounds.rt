//! How many rounds many lines take, and lines with long answers.
use crate::fakes::Refusal;
use crate::rounds::{InRounds, serve_in_rounds};
use exit_status::Status;
use std::alloc::Global;
use test_streams::Keeping;

// What is answered to lines that come at once, in rounds of at most `most`, and how many rounds are kept.
fn answered_in_rounds(alloc: Global, lines: &[u8], most: usize) -> Option<(Keeping, u64)> {
    let InRounds {
        ended,
        told,
        keeper,
        looks: _,
    } = serve_in_rounds(
        alloc,
        most,
        &[lines],
        u64::MAX,
        Refusal::Fault,
        None,
        u64::MAX,
        u64::MAX,
    )?;
    (ended == Status::Done).then_some((told, keeper.told.get()))
}

// So many lines, each of which needs the one before it.
const MANY: usize = 256;

// How many rounds of at most `most` are kept of so many lines, if they are answered.
fn many_lines(alloc: Global, most: usize) -> Option<u64> {
    let mut lines = Vec::new(alloc);
    let mut answers = Vec::new(alloc);
    for _ in 0..MANY / 2 {
        lines.extend_from_slice(b"read a 7\nleave a 7\n").ok()?;
        answers.extend_from_slice(b"admitted\nleft reader\n").ok()?;
    }
    let (writer, kept) = answered_in_rounds(alloc, lines.as_slice(), most)?;
    (writer.bytes() == answers.as_slice()).then_some(kept)
}

#[test]
fn so_many_lines_take_so_many_commits(rt: HostRuntime) {
    for (most, commits) in [(1, 256), (2, 128), (7, 37), (256, 1)] {
        assert!(rt;
            many_lines(rt.alloc(), most) == Some(commits),
            "most {most}"
        );
    }
}

// How many rounds are kept of a change, of so many lines with an answer of 78 bytes, and of another change.
fn long_answers(alloc: Global, lines: usize) -> Option<u64> {
    let mut text = Vec::new(alloc);
    text.extend_from_slice(b"read a 7\n").ok()?;
    for _ in 0..lines {
        text.extend_from_slice(b"send\n").ok()?;
    }
    text.extend_from_slice(b"leave a 7\n").ok()?;
    let (writer, kept) = answered_in_rounds(alloc, text.as_slice(), usize::MAX)?;
    (writer.bytes().len() == lines.saturating_mul(78).saturating_add(21)).then_some(kept)
}

#[test]
fn a_round_takes_no_line_behind_so_many_bytes_of_answers(rt: HostRuntime) {
    for (lines, rounds) in [(0, 1), (840, 1), (841, 2)] {
        assert!(rt;
            long_answers(rt.alloc(), lines) == Some(rounds),
            "{lines} lines"
        );
    }
}
