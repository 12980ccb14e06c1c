//! Readers and writers that fail, and inputs at the limit and a byte past it.
use super::ending;
use crate::faults::{FAULTS, FIVE_ANSWERS, Fault, is_ended, reader_of, writer_of};
use exit_status::Status;
use std::alloc::Global;
use test_streams::texts::TWO_SITES;
use test_streams::{Giving, Keeping, NEVER};

const FIVE_CALLS: &[u8] = b"0 read a 7\n0 read a 8\n0 read a 9\n0 leave a 7\n0 leave a 8\n";

// Whether the script of five calls ends so.
fn ends_so(alloc: Global, fault: &Fault) -> bool {
    let mut reader = reader_of(FIVE_CALLS, fault);
    let mut writer = writer_of(alloc, fault);
    match ending(alloc, TWO_SITES, None, false, &mut reader, &mut writer) {
        Some(ended) => is_ended(ended, &writer, FIVE_ANSWERS, fault),
        None => false,
    }
}

#[test]
fn a_play_whose_reader_or_writer_fails_says_so(rt: HostRuntime) {
    for (row, fault) in FAULTS.iter().enumerate() {
        assert!(rt; ends_so(rt.alloc(), fault), "row {row}");
    }
}

// How many blanks stand behind a line, and what is written: of an input that is too long no line is carried out.
static LONG: [(usize, &str); 2] = [
    (16_777_205, "admitted\nline 2 refused BadWord\n"),
    (16_777_206, "input refused TooLong\n"),
];

fn is_refused(alloc: Global, blanks: usize, output: &str) -> bool {
    let mut reader = Giving::new(b"0 read a 7\n", NEVER).followed_by(b' ', blanks);
    let mut writer = Keeping::new(alloc, NEVER);
    let ended = ending(alloc, TWO_SITES, None, false, &mut reader, &mut writer);
    ended == Some(Status::Refused) && writer.bytes() == output.as_bytes()
}

#[test]
fn a_script_past_the_limit_is_refused_whole(rt: HostRuntime) {
    for (blanks, output) in &LONG {
        assert!(rt; is_refused(rt.alloc(), *blanks, output), "{blanks}");
    }
}
