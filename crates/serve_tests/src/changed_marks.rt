//! A mark of which one byte is changed, or left out, or the last.
use durable_keeper::MemoryKeeper;
use exit_status::Status;
use layout_file::built_in;
use line_conversation::StreamConversation;
use live_site::{NoLog, NoPlace};
use serve_engine::{Marking, line_limit, serve_engine};
use std::alloc::Global;
use test_streams::{Giving, Keeping, NEVER};
use text_input::{Sink, Source};

// The mark of the text, with the digests of Python's hashlib, and the text.
const MARK: &[u8] = b"payroll d6a41a2b6edb4b8d dd43195b ";

const TEXT: &[u8] =
    b"{\"from\":0,\"rows\":[{\"ann\":0,\"fin\":0,\"out\":[2,1],\"r\":0,\"s\":0,\"taken\":0}],\"v\":1}";

// What becomes of a byte of the mark.
#[derive(Clone, Copy, PartialEq, Eq)]
enum Change {
    /// It is another digit.
    Digit,
    /// It is a capital.
    Capital,
    /// It is left out.
    LeftOut,
    /// The line ends in front of it.
    Cut,
}

// What stands at a place of the mark, where that byte is changed.
fn changed_byte(byte: u8, change: Change) -> Option<u8> {
    match change {
        Change::Digit => {
            if byte == b'0' {
                return Some(b'1');
            }
            Some(b'0')
        }
        Change::Capital => Some(b'A'),
        Change::LeftOut => None,
        Change::Cut => None,
    }
}

// The line that takes the text behind the mark with this change, and one more line.
fn line_with(alloc: Global, place: usize, change: Change) -> Option<Vec<u8>> {
    let mut line = Vec::from_slice(alloc, b"take ").ok()?;
    for (at, byte) in MARK.iter().enumerate() {
        if at != place && (at < place || change != Change::Cut) {
            line.push(*byte).ok()?;
        }
        if at == place {
            if let Some(other) = changed_byte(*byte, change) {
                line.push(other).ok()?;
            }
        }
    }
    if change != Change::Cut {
        line.extend_from_slice(TEXT).ok()?;
    }
    line.extend_from_slice(b"\nread a 7\n").ok()?;
    Some(line)
}

// The answers to it and to the line behind it: the text isn't merged, so there is no seat.
fn wanted(place: usize, change: Change) -> &'static str {
    let digits = (place >= 8 && place < 24) || (place >= 25 && place < 33);
    if change == Change::Cut || (digits && change != Change::Digit) {
        return "refused NoMark\nrefused NoSeat 0\n";
    }
    match place {
        0..=6 => "refused WrongGroup\nrefused NoSeat 0\n",
        8..=23 => "refused OtherRecords\nrefused NoSeat 0\n",
        25..=32 => "refused Damaged\nrefused NoSeat 0\n",
        _ => "refused NoMark\nrefused NoSeat 0\n",
    }
}

// Whether that is answered.
fn is_refused(alloc: Global, place: usize, change: Change) -> Option<bool> {
    let line = line_with(alloc, place, change)?;
    let layout = built_in(alloc).ok()?;
    let keeper = MemoryKeeper::new(alloc, &layout, 1).ok()?;
    let mut reader = Giving::new(line.as_slice(), NEVER);
    let mut writer = Keeping::new(alloc, NEVER);
    let group = Some("payroll");
    let mut talk = StreamConversation::new(
        alloc,
        Source::new(&mut reader),
        Sink::new(&mut writer),
        line_limit(group, Marking::Marked),
    )
    .ok()?;
    let (ended, _keeper) = serve_engine(
        alloc,
        keeper,
        layout,
        1,
        group,
        Marking::Marked,
        &mut talk,
        &mut NoLog {},
        &NoPlace {},
    );
    drop(talk);
    Some(ended == Status::Done && writer.bytes() == wanted(place, change).as_bytes())
}

// The first place at which that is not so.
fn first_other(alloc: Global, change: Change) -> Option<usize> {
    for place in 0..MARK.len() {
        if is_refused(alloc, place, change) != Some(true) {
            return Some(place);
        }
    }
    None
}

#[test]
fn a_mark_with_another_byte_is_refused(rt: HostRuntime) {
    for change in [Change::Digit, Change::Capital, Change::LeftOut, Change::Cut] {
        let other = first_other(rt.alloc(), change);
        assert!(rt; other == None, "{other:?}");
    }
}
