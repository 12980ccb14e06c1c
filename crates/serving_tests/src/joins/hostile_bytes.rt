//! Bytes that no site sends: each is refused by its name, or is the text of another delta.
use super::ending;
use delta_codec::{decode, encode};
use exit_status::Status;
use layout_file::built_in;
use merge_core::Layout;
use std::alloc::{AllocError, Global};
use test_streams::{Giving, Keeping, NEVER};

// The text of a delta of one row, without its line end.
static TEXT: &[u8] =
    b"{\"from\":0,\"rows\":[{\"ann\":0,\"fin\":0,\"out\":[2,1],\"r\":0,\"s\":0,\"taken\":0}],\"v\":1}";

static REFUSALS: [&str; 5] = [
    "line 1 refused NotUtf8\n",
    "line 1 refused NotJson\n",
    "line 1 refused NotCanonical\n",
    "line 1 refused OtherLayout 0\n",
    "line 1 refused BadRow 0\n",
];

// How many inputs were answered by each refusal, and last, how many were joined that are texts of deltas.
type Tally = [usize; 6];

// Whether the bytes are the text of the delta that they decode to.
fn encodes_to_itself(alloc: Global, bytes: &[u8]) -> Result<bool, AllocError> {
    match decode(alloc, bytes) {
        Ok(delta) => Ok(encode(alloc, &delta)?.as_bytes() == bytes),
        Err(_) => Ok(false),
    }
}

// The place of the refusal that was written.
fn refusal_place(written: &[u8]) -> Option<usize> {
    for (place, refusal) in REFUSALS.iter().enumerate() {
        if written == refusal.as_bytes() {
            return Some(place);
        }
    }
    None
}

// The place in a tally where an input counts.
fn tally_place(alloc: Global, layout: &Layout, input: &[u8]) -> Option<usize> {
    let mut reader = Giving::new(input, NEVER);
    let mut writer = Keeping::new(alloc, NEVER);
    match ending(alloc, layout, &mut reader, &mut writer) {
        Status::Refused => refusal_place(writer.bytes()),
        Status::Done if encodes_to_itself(alloc, input) == Ok(true) => Some(5),
        _ => None,
    }
}

// Counts an input that is answered in one of these ways.
fn count(alloc: Global, layout: &Layout, input: &[u8], tally: &mut Tally) {
    if let Some(place) = tally_place(alloc, layout, input)
        && place < 6
    {
        tally[place] = tally[place].saturating_add(1);
    }
}

// Counts the answers to the texts that differ from this one at one place.
fn count_changed(alloc: Global, layout: &Layout, text: &mut [u8], place: usize, tally: &mut Tally) {
    if place >= text.len() {
        return;
    }
    let kept = text[place];
    for byte in 0..=255u8 {
        if byte != kept {
            text[place] = byte;
            count(alloc, layout, text, tally);
        }
    }
    text[place] = kept;
}

// The answers to all texts with one byte changed.
fn tally_changed(alloc: Global, layout: &Layout) -> Result<Tally, AllocError> {
    let mut text = Vec::from_slice(alloc, TEXT)?;
    let mut tally = [0; 6];
    for place in 0..TEXT.len() {
        count_changed(alloc, layout, text.as_mut_slice(), place, &mut tally);
    }
    Ok(tally)
}

// The answers to all beginnings of the text, from one byte to all of them.
fn tally_cut_off(alloc: Global, layout: &Layout) -> Tally {
    let mut tally = [0; 6];
    for length in 1..=TEXT.len() {
        count(alloc, layout, &TEXT[..length], &mut tally);
    }
    tally
}

// There are 19,635 texts with one byte changed. The figures are those of `checks/second_reader.py`.
#[test]
fn a_changed_byte_is_refused_or_makes_another_text(rt: HostRuntime) {
    let layout = built_in(rt.alloc()).expect(&rt, "a layout");
    let tally = tally_changed(rt.alloc(), &layout);
    assert!(rt; tally == Ok([9_856, 7_354, 2_343, 17, 29, 36]), "{tally:?}");
}

#[test]
fn a_text_that_is_cut_off_is_refused(rt: HostRuntime) {
    let layout = built_in(rt.alloc()).expect(&rt, "a layout");
    let tally = tally_cut_off(rt.alloc(), &layout);
    assert!(rt; tally == [0, 76, 0, 0, 0, 1], "{tally:?}");
}

// Bytes, a byte that follows them so many times, how many of these the engine does not read, and what is written.
type Row = (&'static [u8], u8, usize, usize, &'static str);

static INPUTS: [Row; 17] = [
    // lines of 2,097,152 and 2,097,153 bytes, and one as long as an input may be
    (b"{}", b' ', 2_097_150, 0, "line 1 refused NotCanonical\n"),
    (b"{}", b' ', 2_097_151, 0, "line 1 refused TooLong\n"),
    (b"", b' ', 16_777_216, 0, "line 1 refused TooLong\n"),
    (b"", 0, 2_097_152, 0, "line 1 refused NotJson\n"),
    (b"", 255, 2_097_152, 0, "line 1 refused NotUtf8\n"),
    (b"", 255, 2_097_153, 0, "line 1 refused TooLong\n"),
    // inputs past the limit: of what is behind it one byte is read, and a line that is refused comes after the limit
    (b"", b' ', 16_777_217, 0, "input refused TooLong\n"),
    (b"", b' ', 20_000_000, 3_222_783, "input refused TooLong\n"),
    (
        b"\n",
        b' ',
        20_000_000,
        3_222_784,
        "input refused TooLong\n",
    ),
    // empty lines
    (b"", b'\n', 1_000_000, 0, "line 1 refused NotJson\n"),
    (
        b"{\"from\":0,\"rows\":[],\"v\":1}\n",
        b'\n',
        1_000_000,
        0,
        "line 2 refused NotJson\n",
    ),
    // no UTF-8, NUL behind a text, CR before the line end, a byte order mark
    (b"\xff", b' ', 0, 0, "line 1 refused NotUtf8\n"),
    (
        b"{\"from\":0,\"rows\":[],\"v\":1}",
        0,
        1,
        0,
        "line 1 refused NotJson\n",
    ),
    (
        b"{\"from\":0,\"rows\":[],\"v\":1}\r",
        b'\n',
        1,
        0,
        "line 1 refused NotCanonical\n",
    ),
    (
        b"\xef\xbb\xbf{\"from\":0,\"rows\":[],\"v\":1}",
        b'\n',
        1,
        0,
        "line 1 refused NotJson\n",
    ),
    (b"\0", b'\n', 1, 0, "line 1 refused NotJson\n"),
    (b"\r", b'\n', 1, 0, "line 1 refused NotJson\n"),
];

// Whether the input is refused in these words, and so many of the bytes that follow are not read.
fn is_refused(alloc: Global, layout: &Layout, row: &Row) -> bool {
    let (bytes, filler, fillers, left, refusal) = *row;
    let mut reader = Giving::new(bytes, NEVER).followed_by(filler, fillers);
    let mut writer = Keeping::new(alloc, NEVER);
    let ended = ending(alloc, layout, &mut reader, &mut writer);
    let refused = ended == Status::Refused && writer.bytes() == refusal.as_bytes();
    refused && reader.fillers() == left
}

#[test]
fn long_empty_and_strange_lines_are_refused(rt: HostRuntime) {
    let layout = built_in(rt.alloc()).expect(&rt, "a layout");
    for (place, row) in INPUTS.iter().enumerate() {
        assert!(rt; is_refused(rt.alloc(), &layout, row), "row {place}");
    }
}

// What so many arrays, each in the one before, are refused by.
fn nesting_refused(alloc: Global, layout: &Layout, depth: usize) -> Option<usize> {
    let mut text = Vec::new(alloc);
    for _ in 0..depth {
        text.push(b'[').ok()?;
    }
    for _ in 0..depth {
        text.push(b']').ok()?;
    }
    tally_place(alloc, layout, text.as_slice())
}

// 127 arrays are JSON, and 128 are not.
#[test]
fn deep_nesting_is_no_json(rt: HostRuntime) {
    let layout = built_in(rt.alloc()).expect(&rt, "a layout");
    for (depth, place) in [(127, 2), (128, 1)] {
        let refused = nesting_refused(rt.alloc(), &layout, depth);
        assert!(rt; refused == Some(place), "{depth}");
    }
}
