//! The engine of `join` with a reader and a writer whose bytes and faults are chosen; in the module below hostile bytes.
mod hostile_bytes;

use crate::faults::{Fault, is_ended, reader_of, writer_of};
use exit_status::Status;
use join_engine::join_engine;
use layout_file::{built_in, read_layout};
use merge_core::Layout;
use std::alloc::{AllocError, Global};
use std::io::ErrorKind;
use test_streams::texts::{FIRST, GAVE, SECOND, THIRD, THREE_SITES};
use test_streams::{Giving, Keeping, NEVER};
use text_input::{Sink, Source};

// The text of a book that nothing happened to.
const NOTHING: &str = "{\"from\":0,\"rows\":[],\"v\":1}\n";
// Site 0 announced a writer, and gave nothing.
const ANNOUNCED: &str =
    "{\"from\":0,\"rows\":[{\"ann\":1,\"fin\":0,\"out\":[2,0],\"r\":0,\"s\":0,\"taken\":0}],\"v\":1}\n";

const GAVE_AND_ANNOUNCED: &str =
    "{\"from\":0,\"rows\":[{\"ann\":1,\"fin\":0,\"out\":[2,1],\"r\":0,\"s\":0,\"taken\":0}],\"v\":1}\n";

// A row of the first site, told before the second one came, and the same row at both sites.
const TOLD_ALONE: &str =
    "{\"from\":0,\"rows\":[{\"ann\":0,\"fin\":0,\"out\":[2],\"r\":0,\"s\":0,\"taken\":1}],\"v\":1}\n";

const TOLD_BY_BOTH: &str =
    "{\"from\":0,\"rows\":[{\"ann\":0,\"fin\":0,\"out\":[2,0],\"r\":0,\"s\":0,\"taken\":1}],\"v\":1}\n";

// How the engine ends with these.
fn ending(alloc: Global, layout: &Layout, reader: &mut Giving, writer: &mut Keeping) -> Status {
    join_engine(
        alloc,
        layout,
        &mut Source::new(reader),
        &mut Sink::new(writer),
    )
}

// Whether the engine ends with this status, having written this.
fn is_answer(
    alloc: Global,
    layout: &Layout,
    reader: &mut Giving,
    status: Status,
    output: &str,
) -> bool {
    let mut writer = Keeping::new(alloc, NEVER);
    let ended = ending(alloc, layout, reader, &mut writer);
    ended == status && writer.bytes() == output.as_bytes()
}

// The same for the joined parts of an input.
fn is_answer_to(
    alloc: Global,
    layout: &Layout,
    parts: &[&str; 4],
    status: Status,
    output: &str,
) -> Result<bool, AllocError> {
    let mut input = String::new(alloc);
    for part in parts {
        input.push_str(part)?;
    }
    let mut reader = Giving::new(input.as_bytes(), NEVER);
    Ok(is_answer(alloc, layout, &mut reader, status, output))
}

// The parts of an input, and what it is answered.
type Row = ([&'static str; 4], &'static str);

// The first row that is not answered so.
fn first_other(alloc: Global, layout: &Layout, status: Status, rows: &[Row]) -> Option<usize> {
    for (place, (parts, output)) in rows.iter().enumerate() {
        if is_answer_to(alloc, layout, parts, status, output) != Ok(true) {
            return Some(place);
        }
    }
    None
}

// The lines join in any order and with repeats; a row of fewer sites is joined.
static TWO_SITE_INPUTS: [Row; 10] = [
    ([GAVE, NOTHING, "", ""], GAVE),
    ([NOTHING, GAVE, "", ""], GAVE),
    ([GAVE, GAVE, NOTHING, NOTHING], GAVE),
    ([NOTHING, GAVE, NOTHING, GAVE], GAVE),
    ([NOTHING, "", "", ""], NOTHING),
    (["", "", "", ""], NOTHING),
    ([ANNOUNCED, GAVE, "", ""], GAVE_AND_ANNOUNCED),
    ([GAVE, ANNOUNCED, "", ""], GAVE_AND_ANNOUNCED),
    (["{\"from\":0,\"rows\":[],\"v\":1}", "", "", ""], NOTHING),
    ([TOLD_ALONE, "", "", ""], TOLD_BY_BOTH),
];

#[test]
fn lines_join_in_any_order_and_with_repeats(rt: HostRuntime) {
    let layout = built_in(rt.alloc()).expect(&rt, "a layout");
    let other = first_other(rt.alloc(), &layout, Status::Done, &TWO_SITE_INPUTS);
    assert!(rt; other == None, "{other:?}");
}

static THREE_SITE_INPUTS: [Row; 7] = [
    ([THIRD, SECOND, SECOND, ""], THIRD),
    ([SECOND, THIRD, SECOND, ""], THIRD),
    ([SECOND, SECOND, THIRD, ""], THIRD),
    ([FIRST, SECOND, THIRD, ""], THIRD),
    ([THIRD, SECOND, FIRST, ""], THIRD),
    ([SECOND, FIRST, THIRD, FIRST], THIRD),
    ([THIRD, FIRST, THIRD, SECOND], THIRD),
];

#[test]
fn three_messages_join_to_the_last(rt: HostRuntime) {
    let layout = read_layout(rt.alloc(), THREE_SITES.as_bytes()).expect(&rt, "a layout");
    let other = first_other(rt.alloc(), &layout, Status::Done, &THREE_SITE_INPUTS);
    assert!(rt; other == None, "{other:?}");
}

static REFUSED_INPUTS: [Row; 13] = [
    (
        [
            "",
            "{\"from\":0,\"rows\":[{\"ann\":0,\"fin\":0,\"out\":[0],\"r\":0,\"s\":1,\"taken\":0}],\"v\":1}\n",
            GAVE,
            "[",
        ],
        "line 1 refused OtherLayout 0\n",
    ),
    (
        [
            "",
            "{\"from\":0,\"rows\":[{\"ann\":0,\"fin\":0,\"out\":[1,0],\"r\":0,\"s\":0,\"taken\":0}],\"v\":1}\n",
            GAVE,
            "[",
        ],
        "line 1 refused BadRow 0\n",
    ),
    (
        [
            "",
            "{\"from\":0,\"rows\":[{\"ann\":0,\"fin\":0,\"out\":[3,0],\"r\":0,\"s\":0,\"taken\":0}],\"v\":1}\n",
            GAVE,
            "[",
        ],
        "line 1 refused BadRow 0\n",
    ),
    (
        [
            "",
            "{\"from\":0,\"rows\":[{\"ann\":0,\"fin\":1,\"out\":[2,0],\"r\":0,\"s\":0,\"taken\":0}],\"v\":1}\n",
            GAVE,
            "[",
        ],
        "line 1 refused BadRow 0\n",
    ),
    (
        [
            "",
            "{\"from\":0,\"rows\":[{\"ann\":0,\"fin\":0,\"out\":[2,1,0],\"r\":0,\"s\":0,\"taken\":0}],\"v\":1}\n",
            GAVE,
            "[",
        ],
        "line 1 refused OtherLayout 0\n",
    ),
    (
        [
            GAVE,
            "{\"from\":0,\"rows\":[{\"ann\":0,\"fin\":0,\"out\":[2,1],\"r\":0,\"s\":0,\"taken\":0},{\"ann\":0,\"fin\":0,\"out\":[0,0],\"r\":7,\"s\":0,\"taken\":0}],\"v\":1}",
            "",
            "",
        ],
        "line 2 refused OtherLayout 1\n",
    ),
    ([NOTHING, "\n", GAVE, "["], "line 2 refused NotJson\n"),
    ([NOTHING, "[\n", GAVE, "["], "line 2 refused NotJson\n"),
    ([GAVE, "{}\n", GAVE, "["], "line 2 refused NotCanonical\n"),
    (
        [GAVE, "{\"from\":0,\"rows\":[],\"v\":1}\r\n", GAVE, "["],
        "line 2 refused NotCanonical\n",
    ),
    (
        [GAVE, " {\"from\":0,\"rows\":[],\"v\":1}\n", GAVE, "["],
        "line 2 refused NotCanonical\n",
    ),
    (
        [GAVE, "{\"from\":0,\"rows\":[],\"v\":2}\n", GAVE, "["],
        "line 2 refused NotCanonical\n",
    ),
    (["", "{}\n[\n", GAVE, "["], "line 1 refused NotCanonical\n"),
];

#[test]
fn the_first_refused_line_is_the_only_answer(rt: HostRuntime) {
    let layout = built_in(rt.alloc()).expect(&rt, "a layout");
    let other = first_other(rt.alloc(), &layout, Status::Refused, &REFUSED_INPUTS);
    assert!(rt; other == None, "{other:?}");
}

// The input comes in two reads, a third finds the end; the answer goes out in twelve writes and a flush.
static FAULTS: [Fault; 10] = [
    (0, NEVER, ErrorKind::Other, Status::Io, 0),
    (1, NEVER, ErrorKind::Other, Status::Io, 0),
    (2, NEVER, ErrorKind::Other, Status::Io, 0),
    (0, NEVER, ErrorKind::OutOfMemory, Status::Memory, 0),
    (2, NEVER, ErrorKind::OutOfMemory, Status::Memory, 0),
    (NEVER, 0, ErrorKind::Other, Status::Io, 0),
    (NEVER, 5, ErrorKind::Other, Status::Io, 35),
    (NEVER, 11, ErrorKind::Other, Status::Io, 77),
    (NEVER, 12, ErrorKind::Other, Status::Io, 78),
    (NEVER, 5, ErrorKind::OutOfMemory, Status::Io, 35),
];

#[test]
fn a_join_whose_reader_or_writer_fails_says_so(rt: HostRuntime) {
    let layout = built_in(rt.alloc()).expect(&rt, "a layout");
    for (row, fault) in FAULTS.iter().enumerate() {
        let mut reader = reader_of(GAVE.as_bytes(), fault);
        let mut writer = writer_of(rt.alloc(), fault);
        let ended = ending(rt.alloc(), &layout, &mut reader, &mut writer);
        assert!(rt; is_ended(ended, &writer, GAVE, fault), "row {row}");
    }
}

// Whether so many lines are joined, in parts of 40 bytes or in great ones.
fn joins_many(alloc: Global, layout: &Layout, lines: u32, in_small_parts: bool) -> Option<bool> {
    let mut input = String::new(alloc);
    for _ in 0..lines {
        input.push_str(NOTHING).ok()?;
    }
    if in_small_parts {
        let mut reader = Giving::new(input.as_bytes(), NEVER);
        return Some(is_answer(alloc, layout, &mut reader, Status::Done, NOTHING));
    }
    let mut writer = Keeping::new(alloc, NEVER);
    let ended = join_engine(
        alloc,
        layout,
        &mut Source::new(input.as_bytes()),
        &mut Sink::new(&mut writer),
    );
    Some(ended == Status::Done && writer.bytes() == NOTHING.as_bytes())
}

// 300,000 lines in 8.1 MB: a cost that grows with the square of the input takes hours.
#[test]
fn very_many_lines_are_joined_in_time(rt: HostRuntime) {
    let layout = built_in(rt.alloc()).expect(&rt, "a layout");
    for in_small_parts in [true, false] {
        let joined = joins_many(rt.alloc(), &layout, 300_000, in_small_parts);
        assert!(rt; joined == Some(true), "{in_small_parts}");
    }
}
