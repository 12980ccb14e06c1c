//! The engine of `judge`: closed logs and cuts, lines that are none of a log, and faults.
use crate::faults::{Fault, is_ended, reader_of, writer_of};
use exit_status::Status;
use judge_engine::{Cut, CutError, judge_engine};
use layout_file::read_layout;
use std::alloc::Global;
use std::io::{ErrorKind, Write};
use test_streams::texts::{THREE_SITES, TWO_SITES};
use test_streams::{Giving, Keeping, NEVER};
use text_input::{Sink, Source};

// How the engine ends with a reader, if there are such a layout and such a cut.
fn ending<W: Write>(
    alloc: Global,
    toml: &str,
    word: &str,
    reader: &mut Giving,
    writer: &mut W,
) -> Option<Status> {
    let layout = read_layout(alloc, toml.as_bytes()).ok()?;
    let cut = Cut::parse(alloc, word.as_bytes()).ok()?;
    let ended = judge_engine(
        alloc,
        &layout,
        &cut,
        &mut Source::new(reader),
        &mut Sink::new(writer),
    );
    Some(ended)
}

// A layout, a word for a cut, and an input; and how the engine ends, having written this.
type Story = (
    &'static str,
    &'static str,
    &'static str,
    Status,
    &'static str,
);

// Whether the engine ends so.
fn ends(alloc: Global, story: &Story) -> bool {
    let (toml, word, input, status, output) = *story;
    let mut reader = Giving::new(input.as_bytes(), NEVER);
    let mut writer = Keeping::new(alloc, NEVER);
    let ended = ending(alloc, toml, word, &mut reader, &mut writer);
    ended == Some(status) && writer.bytes() == output.as_bytes()
}

// The first story that ends otherwise.
fn first_other(alloc: Global, stories: &[Story]) -> Option<usize> {
    for (place, story) in stories.iter().enumerate() {
        if !ends(alloc, story) {
            return Some(place);
        }
    }
    None
}

// The log of site 1 of three: a writer is announced.
const ANNOUNCED: &str = "\
{\"book\":\"{\\\"from\\\":1,\\\"rows\\\":[],\\\"v\\\":1}\",\"sessions\":[],\"site\":1,\"sites\":3}\n\
{\"call\":\"announce a 5\",\"pass\":0,\"reply\":\"announced 1\"}\n";

// The same with another reply.
const ANNOUNCED_TWICE: &str = "\
{\"book\":\"{\\\"from\\\":1,\\\"rows\\\":[],\\\"v\\\":1}\",\"sessions\":[],\"site\":1}\n\
{\"call\":\"announce a 5\",\"pass\":0,\"reply\":\"announced 2\"}\n";

// Site 0 of two gives a seat away and tells it; site 1 merges that, and lets a reader in. The runs of site 1 come first,
// and site 0 is opened twice.
const GIVEN: &str = "\
{\"book\":\"{\\\"from\\\":1,\\\"rows\\\":[],\\\"v\\\":1}\",\"sessions\":[],\"site\":1,\"sites\":2}\n\
{\"call\":\"take {\\\"from\\\":0,\\\"rows\\\":[{\\\"ann\\\":0,\\\"fin\\\":0,\\\"out\\\":[2,1],\\\"r\\\":0,\\\"s\\\":0,\\\"taken\\\":0}],\\\"v\\\":1}\",\"pass\":2,\"reply\":\"merged 1\"}\n\
{\"call\":\"read a 8\",\"pass\":0,\"reply\":\"admitted\"}\n\
{\"book\":\"{\\\"from\\\":0,\\\"rows\\\":[],\\\"v\\\":1}\",\"sessions\":[],\"site\":0,\"sites\":2}\n\
{\"call\":\"give a 1 1\",\"pass\":0,\"reply\":\"given\"}\n\
{\"book\":\"{\\\"from\\\":0,\\\"rows\\\":[{\\\"ann\\\":0,\\\"fin\\\":0,\\\"out\\\":[2,1],\\\"r\\\":0,\\\"s\\\":0,\\\"taken\\\":0}],\\\"v\\\":1}\",\"sessions\":[],\"site\":0,\"sites\":2}\n\
{\"call\":\"read ?7 1\",\"pass\":65535,\"reply\":\"refused NoRecord\"}\n";

// Site 0 of two begins its second run as if it had given nothing away.
const FORGOTTEN: &str = "\
{\"book\":\"{\\\"from\\\":0,\\\"rows\\\":[],\\\"v\\\":1}\",\"sessions\":[],\"site\":0,\"sites\":2}\n\
{\"call\":\"give a 1 1\",\"pass\":0,\"reply\":\"given\"}\n\
{\"book\":\"{\\\"from\\\":0,\\\"rows\\\":[],\\\"v\\\":1}\",\"sessions\":[],\"site\":0,\"sites\":2}\n";

// Site 0 of two gives a seat away; site 1 merges that while its store fails, and its second run shows that the merge was
// carried out. The log of site 1 comes first.
const MERGED_IN_DOUBT: &str = "\
{\"book\":\"{\\\"from\\\":1,\\\"rows\\\":[],\\\"v\\\":1}\",\"sessions\":[],\"site\":1,\"sites\":2}\n\
{\"call\":\"take {\\\"from\\\":0,\\\"rows\\\":[{\\\"ann\\\":0,\\\"fin\\\":0,\\\"out\\\":[2,1],\\\"r\\\":0,\\\"s\\\":0,\\\"taken\\\":0}],\\\"v\\\":1}\",\"pass\":2,\"reply\":\"refused StoreFault\"}\n\
{\"book\":\"{\\\"from\\\":1,\\\"rows\\\":[{\\\"ann\\\":0,\\\"fin\\\":0,\\\"out\\\":[2,1],\\\"r\\\":0,\\\"s\\\":0,\\\"taken\\\":0}],\\\"v\\\":1}\",\"sessions\":[],\"site\":1,\"sites\":2}\n\
{\"book\":\"{\\\"from\\\":0,\\\"rows\\\":[],\\\"v\\\":1}\",\"sessions\":[],\"site\":0,\"sites\":2}\n\
{\"call\":\"give a 1 1\",\"pass\":0,\"reply\":\"given\"}\n";

// The second run of site 1 shows that the merge was not carried out, and site 0 has no log.
const DOUBTED_IN_VAIN: &str = "\
{\"book\":\"{\\\"from\\\":1,\\\"rows\\\":[],\\\"v\\\":1}\",\"sessions\":[],\"site\":1,\"sites\":2}\n\
{\"call\":\"take {\\\"from\\\":0,\\\"rows\\\":[{\\\"ann\\\":0,\\\"fin\\\":0,\\\"out\\\":[2,1],\\\"r\\\":0,\\\"s\\\":0,\\\"taken\\\":0}],\\\"v\\\":1}\",\"pass\":2,\"reply\":\"refused StoreFault\"}\n\
{\"book\":\"{\\\"from\\\":1,\\\"rows\\\":[],\\\"v\\\":1}\",\"sessions\":[],\"site\":1,\"sites\":2}\n";

// Each verdict; a cut that is none is told alone.
static VERDICTS: [Story; 14] = [
    (
        THREE_SITES,
        "full",
        ANNOUNCED,
        Status::Done,
        "\
site      cut  entries  runs
   0        0        0     0
   1        1        1     1
   2        0        0     0
consistent
",
    ),
    (
        THREE_SITES,
        "full",
        ANNOUNCED_TWICE,
        Status::Done,
        "\
site      cut  entries  runs
   0        0        0     0
   1        1        1     1
   2        0        0     0
bad reply site 1 at 0
",
    ),
    (THREE_SITES, "0,2,0", ANNOUNCED, Status::Done, "bad cut\n"),
    (THREE_SITES, "0,1", ANNOUNCED, Status::Done, "bad cut\n"),
    (THREE_SITES, "0,0,0,0", ANNOUNCED, Status::Done, "bad cut\n"),
    (
        THREE_SITES,
        "0,0,18446744073709551615",
        ANNOUNCED,
        Status::Done,
        "bad cut\n",
    ),
    (
        THREE_SITES,
        "0,0,0",
        "",
        Status::Done,
        "\
site      cut  entries  runs
   0        0        0     0
   1        0        0     0
   2        0        0     0
consistent
",
    ),
    (
        TWO_SITES,
        "full",
        GIVEN,
        Status::Done,
        "\
site      cut  entries  runs
   0        2        2     2
   1        2        2     1
consistent
",
    ),
    (
        TWO_SITES,
        "1,1",
        GIVEN,
        Status::Done,
        "\
site      cut  entries  runs
   0        1        2     2
   1        1        2     1
consistent
",
    ),
    (
        TWO_SITES,
        "0,2",
        GIVEN,
        Status::Done,
        "\
site      cut  entries  runs
   0        0        2     2
   1        2        2     1
exceeds site 1 at 0 record a origin 0
",
    ),
    (
        TWO_SITES,
        "full",
        FORGOTTEN,
        Status::Done,
        "\
site      cut  entries  runs
   0        1        1     2
   1        0        0     0
bad joint site 0
",
    ),
    (
        TWO_SITES,
        "full",
        MERGED_IN_DOUBT,
        Status::Done,
        "\
site      cut  entries  runs
   0        1        1     1
   1        1        1     2
consistent
",
    ),
    (
        TWO_SITES,
        "0,1",
        MERGED_IN_DOUBT,
        Status::Done,
        "\
site      cut  entries  runs
   0        0        1     1
   1        1        1     2
exceeds site 1 at 0 record a origin 0
",
    ),
    (
        TWO_SITES,
        "full",
        DOUBTED_IN_VAIN,
        Status::Done,
        "\
site      cut  entries  runs
   0        0        0     0
   1        1        1     2
consistent
",
    ),
];

#[test]
fn the_first_verdict_that_applies_is_written(rt: HostRuntime) {
    let other = first_other(rt.alloc(), &VERDICTS);
    assert!(rt; other == None, "{other:?}");
}

// Lines that are none of a log: a blank too many, an entry before any run, a site that is not there, an empty line, a
// last line without its end that is cut.
static REFUSED: [Story; 5] = [
    (
        THREE_SITES,
        "full",
        "\
{\"book\":\"{\\\"from\\\":1,\\\"rows\\\":[],\\\"v\\\":1}\",\"sessions\":[],\"site\":1}\n\
{\"call\":\"announce a 5\", \"pass\":0,\"reply\":\"announced 1\"}\n",
        Status::Refused,
        "line 2 refused NotTranscript\n",
    ),
    (
        THREE_SITES,
        "full",
        "{\"call\":\"announce a 5\",\"pass\":0,\"reply\":\"announced 1\"}\n",
        Status::Refused,
        "line 1 refused NotTranscript\n",
    ),
    (
        THREE_SITES,
        "0,9,0",
        "{\"book\":\"{\\\"from\\\":3,\\\"rows\\\":[],\\\"v\\\":1}\",\"sessions\":[],\"site\":3}\n",
        Status::Refused,
        "line 1 refused NotTranscript\n",
    ),
    (
        THREE_SITES,
        "full",
        "\n",
        Status::Refused,
        "line 1 refused NotTranscript\n",
    ),
    (
        THREE_SITES,
        "full",
        "\
{\"book\":\"{\\\"from\\\":1,\\\"rows\\\":[],\\\"v\\\":1}\",\"sessions\":[],\"site\":1}\n\
{\"call\":\"announce a 5\",\"pass\":0,\"reply\":\"announced 1\"",
        Status::Refused,
        "line 2 refused NotTranscript\n",
    ),
];

#[test]
fn the_first_line_that_is_none_of_a_log_is_told(rt: HostRuntime) {
    let other = first_other(rt.alloc(), &REFUSED);
    assert!(rt; other == None, "{other:?}");
}

// Of an input of 70 bytes that is refused: it comes in two reads, a third finds the end; the answer goes out in five
// writes and a flush.
const LONG_LINE: &str = "0123456789012345678901234567890123456789012345678901234567890123456789";

const LONG_ANSWER: &str = "line 1 refused NotTranscript\n";

static ENGINE_FAULTS: [Fault; 8] = [
    (0, NEVER, ErrorKind::Other, Status::Io, 0),
    (1, NEVER, ErrorKind::Other, Status::Io, 0),
    (2, NEVER, ErrorKind::Other, Status::Io, 0),
    (1, NEVER, ErrorKind::OutOfMemory, Status::Memory, 0),
    (NEVER, 0, ErrorKind::Other, Status::Io, 0),
    (NEVER, 2, ErrorKind::Other, Status::Io, 14),
    (NEVER, 4, ErrorKind::Other, Status::Io, 28),
    (NEVER, 5, ErrorKind::Other, Status::Io, 29),
];

// The first fault after which the engine does something else.
fn wrongly_faulted(alloc: Global) -> Option<usize> {
    for (place, fault) in ENGINE_FAULTS.iter().enumerate() {
        let mut reader = reader_of(LONG_LINE.as_bytes(), fault);
        let mut writer = writer_of(alloc, fault);
        let ended = ending(alloc, TWO_SITES, "full", &mut reader, &mut writer)?;
        if !is_ended(ended, &writer, LONG_ANSWER, fault) {
            return Some(place);
        }
    }
    None
}

#[test]
fn a_failed_read_or_write_ends_it(rt: HostRuntime) {
    let other = wrongly_faulted(rt.alloc());
    assert!(rt; other == None, "{other:?}");
}

// How many bytes follow the first, and what is written: of an input that is too long no line is read.
static LONG: [(usize, &str); 2] = [
    (16_777_215, "line 1 refused NotTranscript\n"),
    (16_777_216, "input refused TooLong\n"),
];

fn is_refused(alloc: Global, blanks: usize, output: &str) -> bool {
    let mut reader = Giving::new(b"{", NEVER).followed_by(b' ', blanks);
    let mut writer = Keeping::new(alloc, NEVER);
    let ended = ending(alloc, TWO_SITES, "full", &mut reader, &mut writer);
    ended == Some(Status::Refused) && writer.bytes() == output.as_bytes()
}

#[test]
fn an_input_past_the_limit_is_refused_whole(rt: HostRuntime) {
    for (blanks, output) in &LONG {
        assert!(rt; is_refused(rt.alloc(), *blanks, output), "{blanks}");
    }
}

// Words that name no cut.
static NO_CUTS: [&str; 8] = [
    "",
    "1,x",
    "1,",
    ",1",
    "01",
    "+1",
    "Full",
    "18446744073709551616",
];

fn first_cut(alloc: Global) -> Option<usize> {
    for (place, word) in NO_CUTS.iter().enumerate() {
        match Cut::parse(alloc, word.as_bytes()) {
            Err(CutError::BadWord) => {}
            _ => return Some(place),
        }
    }
    None
}

#[test]
fn a_word_that_names_no_cut_is_refused(rt: HostRuntime) {
    assert!(rt; first_cut(rt.alloc()) == None);
}
