//! Log files that are opened, and files that are none of a site's.
use crate::fakes::Bytes;
use crate::log_mending::{is_consistent, opened, served};
use admission_core::{Ask, Call, Durable, Reply};
use durable_keeper::{Keeper, MemoryKeeper};
use exit_status::Status;
use layout_file::built_in;
use live_site::CallLog;
use log_file::{LogError, LogRefusal, mend};
use merge_core::Layout;
use std::alloc::Global;

// What a site of two keeps behind these lines, and its log.
fn kept(alloc: Global, layout: &Layout, site: u16, lines: &[u8]) -> Option<(Vec<u8>, Durable)> {
    let keeper = MemoryKeeper::new(alloc, layout, site).ok()?;
    let file = Bytes {
        bytes: Vec::new(alloc),
        left: 1000,
    };
    let (_, keeper, file) = served(alloc, layout, site, keeper, file, lines)?;
    let mut keeper = keeper;
    let first = keeper.load(alloc).ok()?;
    Some((file.bytes, first))
}

const RUN_0: &str =
    "{\"book\":\"{\\\"from\\\":0,\\\"rows\\\":[],\\\"v\\\":1}\",\"sessions\":[],\"site\":0,\"sites\":2}\n";

const RUN_1: &str =
    "{\"book\":\"{\\\"from\\\":1,\\\"rows\\\":[],\\\"v\\\":1}\",\"sessions\":[],\"site\":1,\"sites\":2}\n";

// The line that begins a run of site 0 of which nothing was done, up to the number of sites.
const BEGINNING: &str =
    "{\"book\":\"{\\\"from\\\":0,\\\"rows\\\":[],\\\"v\\\":1}\",\"sessions\":[],\"site\":0";

const READ_7: &str = "{\"call\":\"read a 7\",\"pass\":0,\"reply\":\"admitted\"}\n";

// A file's text in three parts, the site, the lines that its store has kept, and what is said of the file.
type Fault = ([&'static str; 3], u16, &'static [u8], LogRefusal);

static FAULTS: [Fault; 26] = [
    // lines that are none, and an entry before any run
    (
        ["\n", "", ""],
        0,
        b"",
        LogRefusal::NotTranscript { line: 1 },
    ),
    (
        ["x\n", "", ""],
        0,
        b"",
        LogRefusal::NotTranscript { line: 1 },
    ),
    (
        [READ_7, "", ""],
        0,
        b"read a 7\n",
        LogRefusal::NotTranscript { line: 1 },
    ),
    (
        [RUN_0, "x\n", ""],
        0,
        b"",
        LogRefusal::NotTranscript { line: 2 },
    ),
    (
        [RUN_0, READ_7, "\n"],
        0,
        b"read a 7\n",
        LogRefusal::NotTranscript { line: 3 },
    ),
    (
        [RUN_0, "read a 7\n", READ_7],
        0,
        b"read a 7\n",
        LogRefusal::NotTranscript { line: 2 },
    ),
    // the log of another site, alone or beside this one's
    ([RUN_0, "", ""], 1, b"", LogRefusal::WrongSite),
    ([RUN_1, "", ""], 0, b"", LogRefusal::WrongSite),
    ([RUN_0, RUN_1, ""], 0, b"", LogRefusal::WrongSite),
    // a store with a past, of which the log lacks a part, or all of it
    (["", "", ""], 0, b"read a 7\n", LogRefusal::WrongStore),
    (
        ["{\"book\"", "", ""],
        0,
        b"read a 7\n",
        LogRefusal::WrongStore,
    ),
    ([RUN_0, "", ""], 0, b"read a 7\n", LogRefusal::WrongStore),
    (
        [RUN_0, READ_7, ""],
        0,
        b"read a 7\nread a 8\n",
        LogRefusal::WrongStore,
    ),
    // no line is whole, and no log of the site can begin with one of which this is the front: a text, bytes of another
    // kind, an entry, whole but for its LF too, and a run of another site
    (["hello", "", ""], 0, b"", LogRefusal::NotALog),
    (["\u{0}\u{1}\u{7f}", "", ""], 0, b"", LogRefusal::NotALog),
    (["{\"call\"", "", ""], 0, b"read a 7\n", LogRefusal::NotALog),
    (
        [
            "{\"call\":\"read a 7\",\"pass\":0,\"reply\":\"admitted\"}",
            "",
            "",
        ],
        0,
        b"read a 7\n",
        LogRefusal::NotALog,
    ),
    (
        ["{\"book\":\"{\\\"from\\\":0", "", ""],
        1,
        b"",
        LogRefusal::NotALog,
    ),
    (
        ["{\"book\":\"{\\\"from\\\":1", "", ""],
        0,
        b"",
        LogRefusal::NotALog,
    ),
    // a run of a site that was there before, and one of too many sites, or of none
    (
        ["{\"book\":\"{\\\"from\\\":0,\\\"rows\\\":[{", "", ""],
        0,
        b"read a 7\n",
        LogRefusal::NotALog,
    ),
    ([BEGINNING, ",\"sites\":3", ""], 0, b"", LogRefusal::NotALog),
    ([BEGINNING, ",\"sites\":0", ""], 0, b"", LogRefusal::NotALog),
    (
        [BEGINNING, ",\"sites\":2}}", ""],
        0,
        b"",
        LogRefusal::NotALog,
    ),
    // a front of a log's first line, where the store has a past
    (
        [BEGINNING, ",\"sites\":2}", ""],
        0,
        b"read a 7\n",
        LogRefusal::WrongStore,
    ),
    // a store that lacks more than the last entry
    (
        [
            RUN_0,
            READ_7,
            "{\"call\":\"read a 8\",\"pass\":0,\"reply\":\"admitted\"}\n",
        ],
        0,
        b"",
        LogRefusal::WrongStore,
    ),
    // a reply that is not the model's
    (
        [
            RUN_0,
            "{\"call\":\"read a 7\",\"pass\":0,\"reply\":\"given\"}\n",
            READ_7,
        ],
        0,
        b"read a 7\n",
        LogRefusal::WrongStore,
    ),
];

fn is_refused(alloc: Global, fault: &Fault) -> Option<bool> {
    let (parts, site, lines, refusal) = *fault;
    let layout = built_in(alloc).ok()?;
    let (_, first) = kept(alloc, &layout, site, lines)?;
    let mut text = String::new(alloc);
    for part in parts.iter() {
        text.push_str(*part).ok()?;
    }
    match mend(alloc, &layout, site, text.as_bytes(), &first) {
        Ok(_) => Some(false),
        Err(found) => Some(found == LogError::Refused(refusal)),
    }
}

#[test]
fn a_file_that_is_no_log_of_the_site_is_refused(rt: HostRuntime) {
    for (row, fault) in FAULTS.iter().enumerate() {
        assert!(rt; is_refused(rt.alloc(), fault) == Some(true), "row {row}");
    }
}

// A site of two, and a line with which a log of it can begin, in two parts.
type Beginning = (u16, [&'static str; 2]);

static BEGINNINGS: [Beginning; 4] = [
    (0, [BEGINNING, ",\"sites\":2}"]),
    // the layout had one site then
    (0, [BEGINNING, ",\"sites\":1}"]),
    // the older spelling
    (0, [BEGINNING, "}"]),
    (
        1,
        [
            "{\"book\":\"{\\\"from\\\":1,\\\"rows\\\":[],\\\"v\\\":1}\",",
            "\"sessions\":[],\"site\":1,\"sites\":2}",
        ],
    ),
];

// Whether these bytes are a log of the site of which nothing is kept, where its store is new.
fn is_dropped(alloc: Global, layout: &Layout, site: u16, bytes: &[u8]) -> Option<bool> {
    let first = Durable::new(Vec::new(alloc), Vec::new(alloc));
    match mend(alloc, layout, site, bytes, &first) {
        Ok(mended) => Some(mended.kept == 0 && mended.tail.is_empty()),
        Err(LogError::Refused(LogRefusal::NotALog)) => Some(false),
        Err(_) => None,
    }
}

// The first length at which the front of a line is not dropped, or is dropped with another last byte.
fn first_kept(alloc: Global, beginning: &Beginning) -> Option<usize> {
    let (site, parts) = *beginning;
    let layout = built_in(alloc).ok()?;
    let mut text = String::new(alloc);
    for part in parts.iter() {
        text.push_str(*part).ok()?;
    }
    let line = text.as_bytes();
    let mut bytes = Vec::new(alloc);
    for (place, byte) in line.iter().enumerate() {
        bytes.push(*byte ^ 1).ok()?;
        if is_dropped(alloc, &layout, site, bytes.as_slice()) != Some(false) {
            return Some(place);
        }
        bytes.truncate(place);
        if is_dropped(alloc, &layout, site, bytes.as_slice()) != Some(true) {
            return Some(place);
        }
        bytes.push(*byte).ok()?;
    }
    if is_dropped(alloc, &layout, site, line) != Some(true) {
        return Some(line.len());
    }
    Some(usize::MAX)
}

#[test]
fn the_front_of_a_first_line_is_dropped(rt: HostRuntime) {
    for (row, beginning) in BEGINNINGS.iter().enumerate() {
        let kept = first_kept(rt.alloc(), beginning);
        assert!(rt; kept == Some(usize::MAX), "row {row}: {kept:?}");
    }
}

// The number of rows of 61 records at 16 sites.
const ROWS: u64 = 976;

// A line that asks to merge a delta with the rows of all sites for records 1 to 60, which are not there.
fn long_take(alloc: Global) -> Option<String> {
    let mut text = String::from_str(alloc, "take {\"from\":1,\"rows\":[").ok()?;
    for row in 16..ROWS {
        if row > 16 {
            text.push_str(",").ok()?;
        }
        push_row(alloc, &mut text, row / 16, row % 16)?;
    }
    text.push_str("],\"v\":1}\n").ok()?;
    Some(text)
}

// Writes a row of 16 sites in which nothing is told.
fn push_row(alloc: Global, text: &mut String, r: u64, s: u64) -> Option<()> {
    text.push_str("{\"ann\":0,\"fin\":0,\"out\":[0,0,0,0,0,0,0,0,0,0,0,0,0,0,0,0],\"r\":")
        .ok()?;
    let numbers = format!(in alloc; "{r},\"s\":{s},\"taken\":0}}").ok()?;
    text.push_str(numbers.as_str()).ok()
}

// Whether such a call and its reply stand in the log, in a line of more than 65,536 bytes.
fn is_logged(alloc: Global) -> Option<bool> {
    let layout = built_in(alloc).ok()?;
    let lines = long_take(alloc)?;
    let (bytes, _first) = kept(alloc, &layout, 0, lines.as_bytes())?;
    let consistent = is_consistent(alloc, &layout, bytes.as_slice())?;
    Some(consistent && bytes.len() > 65_536)
}

#[test]
fn a_long_line_is_logged(rt: HostRuntime) {
    assert!(rt; is_logged(rt.alloc()) == Some(true));
}

// Five lines of a site of two, of which the log takes so many texts, that of the run before them; the file that is left is
// opened again. How the service ends, and whether the log is consistent then.
fn fails_at(alloc: Global, layout: &Layout, texts: u64) -> Option<(Status, bool)> {
    let keeper = MemoryKeeper::new(alloc, layout, 0).ok()?;
    let file = Bytes {
        bytes: Vec::new(alloc),
        left: texts,
    };
    let lines = b"read a 7\nread a 8\nread a 9\nleave a 7\nleave a 8\n";
    let (ended, keeper, file) = served(alloc, layout, 0, keeper, file, lines)?;
    let mut keeper = keeper;
    let first = keeper.load(alloc).ok()?;
    let again = Bytes {
        bytes: file.bytes,
        left: 1,
    };
    let log = opened(alloc, layout, 0, again, &first).ok()?;
    let consistent = is_consistent(alloc, layout, log.file().bytes.as_slice())?;
    Some((ended, consistent))
}

#[test]
fn a_log_that_fails_ends_the_service_and_is_mended(rt: HostRuntime) {
    let Ok(layout) = built_in(rt.alloc()) else {
        return;
    };
    for texts in 1..6 {
        assert!(rt;
            fails_at(rt.alloc(), &layout, texts) == Some((Status::Io, true)),
            "text {texts}"
        );
    }
    assert!(rt; fails_at(rt.alloc(), &layout, 6) == Some((Status::Done, true)));
}

// A step at a log: an entry, by its holder; or the last one taken back.
#[derive(Clone, Copy)]
enum Step {
    Enter(u64),
    TakeBack,
}

// How many texts the file takes, the steps, whether each succeeds, and the lines that it has then, that of the run first.
type Steps = (u64, &'static [(Step, bool)], u64);

static STEPS: [Steps; 6] = [
    (9, &[(Step::Enter(7), true), (Step::Enter(8), true)], 3),
    (9, &[(Step::Enter(7), true), (Step::TakeBack, true)], 1),
    (
        9,
        &[
            (Step::Enter(7), true),
            (Step::Enter(8), true),
            (Step::TakeBack, true),
            (Step::Enter(9), true),
        ],
        3,
    ),
    // where the entry before the last one begins is not known, and a log that has failed fails for good
    (
        9,
        &[
            (Step::Enter(7), true),
            (Step::Enter(8), true),
            (Step::TakeBack, true),
            (Step::TakeBack, false),
            (Step::Enter(9), false),
            (Step::TakeBack, false),
        ],
        2,
    ),
    (
        2,
        &[
            (Step::Enter(7), true),
            (Step::Enter(8), false),
            (Step::Enter(9), false),
            (Step::TakeBack, false),
        ],
        2,
    ),
    (2, &[(Step::Enter(7), true), (Step::TakeBack, false)], 2),
];

// Whether one step at a log succeeds.
fn succeeds<L: CallLog>(log: &mut L, layout: &Layout, step: Step) -> bool {
    match step {
        Step::Enter(h) => {
            let call = Call::Ask(Ask::Read { r: 0, h });
            log.enter(layout, &call, &Reply::Admitted).is_ok()
        }
        Step::TakeBack => log.take_back(),
    }
}

fn are_taken(alloc: Global, row: &Steps) -> Option<bool> {
    let (left, steps, lines) = *row;
    let layout = built_in(alloc).ok()?;
    let first = Durable::new(Vec::new(alloc), Vec::new(alloc));
    let file = Bytes {
        bytes: Vec::new(alloc),
        left,
    };
    let mut log = opened(alloc, &layout, 0, file, &first).ok()?;
    for (action, done) in steps.iter() {
        if succeeds(&mut log, &layout, *action) != *done {
            return Some(false);
        }
    }
    let file = log.into_file();
    let mut found = 0u64;
    for byte in file.bytes.as_slice() {
        if *byte == b'\n' {
            found = found.saturating_add(1);
        }
    }
    Some(found == lines)
}

#[test]
fn an_entry_is_appended_and_cut_off_again(rt: HostRuntime) {
    for (row, steps) in STEPS.iter().enumerate() {
        assert!(rt; are_taken(rt.alloc(), steps) == Some(true), "row {row}");
    }
}
