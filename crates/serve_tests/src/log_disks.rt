//! Log files of a runtime.
use crate::disk::{Disk, Fault};
use admission_core::{Ask, Call, Durable, DurableCell, Phase, Reply, Session};
use layout_file::built_in;
use live_site::CallLog;
use log_file::{LogError, LogRefusal, open_log};
use merge_core::Layout;
use std::alloc::Global;
use std::io::ErrorKind;
use std::{env, fs, process};

const RUN: &str =
    "{\"book\":\"{\\\"from\\\":0,\\\"rows\\\":[],\\\"v\\\":1}\",\"sessions\":[],\"site\":0,\"sites\":2}\n";

const RUN_TORN: &str = "{\"book\":\"{\\\"from\\\":0,\\\"rows\\\":[],\\\"v\\\":1}\",\"ses";

const READ: &str = "{\"call\":\"read a 7\",\"pass\":0,\"reply\":\"admitted\"}\n";

const READ_TORN: &str = "{\"call\":\"read a 7\",\"pass\":0,\"repl";

const READ_DOUBTED: &str = "{\"call\":\"read a 7\",\"pass\":0,\"reply\":\"refused StoreFault\"}\n";

// The run that begins where reader 7 is inside.
const LATER_RUN: &str =
    "{\"book\":\"{\\\"from\\\":0,\\\"rows\\\":[{\\\"ann\\\":0,\\\"fin\\\":0,\\\"out\\\":[2,0],\\\"r\\\":0,\\\"s\\\":0,\
    \\\"taken\\\":1}],\\\"v\\\":1}\",\"sessions\":[\"a 7 reader\"],\"site\":0,\"sites\":2}\n";

// What a store keeps of site 0 of two: nothing yet, or that reader 7 is inside.
fn part(alloc: Global, inside: bool) -> Option<Durable> {
    let mut cells = Vec::new(alloc);
    let mut sessions = Vec::new(alloc);
    if inside {
        cells
            .push(DurableCell {
                r: 0,
                slot: 200,
                value: 1,
            })
            .ok()?;
        sessions
            .push(Session {
                r: 0,
                h: 7,
                phase: Phase::Reader,
            })
            .ok()?;
    }
    Some(Durable::new(cells, sessions))
}

// What the file has in two parts, what fails, whether reader 7 is inside, how the opening ends, and what the file has then.
type Opening = (
    [&'static str; 3],
    Fault,
    bool,
    Option<LogError>,
    [&'static str; 3],
);

const WRONG_STORE: LogError = LogError::Refused(LogRefusal::WrongStore);

const NOT_READ: LogError = LogError::Refused(LogRefusal::NotRead);

const NOT_A_LOG: LogError = LogError::Refused(LogRefusal::NotALog);

const IN_USE: LogError = LogError::Refused(LogRefusal::InUse);

static OPENINGS: [Opening; 26] = [
    (["", "", ""], Fault::None, false, None, [RUN, "", ""]),
    ([RUN, "", ""], Fault::None, false, None, [RUN, RUN, ""]),
    (
        [RUN, READ, ""],
        Fault::None,
        true,
        None,
        [RUN, READ, LATER_RUN],
    ),
    (
        [RUN, READ, READ_TORN],
        Fault::None,
        true,
        None,
        [RUN, READ, LATER_RUN],
    ),
    (
        [RUN, READ_TORN, ""],
        Fault::None,
        false,
        None,
        [RUN, RUN, ""],
    ),
    (
        [RUN, READ, ""],
        Fault::None,
        false,
        None,
        [RUN, READ_DOUBTED, RUN],
    ),
    // nothing is written to a file that is refused
    (
        ["", "", ""],
        Fault::None,
        true,
        Some(WRONG_STORE),
        ["", "", ""],
    ),
    (
        [RUN, READ_TORN, ""],
        Fault::None,
        true,
        Some(WRONG_STORE),
        [RUN, READ_TORN, ""],
    ),
    (
        [RUN, "x\n", ""],
        Fault::None,
        false,
        Some(LogError::Refused(LogRefusal::NotTranscript { line: 2 })),
        [RUN, "x\n", ""],
    ),
    // a file that is no log of the site, and the front of one's first line
    (
        ["x", "", ""],
        Fault::None,
        false,
        Some(NOT_A_LOG),
        ["x", "", ""],
    ),
    (
        [READ_TORN, "", ""],
        Fault::None,
        false,
        Some(NOT_A_LOG),
        [READ_TORN, "", ""],
    ),
    ([RUN_TORN, "", ""], Fault::None, false, None, [RUN, "", ""]),
    // a file that another has open, also where it is empty, or is no log; and one of which that can't be told
    (
        ["", "", ""],
        Fault::InUse,
        false,
        Some(IN_USE),
        ["", "", ""],
    ),
    (
        [RUN, READ_TORN, ""],
        Fault::InUse,
        false,
        Some(IN_USE),
        [RUN, READ_TORN, ""],
    ),
    (
        ["x", "", ""],
        Fault::InUse,
        false,
        Some(IN_USE),
        ["x", "", ""],
    ),
    (
        [RUN, "", ""],
        Fault::Unheld,
        false,
        Some(NOT_READ),
        [RUN, "", ""],
    ),
    // the folder of an empty file can't be opened or synced; that of another is not asked for
    (
        ["", "", ""],
        Fault::Folder,
        false,
        Some(LogError::Io),
        ["", "", ""],
    ),
    (
        ["", "", ""],
        Fault::FolderSync,
        false,
        Some(LogError::Io),
        ["", "", ""],
    ),
    ([RUN, "", ""], Fault::Folder, false, None, [RUN, RUN, ""]),
    // a file that can't be opened, read, written, synced or cut
    (
        [RUN, "", ""],
        Fault::Open(ErrorKind::NotFound),
        false,
        Some(NOT_READ),
        [RUN, "", ""],
    ),
    (
        [RUN, "", ""],
        Fault::Open(ErrorKind::OutOfMemory),
        false,
        Some(LogError::Memory),
        [RUN, "", ""],
    ),
    (
        [RUN, "", ""],
        Fault::Read(ErrorKind::Other),
        false,
        Some(NOT_READ),
        [RUN, "", ""],
    ),
    (
        [RUN, "", ""],
        Fault::Read(ErrorKind::OutOfMemory),
        false,
        Some(LogError::Memory),
        [RUN, "", ""],
    ),
    (
        [RUN, READ, ""],
        Fault::Write,
        true,
        Some(LogError::Io),
        [RUN, READ, ""],
    ),
    (
        [RUN, READ, ""],
        Fault::Sync,
        true,
        Some(LogError::Io),
        [RUN, READ, LATER_RUN],
    ),
    (
        [RUN, READ, ""],
        Fault::Cut,
        false,
        Some(LogError::Io),
        [RUN, READ, ""],
    ),
];

// A text in parts, as bytes.
fn joined(alloc: Global, parts: &[&str]) -> Option<Vec<u8>> {
    let mut bytes = Vec::new(alloc);
    for part in parts {
        bytes.extend_from_slice(part.as_bytes()).ok()?;
    }
    Some(bytes)
}

fn opens_so(alloc: Global, opening: &Opening) -> Option<bool> {
    let (before, fault, inside, error, after) = *opening;
    let layout = built_in(alloc).ok()?;
    let first = part(alloc, inside)?;
    let disk = Disk::new(alloc, joined(alloc, before.as_slice())?, fault).ok()?;
    let found = match open_log(&disk, "site.log", &layout, 0, &first) {
        Ok(_log) => None,
        Err(found) => Some(found),
    };
    let wanted = joined(alloc, after.as_slice())?;
    Some(found == error && disk.has(wanted.as_slice()))
}

#[test]
fn a_log_file_is_opened_or_left_alone(rt: HostRuntime) {
    for (row, opening) in OPENINGS.iter().enumerate() {
        assert!(rt; opens_so(rt.alloc(), opening) == Some(true), "row {row}");
    }
}

// What the file has, its path, and the folders that are synced, with `!` behind each.
type Synced = (&'static str, &'static str, &'static [u8]);

static SYNCED: [Synced; 6] = [
    ("", "site.log", b".!"),
    ("", "./site.log", b".!"),
    ("", "logs/site.log", b"logs!"),
    ("", "/var/log/site.log", b"/var/log!"),
    ("", "/site.log", b"/!"),
    (RUN, "logs/site.log", b""),
];

fn syncs_so(alloc: Global, row: &Synced) -> Option<bool> {
    let (text, path, folders) = *row;
    let layout = built_in(alloc).ok()?;
    let first = part(alloc, false)?;
    let bytes = Vec::from_slice(alloc, text.as_bytes()).ok()?;
    let disk = Disk::new(alloc, bytes, Fault::None).ok()?;
    let opened = open_log(&disk, path, &layout, 0, &first).is_ok();
    Some(opened && disk.has_synced(folders))
}

#[test]
fn the_folder_of_a_new_log_is_synced(rt: HostRuntime) {
    for (row, synced) in SYNCED.iter().enumerate() {
        assert!(rt; syncs_so(rt.alloc(), synced) == Some(true), "row {row}");
    }
}

// Whether the file is synced behind the run's line, behind each of two entries, and never else.
fn syncs_each_line(alloc: Global) -> Option<bool> {
    let layout = built_in(alloc).ok()?;
    let first = part(alloc, false)?;
    let disk = Disk::new(alloc, Vec::new(alloc), Fault::None).ok()?;
    let mut log = open_log(&disk, "site.log", &layout, 0, &first).ok()?;
    let call = Call::Ask(Ask::Read { r: 0, h: 7 });
    for _ in 0..2 {
        log.enter(&layout, &call, &Reply::Admitted).ok()?;
    }
    let one = RUN.len().saturating_add(READ.len());
    Some(disk.has_lengths(&[RUN.len(), one, one.saturating_add(READ.len())]))
}

#[test]
fn each_line_of_a_log_is_synced(rt: HostRuntime) {
    assert!(rt; syncs_each_line(rt.alloc()) == Some(true));
}

// How an opening ends whose log is closed at once.
fn ending(rt: &HostRuntime, path: &str, layout: &Layout, first: &Durable) -> Option<LogError> {
    match open_log(rt, path, layout, 0, first) {
        Ok(_log) => None,
        Err(error) => Some(error),
    }
}

// A file of the system is opened as a log, again, and behind that log's end once more: whether only the second is refused.
fn is_held(rt: &HostRuntime) -> Option<bool> {
    let alloc = rt.alloc();
    let layout = built_in(alloc).ok()?;
    let first = part(alloc, false)?;
    let mut path = env::temp_dir(rt).ok()?;
    let name = format!(in alloc; "serve_tests_{}.log", process::id(rt.process())).ok()?;
    path.push(name.as_str()).ok()?;
    let log = open_log(rt, path.as_str(), &layout, 0, &first).ok()?;
    let second = ending(rt, path.as_str(), &layout, &first);
    drop(log);
    let third = ending(rt, path.as_str(), &layout, &first);
    fs::remove_file(rt, path.as_str()).ok()?;
    Some(second == Some(IN_USE) && third == None)
}

#[test]
fn a_log_file_is_held_until_its_log_is_dropped(rt: HostRuntime) {
    assert!(rt; is_held(&rt) == Some(true));
}
