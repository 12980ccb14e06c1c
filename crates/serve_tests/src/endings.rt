//! How the service ends where the reader, the writer, the store or the log fails.
use crate::fakes::{Counting, Failing, Refusal};
use admission_core::{Durable, DurableCell, Phase, Session};
use durable_keeper::{Keeper, MemoryKeeper};
use exit_status::{Status, StoreRefusal};
use layout_file::built_in;
use line_conversation::StreamConversation;
use live_site::{LogFault, NoLog, NoPlace};
use serve_engine::{LINE_LIMIT, Marking, serve_engine};
use std::alloc::Global;
use std::io::ErrorKind;
use test_streams::{Giving, Keeping, NEVER};
use text_input::{Sink, Source};

const FIVE_LINES: &[u8] = b"read a 7\nread a 8\nread a 9\nleave a 7\nleave a 8\n";

const FIVE_ANSWERS: &str = "admitted\nadmitted\nrefused NoSeat 0\nleft reader\nleft reader\n";

// The call of the reader that fails, that of the writer, the kind of the fault, and how many bytes were told then. The
// reader gives 40 bytes at a call: four lines and a part of the fifth. The writer takes 7 bytes at a call, and each
// answer is flushed.
type Fault = (usize, usize, ErrorKind, usize);

static FAULTS: [Fault; 11] = [
    (0, NEVER, ErrorKind::Other, 0),
    (0, NEVER, ErrorKind::OutOfMemory, 0),
    (1, NEVER, ErrorKind::Other, 47),
    (2, NEVER, ErrorKind::Other, 59),
    (NEVER, 0, ErrorKind::Other, 0),
    (NEVER, 1, ErrorKind::Other, 7),
    (NEVER, 2, ErrorKind::Other, 9),
    (NEVER, 3, ErrorKind::OutOfMemory, 9),
    (NEVER, 8, ErrorKind::Other, 32),
    (NEVER, 14, ErrorKind::Other, 54),
    (NEVER, 15, ErrorKind::Other, 59),
];

// How the service ends over a new keeper of site 0 of two.
fn ending(alloc: Global, reader: &mut Giving, writer: &mut Keeping) -> Option<Status> {
    let layout = built_in(alloc).ok()?;
    let keeper = MemoryKeeper::new(alloc, &layout, 0).ok()?;
    let mut talk = StreamConversation::new(
        alloc,
        Source::new(reader),
        Sink::new(writer),
        LINE_LIMIT,
    ).ok()?;
    let (ended, _keeper) = serve_engine(
        alloc,
        keeper,
        layout,
        0,
        None,
        Marking::Plain,
        &mut talk,
        &mut NoLog {},
        &NoPlace {},
    );
    Some(ended)
}

fn ends_so(alloc: Global, fault: &Fault) -> bool {
    let (reads, writes, kind, told) = *fault;
    let mut reader = Giving::new(FIVE_LINES, reads).failing_by(kind);
    let mut writer = Keeping::new(alloc, writes);
    writer.calls.fault = kind;
    let ended = ending(alloc, &mut reader, &mut writer);
    told <= FIVE_ANSWERS.len()
        && ended == Some(Status::Io)
        && writer.bytes() == &FIVE_ANSWERS.as_bytes()[..told]
}

#[test]
fn a_reader_or_a_writer_that_fails_ends_the_service(rt: HostRuntime) {
    for (row, fault) in FAULTS.iter().enumerate() {
        assert!(rt; ends_so(rt.alloc(), fault), "row {row}");
    }
}

// How many changes are kept before one is not, why it is not, how the service ends, what it is told, and how often the
// keeper was told a change.
type Refused = (u64, Refusal, Status, &'static str, u64);

static STORES: [Refused; 8] = [
    (
        0,
        Refusal::Fault,
        Status::Fault,
        "refused StoreFault\nrefused Frozen\nrefused Frozen\nrefused Frozen\nrefused Frozen\n",
        1,
    ),
    (
        1,
        Refusal::Fault,
        Status::Fault,
        "admitted\nrefused StoreFault\nrefused Frozen\nrefused Frozen\nrefused Frozen\n",
        2,
    ),
    (
        2,
        Refusal::Fault,
        Status::Fault,
        "admitted\nadmitted\nrefused NoSeat 0\nrefused StoreFault\nrefused Frozen\n",
        3,
    ),
    (
        3,
        Refusal::Fault,
        Status::Fault,
        "admitted\nadmitted\nrefused NoSeat 0\nleft reader\nrefused StoreFault\n",
        4,
    ),
    (4, Refusal::Fault, Status::Done, FIVE_ANSWERS, 4),
    (
        0,
        Refusal::Memory,
        Status::Done,
        "refused Memory\nadmitted\nadmitted\nrefused NotHere\nleft reader\n",
        4,
    ),
    (
        1,
        Refusal::Memory,
        Status::Done,
        "admitted\nrefused Memory\nadmitted\nleft reader\nrefused NotHere\n",
        4,
    ),
    (
        3,
        Refusal::Memory,
        Status::Done,
        "admitted\nadmitted\nrefused NoSeat 0\nleft reader\nrefused Memory\n",
        4,
    ),
];

fn stores_so(alloc: Global, row: &Refused) -> Option<bool> {
    let (left, refusal, status, told, changes) = *row;
    let layout = built_in(alloc).ok()?;
    let keeper = Failing::new(alloc, &layout, 0, left, refusal).ok()?;
    let mut reader = Giving::new(FIVE_LINES, NEVER);
    let mut writer = Keeping::new(alloc, NEVER);
    let mut talk = StreamConversation::new(
        alloc,
        Source::new(&mut reader),
        Sink::new(&mut writer),
        LINE_LIMIT,
    )
    .ok()?;
    let (ended, keeper) = serve_engine(
        alloc,
        keeper,
        layout,
        0,
        None,
        Marking::Plain,
        &mut talk,
        &mut NoLog {},
        &NoPlace {},
    );
    drop(talk);
    Some(ended == status && writer.bytes() == told.as_bytes() && keeper.told.get() == changes)
}

#[test]
fn a_store_that_keeps_no_change_is_told(rt: HostRuntime) {
    for (row, refused) in STORES.iter().enumerate() {
        assert!(rt; stores_so(rt.alloc(), refused) == Some(true), "row {row}");
    }
}

// What is wrong with a store: it can't be read; or it gives back a counter at a record's slot, or a reader that has a
// seat where that counter tells so.
#[derive(Clone, Copy)]
enum Wrong {
    Failed,
    Cell(u16, u16, u64),
    Reader,
}

static WRONG_STORES: [(Wrong, StoreRefusal); 4] = [
    (Wrong::Failed, StoreRefusal::StoreFault),
    // of a record that is not there, and as it was at the start
    (Wrong::Cell(1, 200, 1), StoreRefusal::WrongCounters),
    (Wrong::Cell(0, 200, 0), StoreRefusal::WrongCounters),
    // without a seat
    (Wrong::Reader, StoreRefusal::WrongSessions),
];

// What such a store gives back.
fn part(alloc: Global, wrong: Wrong) -> Option<Durable> {
    let mut cells = Vec::new(alloc);
    let mut sessions = Vec::new(alloc);
    match wrong {
        Wrong::Failed => {}
        Wrong::Cell(r, slot, value) => cells.push(DurableCell { r, slot, value }).ok()?,
        Wrong::Reader => sessions
            .push(Session {
                r: 0,
                h: 7,
                phase: Phase::Reader,
            })
            .ok()?,
    }
    Some(Durable::new(cells, sessions))
}

// How the service ends over such a store, and how many bytes it is told.
fn unread(alloc: Global, wrong: Wrong) -> Option<(Status, usize)> {
    let layout = built_in(alloc).ok()?;
    let mut keeper = Failing::new(alloc, &layout, 0, 9, Refusal::Fault).ok()?;
    keeper.failed = matches!(wrong, Wrong::Failed);
    keeper.first = Some(part(alloc, wrong)?);
    let mut reader = Giving::new(FIVE_LINES, NEVER);
    let mut writer = Keeping::new(alloc, NEVER);
    let mut talk = StreamConversation::new(
        alloc,
        Source::new(&mut reader),
        Sink::new(&mut writer),
        LINE_LIMIT,
    )
    .ok()?;
    let (ended, _keeper) = serve_engine(
        alloc,
        keeper,
        layout,
        0,
        None,
        Marking::Plain,
        &mut talk,
        &mut NoLog {},
        &NoPlace {},
    );
    drop(talk);
    Some((ended, writer.bytes().len()))
}

#[test]
fn a_store_that_is_not_read_or_wrong_is_refused(rt: HostRuntime) {
    for (row, (wrong, refusal)) in WRONG_STORES.iter().enumerate() {
        let wanted = (Status::NoStore(*refusal), 0);
        assert!(rt; unread(rt.alloc(), *wrong) == Some(wanted), "row {row}");
    }
}

// How many entries the log takes before it refuses one, why, how many changes the keeper keeps before it finds no memory
// for one, how the service ends, what it is told, and how many entries the log has then.
type Logged = (u64, LogFault, u64, Status, &'static str, u64);

static LOGS: [Logged; 6] = [
    (9, LogFault::Failed, 9, Status::Done, FIVE_ANSWERS, 5),
    (0, LogFault::Failed, 9, Status::Io, "", 0),
    (
        2,
        LogFault::Failed,
        9,
        Status::Io,
        "admitted\nadmitted\n",
        2,
    ),
    (
        1,
        LogFault::Memory,
        9,
        Status::Done,
        "admitted\nrefused Memory\nadmitted\nleft reader\nrefused NotHere\n",
        4,
    ),
    // the entry of a change that was not kept is taken back
    (
        9,
        LogFault::Failed,
        1,
        Status::Done,
        "admitted\nrefused Memory\nadmitted\nleft reader\nrefused NotHere\n",
        4,
    ),
    (
        9,
        LogFault::Failed,
        0,
        Status::Done,
        "refused Memory\nadmitted\nadmitted\nrefused NotHere\nleft reader\n",
        4,
    ),
];

fn logs_so(alloc: Global, row: &Logged) -> Option<bool> {
    let (left, fault, changes, status, told, entries) = *row;
    let layout = built_in(alloc).ok()?;
    let keeper = Failing::new(alloc, &layout, 0, changes, Refusal::Memory).ok()?;
    let mut log = Counting {
        entries: 0,
        left,
        fault,
    };
    let mut reader = Giving::new(FIVE_LINES, NEVER);
    let mut writer = Keeping::new(alloc, NEVER);
    let mut talk = StreamConversation::new(
        alloc,
        Source::new(&mut reader),
        Sink::new(&mut writer),
        LINE_LIMIT,
    )
    .ok()?;
    let (ended, _keeper) = serve_engine(
        alloc,
        keeper,
        layout,
        0,
        None,
        Marking::Plain,
        &mut talk,
        &mut log,
        &NoPlace {},
    );
    drop(talk);
    Some(ended == status && writer.bytes() == told.as_bytes() && log.entries == entries)
}

#[test]
fn the_log_has_what_was_answered(rt: HostRuntime) {
    for (row, logged) in LOGS.iter().enumerate() {
        assert!(rt; logs_so(rt.alloc(), logged) == Some(true), "row {row}");
    }
}
