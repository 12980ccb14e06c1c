//! Readers and writers of which one call fails.
use crate::runs::{ONE_SITE, ending};
use exit_status::Status;
use std::alloc::Global;
use std::io::ErrorKind;
use std::sync::Wait;
use std::thread::Threads;
use test_streams::{Giving, Keeping, NEVER};
use text_input::Sink;

const SCRIPT: &[u8] = b"0 read a 1\n0 leave a 1\n0 read a 2\n0 leave a 2\n";

const OUTPUT: &str = "0: admitted\n0: left reader\n0: admitted\n0: left reader\nconsistent\n";

// The call of the reader that fails, that of the writer and that of the writer of logs, and the kind of the fault; how the
// engine ends, and how many bytes of its output were written then. A reader gives 40 bytes at a call, a writer takes 7.
type Fault = (usize, usize, usize, ErrorKind, Status, usize);

// The script comes in two reads, a third finds the end; the output goes out in ten writes and a flush, the logs in 37.
static FAULTS: [Fault; 13] = [
    (NEVER, NEVER, NEVER, ErrorKind::Other, Status::Done, 65),
    (0, NEVER, NEVER, ErrorKind::Other, Status::Io, 0),
    (1, NEVER, NEVER, ErrorKind::Other, Status::Io, 0),
    (2, NEVER, NEVER, ErrorKind::Other, Status::Io, 0),
    (2, NEVER, NEVER, ErrorKind::OutOfMemory, Status::Memory, 0),
    (NEVER, 0, NEVER, ErrorKind::Other, Status::Io, 0),
    (NEVER, 4, NEVER, ErrorKind::Other, Status::Io, 28),
    (NEVER, 9, NEVER, ErrorKind::Other, Status::Io, 63),
    (NEVER, 10, NEVER, ErrorKind::Other, Status::Io, 65),
    (NEVER, 4, NEVER, ErrorKind::OutOfMemory, Status::Io, 28),
    (NEVER, NEVER, 0, ErrorKind::Other, Status::Io, 0),
    (NEVER, NEVER, 20, ErrorKind::Other, Status::Io, 0),
    (NEVER, NEVER, 9999, ErrorKind::Other, Status::Done, 65),
];

// Whether the engine ends so.
fn ends_so<Rt: Threads + Wait + Sync>(rt: &Rt, alloc: Global, fault: &Fault) -> bool {
    let mut reader = Giving::new(SCRIPT, fault.0).failing_by(fault.3);
    let mut writer = Keeping::new(alloc, fault.1);
    writer.calls.fault = fault.3;
    let mut logs = Some(Sink::new(Keeping::new(alloc, fault.2)));
    let ended = ending(
        rt,
        alloc,
        (ONE_SITE, 1),
        &mut reader,
        &mut writer,
        &mut logs,
    );
    let end = fault.5;
    let output = OUTPUT.as_bytes();
    if end > output.len() {
        return false;
    }
    ended == Some(fault.4) && writer.bytes() == &output[..end]
}

#[test]
fn a_run_whose_reader_or_writer_fails_says_so(rt: HostRuntime) {
    for (row, fault) in FAULTS.iter().enumerate() {
        assert!(rt; ends_so(&rt, rt.alloc(), fault), "row {row}");
    }
}
