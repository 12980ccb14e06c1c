//! Readers and writers of which one call fails, and what an engine has written when it ends.
use exit_status::Status;
use std::alloc::Global;
use std::io::ErrorKind;
use test_streams::{Giving, Keeping, NEVER};

/// The call of the reader that fails, that of the writer, and the kind of the fault; how the engine ends, and how many
/// bytes of its answer were written then. A reader gives 40 bytes at a call, a writer takes 7.
pub type Fault = (usize, usize, ErrorKind, Status, usize);

/// What five calls are answered that are made in a script of one site.
pub const FIVE_ANSWERS: &str = "admitted\nadmitted\nrefused NoSeat 0\nleft reader\nleft reader\n";

/// Of such a script: it comes in two reads, a third finds the end; the answers go out in nine writes and a flush.
pub static FAULTS: [Fault; 10] = [
    (0, NEVER, ErrorKind::Other, Status::Io, 0),
    (1, NEVER, ErrorKind::Other, Status::Io, 0),
    (2, NEVER, ErrorKind::Other, Status::Io, 0),
    (0, NEVER, ErrorKind::OutOfMemory, Status::Memory, 0),
    (2, NEVER, ErrorKind::OutOfMemory, Status::Memory, 0),
    (NEVER, 0, ErrorKind::Other, Status::Io, 0),
    (NEVER, 4, ErrorKind::Other, Status::Io, 28),
    (NEVER, 8, ErrorKind::Other, Status::Io, 56),
    (NEVER, 9, ErrorKind::Other, Status::Io, 59),
    (NEVER, 4, ErrorKind::OutOfMemory, Status::Io, 28),
];

/// The reader of an input with this fault.
pub fn reader_of<'a>(input: &'a [u8], fault: &Fault) -> Giving<'a> {
    Giving::new(input, fault.0).failing_by(fault.2)
}

/// The writer with this fault.
pub fn writer_of(alloc: Global, fault: &Fault) -> Keeping {
    let mut writer = Keeping::new(alloc, fault.1);
    writer.calls.fault = fault.2;
    writer
}

/// Whether an engine has ended as it was to, with so much of its answer written.
pub fn is_ended(ended: Status, writer: &Keeping, answer: &str, fault: &Fault) -> bool {
    let end = fault.4;
    let bytes = answer.as_bytes();
    if end > bytes.len() {
        return false;
    }
    ended == fault.3 && writer.bytes() == &bytes[..end]
}
