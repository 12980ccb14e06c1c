//! Inputs that are read whole or refused, lines that are cut off them, and a writer that fails.
use std::alloc::Global;
use std::io;
use std::io::{Error, ErrorKind, Read, Write};
use text_input::{InputError, Sink, Source, cut_line, cut_whole_lines, read_input};

const LIMIT: usize = 16_777_216;

// No call, and no limit of a call.
const NEVER: usize = usize::MAX;

// The call that is answered with a fault, how many calls in a row are, and the kind of the fault.
type Fault = (usize, usize, ErrorKind);

const NO_FAULT: Fault = (NEVER, 0, ErrorKind::Other);

// Gives so many bytes, at most `most` at a call, and counts the bytes that it gave.
#[derive(Drop)]
struct Scripted {
    left: usize,
    most: usize,
    call: usize,
    fault: Fault,
    given: usize,
}

impl Read for Scripted {
    fn read(&mut self, buf: &mut [u8]) -> io::Result<usize> {
        let here = self.call;
        let (fails, times, kind) = self.fault;
        self.call = here.saturating_add(1);
        if fails <= here && here - fails < times {
            return Err(Error::from(kind));
        }
        let n = buf.len().min(self.left).min(self.most);
        for i in 0..n {
            buf[i] = b'x';
        }
        self.left = self.left.saturating_sub(n);
        self.given = self.given.saturating_add(n);
        Ok(n)
    }
}

// How many bytes a reader has, how many it gives at a call at most, and its fault; how many bytes the input is read to
// have, and how many the reader gave.
type Reading = (usize, usize, Fault, Result<usize, InputError>, usize);

static READINGS: [Reading; 21] = [
    (0, 40_000, NO_FAULT, Ok(0), 0),
    (1, 40_000, NO_FAULT, Ok(1), 1),
    (65_535, 40_000, NO_FAULT, Ok(65_535), 65_535),
    (65_536, 40_000, NO_FAULT, Ok(65_536), 65_536),
    (65_537, 40_000, NO_FAULT, Ok(65_537), 65_537),
    (200_000, 40_000, NO_FAULT, Ok(200_000), 200_000),
    // the limit itself is read, and of more bytes one past the limit is taken
    (LIMIT, NEVER, NO_FAULT, Ok(LIMIT), LIMIT),
    (
        20_000_000,
        NEVER,
        NO_FAULT,
        Err(InputError::TooLong),
        16_777_217,
    ),
    // a fault ends the reading; of 100 bytes in calls of 25, the fifth call is the one that would tell the end
    (100, 25, (0, 1, ErrorKind::Other), Err(InputError::Io), 0),
    (100, 25, (2, 1, ErrorKind::Other), Err(InputError::Io), 50),
    (100, 25, (4, 1, ErrorKind::Other), Err(InputError::Io), 100),
    (
        100,
        25,
        (2, 1, ErrorKind::OutOfMemory),
        Err(InputError::Memory),
        50,
    ),
    // an interrupted read is tried again, however often: the first one, one within, and the last one
    (100, 25, (0, 1, ErrorKind::Interrupted), Ok(100), 100),
    (100, 25, (0, 3, ErrorKind::Interrupted), Ok(100), 100),
    (100, 25, (0, 1_000, ErrorKind::Interrupted), Ok(100), 100),
    (100, 25, (2, 1, ErrorKind::Interrupted), Ok(100), 100),
    (100, 25, (2, 3, ErrorKind::Interrupted), Ok(100), 100),
    (100, 25, (2, 1_000, ErrorKind::Interrupted), Ok(100), 100),
    (100, 25, (4, 1, ErrorKind::Interrupted), Ok(100), 100),
    (100, 25, (4, 3, ErrorKind::Interrupted), Ok(100), 100),
    (100, 25, (4, 1_000, ErrorKind::Interrupted), Ok(100), 100),
];

// How many bytes the input of a reader has.
fn length_read(alloc: Global, reader: &mut Scripted) -> Result<usize, InputError> {
    let input = read_input(alloc, &mut Source::new(reader))?;
    Ok(input.as_slice().len())
}

fn is_read(alloc: Global, reading: Reading) -> bool {
    let (left, most, fault, read, given) = reading;
    let mut reader = Scripted {
        left,
        most,
        call: 0,
        fault,
        given: 0,
    };
    length_read(alloc, &mut reader) == read && reader.given == given
}

#[test]
fn an_input_is_read_whole_or_refused(rt: HostRuntime) {
    for (row, reading) in READINGS.iter().enumerate() {
        assert!(rt; is_read(rt.alloc(), *reading), "row {row}");
    }
}

// How many bytes an input has that is there at once, and how many reads may take it in: one for each 65,536 bytes that
// were begun, and one that finds the end. Of an input that is too long one byte past the limit is read.
static PIECES: [(usize, usize); 6] = [
    (0, 1),
    (1, 2),
    (65_536, 2),
    (65_537, 3),
    (LIMIT, 257),
    (20_000_000, 257),
];

// How many reads take an input of so many bytes in.
fn reads_of(alloc: Global, left: usize) -> usize {
    let mut reader = Scripted {
        left,
        most: NEVER,
        call: 0,
        fault: NO_FAULT,
        given: 0,
    };
    let _ = length_read(alloc, &mut reader);
    reader.call
}

#[test]
fn an_input_is_read_in_large_pieces(rt: HostRuntime) {
    for (left, most) in &PIECES {
        let reads = reads_of(rt.alloc(), *left);
        assert!(rt; reads <= *most, "{left} {reads}");
    }
}

// The first line of each text, and what is behind it.
static CUTS: [(&[u8], &[u8], &[u8]); 7] = [
    (b"a", b"a", b""),
    (b"a\n", b"a", b""),
    (b"\n", b"", b""),
    (b"\n\n", b"", b"\n"),
    (b"a\r\nb", b"a\r", b"b"),
    (b"ab\ncd\n", b"ab", b"cd\n"),
    (b" \n", b" ", b""),
];

fn is_cut(text: &[u8], line: &[u8], rest: &[u8]) -> bool {
    if text.is_empty() {
        return false;
    }
    cut_line(text) == (line, rest)
}

#[test]
fn lines_are_cut_at_each_lf(rt: HostRuntime) {
    for (row, (text, line, rest)) in CUTS.iter().enumerate() {
        assert!(rt; is_cut(text, line, rest), "row {row}");
    }
}

// The whole lines of each text, and what is behind them, where it has any.
static WHOLE_LINES: [(&[u8], Option<(&[u8], &[u8])>); 8] = [
    (b"a\n", Some((b"a\n", b""))),
    (b"\n", Some((b"\n", b""))),
    (b"\n\n", Some((b"\n\n", b""))),
    (b"ab\ncd", Some((b"ab\n", b"cd"))),
    (b"\na", Some((b"\n", b"a"))),
    (b"a\nb\r\n\nc ", Some((b"a\nb\r\n\n", b"c "))),
    (b"", None),
    (b"ab\r", None),
];

#[test]
fn whole_lines_end_at_the_last_lf(rt: HostRuntime) {
    for (row, (text, cut)) in WHOLE_LINES.iter().enumerate() {
        assert!(rt; cut_whole_lines(text) == *cut, "row {row}");
    }
}

fn line_count(bytes: &[u8]) -> u64 {
    let mut rest = bytes;
    let mut count = 0u64;
    for _ in 0..bytes.len() {
        if rest.is_empty() {
            break;
        }
        rest = cut_line(rest).1;
        count = count.saturating_add(1);
    }
    count
}

// How many lines 4,000,000 LF are: a cut whose cost is the length of what follows takes hours.
#[test]
fn very_many_lines_are_cut_in_time(rt: HostRuntime) {
    let mut bytes = Vec::new(rt.alloc());
    bytes.resize(4_000_000, b'\n').expect(&rt, "memory");
    assert_eq!(&rt; line_count(bytes.as_slice()), 4_000_000);
}

// Takes one byte at a call; the second call is answered with a fault, and every later one succeeds.
#[derive(Drop)]
struct Faulty {
    calls: usize,
    taken: usize,
}

impl Write for Faulty {
    fn write(&mut self, buf: &[u8]) -> io::Result<usize> {
        self.calls = self.calls.saturating_add(1);
        if self.calls == 2 {
            return Err(Error::from(ErrorKind::Other));
        }
        self.taken = self.taken.saturating_add(1);
        Ok(buf.len().min(1))
    }

    fn flush(&mut self) -> io::Result<()> {
        self.calls = self.calls.saturating_add(1);
        Ok(())
    }
}

// Whether each of three texts was written, through one sink.
fn written(writer: &mut Faulty) -> [bool; 3] {
    let mut sink = Sink::new(writer);
    let first = sink.write_and_flush("ab\n");
    let second = sink.write("c");
    [first, second, sink.print_and_flush("d\n")]
}

#[test]
fn after_a_fault_nothing_is_written(rt: HostRuntime) {
    let mut writer = Faulty { calls: 0, taken: 0 };
    let written = written(&mut writer);
    assert!(rt; (written, writer.taken, writer.calls) == ([false; 3], 1, 2));
}
