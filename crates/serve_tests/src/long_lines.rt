//! Lines at the limit and past it, between others.
use durable_keeper::MemoryKeeper;
use exit_status::Status;
use layout_file::built_in;
use line_conversation::StreamConversation;
use live_site::{NoLog, NoPlace};
use serve_engine::{LINE_LIMIT, Marking, line_limit, serve_engine};
use std::alloc::Global;
use std::io;
use std::io::{BufRead, Error, ErrorKind, Read};
use test_streams::{Keeping, NEVER};
use text_input::{Sink, Source};

// Gives some bytes, one byte so many times, and some bytes more, at most so many at a call.
#[derive(Drop)]
struct Filled {
    front: &'static [u8],
    fillers: usize,
    back: &'static [u8],
    most: usize,
}

impl Read for Filled {
    fn read(&mut self, buf: &mut [u8]) -> io::Result<usize> {
        if !self.front.is_empty() {
            let n = buf.len().min(self.front.len()).min(self.most);
            let (given, rest) = self.front.split_at(n);
            buf[..n].copy_from_slice(given);
            self.front = rest;
            return Ok(n);
        }
        if self.fillers > 0 {
            let n = buf.len().min(self.fillers).min(self.most);
            buf[..n].fill(b'x');
            self.fillers = self.fillers.saturating_sub(n);
            return Ok(n);
        }
        let n = buf.len().min(self.back.len()).min(self.most);
        let (given, rest) = self.back.split_at(n);
        buf[..n].copy_from_slice(given);
        self.back = rest;
        Ok(n)
    }
}

// What stands in front of the filler, how long it is, what stands behind it, how much comes at a call, and what is told.
type Long = (&'static [u8], usize, &'static [u8], usize, &'static str);

static LONG_LINES: [Long; 8] = [
    // a line at the limit, and one past it; with and without an LF behind it
    (
        b"read a 7\n",
        LINE_LIMIT,
        b"\nread a 8\n",
        NEVER,
        "admitted\nrefused BadWord 1\nadmitted\n",
    ),
    (
        b"read a 7\n",
        LINE_LIMIT + 1,
        b"\nread a 8\n",
        NEVER,
        "admitted\nrefused TooLong\nadmitted\n",
    ),
    (
        b"read a 7\n",
        LINE_LIMIT,
        b"",
        5_000,
        "admitted\nrefused BadWord\n",
    ),
    (
        b"read a 7\n",
        LINE_LIMIT + 1,
        b"",
        5_000,
        "admitted\nrefused BadWord\n",
    ),
    // much past it
    (
        b"",
        20_000_000,
        b"\nread a 8\n",
        40_000,
        "refused TooLong\nadmitted\n",
    ),
    // a text at its own limit, and one past it, which is a line past the limit
    (
        b"take ",
        2_097_152,
        b"\nread a 8\n",
        NEVER,
        "refused NotJson\nadmitted\n",
    ),
    (
        b"take ",
        2_097_153,
        b"\nread a 8\n",
        65_536,
        "refused TooLong\nadmitted\n",
    ),
    // lines that come one byte at a call
    (
        b"read a 7\nread a 8\n\n",
        3,
        b"\nsend\n",
        1,
        "admitted\nadmitted\nrefused BadWord 1\nrefused BadWord 1\n{\"from\":0,\"rows\":[{\"ann\":0,\"fin\":0,\"out\":[2,0],\"r\":0,\"s\":0,\"taken\":2}],\"v\":1}\n",
    ),
];

// At the limit of marked lines, and past it. The mark is not that of the text, which is read whole for that.
static MARKED_LINES: [Long; 5] = [
    (
        b"take payroll d6a41a2b6edb4b8d 01234567 ",
        2_097_152,
        b"\nread a 8\n",
        NEVER,
        "refused Damaged\nadmitted\n",
    ),
    (
        b"take payroll d6a41a2b6edb4b8d 01234567 ",
        2_097_153,
        b"\nread a 8\n",
        65_536,
        "refused TooLong\nadmitted\n",
    ),
    (
        b"take payroll d6a41a2b6edb4b8d 6932fd31 ",
        2_097_152,
        b"\nread a 8\n",
        NEVER,
        "refused NotJson\nadmitted\n",
    ),
    (
        b"take ",
        2_097_186,
        b"\nread a 8\n",
        NEVER,
        "refused NoMark\nadmitted\n",
    ),
    (
        b"take ",
        2_097_187,
        b"\nread a 8\n",
        NEVER,
        "refused TooLong\nadmitted\n",
    ),
];

fn is_told(alloc: Global, row: &Long, group: Option<&str>, marking: Marking) -> Option<bool> {
    let (front, fillers, back, most, told) = *row;
    let layout = built_in(alloc).ok()?;
    let keeper = MemoryKeeper::new(alloc, &layout, 0).ok()?;
    let mut reader = Filled {
        front,
        fillers,
        back,
        most,
    };
    let mut writer = Keeping::new(alloc, NEVER);
    let mut talk = StreamConversation::new(
        alloc,
        Source::new(&mut reader),
        Sink::new(&mut writer),
        line_limit(group, marking),
    )
    .ok()?;
    let (ended, _keeper) = serve_engine(
        alloc,
        keeper,
        layout,
        0,
        group,
        marking,
        &mut talk,
        &mut NoLog {},
        &NoPlace {},
    );
    drop(talk);
    Some(ended == Status::Done && writer.bytes() == told.as_bytes())
}

#[test]
fn a_line_past_the_limit_is_dropped(rt: HostRuntime) {
    for (row, long) in LONG_LINES.iter().enumerate() {
        assert!(rt;
            is_told(rt.alloc(), long, None, Marking::Plain) == Some(true),
            "row {row}"
        );
    }
}

#[test]
fn a_marked_line_past_the_limit_is_dropped(rt: HostRuntime) {
    for (row, long) in MARKED_LINES.iter().enumerate() {
        let told = is_told(rt.alloc(), long, Some("payroll"), Marking::Marked);
        assert!(rt; told == Some(true), "row {row}");
    }
}
