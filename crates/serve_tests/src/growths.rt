//! Lines of which one finds no memory. These tests are to pass with ample memory and with any one allocation refused, or
//! any two in a row: a line that finds no memory is refused and changes nothing, and the others are answered as without
//! it.
ghost use Rattle.std.specs.Prelude.{◌≡◌, IfSome};

use durable_keeper::MemoryKeeper;
use exit_status::Status;
use layout_file::built_in;
use line_conversation::StreamConversation;
use live_site::{NoLog, NoPlace};
use merge_core::Layout;
use serve_engine::{LINE_LIMIT, Marking, serve_engine};
use std::alloc::Global;
use std::io;
use std::io::{BufRead, Error, ErrorKind, Read, Write};
use text_input::{Sink, Source};

static LINES: [&[u8]; 12] = [
    b"announce a 5\n",
    b"read a 7\n",
    b"sessions a\n",
    b"leave a 7\n",
    b"write a 5\n",
    b"leave a 5\n",
    b"take {\"from\":1,\"rows\":[{\"ann\":1,\"fin\":0,\"out\":[0,0],\"r\":0,\"s\":1,\"taken\":0}],\"v\":1}\n",
    b"give a 1 1\n",
    b"read a 8\n",
    b"sessions a\n",
    b"show a\n",
    b"send\n",
];

// What they are told with ample memory.
const ANSWERS: &[u8] =
    b"announced 1\nadmitted\n2 5 waiting, 7 reader\nleft reader\nadmitted\nleft writer\nmerged 1\n\
    given\nadmitted\n1 8 reader\nrights 0 inside 1 unfinished 0\n\
    {\"from\":0,\"rows\":[{\"ann\":1,\"fin\":1,\"out\":[5,1],\"r\":0,\"s\":0,\"taken\":4},{\"ann\":1,\"fin\":0,\"out\":[0,0],\"r\":0,\"s\":1,\"taken\":0}],\"v\":1}\n";

const NO_MEMORY: &[u8] = b"refused Memory\n";

// All of the lines, and the last three.
const ALL: u16 = 0b1111_1111_1111;

const LOOKS: u16 = 0b1110_0000_0000;

/// How often what finds no memory is tried: once more than allocations are refused.
const TRIES: u8 = 3;

// Gives the lines whose bits are set, one at a call.
#[derive(Drop)]
struct Chosen {
    lines: u16,
    place: usize,
    rest: &'static [u8],
}

impl Chosen {
    // Goes to the next line that is chosen, if there is one.
    fn go_on(&mut self) {
        for (place, line) in LINES.iter().enumerate() {
            if self.rest.is_empty() && place >= self.place {
                self.place = place.saturating_add(1);
                if self.lines & 1u16.wrapping_shl(place as u32) != 0 {
                    self.rest = *line;
                }
            }
        }
    }
}

impl Read for Chosen {
    fn read(&mut self, buf: &mut [u8]) -> io::Result<usize> {
        self.go_on();
        let n = buf.len().min(self.rest.len());
        let (given, rest) = self.rest.split_at(n);
        buf[..n].copy_from_slice(given);
        self.rest = rest;
        Ok(n)
    }
}

// Keeps what is written, up to so much.
#[derive(Drop)]
struct Noted {
    bytes: [u8; 1024],
    used: usize,
}

impl Noted {
    fn new() -> Noted {
        Noted {
            bytes: [0; 1024],
            used: 0,
        }
    }

    fn told(&self) -> &[u8] {
        let n = self.used.min(self.bytes.len());
        &self.bytes[..n]
    }
}

impl Write for Noted {
    fn write(&mut self, buf: &[u8]) -> io::Result<usize> {
        let room = self.bytes.len().saturating_sub(self.used);
        if room < buf.len() {
            return Err(Error::from(ErrorKind::Other));
        }
        let end = self.used.saturating_add(buf.len());
        if self.used <= end && end <= self.bytes.len() {
            self.bytes[self.used..end].copy_from_slice(buf);
        }
        self.used = end;
        Ok(buf.len())
    }

    fn flush(&mut self) -> io::Result<()> {
        Ok(())
    }
}

// A text up to its first LF, and the rest.
fn line_of(bytes: &[u8]) -> (&[u8], &[u8]) {
    for (place, byte) in bytes.iter().enumerate() {
        if *byte == b'\n' {
            let end = place.saturating_add(1).min(bytes.len());
            return bytes.split_at(end);
        }
    }
    bytes.split_at(bytes.len())
}

// The lines that found no memory, by the answers to all lines.
fn refused(told: &[u8]) -> u16 {
    let mut lines = 0u16;
    let mut rest = told;
    for place in 0..16u32 {
        let (line, other) = line_of(rest);
        if line == NO_MEMORY {
            lines |= 1u16.wrapping_shl(place);
        }
        rest = other;
    }
    lines
}

// Whether these are the answers without those to lines that found no memory.
fn are_others(told: &[u8], others: &[u8]) -> bool {
    let mut rest = told;
    let mut wanted = others;
    for _ in 0..16u32 {
        let (line, other) = line_of(rest);
        rest = other;
        if line != NO_MEMORY {
            let (same, behind) = line_of(wanted);
            if line != same {
                return false;
            }
            wanted = behind;
        }
    }
    rest.is_empty() && wanted.is_empty()
}

// Serves the chosen lines over a keeper; nothing where there was no memory to begin.
fn served(
    alloc: Global,
    layout: &Layout,
    keeper: MemoryKeeper,
    lines: u16,
) -> Option<(Status, MemoryKeeper, Noted)>
    requires layout { keeper.layout ≡ layout.now }
    requires site { keeper.site ≡ 0 }
    ensures layout { IfSome result (λ k. k.1.layout ≡ layout.now) }
    ensures site { IfSome result (λ k. k.1.site ≡ 0) }
{
    let copy = layout.try_copy(alloc).ok()?;
    if copy.sites() == 0 {
        return None;
    }
    let mut reader = Chosen {
        lines,
        place: 0,
        rest: b"",
    };
    let mut writer = Noted::new();
    let mut talk = StreamConversation::new(
        alloc,
        Source::new(&mut reader),
        Sink::new(&mut writer),
        LINE_LIMIT,
    )
    .ok()?;
    let (ended, keeper) = serve_engine(
        alloc,
        keeper,
        copy,
        0,
        None,
        Marking::Plain,
        &mut talk,
        &mut NoLog {},
        &NoPlace {},
    );
    drop(talk);
    if ended == Status::Memory {
        return None;
    }
    Some((ended, keeper, writer))
}

// What the chosen lines are told at a new site, and what it shows when it is opened again.
fn told(alloc: Global, lines: u16) -> Option<(Status, Noted, Noted)> {
    let layout = built_in(alloc).ok()?;
    let keeper = MemoryKeeper::new(alloc, &layout, 0).ok()?;
    let (ended, keeper, told) = served(alloc, &layout, keeper, lines)?;
    let (_, _, shown) = served(alloc, &layout, keeper, LOOKS)?;
    Some((ended, told, shown))
}

// Whether each line is answered as without the lines that found no memory, and what is kept is the same.
fn is_served(alloc: Global) -> Option<bool> {
    let (ended, all, shown) = told(alloc, ALL)?;
    let dropped = refused(all.told());
    if dropped == 0 {
        return Some(ended == Status::Done && all.told() == ANSWERS);
    }
    let (_, others, wanted) = told(alloc, ALL & !dropped)?;
    let same = are_others(all.told(), others.told()) && shown.told() == wanted.told();
    Some(ended == Status::Done && same)
}

#[test]
fn a_line_that_finds_no_memory_changes_nothing(rt: HostRuntime) {
    let mut served = None;
    for _ in 0..TRIES {
        if served == None {
            served = is_served(rt.alloc());
        }
    }
    assert!(rt; served == Some(true));
}
