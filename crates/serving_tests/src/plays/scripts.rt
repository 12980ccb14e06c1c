//! Scripts through the engine of `play`: the worked stories, lines that can't be read, and the texts of messages.
use super::end_of;
use delta_codec::encode;
use exit_status::Status;
use layout_file::{LayoutFault, read_layout};
use multi_site_world::World;
use std::alloc::Global;
use std::io;
use std::io::{Error, ErrorKind, Write};
use test_streams::texts::{FIRST, SECOND, THIRD, THREE_SITES, TWO_SITES};
use test_streams::{Keeping, NEVER};
use world_script::play;

// As three sites, under problem 1.
const PROBLEM_1: &str = "sites = 3\n[[record]]\nname = \"a\"\nseats = 3\nhome = 0\nproblem = 1\n";

const ONE_SITE: &str = "sites = 1\n[[record]]\nname = \"a\"\nseats = 1\nhome = 0\nproblem = 1\n";

// A layout, how many sites begin together, whether the tables are asked for, and a script; and how the engine ends,
// having written this.
type Story = (
    &'static str,
    Option<u16>,
    bool,
    &'static str,
    Status,
    &'static str,
);

// Whether the engine ends so.
fn ends(alloc: Global, story: &Story) -> bool {
    let (toml, first, tables, script, status, output) = *story;
    let mut writer = Keeping::new(alloc, NEVER);
    let ended = end_of(alloc, toml, first, tables, script, &mut writer);
    ended == Some(status) && writer.bytes() == output.as_bytes()
}

// The first story that ends otherwise.
fn first_other(alloc: Global, stories: &[Story]) -> Option<usize> {
    for (place, story) in stories.iter().enumerate() {
        if !ends(alloc, story) {
            return Some(place);
        }
    }
    None
}

// Seats stay at home until they are given, and count at another site once it took the message; a message that is
// taken again changes nothing; a restart keeps own rows and seats that were sent; refusals of a hand-over.
static SEATS: [Story; 6] = [
    (
        TWO_SITES,
        None,
        false,
        "0 read a 7\n1 read a 8\n",
        Status::Done,
        "admitted\nrefused NoSeat 0\n",
    ),
    (
        TWO_SITES,
        None,
        false,
        "0 give a 1 1\n1 read a 8\n0 send\n1 take 0\n1 read a 8\n1 take 0\n1 read a 9\n",
        Status::Done,
        "given\nrefused NoSeat 0\nsent 0\nmerged 1\nadmitted\nmerged 0\nrefused NoSeat 0\n",
    ),
    (
        TWO_SITES,
        None,
        false,
        "0 give a 1 3\n0 give a 1 18446744073709551615\n0 give a 0 1\n0 give a 1 0\n",
        Status::Done,
        "refused TooFewRights 2\nrefused CounterFull\nrefused ToSelf\nrefused ZeroSeats\n",
    ),
    (
        TWO_SITES,
        None,
        false,
        "0 give a 1 1\n0 send\n1 take 0\n1 read a 8\n1 restart\n1 read a 9\n1 leave a 8\n1 read a 9\n",
        Status::Done,
        "given\nsent 0\nmerged 1\nadmitted\nrestarted\nrefused NoSeat 0\nleft reader\nadmitted\n",
    ),
    (
        ONE_SITE,
        None,
        false,
        "0 read a 1\n0 announce a 2\n0 write a 2\n0 leave a 2\n0 help a\n",
        Status::Done,
        "admitted\nannounced 1\nrefused MissingSeats 0 1\nwithdrawn\nrefused NoPlan\n",
    ),
    (TWO_SITES, None, false, "", Status::Done, ""),
];

#[test]
fn seats_count_where_they_were_told(rt: HostRuntime) {
    let other = first_other(rt.alloc(), &SEATS);
    assert!(rt; other == None, "{other:?}");
}

// A writer at site 1 waits; site 0 hears of it, lets no reader in under problem 2, and hands its seats over.
static WRITER: [Story; 5] = [
    (
        THREE_SITES,
        None,
        true,
        "1 announce a 5\n0 read a 1\n1 send\n0 take 0\n0 read a 2\n0 help a\n0 send\n1 take 1\n1 write a 5\n0 leave a 1\n0 help a\n0 send\n1 take 2\n1 write a 5\n",
        Status::Done,
        "\
announced 1\n\
admitted\n\
sent 0\n\
merged 1\n\
refused WriterAnnounced 1\n\
gave 1 2\n\
sent 1\n\
merged 2\n\
refused MissingSeats 2 3\n\
left reader\n\
gave 1 1\n\
sent 2\n\
merged 2\n\
admitted\n\
record           site  rights  inside  unfinished\n\
a                   0       0       0           0\n\
a                   1       0       3           1\n\
a                   2       0       0           0\n\
record           site         holder  phase\n\
a                   1              5  writer\n",
    ),
    (
        THREE_SITES,
        None,
        false,
        "1 announce a 5\n0 read a 1\n1 send\n0 take 0\n0 help a\n0 send\n1 take 1\n0 leave a 1\n0 help a\n0 send\n1 take 2\n1 write a 5\n1 take 1\n1 leave a 5\n1 help a\n",
        Status::Done,
        "announced 1\nadmitted\nsent 0\nmerged 1\ngave 1 2\nsent 1\nmerged 2\nleft reader\ngave 1 1\nsent 2\nmerged 2\nadmitted\nmerged 0\nleft writer\ngave 2 2\n",
    ),
    (
        PROBLEM_1,
        None,
        false,
        "1 announce a 5\n0 read a 1\n1 send\n0 take 0\n0 read a 2\n",
        Status::Done,
        "announced 1\nadmitted\nsent 0\nmerged 1\nadmitted\n",
    ),
    (
        THREE_SITES,
        None,
        false,
        "1 announce a 5\n0 read a 1\n1 send\n0 take 0\n0 restart\n0 read a 2\n",
        Status::Done,
        "announced 1\nadmitted\nsent 0\nmerged 1\nrestarted\nrefused WriterAnnounced 1\n",
    ),
    (
        TWO_SITES,
        Some(1),
        false,
        "0 read a 7\n0 send\n1 take 0\n0 give a 1 1\n1 announce a 5\n1 send\n0 take 1\n0 grow\n0 take 1\n0 give a 1 1\n0 grow\n",
        Status::Done,
        "admitted\nsent 0\nmerged 1\nrefused NoSite\nannounced 1\nsent 1\nrefused OtherLayout 0\ngrown\nmerged 1\ngiven\nrefused NoGrowth\n",
    ),
];

#[test]
fn a_writer_waits_and_is_helped(rt: HostRuntime) {
    let other = first_other(rt.alloc(), &WRITER);
    assert!(rt; other == None, "{other:?}");
}

// Where the engine ends otherwise: first sites without a layout, refused events and a line that can't be read.
static STOPS: [Story; 4] = [
    (
        TWO_SITES,
        None,
        true,
        "5 read a 7\n0 take 9\n0 read b 7\n0 read a 1000000000001\n0 write a 7\n0 leave a 7\n0 reed a 7\n0 read a 7\n",
        Status::Refused,
        "refused NoSite\nrefused NoMessage\nrefused NoRecord\nrefused BadHolder\nrefused NotAnnounced\nrefused NotHere\nline 7 refused BadWord\n",
    ),
    (
        TWO_SITES,
        Some(0),
        false,
        "0 read a 7\n",
        Status::NoLayout(LayoutFault::BadGrowth),
        "",
    ),
    (
        TWO_SITES,
        Some(3),
        false,
        "0 read a 7\n",
        Status::NoLayout(LayoutFault::BadGrowth),
        "",
    ),
    (
        TWO_SITES,
        Some(2),
        false,
        "0 grow\n",
        Status::Done,
        "refused NoGrowth\n",
    ),
];

#[test]
fn a_script_stops_at_the_first_line_that_is_no_event(rt: HostRuntime) {
    let other = first_other(rt.alloc(), &STOPS);
    assert!(rt; other == None, "{other:?}");
}

static BAD_LINES: [&str; 24] = [
    "\n",
    " 0 send\n",
    "0 send \n",
    "0  send\n",
    "x send\n",
    "0\n",
    "00 send\n",
    "65536 send\n",
    "-1 send\n",
    "0 take\n",
    "0 take x\n",
    "0 take 01\n",
    "0 take 18446744073709551616\n",
    "0 take 0 0\n",
    "0 grow 1\n",
    "0 read A 7\n",
    "0 read a\n",
    "0 read a 7 7\n",
    "0 read a +7\n",
    "0 give a 1\n",
    "0 help\n",
    "0 read 1a 7\n",
    "0 read a \u{e9}\n",
    "0 send\r\n",
];

#[test]
fn lines_that_are_no_events_are_refused(rt: HostRuntime) {
    for line in &BAD_LINES {
        let story = (
            TWO_SITES,
            None,
            false,
            *line,
            Status::Refused,
            "line 1 refused BadWord\n",
        );
        assert!(rt; ends(rt.alloc(), &story), "{line}");
    }
}

// Keeps up to 256 bytes and takes no memory.
#[derive(Drop)]
struct Fixed {
    bytes: [u8; 256],
    len: usize,
}

impl Write for Fixed {
    fn write(&mut self, buf: &[u8]) -> io::Result<usize> {
        let room = self.bytes.len().saturating_sub(self.len);
        let n = buf.len().min(room);
        if n == 0 && !buf.is_empty() {
            return Err(Error::from(ErrorKind::Other));
        }
        let end = self.len.saturating_add(n);
        if end <= self.bytes.len() && self.len <= end {
            self.bytes[self.len..end].copy_from_slice(&buf[..n]);
        }
        self.len = end;
        Ok(n)
    }

    fn flush(&mut self) -> io::Result<()> {
        Ok(())
    }
}

// Whether the last story of a writer is answered as with ample memory, or ends for want of it with nothing written.
fn ends_whole_or_not_at_all(alloc: Global) -> Option<bool> {
    let (toml, first, _, script, _, output) = WRITER[4];
    let mut writer = Fixed {
        bytes: [0; 256],
        len: 0,
    };
    match end_of(alloc, toml, first, false, script, &mut writer)? {
        Status::Memory => Some(writer.len == 0),
        Status::Done => {
            let end = writer.len.min(256);
            Some(&writer.bytes[..end] == output.as_bytes())
        }
        _ => Some(false),
    }
}

// The same; played again where there was no memory for the layout.
fn ends_so_now_or_then(alloc: Global) -> Option<bool> {
    match ends_whole_or_not_at_all(alloc) {
        None => ends_whole_or_not_at_all(alloc),
        ended => ended,
    }
}

#[test]
fn refused_growths_end_a_script_or_change_nothing(rt: HostRuntime) {
    assert!(rt; ends_so_now_or_then(rt.alloc()) == Some(true));
}

// Three sites after a script.
fn played(alloc: Global, script: &str) -> Option<World> {
    let layout = read_layout(alloc, THREE_SITES.as_bytes()).ok()?;
    let mut world = World::new(alloc, layout).ok()?;
    play(alloc, &mut world, script.as_bytes()).ok()?;
    Some(world)
}

// The text of a message, and LF.
fn message_text(alloc: Global, world: &World, k: u64) -> Option<String> {
    if k >= world.messages() {
        return None;
    }
    let mut text = encode(alloc, world.message(k)).ok()?;
    text.push_str("\n").ok()?;
    Some(text)
}

// Whether the message that a script sent has that text.
fn is_message(alloc: Global, script: &str, k: u64, wanted: &str) -> Option<bool> {
    let world = played(alloc, script)?;
    let text = message_text(alloc, &world, k)?;
    Some(text.as_str() == wanted)
}

#[test]
fn messages_have_their_texts(rt: HostRuntime) {
    for (k, wanted) in [(0u64, FIRST), (1, SECOND), (2, THIRD)] {
        let same = is_message(rt.alloc(), WRITER[0].3, k, wanted);
        assert!(rt; same == Some(true), "{k}");
    }
}
