//! What lines are answered, opening after opening of one store.
ghost use Rattle.std.specs.Prelude.{◌≡◌, IfSome};

use durable_keeper::MemoryKeeper;
use exit_status::Status;
use layout_file::read_layout;
use line_conversation::StreamConversation;
use live_site::{NoLog, NoPlace};
use merge_core::Layout;
use serve_engine::{LINE_LIMIT, Marking, serve_engine};
use std::alloc::Global;
use test_streams::texts::{THREE_SITES, TWO_SITES, WRITERS_FIRST};
use test_streams::{Giving, Keeping, NEVER};
use text_input::{Sink, Source};

// The lines of an opening, how it ends, and what it is told.
type Opening = (&'static [u8], Status, &'static str);

// Serves the lines over a keeper, and gives the keeper back where that ended as it was to.
fn opening(
    alloc: Global,
    layout: &Layout,
    site: u16,
    keeper: MemoryKeeper,
    run: Opening,
) -> Option<MemoryKeeper>
    requires layout { keeper.layout ≡ layout.now }
    requires site { keeper.site ≡ site }
    ensures layout { IfSome result (λ k. k.layout ≡ layout.now) }
    ensures site { IfSome result (λ k. k.site ≡ site) }
{
    let (lines, status, told) = run;
    let copy = layout.try_copy(alloc).ok()?;
    if site >= copy.sites() {
        return None;
    }
    let mut reader = Giving::new(lines, NEVER);
    let mut writer = Keeping::new(alloc, NEVER);
    let mut talk = StreamConversation::new(
        alloc,
        Source::new(&mut reader),
        Sink::new(&mut writer),
        LINE_LIMIT,
    )
    .ok()?;
    let (ended, keeper) = serve_engine(
        alloc,
        keeper,
        copy,
        site,
        None,
        Marking::Plain,
        &mut talk,
        &mut NoLog {},
        &NoPlace {},
    );
    drop(talk);
    if ended != status || writer.bytes() != told.as_bytes() {
        return None;
    }
    Some(keeper)
}

// Whether two openings of a site, one after the other over one keeper, come to this.
fn openings(alloc: Global, toml: &str, site: u16, first: Opening, second: Opening) -> Option<()> {
    let layout = read_layout(alloc, toml.as_bytes()).ok()?;
    let keeper = MemoryKeeper::new(alloc, &layout, site).ok()?;
    let keeper = opening(alloc, &layout, site, keeper, first)?;
    let _keeper = opening(alloc, &layout, site, keeper, second)?;
    Some(())
}

// A layout, a site, and two openings of it.
type Story = (&'static str, u16, Opening, Opening);

const NOTHING: Opening = (b"", Status::Done, "");

// The first story that does not come to this.
fn first_other(alloc: Global, stories: &[Story]) -> Option<usize> {
    for (place, story) in stories.iter().enumerate() {
        let (toml, site, first, second) = *story;
        if openings(alloc, toml, site, first, second) != Some(()) {
            return Some(place);
        }
    }
    None
}

const ONE_SEAT: &str = "sites = 1\n[[record]]\nname = \"a\"\nseats = 1\nhome = 0\nproblem = 1\n";

// Calls, and looks at a record.
static LINES: [Story; 13] = [
    (TWO_SITES, 0, NOTHING, NOTHING),
    (
        TWO_SITES,
        0,
        (
            b"read a 7\nread a 8\nread a 9\n",
            Status::Done,
            "admitted\nadmitted\nrefused NoSeat 0\n",
        ),
        (
            b"leave a 7\nread a 9",
            Status::Done,
            "left reader\nrefused BadWord\n",
        ),
    ),
    (
        TWO_SITES,
        0,
        (
            b"announce a 5\nread a 7\nshow a\nsessions a\n",
            Status::Done,
            "announced 1\nadmitted\nrights 1 inside 1 unfinished 1\n2 5 waiting, 7 reader\n",
        ),
        (
            b"sessions a\nleave a 5\nsessions a\nleave a 7\nsessions a\nshow a\n",
            Status::Done,
            "2 5 waiting, 7 reader\nwithdrawn\n1 7 reader\nleft reader\n0\nrights 2 inside 0 unfinished 0\n",
        ),
    ),
    (
        TWO_SITES,
        0,
        (
            b"announce a 5\nwrite a 5\nsessions a\nread a 7\nleave a 5\nshow a\n",
            Status::Done,
            "announced 1\nadmitted\n1 5 writer\nrefused NoSeat 0\nleft writer\nrights 2 inside 0 unfinished 0\n",
        ),
        (
            b"show b\nsessions b\nread b 7\n",
            Status::Done,
            "refused NoRecord\nrefused NoRecord\nrefused NoRecord\n",
        ),
    ),
    (
        TWO_SITES,
        0,
        (
            b"give a 1 1\nsend\n",
            Status::Done,
            "given\n{\"from\":0,\"rows\":[{\"ann\":0,\"fin\":0,\"out\":[2,1],\"r\":0,\"s\":0,\"taken\":0}],\"v\":1}\n",
        ),
        (
            b"show a\nhelp a\n",
            Status::Done,
            "rights 1 inside 0 unfinished 0\nrefused NoPlan\n",
        ),
    ),
    (
        TWO_SITES,
        1,
        (
            b"read a 7\ntake {\"from\":0,\"rows\":[{\"ann\":0,\"fin\":0,\"out\":[2,1],\"r\":0,\"s\":0,\"taken\":0}],\"v\":1}\n",
            Status::Done,
            "refused NoSeat 0\nmerged 1\n",
        ),
        (b"read a 7\n", Status::Done, "admitted\n"),
    ),
    (
        WRITERS_FIRST,
        0,
        (
            b"take {\"from\":1,\"rows\":[{\"ann\":1,\"fin\":0,\"out\":[0,0],\"r\":0,\"s\":1,\"taken\":0}],\"v\":1}\n",
            Status::Done,
            "merged 1\n",
        ),
        (b"read a 7\n", Status::Done, "refused WriterAnnounced 1\n"),
    ),
    (
        THREE_SITES,
        0,
        (
            b"read a 1\ntake {\"from\":1,\"rows\":[{\"ann\":1,\"fin\":0,\"out\":[0,0,0],\"r\":0,\"s\":1,\"taken\":0}],\"v\":1}\nread a 2\nhelp a\n",
            Status::Done,
            "admitted\nmerged 1\nrefused WriterAnnounced 1\ngave 1 2\n",
        ),
        (
            b"leave a 1\nhelp a\nshow a\n",
            Status::Done,
            "left reader\ngave 1 1\nrights 0 inside 0 unfinished 0\n",
        ),
    ),
    (
        TWO_SITES,
        0,
        (b"read a 7\n", Status::Done, "admitted\n"),
        (
            b"read a 7\nread a 8\n",
            Status::Done,
            "refused AlreadyHere\nadmitted\n",
        ),
    ),
    (
        TWO_SITES,
        0,
        (
            b"give a 1 3\ngive a 1 18446744073709551615\ngive a 0 1\ngive a 1 0\n",
            Status::Done,
            "refused TooFewRights 2\nrefused CounterFull\nrefused ToSelf\nrefused ZeroSeats\n",
        ),
        NOTHING,
    ),
    // the number of whoever is inside: 2^44 and the finished writers, of each site
    (
        TWO_SITES,
        0,
        (
            b"read a 7\nfence a 7\nfence a 8\nannounce a 5\nfence a 5\nleave a 7\nwrite a 5\nfence a 5\nleave a 5\nfence a 5\nread a 7\nfence a 7\n",
            Status::Done,
            "admitted\nfence 17592186044416\nrefused NotHere\nannounced 1\nrefused NotHere\nleft reader\nadmitted\n\
             fence 17592186044416\nleft writer\nrefused NotHere\nadmitted\nfence 17592186044417\n",
        ),
        (
            b"fence b 7\nfence a 1000000000001\nfence a 1000000000000\nfence a 7\n",
            Status::Done,
            "refused NoRecord\nrefused BadHolder\nrefused NotHere\nfence 17592186044417\n",
        ),
    ),
    (
        TWO_SITES,
        0,
        (
            b"read a 7\ntake {\"from\":1,\"rows\":[{\"ann\":3,\"fin\":2,\"out\":[0,0],\"r\":0,\"s\":1,\"taken\":0}],\"v\":1}\nfence a 7\n",
            Status::Done,
            "admitted\nmerged 2\nfence 17592186044418\n",
        ),
        (
            b"fence a 7\nleave a 7\nannounce a 7\nleave a 7\nread a 8\nfence a 8\n",
            Status::Done,
            "fence 17592186044418\nleft reader\nannounced 1\nwithdrawn\nadmitted\nfence 17592186044419\n",
        ),
    ),
    (
        ONE_SEAT,
        0,
        (
            b"read a 1\nannounce a 2\nwrite a 2\nleave a 2\nhelp a\n",
            Status::Done,
            "admitted\nannounced 1\nrefused MissingSeats 0 1\nwithdrawn\nrefused NoPlan\n",
        ),
        NOTHING,
    ),
];

#[test]
fn lines_are_answered_one_by_one(rt: HostRuntime) {
    let other = first_other(rt.alloc(), &LINES);
    assert!(rt; other == None, "{other:?}");
}

// Lines that ask for nothing stand between others, and do not end the service. The last part of the input, without its LF,
// is none, even where it would be one: the session of holder 1 stays where `leave a 12` comes in part.
static BAD_LINES: [Story; 8] = [
    (
        TWO_SITES,
        0,
        (
            b"read a 1\nread a 12\nleave a 1",
            Status::Done,
            "admitted\nadmitted\nrefused BadWord\n",
        ),
        (
            b"sessions a\nread a 9\ntake {\"from\":1,\"rows\":[{\"ann\":0,\"fin\":0,\"out\":[2,1],\"r\":0,\"s\":0,\"taken\":0}],\"v\":1}",
            Status::Done,
            "2 1 reader, 12 reader\nrefused NoSeat 0\nrefused BadWord\n",
        ),
    ),
    (
        TWO_SITES,
        0,
        (
            b"reed a 7\nread a 7\n\nread a 8\r\nshow\nshow a b\nsessions  a\n show a\nrestart\nfence a\nfence a x\n",
            Status::Done,
            "refused BadWord 1\nadmitted\nrefused BadWord 1\nrefused BadWord 3\nrefused BadWord 2\nrefused BadWord 3\n\
             refused BadWord 2\nrefused BadWord 1\nrefused BadWord 1\nrefused BadWord 3\nrefused BadWord 3\n",
        ),
        (b"read a 7\n", Status::Done, "refused AlreadyHere\n"),
    ),
    // the first word that can't stand at its place, is missing, or is one too many
    (
        TWO_SITES,
        0,
        (
            b"read a x\nread a\nread a 7 8\nread  a 7\nread\nread A 7\nread a 7 \nread a 18446744073709551616\nread a 18446744073709551615\n",
            Status::Done,
            "refused BadWord 3\nrefused BadWord 3\nrefused BadWord 4\nrefused BadWord 2\nrefused BadWord 2\nrefused BadWord 2\nrefused BadWord 4\nrefused BadWord 3\nrefused BadHolder\n",
        ),
        (
            b"give a 70000 1\ngive a 65535 1\ngive a 1\ngive a\ngive\ngive a 1 x\ngive a 1 2 3\n",
            Status::Done,
            "refused BadWord 3\nrefused NoSite\nrefused BadWord 4\nrefused BadWord 3\nrefused BadWord 2\nrefused BadWord 4\nrefused BadWord 5\n",
        ),
    ),
    (
        TWO_SITES,
        0,
        (
            b" read a 7\nRead a 7\n \nhelp A\nhelp a b\nshow a \nsessions\nsessions a b c d e f\n",
            Status::Done,
            "refused BadWord 1\nrefused BadWord 1\nrefused BadWord 1\nrefused BadWord 2\nrefused BadWord 3\nrefused BadWord 3\nrefused BadWord 2\nrefused BadWord 3\n",
        ),
        (
            b"send \nsend a\nannounce a -1\nwrite a 07\nleave 2b 7\nleave abcdefghijklmnopq 7\n",
            Status::Done,
            "refused BadWord 2\nrefused BadWord 2\nrefused BadWord 3\nrefused BadWord 3\nrefused BadWord 2\nrefused BadWord 2\n",
        ),
    ),
    // of more than one wrong word the first is told
    (
        TWO_SITES,
        0,
        (
            b"give A 70000 x y\ngive a 70000 x y\ngive a 1 x y\nreed A x\nread A\n",
            Status::Done,
            "refused BadWord 2\nrefused BadWord 3\nrefused BadWord 4\nrefused BadWord 1\nrefused BadWord 2\n",
        ),
        NOTHING,
    ),
    (
        TWO_SITES,
        0,
        (
            b"take \nread a 7\ntake  {}\ntake\ntake \xff\nread a 8\n",
            Status::Done,
            "refused NotJson\nadmitted\nrefused NotCanonical\nrefused BadWord 2\nrefused BadWord 2\nadmitted\n",
        ),
        NOTHING,
    ),
    (
        TWO_SITES,
        0,
        (
            b"take {\"from\":1,\"rows\":[{\"ann\":0,\"fin\":0,\"out\":[0,0,0],\"r\":0,\"s\":1,\"taken\":0}],\"v\":1}\nread a 7\n",
            Status::Done,
            "refused OtherLayout 0\nadmitted\n",
        ),
        NOTHING,
    ),
    (
        TWO_SITES,
        0,
        (
            b"take {\"from\":0,\"rows\":[{\"ann\":0,\"fin\":0,\"out\":[1,0],\"r\":0,\"s\":0,\"taken\":0}],\"v\":1}\nread a 7\n",
            Status::Done,
            "refused BadRow 0\nadmitted\n",
        ),
        NOTHING,
    ),
];

#[test]
fn bad_lines_do_not_end_the_service(rt: HostRuntime) {
    let other = first_other(rt.alloc(), &BAD_LINES);
    assert!(rt; other == None, "{other:?}");
}

// A delta that tells more of the site than the site did: behind it nothing that reaches the site is served, and the end
// says so; the store is as it was.
static OLDER_STORES: [Story; 2] = [
    (
        TWO_SITES,
        0,
        (
            b"read a 7\n\
              take {\"from\":1,\"rows\":[{\"ann\":0,\"fin\":0,\"out\":[2,1],\"r\":0,\"s\":0,\"taken\":0}],\"v\":1}\n\
              read a 8\nleave a 7\nshow a\nsessions a\nfence a 7\nsend\ntake x\nfoo\nread a x\ngive a 1 2 3\nshow\ntake\n",
            Status::Fault,
            "admitted\nrefused OwnRowAhead 0\nrefused Frozen\nrefused Frozen\nrefused Frozen\nrefused Frozen\n\
             refused Frozen\nrefused Frozen\nrefused NotJson\nrefused BadWord 1\nrefused BadWord 3\nrefused BadWord 5\n\
             refused BadWord 2\nrefused BadWord 2\n",
        ),
        (
            b"sessions a\nread a 8\n",
            Status::Done,
            "1 7 reader\nadmitted\n",
        ),
    ),
    (
        TWO_SITES,
        0,
        (
            b"take {\"from\":1,\"rows\":[{\"ann\":0,\"fin\":0,\"out\":[2,0],\"r\":0,\"s\":0,\"taken\":2}],\"v\":1}\n",
            Status::Fault,
            "refused OwnRowAhead 0\n",
        ),
        NOTHING,
    ),
];

#[test]
fn a_site_with_an_older_store_serves_no_more(rt: HostRuntime) {
    let other = first_other(rt.alloc(), &OLDER_STORES);
    assert!(rt; other == None, "{other:?}");
}

// Two seats of the first record, three of the second.
const TWO_RECORDS: &str = "sites = 2\n[[record]]\nname = \"a\"\nseats = 2\nhome = 0\nproblem = 1\n\
    [[record]]\nname = \"b\"\nseats = 3\nhome = 0\nproblem = 1\n";

// A delta that gives more rights than there are seats is refused whole, and one that gives all seats is not.
static TOO_MANY: [Story; 3] = [
    (
        TWO_SITES,
        1,
        (
            b"take {\"from\":0,\"rows\":[{\"ann\":1,\"fin\":0,\"out\":[4,3],\"r\":0,\"s\":0,\"taken\":2}],\"v\":1}\nread a 7\nshow a\nsend\n",
            Status::Done,
            "refused TooManySeats 0\nrefused NoSeat 0\nrights 0 inside 0 unfinished 0\n{\"from\":1,\"rows\":[],\"v\":1}\n",
        ),
        (
            b"take {\"from\":0,\"rows\":[{\"ann\":0,\"fin\":0,\"out\":[2,2],\"r\":0,\"s\":0,\"taken\":0}],\"v\":1}\nshow a\n",
            Status::Done,
            "merged 1\nrights 2 inside 0 unfinished 0\n",
        ),
    ),
    (
        TWO_SITES,
        1,
        (
            b"take {\"from\":0,\"rows\":[{\"ann\":0,\"fin\":0,\"out\":[2,2],\"r\":0,\"s\":0,\"taken\":0}],\"v\":1}\nread a 7\n",
            Status::Done,
            "merged 1\nadmitted\n",
        ),
        // one seat is taken, so one more fits and two do not
        (
            b"take {\"from\":0,\"rows\":[{\"ann\":0,\"fin\":0,\"out\":[4,4],\"r\":0,\"s\":0,\"taken\":2}],\"v\":1}\n\
              take {\"from\":0,\"rows\":[{\"ann\":0,\"fin\":0,\"out\":[4,3],\"r\":0,\"s\":0,\"taken\":2}],\"v\":1}\nshow a\n",
            Status::Done,
            "refused TooManySeats 0\nmerged 3\nrights 2 inside 1 unfinished 0\n",
        ),
    ),
    // of two records the second one
    (
        TWO_RECORDS,
        1,
        (
            b"take {\"from\":0,\"rows\":[{\"ann\":0,\"fin\":0,\"out\":[2,1],\"r\":0,\"s\":0,\"taken\":0},{\"ann\":0,\"fin\":0,\"out\":[6,4],\"r\":1,\"s\":0,\"taken\":3}],\"v\":1}\nshow a\nshow b\n",
            Status::Done,
            "refused TooManySeats 1\nrights 0 inside 0 unfinished 0\nrights 0 inside 0 unfinished 0\n",
        ),
        (
            b"take {\"from\":0,\"rows\":[{\"ann\":0,\"fin\":0,\"out\":[2,1],\"r\":0,\"s\":0,\"taken\":0},{\"ann\":0,\"fin\":0,\"out\":[3,3],\"r\":1,\"s\":0,\"taken\":0}],\"v\":1}\nshow a\nshow b\n",
            Status::Done,
            "merged 2\nrights 1 inside 0 unfinished 0\nrights 3 inside 0 unfinished 0\n",
        ),
    ),
];

#[test]
fn a_delta_of_too_many_seats_is_refused_whole(rt: HostRuntime) {
    let other = first_other(rt.alloc(), &TOO_MANY);
    assert!(rt; other == None, "{other:?}");
}
