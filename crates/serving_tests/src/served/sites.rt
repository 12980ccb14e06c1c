//! The engine of `site` over keepers in memory: scripts of one site, openings one after another, and faults.
ghost use Rattle.std.specs.Prelude.{◌≡◌, IfSome};

use super::keepers::Failing;
use crate::faults::{FAULTS, FIVE_ANSWERS, Fault, is_ended, reader_of, writer_of};
use durable_keeper::MemoryKeeper;
use exit_status::Status;
use layout_file::read_layout;
use merge_core::Layout;
use site_engine::site_engine;
use std::alloc::Global;
use test_streams::texts::{TWO_SITES, WRITERS_FIRST};
use test_streams::{Giving, Keeping, NEVER};
use text_input::{Sink, Source};

// What a run of a script is to come to: how the engine ends, and what it writes.
type Run = (&'static [u8], Status, &'static str);

// Runs the engine over a keeper, and gives the keeper back where it ended as it was to.
fn opening(
    alloc: Global,
    layout: &Layout,
    site: u16,
    keeper: MemoryKeeper,
    run: Run,
) -> Option<MemoryKeeper>
    requires layout { keeper.layout ≡ layout.now }
    requires site { keeper.site ≡ site }
    ensures layout { IfSome result (λ k. k.layout ≡ layout.now) }
    ensures site { IfSome result (λ k. k.site ≡ site) }
{
    let (script, status, output) = run;
    let copy = layout.try_copy(alloc).ok()?;
    if site >= copy.sites() {
        return None;
    }
    let mut reader = Giving::new(script, NEVER);
    let mut writer = Keeping::new(alloc, NEVER);
    let (ended, keeper) = site_engine(
        alloc,
        keeper,
        copy,
        site,
        &mut Source::new(&mut reader),
        &mut Sink::new(&mut writer),
    );
    if ended != status || writer.bytes() != output.as_bytes() {
        return None;
    }
    Some(keeper)
}

// Whether two runs of a site of a layout, one after the other over one keeper, come to this.
fn runs(alloc: Global, toml: &str, site: u16, first: Run, second: Run) -> Option<()> {
    let layout = read_layout(alloc, toml.as_bytes()).ok()?;
    let keeper = MemoryKeeper::new(alloc, &layout, site).ok()?;
    let keeper = opening(alloc, &layout, site, keeper, first)?;
    let _keeper = opening(alloc, &layout, site, keeper, second)?;
    Some(())
}

// A layout, a site, and two runs of it.
type Story = (&'static str, u16, Run, Run);

// What a reply told is kept: a reader stays inside, a seat that was sent stays, and an announced writer is not
// forgotten.
static KEPT: [Story; 4] = [
    (
        TWO_SITES,
        0,
        (b"read a 7\n", Status::Done, "admitted\n"),
        (
            b"read a 7\nread a 8\n",
            Status::Done,
            "refused AlreadyHere\nadmitted\n",
        ),
    ),
    (
        TWO_SITES,
        1,
        (
            b"read a 7\ntake {\"from\":0,\"rows\":[{\"ann\":0,\"fin\":0,\"out\":[2,1],\"r\":0,\"s\":0,\"taken\":0}],\"v\":1}\n",
            Status::Done,
            "refused NoSeat 0\nmerged 1\n",
        ),
        (b"read a 7", Status::Done, "admitted\n"),
    ),
    (
        WRITERS_FIRST,
        0,
        (
            b"take {\"from\":1,\"rows\":[{\"ann\":1,\"fin\":0,\"out\":[0,0],\"r\":0,\"s\":1,\"taken\":0}],\"v\":1}\n",
            Status::Done,
            "merged 1\n",
        ),
        (b"read a 7\n", Status::Done, "refused WriterAnnounced 1\n"),
    ),
    (
        TWO_SITES,
        0,
        (
            b"give a 1 1\nannounce a 5\nread\nleave a 5\n",
            Status::Refused,
            "given\nannounced 1\nline 3 refused BadWord\n",
        ),
        (
            b"send\nleave a 5\n",
            Status::Done,
            "{\"from\":0,\"rows\":[{\"ann\":1,\"fin\":0,\"out\":[2,1],\"r\":0,\"s\":0,\"taken\":0}],\"v\":1}\nwithdrawn\n",
        ),
    ),
];

#[test]
fn what_a_reply_told_is_kept(rt: HostRuntime) {
    for (row, story) in KEPT.iter().enumerate() {
        let (toml, site, first, second) = *story;
        assert!(rt;
            runs(rt.alloc(), toml, site, first, second) == Some(()),
            "row {row}"
        );
    }
}

const NOTHING: Run = (b"", Status::Done, "");

// Lines that are refused, each in a script of its own; and a delta that tells more of the site than it did itself.
static LINES: [Run; 14] = [
    (b"take \n", Status::Done, "refused NotJson\n"),
    (b"take  {}\n", Status::Done, "refused NotCanonical\n"),
    (
        b"take [1\nread a 7\n",
        Status::Done,
        "refused NotJson\nadmitted\n",
    ),
    (b"take\n", Status::Refused, "line 1 refused BadWord\n"),
    (b"take \xff\n", Status::Refused, "line 1 refused BadWord\n"),
    (
        b"read a 7\n\n",
        Status::Refused,
        "admitted\nline 2 refused BadWord\n",
    ),
    (b"read a 7\r\n", Status::Refused, "line 1 refused BadWord\n"),
    (b"0 read a 7\n", Status::Refused, "line 1 refused BadWord\n"),
    (b"restart\n", Status::Refused, "line 1 refused BadWord\n"),
    (b"read b 7\n", Status::Done, "refused NoRecord\n"),
    (
        b"take {\"from\":1,\"rows\":[{\"ann\":0,\"fin\":0,\"out\":[2,1],\"r\":0,\"s\":0,\"taken\":0}],\"v\":1}\nread a 7\n",
        Status::Done,
        "refused OwnRowAhead 0\nadmitted\n",
    ),
    (
        b"take {\"from\":1,\"rows\":[{\"ann\":0,\"fin\":0,\"out\":[0,0,0],\"r\":0,\"s\":1,\"taken\":0}],\"v\":1}\nread a 7\n",
        Status::Done,
        "refused OtherLayout 0\nadmitted\n",
    ),
    (
        b"read a 7\ntake {\"from\":1,\"rows\":[{\"ann\":0,\"fin\":0,\"out\":[2,0],\"r\":0,\"s\":0,\"taken\":2}],\"v\":1}\nread a 8\n",
        Status::Done,
        "admitted\nrefused OwnRowAhead 0\nadmitted\n",
    ),
    (
        b"take {\"from\":1,\"rows\":[{\"ann\":0,\"fin\":0,\"out\":[0,0],\"r\":1,\"s\":1,\"taken\":0}],\"v\":1}\n",
        Status::Done,
        "refused OtherLayout 0\n",
    ),
];

#[test]
fn lines_are_refused_by_name(rt: HostRuntime) {
    for (row, run) in LINES.iter().enumerate() {
        assert!(rt;
            runs(rt.alloc(), TWO_SITES, 0, *run, NOTHING) == Some(()),
            "row {row}"
        );
    }
}

// How the engine ends over a new keeper of site 0 of two, with this reader and this writer.
fn ending(alloc: Global, reader: &mut Giving, writer: &mut Keeping) -> Option<Status> {
    let layout = read_layout(alloc, TWO_SITES.as_bytes()).ok()?;
    let keeper = MemoryKeeper::new(alloc, &layout, 0).ok()?;
    let (ended, _keeper) = site_engine(
        alloc,
        keeper,
        layout,
        0,
        &mut Source::new(reader),
        &mut Sink::new(writer),
    );
    Some(ended)
}

#[test]
fn an_input_past_the_limit_is_refused_whole(rt: HostRuntime) {
    let mut reader = Giving::new(b"read a 7\n", NEVER).followed_by(b' ', 16_777_208);
    let mut writer = Keeping::new(rt.alloc(), NEVER);
    let ended = ending(rt.alloc(), &mut reader, &mut writer);
    assert!(rt; ended == Some(Status::Refused));
    assert!(rt; writer.bytes() == "input refused TooLong\n".as_bytes());
}

const FIVE_CALLS: &[u8] = b"read a 7\nread a 8\nread a 9\nleave a 7\nleave a 8\n";

// Whether the script of five calls ends so.
fn ends_so(alloc: Global, fault: &Fault) -> bool {
    let mut reader = reader_of(FIVE_CALLS, fault);
    let mut writer = writer_of(alloc, fault);
    match ending(alloc, &mut reader, &mut writer) {
        Some(ended) => is_ended(ended, &writer, FIVE_ANSWERS, fault),
        None => false,
    }
}

#[test]
fn a_site_whose_reader_or_writer_fails_says_so(rt: HostRuntime) {
    for (row, fault) in FAULTS.iter().enumerate() {
        assert!(rt; ends_so(rt.alloc(), fault), "row {row}");
    }
}

// How the engine ends over a keeper whose device refuses this commit, counted from 0, and all calls behind it.
fn ending_with_fault(
    alloc: Global,
    fails: u64,
    script: &[u8],
    writer: &mut Keeping,
) -> Option<Status> {
    let layout = read_layout(alloc, TWO_SITES.as_bytes()).ok()?;
    let keeper = Failing::new(alloc, &layout, 0, fails).ok()?;
    let mut reader = Giving::new(script, NEVER);
    let (ended, _keeper) = site_engine(
        alloc,
        keeper,
        layout,
        0,
        &mut Source::new(&mut reader),
        &mut Sink::new(writer),
    );
    Some(ended)
}

// The commit that is refused, a script, and what is written.
static STOPPED: [(u64, &[u8], &str); 4] = [
    (
        1,
        b"read a 7\nread a 8\nread a 9\n",
        "admitted\nrefused StoreFault\nrefused Frozen\n",
    ),
    (
        1,
        b"read a 7\nread a 8\nreed a 9\nread a 9\n",
        "admitted\nrefused StoreFault\nline 3 refused BadWord\n",
    ),
    (
        0,
        b"read a 7\ntake x\nsend\n",
        "refused StoreFault\nrefused NotJson\nrefused Frozen\n",
    ),
    (
        1,
        b"read a 7\nread a 7\nsend\ngive a 1 1",
        "admitted\nrefused AlreadyHere\n{\"from\":0,\"rows\":[{\"ann\":0,\"fin\":0,\"out\":[2,0],\"r\":0,\"s\":0,\"taken\":1}],\"v\":1}\nrefused StoreFault\n",
    ),
];

// Whether the engine ends with a fault, having written this.
fn is_stopped(alloc: Global, fails: u64, script: &[u8], output: &str) -> bool {
    let mut writer = Keeping::new(alloc, NEVER);
    let ended = ending_with_fault(alloc, fails, script, &mut writer);
    ended == Some(Status::Fault) && writer.bytes() == output.as_bytes()
}

#[test]
fn a_store_that_fails_stops_the_site(rt: HostRuntime) {
    for (row, (fails, script, output)) in STOPPED.iter().enumerate() {
        assert!(rt; is_stopped(rt.alloc(), *fails, script, output), "row {row}");
    }
}
