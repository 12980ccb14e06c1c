//! Rounds of lines whose changes are committed together.
use crate::fakes::{Failing, Parts, Refusal, Vanishing};
use admission_core::Durable;
use exit_status::Status;
use layout_file::built_in;
use line_conversation::StreamConversation;
use serve_engine::{Marking, serve_together};
use std::alloc::Global;
use std::cell::Cell;
use test_streams::{Keeping, NEVER};
use text_input::{Sink, Source};

const FIVE: &[&[u8]] = &[b"read a 7\nread a 8\nleave a 7\nread a 9\nread a 6\n"];

const FIVE_ANSWERS: &str = "admitted\nadmitted\nleft reader\nadmitted\nrefused NoSeat 0\n";

// Each line by itself, one of them in two parts.
const APART: &[&[u8]] = &[
    b"read a 7\n",
    b"read a",
    b" 8\nleave a 7\n",
    b"read a 9\n",
    b"read a 6\n",
];

const LOOKS_FIRST: &[&[u8]] = &[
    b"show a\nfoo\ngive a 1 1\nshow a\nsend\n",
    b"show a\nread a 7\n",
];

const BEHIND_A_ROUND: &[&[u8]] = &[b"read a 7\nread a 8\n", b"show a\nleave a 7\nread a 9\n"];

const OUTDATED: &[&[u8]] = &[
    b"read a 7\n\
      take {\"from\":1,\"rows\":[{\"ann\":0,\"fin\":0,\"out\":[2,0],\"r\":0,\"s\":0,\"taken\":2}],\"v\":1}\n\
      take {\"from\":1,\"rows\":[{\"ann\":0,\"fin\":0,\"out\":[2,0],\"r\":0,\"s\":0,\"taken\":2}],\"v\":1}\n\
      leave a 7\n",
];

const OUTDATED_AT_ONCE: &[&[u8]] = &[
    b"show a\ntake {\"from\":1,\"rows\":[{\"ann\":0,\"fin\":0,\"out\":[2,0],\"r\":0,\"s\":0,\"taken\":2}],\"v\":1}\nleave a 7\n",
];

// What others have taken is no part of what is kept.
const TAKEN_BY_OTHERS: &[&[u8]] = &[
    b"take {\"from\":1,\"rows\":[{\"ann\":0,\"fin\":0,\"out\":[0,0],\"r\":0,\"s\":1,\"taken\":1}],\"v\":1}\n",
    b"take {\"from\":1,\"rows\":[{\"ann\":0,\"fin\":0,\"out\":[0,0],\"r\":0,\"s\":1,\"taken\":1}],\"v\":1}\n",
];

const UNREAD: &[&[u8]] = &[
    b"read a 7\nbar\nread a 8 and one word too many, as this line is too long for any call of the service, be it a delta or not, as the limit is\nleave a 7\nread a",
];

// The most lines of a round, what the reader gives, how many rounds or changes are kept before one is not, why it is not,
// behind how many looks the store is gone, how the service ends, what it is told, how often the keeper was told changes or a
// mark, and how often it was looked.
type Row = (
    usize,
    &'static [&'static [u8]],
    u64,
    Refusal,
    u64,
    Status,
    &'static str,
    u64,
    u64,
);

static ROWS: [Row; 23] = [
    // each call needs those before it, in its round or not
    (
        1,
        FIVE,
        9,
        Refusal::Fault,
        99,
        Status::Done,
        FIVE_ANSWERS,
        4,
        5,
    ),
    (
        2,
        FIVE,
        9,
        Refusal::Fault,
        99,
        Status::Done,
        FIVE_ANSWERS,
        2,
        3,
    ),
    (
        3,
        FIVE,
        9,
        Refusal::Fault,
        99,
        Status::Done,
        FIVE_ANSWERS,
        2,
        2,
    ),
    (
        5,
        FIVE,
        9,
        Refusal::Fault,
        99,
        Status::Done,
        FIVE_ANSWERS,
        1,
        1,
    ),
    (
        256,
        FIVE,
        9,
        Refusal::Fault,
        99,
        Status::Done,
        FIVE_ANSWERS,
        1,
        1,
    ),
    // no line is waited for
    (
        256,
        APART,
        9,
        Refusal::Fault,
        99,
        Status::Done,
        FIVE_ANSWERS,
        3,
        4,
    ),
    // a line behind which none has come has the answer that it has without rounds
    (
        256,
        APART,
        0,
        Refusal::Memory,
        99,
        Status::Done,
        "refused Memory\nadmitted\nrefused NotHere\nadmitted\nrefused NoSeat 0\n",
        3,
        4,
    ),
    (
        256,
        APART,
        0,
        Refusal::Fault,
        99,
        Status::Fault,
        "refused StoreFault\nrefused Frozen\nrefused Frozen\nrefused Frozen\nrefused Frozen\n",
        1,
        1,
    ),
    // the store fails: the lines before the first change have their answers, and no other has
    (
        256,
        LOOKS_FIRST,
        0,
        Refusal::Fault,
        99,
        Status::Fault,
        "rights 2 inside 0 unfinished 0\nrefused BadWord 1\nrefused StoreFault\nrefused StoreFault\nrefused StoreFault\nrefused Frozen\nrefused Frozen\n",
        1,
        1,
    ),
    (
        2,
        LOOKS_FIRST,
        0,
        Refusal::Fault,
        99,
        Status::Fault,
        "rights 2 inside 0 unfinished 0\nrefused BadWord 1\nrefused StoreFault\nrefused StoreFault\nrefused Frozen\nrefused Frozen\nrefused Frozen\n",
        1,
        2,
    ),
    (
        256,
        BEHIND_A_ROUND,
        1,
        Refusal::Fault,
        99,
        Status::Fault,
        "admitted\nadmitted\nrights 0 inside 2 unfinished 0\nrefused StoreFault\nrefused StoreFault\n",
        2,
        2,
    ),
    (
        256,
        BEHIND_A_ROUND,
        2,
        Refusal::Fault,
        99,
        Status::Done,
        "admitted\nadmitted\nrights 0 inside 2 unfinished 0\nleft reader\nadmitted\n",
        2,
        2,
    ),
    // no memory is found for a round: its lines are served one by one
    (
        256,
        FIVE,
        0,
        Refusal::Memory,
        99,
        Status::Done,
        FIVE_ANSWERS,
        5,
        1,
    ),
    (
        2,
        FIVE,
        1,
        Refusal::Memory,
        99,
        Status::Done,
        FIVE_ANSWERS,
        4,
        3,
    ),
    (
        256,
        BEHIND_A_ROUND,
        1,
        Refusal::Memory,
        99,
        Status::Done,
        "admitted\nadmitted\nrights 0 inside 2 unfinished 0\nleft reader\nadmitted\n",
        4,
        2,
    ),
    // a site begins again only where memory lacks: it has merged what it had merged
    (
        256,
        TAKEN_BY_OTHERS,
        9,
        Refusal::Fault,
        99,
        Status::Done,
        "merged 1\nmerged 0\n",
        0,
        2,
    ),
    // an outdated store is marked before that is told, where no change waits
    (
        256,
        OUTDATED,
        9,
        Refusal::Fault,
        99,
        Status::Fault,
        "admitted\nrefused OwnRowAhead 0\nrefused Frozen\nrefused Frozen\n",
        2,
        1,
    ),
    (
        256,
        OUTDATED_AT_ONCE,
        9,
        Refusal::Fault,
        99,
        Status::Fault,
        "rights 2 inside 0 unfinished 0\nrefused OwnRowAhead 0\nrefused Frozen\n",
        1,
        1,
    ),
    (
        256,
        OUTDATED,
        1,
        Refusal::Fault,
        99,
        Status::Fault,
        "admitted\nrefused StoreFault\nrefused Frozen\nrefused Frozen\n",
        2,
        1,
    ),
    (
        256,
        OUTDATED,
        1,
        Refusal::Memory,
        99,
        Status::Fault,
        "admitted\nrefused Memory\nrefused OwnRowAhead 0\nrefused Frozen\n",
        3,
        2,
    ),
    // the store is gone
    (
        2,
        FIVE,
        9,
        Refusal::Fault,
        1,
        Status::Fault,
        "admitted\nadmitted\nrefused StoreFault\nrefused Frozen\nrefused Frozen\n",
        1,
        3,
    ),
    // lines that ask for nothing, that are too long, and torn
    (
        256,
        UNREAD,
        9,
        Refusal::Fault,
        99,
        Status::Done,
        "admitted\nrefused BadWord 1\nrefused TooLong\nleft reader\nrefused BadWord\n",
        2,
        2,
    ),
    (256, &[], 9, Refusal::Fault, 99, Status::Done, "", 0, 0),
];

/// What comes of lines that a service answers in rounds.
#[derive(Drop)]
pub struct InRounds {
    pub ended: Status,
    pub told: Keeping,
    pub keeper: Failing,
    /// How often it was looked whether the store is at its path.
    pub looks: u64,
}

/// Site 0 answers what the reader gives, in rounds of at most `most` lines. Its keeper keeps `left` rounds or changes; `first` and `loads`
/// say what it gives back then. Behind `stays` looks the store is gone.
pub fn serve_in_rounds(
    alloc: Global,
    most: usize,
    parts: &[&[u8]],
    left: u64,
    refusal: Refusal,
    first: Option<Durable>,
    loads: u64,
    stays: u64,
) -> Option<InRounds> {
    let layout = built_in(alloc).ok()?;
    let mut keeper = Failing::new(alloc, &layout, 0, left, refusal).ok()?;
    keeper.first = first;
    keeper.loads = loads;
    let place = Vanishing {
        looks: Cell::new(0),
        stays,
    };
    let mut reader = Parts { parts, at: 0 };
    let mut told = Keeping::new(alloc, NEVER);
    let mut talk = StreamConversation::new(
        alloc,
        Source::new(&mut reader),
        Sink::new(&mut told),
        110,
    ).ok()?;
    let (ended, keeper) = serve_together(
        alloc,
        keeper,
        layout,
        0,
        None,
        Marking::Plain,
        most,
        &mut talk,
        &place,
    );
    drop(talk);
    Some(InRounds {
        ended,
        told,
        keeper,
        looks: place.looks.get(),
    })
}

fn serves_so(alloc: Global, row: &Row) -> Option<bool> {
    let (most, parts, left, refusal, stays, status, told, changes, looks) = *row;
    let served = serve_in_rounds(alloc, most, parts, left, refusal, None, u64::MAX, stays)?;
    let is_told = served.ended == status && served.told.bytes() == told.as_bytes();
    Some(is_told && served.keeper.told.get() == changes && served.looks == looks)
}

#[test]
fn the_changes_of_a_round_are_committed_together(rt: HostRuntime) {
    for (row, serves) in ROWS.iter().enumerate() {
        assert!(rt; serves_so(rt.alloc(), serves) == Some(true), "row {row}");
    }
}

// How often the keeper gives back a part, which is empty, and finds memory for that; how the service ends, and what it is told.
type Beginning = (u64, Status, &'static str);

static BEGINNINGS: [Beginning; 2] = [
    (
        2,
        Status::Done,
        "admitted\nadmitted\nrights 2 inside 0 unfinished 0\nrefused NotHere\nadmitted\n",
    ),
    // the site can't begin again: nothing of the round is kept, and it serves no more
    (
        1,
        Status::Fault,
        "admitted\nadmitted\nrights 0 inside 2 unfinished 0\nrefused StoreFault\nrefused StoreFault\n",
    ),
];

// A site whose keeper finds no memory for the second round.
fn begins_again(alloc: Global, beginning: &Beginning) -> Option<bool> {
    let (loads, status, told) = *beginning;
    let nothing = Durable::new(Vec::new(alloc), Vec::new(alloc));
    let served = serve_in_rounds(
        alloc,
        256,
        BEHIND_A_ROUND,
        1,
        Refusal::Memory,
        Some(nothing),
        loads,
        u64::MAX,
    )?;
    Some(served.ended == status && served.told.bytes() == told.as_bytes())
}

#[test]
fn a_site_begins_again_from_what_its_keeper_gives_back(rt: HostRuntime) {
    for (row, beginning) in BEGINNINGS.iter().enumerate() {
        assert!(rt;
            begins_again(rt.alloc(), beginning) == Some(true),
            "row {row}"
        );
    }
}
