//! A store that is no longer at its place: the site serves no more, and tells nothing that would be lost.
use crate::fakes::{Counting, Failing, Refusal, Vanishing};
use exit_status::Status;
use layout_file::built_in;
use line_conversation::StreamConversation;
use live_site::LogFault;
use serve_engine::{LINE_LIMIT, Marking, serve_engine};
use std::alloc::Global;
use std::cell::Cell;
use test_streams::{Giving, Keeping, NEVER};
use text_input::{Sink, Source};

const LINES: &[u8] = b"read a 7\nshow a\nread a 7\nsend\nfoo\nleave a 7\n";

// Behind how many looks the store is gone, how the service ends, what it is told, how often it looks, how often the
// keeper is told a change, and how many entries the log has then.
type Gone = (u64, Status, &'static str, u64, u64, u64);

static GONE: [Gone; 6] = [
    (
        6,
        Status::Done,
        "admitted\nrights 1 inside 1 unfinished 0\nrefused AlreadyHere\n\
         {\"from\":0,\"rows\":[{\"ann\":0,\"fin\":0,\"out\":[2,0],\"r\":0,\"s\":0,\"taken\":1}],\"v\":1}\n\
         refused BadWord 1\nleft reader\n",
        6,
        2,
        4,
    ),
    // a change is not made
    (
        5,
        Status::Fault,
        "admitted\nrights 1 inside 1 unfinished 0\nrefused AlreadyHere\n\
         {\"from\":0,\"rows\":[{\"ann\":0,\"fin\":0,\"out\":[2,0],\"r\":0,\"s\":0,\"taken\":1}],\"v\":1}\n\
         refused BadWord 1\nrefused StoreFault\n",
        6,
        1,
        3,
    ),
    // a delta is not sent
    (
        3,
        Status::Fault,
        "admitted\nrights 1 inside 1 unfinished 0\nrefused AlreadyHere\nrefused StoreFault\nrefused BadWord 1\nrefused Frozen\n",
        4,
        1,
        2,
    ),
    // a call is not refused for another reason
    (
        2,
        Status::Fault,
        "admitted\nrights 1 inside 1 unfinished 0\nrefused StoreFault\nrefused Frozen\nrefused BadWord 1\nrefused Frozen\n",
        3,
        1,
        1,
    ),
    // nothing is shown
    (
        1,
        Status::Fault,
        "admitted\nrefused StoreFault\nrefused Frozen\nrefused Frozen\nrefused BadWord 1\nrefused Frozen\n",
        2,
        1,
        1,
    ),
    (
        0,
        Status::Fault,
        "refused StoreFault\nrefused Frozen\nrefused Frozen\nrefused Frozen\nrefused BadWord 1\nrefused Frozen\n",
        1,
        0,
        0,
    ),
];

fn is_gone_so(alloc: Global, row: &Gone) -> Option<bool> {
    let (stays, status, told, looks, changes, entries) = *row;
    let layout = built_in(alloc).ok()?;
    let keeper = Failing::new(alloc, &layout, 0, 9, Refusal::Fault).ok()?;
    let mut log = Counting {
        entries: 0,
        left: 9,
        fault: LogFault::Failed,
    };
    let place = Vanishing {
        looks: Cell::new(0),
        stays,
    };
    let mut reader = Giving::new(LINES, NEVER);
    let mut writer = Keeping::new(alloc, NEVER);
    let mut talk = StreamConversation::new(
        alloc,
        Source::new(&mut reader),
        Sink::new(&mut writer),
        LINE_LIMIT,
    )
    .ok()?;
    let (ended, keeper) = serve_engine(
        alloc,
        keeper,
        layout,
        0,
        None,
        Marking::Plain,
        &mut talk,
        &mut log,
        &place,
    );
    drop(talk);
    let is_told = ended == status && writer.bytes() == told.as_bytes();
    let is_left = keeper.told.get() == changes && log.entries == entries;
    Some(is_told && is_left && place.looks.get() == looks)
}

#[test]
fn a_site_whose_store_is_gone_serves_no_more(rt: HostRuntime) {
    for (row, gone) in GONE.iter().enumerate() {
        assert!(rt; is_gone_so(rt.alloc(), gone) == Some(true), "row {row}");
    }
}
