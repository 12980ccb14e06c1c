//! A delta that shows that the store is outdated, over a keeper that may not keep the mark of that.
use crate::fakes::{Counting, Failing, Refusal};
use exit_status::Status;
use layout_file::built_in;
use line_conversation::StreamConversation;
use live_site::{LogFault, NoPlace};
use serve_engine::{LINE_LIMIT, Marking, serve_engine};
use std::alloc::Global;
use test_streams::{Giving, Keeping, NEVER};
use text_input::{Sink, Source};

// A seat is taken, a delta tells of another one that this site took, twice, and the seat is given back.
const LINES: &[u8] = b"read a 7\n\
      take {\"from\":1,\"rows\":[{\"ann\":0,\"fin\":0,\"out\":[2,0],\"r\":0,\"s\":0,\"taken\":2}],\"v\":1}\n\
      take {\"from\":1,\"rows\":[{\"ann\":0,\"fin\":0,\"out\":[2,0],\"r\":0,\"s\":0,\"taken\":2}],\"v\":1}\n\
      leave a 7\n";

// How many changes and marks are kept before one is not, why it is not, how the service ends, what it is told, how often
// the keeper was told a change or a mark, and how many entries the log has then.
type Marked = (u64, Refusal, Status, &'static str, u64, u64);

static MARKS: [Marked; 4] = [
    // kept, and only then told
    (
        9,
        Refusal::Fault,
        Status::Fault,
        "admitted\nrefused OwnRowAhead 0\nrefused Frozen\nrefused Frozen\n",
        2,
        2,
    ),
    (
        1,
        Refusal::Fault,
        Status::Fault,
        "admitted\nrefused StoreFault\nrefused Frozen\nrefused Frozen\n",
        2,
        2,
    ),
    // the site serves on, and the entry is taken back
    (
        1,
        Refusal::Memory,
        Status::Fault,
        "admitted\nrefused Memory\nrefused OwnRowAhead 0\nrefused Frozen\n",
        3,
        2,
    ),
    // a change that finds no memory asks for no mark
    (
        0,
        Refusal::Memory,
        Status::Fault,
        "refused Memory\nrefused OwnRowAhead 0\nrefused Frozen\nrefused Frozen\n",
        2,
        1,
    ),
];

fn marks_so(alloc: Global, row: &Marked) -> Option<bool> {
    let (left, refusal, status, told, changes, entries) = *row;
    let layout = built_in(alloc).ok()?;
    let keeper = Failing::new(alloc, &layout, 0, left, refusal).ok()?;
    let mut log = Counting {
        entries: 0,
        left: 9,
        fault: LogFault::Failed,
    };
    let mut reader = Giving::new(LINES, NEVER);
    let mut writer = Keeping::new(alloc, NEVER);
    let mut talk = StreamConversation::new(
        alloc,
        Source::new(&mut reader),
        Sink::new(&mut writer),
        LINE_LIMIT,
    )
    .ok()?;
    let (ended, keeper) = serve_engine(
        alloc,
        keeper,
        layout,
        0,
        None,
        Marking::Plain,
        &mut talk,
        &mut log,
        &NoPlace {},
    );
    drop(talk);
    let is_told = ended == status && writer.bytes() == told.as_bytes();
    Some(is_told && keeper.told.get() == changes && log.entries == entries)
}

#[test]
fn an_outdated_store_is_marked_before_that_is_told(rt: HostRuntime) {
    for (row, marked) in MARKS.iter().enumerate() {
        assert!(rt; marks_so(rt.alloc(), marked) == Some(true), "row {row}");
    }
}
