//! Each line is answered before the next one is read, and very many are.
use crate::fakes::Marking;
use durable_keeper::MemoryKeeper;
use exit_status::Status;
use layout_file::built_in;
use live_site::{NoLog, NoPlace};
use serve_engine::{Marking as Travel, serve_engine};
use std::alloc::Global;

// So many lines of a reader who enters and leaves, each told in turn.
fn served(alloc: Global, lines: u64) -> Option<(Status, Marking)> {
    let layout = built_in(alloc).ok()?;
    let keeper = MemoryKeeper::new(alloc, &layout, 0).ok()?;
    let mut talk = Marking {
        lines: [b"leave a 7", b"read a 7"],
        line: b"",
        left: lines,
        marks: Vec::new(alloc),
        bytes: 0,
    };
    let (ended, _keeper) = serve_engine(
        alloc,
        keeper,
        layout,
        0,
        None,
        Travel::Plain,
        &mut talk,
        &mut NoLog {},
        &NoPlace {},
    );
    Some((ended, talk))
}

// Whether a reading and a telling follow each other.
fn alternate(marks: &[u8]) -> bool {
    for (place, mark) in marks.iter().enumerate() {
        let wanted = if place % 2 == 0 { b'<' } else { b'>' };
        if *mark != wanted {
            return false;
        }
    }
    true
}

// Whether so many lines are served so: half of the answers have 9 bytes, half 12.
fn is_served(alloc: Global, lines: u64) -> Option<bool> {
    let (ended, talk) = served(alloc, lines)?;
    let marks = talk.marks.as_slice();
    Some(
        ended == Status::Done
            && marks.len() as u64 == lines.saturating_mul(2)
            && alternate(marks)
            && talk.bytes == (lines / 2).saturating_mul(21),
    )
}

#[test]
fn each_line_is_answered_before_the_next(rt: HostRuntime) {
    assert!(rt; is_served(rt.alloc(), 2) == Some(true));
    assert!(rt; is_served(rt.alloc(), 200_000) == Some(true));
}
