//! A site with 200 sessions.
use durable_keeper::MemoryKeeper;
use exit_status::Status;
use layout_file::read_layout;
use line_conversation::StreamConversation;
use live_site::{NoLog, NoPlace};
use serve_engine::{LINE_LIMIT, Marking, serve_engine};
use std::alloc::Global;
use test_streams::{Giving, Keeping, NEVER};
use text_input::{Sink, Source};

const MANY_SEATS: &str =
    "sites = 1\n[[record]]\nname = \"a\"\nseats = 250\nhome = 0\nproblem = 1\n";

// So many readers, and a look at them.
fn lines(alloc: Global, many: u64) -> Option<String> {
    let mut text = String::new(alloc);
    for h in 1..=many {
        let line = format!(in alloc; "read a {h}\n").ok()?;
        text.push_str(line.as_str()).ok()?;
    }
    text.push_str("sessions a\n").ok()?;
    Some(text)
}

// What they are told.
fn answers(alloc: Global, many: u64) -> Option<String> {
    let mut text = String::new(alloc);
    for _ in 1..=many {
        text.push_str("admitted\n").ok()?;
    }
    let count = format!(in alloc; "{many} 1 reader").ok()?;
    text.push_str(count.as_str()).ok()?;
    for h in 2..=many {
        let session = format!(in alloc; ", {h} reader").ok()?;
        text.push_str(session.as_str()).ok()?;
    }
    text.push_str("\n").ok()?;
    Some(text)
}

// Whether so many readers are told so.
fn is_told(alloc: Global, many: u64) -> Option<bool> {
    let layout = read_layout(alloc, MANY_SEATS.as_bytes()).ok()?;
    let keeper = MemoryKeeper::new(alloc, &layout, 0).ok()?;
    let lines = lines(alloc, many)?;
    let mut reader = Giving::new(lines.as_bytes(), NEVER);
    let mut writer = Keeping::new(alloc, NEVER);
    let mut talk = StreamConversation::new(
        alloc,
        Source::new(&mut reader),
        Sink::new(&mut writer),
        LINE_LIMIT,
    )
    .ok()?;
    let (ended, _keeper) = serve_engine(
        alloc,
        keeper,
        layout,
        0,
        None,
        Marking::Plain,
        &mut talk,
        &mut NoLog {},
        &NoPlace {},
    );
    drop(talk);
    Some(ended == Status::Done && writer.bytes() == answers(alloc, many)?.as_bytes())
}

#[test]
fn two_hundred_sessions_are_listed(rt: HostRuntime) {
    assert!(rt; is_told(rt.alloc(), 200) == Some(true));
}
