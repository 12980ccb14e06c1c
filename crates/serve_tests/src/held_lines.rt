//! Lines that were read already, and those for which the reader has to be called.
use line_conversation::{Conversation, Next, RoundConversation, StreamConversation};
use std::alloc::{AllocError, Global};
use test_streams::{Giving, Keeping, NEVER};
use text_input::{Sink, Source};

// The most bytes of a line here.
const LIMIT: usize = 6;

// What comes, at most 40 bytes at a call; the call that fails; and what is heard: behind a stroke each time that a line was
// waited for, and behind a bar each line that was there then. A line past the limit is `!`, a torn one `~`, the end `.`, and
// a failure `x`. A line that was said to be there and is not, or the other way round, is `?`.
type Row = (&'static [u8], usize, &'static str);

static HEARD: [Row; 9] = [
    (b"", NEVER, "/."),
    (b"a\n", NEVER, "/a/."),
    (b"a\nbb\n\nccc", NEVER, "/a|bb|/~/."),
    (b"\n\n", NEVER, "/|/."),
    (b"abcdefg\nab\n", NEVER, "/!|ab/."),
    (b"ab\nabcdefg\nabcdef\n", NEVER, "/ab|!|abcdef/."),
    // the last byte of the first call begins a line
    (
        b"ab\nab\nab\nab\nab\nab\nab\nab\nab\nab\nab\nab\nab\ncd\nef\n",
        NEVER,
        "/ab|ab|ab|ab|ab|ab|ab|ab|ab|ab|ab|ab|ab/cd|ef/.",
    ),
    // or is its end
    (
        b"a\nab\nab\nab\nab\nab\nab\nab\nab\nab\nab\nab\nab\nc\nd\n",
        NEVER,
        "/a|ab|ab|ab|ab|ab|ab|ab|ab|ab|ab|ab|ab|c/d/.",
    ),
    (b"ab\ncd\nef", 1, "/ab|cd/x"),
];

// Writes what was heard.
fn push_heard(said: &mut String, next: Next, line: &[u8]) -> Result<(), AllocError> {
    match next {
        Next::Line => said.push_str(std::str::from_utf8(line).unwrap_or("?")),
        Next::TooLong => said.push_str("!"),
        Next::Memory => said.push_str("memory"),
        Next::Torn => said.push_str("~"),
        Next::End => said.push_str("."),
        Next::Failed => said.push_str("x"),
    }
}

// Writes the lines that are there.
fn push_held<C: RoundConversation>(talk: &mut C, said: &mut String) -> Result<(), AllocError> {
    for _ in 0..64 {
        let there = talk.holds_next();
        let Some(next) = talk.next_held() else {
            return said.push_str(if there { "?" } else { "" });
        };
        said.push_str(if there { "|" } else { "?" })?;
        push_heard(said, next, talk.line())?;
    }
    Ok(())
}

// Writes all that is heard.
fn push_all<C: RoundConversation>(talk: &mut C, said: &mut String) -> Result<(), AllocError> {
    for _ in 0..64 {
        let next = talk.next_line();
        said.push_str("/")?;
        push_heard(said, next, talk.line())?;
        if next == Next::End || next == Next::Failed {
            return Ok(());
        }
        push_held(talk, said)?;
    }
    Ok(())
}

fn is_heard(alloc: Global, row: &Row) -> Option<bool> {
    let (bytes, fails, wanted) = *row;
    let mut reader = Giving::new(bytes, fails);
    let mut writer = Keeping::new(alloc, NEVER);
    let source = Source::new(&mut reader);
    let sink = Sink::new(&mut writer);
    let mut talk = StreamConversation::new(alloc, source, sink, LIMIT).ok()?;
    let mut said = String::new(alloc);
    push_all(&mut talk, &mut said).ok()?;
    Some(said.as_str() == wanted)
}

#[test]
fn lines_that_were_read_are_told_without_a_call_of_the_reader(rt: HostRuntime) {
    for (row, heard) in HEARD.iter().enumerate() {
        assert!(rt; is_heard(rt.alloc(), heard) == Some(true), "row {row}");
    }
}
