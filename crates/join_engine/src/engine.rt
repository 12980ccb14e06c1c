ghost use Rattle.std.specs.Prelude.{◌≡◌, ◌<◌, ◌≤◌, ◌^◌, ℕ, List, length, string_bytes, IfOk};
ghost use Rattle.merge_core.specs.Layout.{shape_of};
ghost use Rattle.join_engine.specs.Engine.{AnswersInput, EndsJoin, book_line};
ghost use Rattle.join_engine.specs.Stops.{Knows};

use crate::fault::refusal_line;
use crate::joining::Joining;
use crate::lines::JoinStop;
use delta_codec::encode;
use exit_status::{Status, write_too_long};
use merge_core::{Book, Layout};
use std::alloc::{AllocError, Global};
use std::io::{Read, Write};
use text_input::{INPUT_LIMIT, InputError, Sink, Source, read_into};

/// Reads the whole input, joins its lines as they come, and writes the text of the book that has joined them all, or the
/// refusal of the first line that is refused.
pub fn join_engine<R: Read, W: Write>(
    alloc: Global,
    layout: &Layout,
    source: &mut Source<R>,
    sink: &mut Sink<W>,
) -> Status
    ensures { EndsJoin (shape_of layout.now) source.old source.new sink.old sink.new result }
{
    let Ok(mut joining) = Joining::new(alloc, layout) else {
        return Status::Memory;
    };
    match read_into(source, INPUT_LIMIT, &mut joining) {
        Ok(()) => answer_input(alloc, layout, joining, sink),
        Err(InputError::TooLong) => {
            if !write_too_long(sink) {
                return Status::Io;
            }
            Status::Refused
        }
        Err(InputError::Memory) => Status::Memory,
        Err(InputError::Io) => Status::Io,
    }
}

// Writes the answer to an input that was read.
fn answer_input<W: Write>(
    alloc: Global,
    layout: &Layout,
    joining: Joining,
    sink: &mut Sink<W>,
) -> Status
    requires { (bytes : List ℕ) × Knows (shape_of layout.now) bytes joining × (length bytes ≤ 2 ^ 32) }
    ensures { (bytes : List ℕ) → Knows (shape_of layout.now) bytes joining → length bytes ≤ 2 ^ 32 → AnswersInput (shape_of layout.now) bytes sink.old sink.new result }
{
    match joining.finish() {
        Ok(book) => {
            let _sites = layout.sites(); // tells that the layout is one
            let Ok(line) = book_line(alloc, &book) else {
                return Status::Memory;
            };
            if !sink.write_and_flush(line.as_str()) {
                return Status::Io;
            }
            Status::Done
        }
        Err(JoinStop::Memory) => Status::Memory,
        Err(JoinStop::Refused(refusal)) => {
            let Ok(line) = refusal_line(alloc, refusal) else {
                return Status::Memory;
            };
            if !sink.write_and_flush(line.as_str()) {
                return Status::Io;
            }
            Status::Refused
        }
    }
}

// The text of all that the book names, and LF.
fn book_line(alloc: Global, book: &Book) -> Result<String, AllocError>
    requires { 0 < book.now.sites }
    ensures { IfOk result (λ line. string_bytes line ≡ book_line book.now) }
{
    let delta = book.snapshot(alloc, 0)?;
    let mut line = encode(alloc, &delta)?;
    line.push('\n')?;
    Ok(line)
}
