ghost use Rattle.std.specs.Prelude.{◌≡◌, ◌+◌, [], Ok, Err, MatchResult};
ghost use Rattle.merge_core.specs.Book.{IsBook, book_shape};
ghost use Rattle.merge_core.specs.Changes.{JoinsRows};
ghost use Rattle.merge_core.specs.Delta.{DeltaState};
ghost use Rattle.delta_codec.specs.DeltaText.{delta_text};
ghost use Rattle.text_input.specs.Lines.{lines_of};
ghost use Rattle.join_engine.specs.Joins.{IsTaken};
ghost use Rattle.join_engine.specs.Stops.{IsStopOf, JoinsSoFar, StopsAt};

use crate::fault::{LineFault, Refusal};
use delta_codec::{DecodeError, decode};
use merge_core::Book;
use std::alloc::Global;
use text_input::cut_line;

/// Why the joining of lines stopped.
pub enum JoinStop {
    /// Memory ran out.
    Memory,
    /// This line is refused.
    Refused(Refusal),
}

/// Why the joining of one line stopped.
pub enum LineStop {
    Memory,
    Refused(LineFault),
}

/// Joins the lines of some bytes one by one, up to the first that is refused, and tells how many they are. Linear in
/// the bytes.
pub fn join_lines(alloc: Global, book: &mut Book, bytes: &[u8]) -> Result<u64, JoinStop>
    ensures { MatchResult result
        (λ number. JoinsSoFar (lines_of bytes.now) [] number book.old book.new)
        (λ stop. StopsAt (book_shape book.old) (lines_of bytes.now) stop) }
{
    let mut rest = bytes;
    let mut number = 0u64;
    while !rest.is_empty() {
        let (line, tail) = cut_line(rest);
        number += 1;
        match join_line(alloc, book, line) {
            Ok(()) => {}
            Err(LineStop::Memory) => return Err(JoinStop::Memory),
            Err(LineStop::Refused(fault)) => {
                return Err(JoinStop::Refused(Refusal { number, fault }));
            }
        }
        rest = tail;
    }
    Ok(number)
}

// Joins the delta whose text the line is.
fn join_line(alloc: Global, book: &mut Book, line: &[u8]) -> Result<(), LineStop>
    ensures { MatchResult result
        (λ _. (d : DeltaState) × IsTaken (book_shape book.old) d × (line.now ≡ delta_text d) × JoinsRows book.old book.new d.rows × IsBook book.new)
        (λ stop. IsStopOf (book_shape book.old) line.now stop) }
{
    let delta = match decode(alloc, line) {
        Ok(delta) => delta,
        Err(DecodeError::Memory) => return Err(LineStop::Memory),
        Err(error) => return Err(LineStop::Refused(LineFault::Unread(error))),
    };
    if let Err(error) = book.check(&delta) {
        return Err(LineStop::Refused(LineFault::Unfit(error)));
    }
    book.join(&delta);
    Ok(())
}
