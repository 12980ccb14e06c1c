//! The lines of an input are joined while it comes: only the front of a line that is not whole yet is kept.
ghost use Rattle.std.specs.Prelude.{◌≡◌, ◌^◌, ◌≤◌, ℕ, List, [], None, IfOk, MatchResult, length};
ghost use Rattle.merge_core.specs.Layout.{Shape, shape_of};
ghost use Rattle.merge_core.specs.Delta.{DeltaState};
ghost use Rattle.text_input.specs.Lines.{lines_of};
ghost use Rattle.join_engine.specs.Joins.{AreTexts, IsJoinOf};
ghost use Rattle.join_engine.specs.Stops.{JoinsPending, Knows, StopsAt};

use crate::fault::Refusal;
use crate::lines::{JoinStop, join_lines};
use merge_core::{Book, Layout};
use std::alloc::{AllocError, Global};
use text_input::{Accumulator, cut_whole_lines};

/// What the lines of an input came to so far.
#[derive(Drop)]
pub struct Joining {
    alloc: Global,
    // The join of the lines before the first that is refused.
    book: Book,
    // How many they are, while none is refused.
    joined: u64,
    // The first that is refused; what comes behind it is not looked at.
    refused: Option<Refusal>,
    // The front of a line whose end has not come yet.
    pending: Vec<u8>,
}

impl Joining {
    /// Before the first byte.
    pub fn new(alloc: Global, layout: &Layout) -> Result<Joining, AllocError>
        ensures { IfOk result (Knows (shape_of layout.now) []) }
    {
        let book = Book::genesis(alloc, layout)?;
        Ok(Joining {
            alloc,
            book,
            joined: 0,
            refused: None,
            pending: Vec::new(alloc),
        })
    }

    // Joins what is pending, whole lines but for the last of an input, up to the first line that is refused.
    fn join_pending(&mut self) -> Result<(), AllocError>
        requires { self.old.refused ≡ None }
        ensures { IfOk result (λ _. JoinsPending self.old self.new) }
    {
        match join_lines(self.alloc, &mut self.book, self.pending.as_slice()) {
            Ok(number) => self.joined = self.joined.saturating_add(number),
            Err(JoinStop::Memory) => return Err(AllocError),
            Err(JoinStop::Refused(Refusal { number, fault })) => {
                let number = self.joined.saturating_add(number);
                self.refused = Some(Refusal { number, fault });
            }
        }
        // Given back, not emptied: an allocator that has had a great block back keeps the memory of the next deltas.
        self.pending = Vec::new(self.alloc);
        Ok(())
    }

    /// The book that has joined all lines, the last of which may lack its LF; or why there is none.
    pub fn finish(self) -> Result<Book, JoinStop>
        ensures { (shape : Shape) (bytes : List ℕ) → Knows shape bytes self → length bytes ≤ 2 ^ 32 → MatchResult result
            (λ book. (deltas : List DeltaState) × AreTexts shape (lines_of bytes) deltas × IsJoinOf shape deltas book)
            (λ stop. StopsAt shape (lines_of bytes) stop) }
    {
        let mut joining = self;
        if let Some(refusal) = joining.refused {
            return Err(JoinStop::Refused(refusal));
        }
        if joining.join_pending().is_err() {
            return Err(JoinStop::Memory);
        }
        match joining.refused {
            Some(refusal) => Err(JoinStop::Refused(refusal)),
            None => Ok(joining.book),
        }
    }
}

impl Accumulator for Joining {
    ghost takes = { λ first bytes now. (shape : Shape) → length bytes ≤ 2 ^ 32 → Knows shape [] first → Knows shape bytes now };

    fn add(&mut self, part: &[u8]) -> Result<(), AllocError> {
        if self.refused.is_some() {
            return Ok(());
        }
        match cut_whole_lines(part) {
            Some((lines, rest)) => {
                self.pending.extend_from_slice(lines)?;
                self.join_pending()?;
                if self.refused.is_none() {
                    self.pending.extend_from_slice(rest)?;
                }
            }
            None => self.pending.extend_from_slice(part)?,
        }
        Ok(())
    }
}
