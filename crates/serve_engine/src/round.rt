//! The lines of a round, and their answers.
use std::alloc::{AllocError, Global};
use std::marker::Model;

/// The lines of a round, and what is told for them once its changes are kept.
#[derive(Drop)]
pub(crate) struct Round {
    // Copies of the lines, the first one first.
    lines: Vec<Vec<u8>>,
    // The answers to the lines before the first one with a change, one behind the other.
    sure: String,
    // Those to this line and the ones behind it.
    waiting: String,
    // How many lines stand before it.
    sure_lines: usize,
}

// Contracts see the lines and both texts.
impl Model for Round {
    ghost use Rattle.std.specs.Prelude.{map, string_bytes};
    ghost use Rattle.serve_engine.specs.Filling.{RoundState};

    ghost Value = { RoundState };

    ghost view = { λ r. record { lines = map (λ v. v.items) r.lines.items; sure = string_bytes r.sure; waiting = string_bytes r.waiting; sure_lines = r.sure_lines } };
}

impl Round {
    ghost use Rattle.std.specs.Prelude.{◌≡◌, ◌+◌, ◌<◌, ◌^◌, ◌++◌, ◌∷◌, [], length, slice_index_or, nat_lt, ◌||◌, string_bytes, IsErr, OnOk};
    ghost use Rattle.serve_engine.specs.Filling.{empty_round, with_answer};

    /// A round without lines. Takes no memory.
    pub(crate) fn new(alloc: Global) -> Round
        ensures { result ≡ empty_round }
    {
        Round {
            lines: Vec::new(alloc),
            sure: String::new(alloc),
            waiting: String::new(alloc),
            sure_lines: 0,
        }
    }

    /// Drops the lines and the answers.
    pub(crate) fn clear(&mut self)
        ensures { self.new ≡ empty_round }
    {
        self.lines.clear();
        self.sure.clear();
        self.waiting.clear();
        self.sure_lines = 0;
    }

    /// How many lines it has.
    pub(crate) fn len(&self) -> usize
        ensures { result ≡ length self.now.lines }
    {
        self.lines.len()
    }

    /// A line.
    pub(crate) fn line(&self, i: usize) -> &[u8]
        requires { i < length self.now.lines }
        ensures { result.now ≡ slice_index_or self.now.lines i [] }
    {
        self.lines[i].as_slice()
    }

    /// The answers to the lines before the first one with a change.
    pub(crate) fn sure(&self) -> &str
        ensures { result.now ≡ self.now.sure }
    {
        self.sure.as_str()
    }

    /// The answers to the others.
    pub(crate) fn waiting(&self) -> &str
        ensures { result.now ≡ self.now.waiting }
    {
        self.waiting.as_str()
    }

    /// How many lines stand before the first one with a change.
    pub(crate) fn sure_lines(&self) -> usize
        ensures { result ≡ self.now.sure_lines }
    {
        self.sure_lines
    }

    /// How many bytes the answers have.
    pub(crate) fn bytes(&self) -> usize
        ensures { length self.now.sure + length self.now.waiting < 2 ^ 64 → result ≡ length self.now.sure + length self.now.waiting }
    {
        self.sure.len().saturating_add(self.waiting.len())
    }

    /// Keeps a copy of a line. Linear in it.
    pub(crate) fn push_line(&mut self, alloc: Global, line: &[u8]) -> Result<(), AllocError>
        ensures ok { OnOk result (self.new ≡ record self.old { lines = self.old.lines ++ line.now ∷ [] }) }
        ensures err { IsErr result → self.new ≡ self.old }
    {
        let copy = Vec::from_slice(alloc, line)?;
        if self.lines.push(copy).is_err() {
            return Err(AllocError);
        }
        Ok(())
    }

    /// Adds the answer to the last line: to those behind the first change where one waits, or a line before has. Linear in it.
    pub(crate) fn push_answer(&mut self, text: &str, waits: bool) -> Result<(), AllocError>
        ensures ok { OnOk result (self.new ≡ with_answer self.old text.now (waits || nat_lt (self.old.sure_lines + 1) (length self.old.lines))) }
        ensures err { IsErr result → self.new ≡ self.old }
    {
        if waits || self.sure_lines.saturating_add(1) < self.lines.len() {
            return self.waiting.push_str(text);
        }
        self.sure.push_str(text)?;
        self.sure_lines = self.lines.len();
        Ok(())
    }
}
