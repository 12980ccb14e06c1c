//! The line that is being read.
use crate::conversation::Next;
use std::alloc::Global;
use std::marker::Model;

/// What became of a line that is read part by part.
#[derive(Clone, Copy, Debug, PartialEq, Eq)]
pub(crate) enum Fate {
    /// All its bytes are kept.
    Kept,
    /// It is longer than the limit, and no byte is kept.
    TooLong,
    /// It found no memory, and no byte is kept.
    NoRoom,
}

/// A line of which the parts come one by one, and the most bytes that are kept of one.
#[derive(Drop)]
pub(crate) struct Held {
    bytes: Vec<u8>,
    limit: usize,
    fate: Fate,
}

// Contracts see the bytes that are kept, the limit, and what became of the line.
impl Model for Held {
    ghost use Rattle.line_conversation.specs.Stream.{HeldState};

    ghost Value = { HeldState };

    ghost view = { λ h. record { bytes = h.bytes.items; limit = h.limit; fate = h.fate } };
}

impl Held {
    ghost use Rattle.std.specs.Prelude.{◌≡◌, ◌⊎◌, ◌+◌, ◌≤◌, ◌↔◌, ℕ, List, [], ◌++◌, length, IsTrue};
    ghost use Rattle.line_conversation.specs.declared.held.Fate.TheVariants.{Kept, NoRoom};
    ghost use Rattle.line_conversation.specs.Stream.{Holds, last_of, next_of};

    /// No line yet, of which so many bytes will be kept. Takes no memory.
    pub fn new(alloc: Global, limit: usize) -> Held
        ensures { result ≡ record { bytes = []; limit = limit; fate = Kept } }
    {
        Held {
            bytes: Vec::new(alloc),
            limit,
            fate: Fate::Kept,
        }
    }

    /// A new line begins.
    pub fn clear(&mut self)
        ensures { self.new ≡ record { bytes = []; limit = self.old.limit; fate = Kept } }
    {
        self.bytes.clear();
        self.fate = Fate::Kept;
    }

    /// The next part of the line: kept behind the others where the whole is within the limit and finds memory; else
    /// nothing of the line is kept.
    pub fn keep(&mut self, part: &[u8])
        ensures limit { self.new.limit ≡ self.old.limit }
        ensures holds { (line : List ℕ) → Holds line self.old → Holds (line ++ part.now) self.new }
        ensures room { self.new.fate ≡ NoRoom → (self.old.fate ≡ NoRoom) ⊎ (length self.old.bytes + length part.now ≤ self.old.limit) }
    {
        if part.is_empty() || self.fate != Fate::Kept {
            return;
        }
        if part.len() > self.limit || self.bytes.len() > self.limit - part.len() {
            self.bytes.clear();
            self.fate = Fate::TooLong;
            return;
        }
        if self.bytes.extend_from_slice(part).is_err() {
            self.bytes.clear();
            self.fate = Fate::NoRoom;
        }
    }

    /// The input ends here: how what came behind the last LF is told, as torn, or as the end where no byte came. None of
    /// it is kept.
    pub fn end_input(&mut self) -> Next
        ensures limit { self.new.limit ≡ self.old.limit }
        ensures dropped { self.new.bytes ≡ [] }
        ensures told { (line : List ℕ) → Holds line self.old → result ≡ last_of line }
    {
        let empty = self.is_empty();
        self.clear();
        if empty { Next::End } else { Next::Torn }
    }

    // Whether the line has no byte yet.
    fn is_empty(&self) -> bool
        ensures { (line : List ℕ) → Holds line self.now → (IsTrue result ↔ (line ≡ [])) }
    {
        self.fate == Fate::Kept && self.bytes.is_empty()
    }

    /// How a line whose LF has come is told.
    pub fn told(&self) -> Next
        ensures { result ≡ next_of self.now.fate }
    {
        match self.fate {
            Fate::Kept => Next::Line,
            Fate::TooLong => Next::TooLong,
            Fate::NoRoom => Next::Memory,
        }
    }

    /// The bytes that are kept.
    pub fn bytes(&self) -> &[u8]
        ensures { result.now ≡ self.now.bytes }
    {
        self.bytes.as_slice()
    }
}
