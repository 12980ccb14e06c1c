ghost use Rattle.std.specs.Prelude.{◌≡◌};
ghost use Rattle.desk_log.specs.Log.{is_fault};

use crate::entry::{Entries, Entry};
use admission_core::{Durable, Refusal, Reply};
use std::alloc::{AllocError, Global};
use std::marker::Model;

// The reply is the store's fault.
fn is_fault(reply: &Reply) -> bool
    ensures { result ≡ is_fault reply.now }
{
    matches!(reply, Reply::Refused(Refusal::StoreFault))
}

/// What an opening began with and what it answered, with places for all entries from the start.
#[derive(Debug, Drop)]
pub(crate) struct Log {
    first: Durable,
    entries: Vec<Entry>,
    limit: usize,
    // The last entry's reply is the store's fault.
    frozen: bool,
}

// Contracts see the beginning, the entries and the limit.
impl Model for Log {
    ghost use Rattle.std.specs.Prelude.{◌≡◌, ◌≤◌, false, length, vec_capacity};
    ghost use Rattle.desk_log.specs.Log.{LogState, ends_in_fault};

    ghost Value = { LogState };

    ghost view = { λ l. record { first = l.first; entries = l.entries.items; limit = l.limit } };

    ghost invariant = { λ l. (length l.entries.items ≤ l.limit) × (l.limit ≤ vec_capacity l.entries) × (l.frozen ≡ ends_in_fault false l.entries.items) };
}

impl Log {
    ghost use Rattle.std.specs.Prelude.{◌≡◌, ◌≤◌, ◌<◌, ◌↔◌, ◌++◌, [], ◌∷◌, false, length, IfOk, IsTrue};
    ghost use Rattle.desk_log.specs.Log.{ends_in_fault};

    /// A log without entries, which has places for as many as its limit.
    pub fn new(alloc: Global, first: Durable, limit: usize) -> Result<Log, AllocError>
        ensures { IfOk result (λ l. l ≡ record { first = first; entries = []; limit = limit }) }
    {
        let entries = Vec::with_capacity(alloc, limit)?;
        Ok(Log {
            first,
            entries,
            limit,
            frozen: false,
        })
    }

    /// What the opening began with.
    pub fn first(&self) -> &Durable
        ensures { result.now ≡ self.now.first }
    {
        &self.first
    }

    /// The entries, oldest first.
    pub fn entries(&self) -> &[Entry]
        ensures { result.now ≡ self.now.entries }
    {
        self.entries.as_slice()
    }

    /// How many entries there may be.
    pub fn limit(&self) -> usize
        ensures limit { result ≡ self.now.limit }
        ensures within { length self.now.entries ≤ self.now.limit }
    {
        self.limit
    }

    /// Whether the last reply is the store's fault.
    pub fn is_frozen(&self) -> bool
        ensures { result ≡ ends_in_fault false self.now.entries }
    {
        self.frozen
    }

    /// Whether the log has no place left.
    pub fn is_full(&self) -> bool
        ensures { IsTrue result ↔ (self.now.limit ≤ length self.now.entries) }
    {
        self.entries.len() >= self.limit
    }

    /// Puts an entry in the next place. Takes no memory.
    pub fn push(&mut self, entry: Entry)
        requires { length self.old.entries < self.old.limit }
        ensures { self.new ≡ record self.old { entries = self.old.entries ++ entry ∷ [] } }
    {
        self.frozen = is_fault(&entry.reply);
        self.entries.push_reserved(entry);
    }

    /// The beginning and the entries. Takes no memory.
    pub fn into_parts(self) -> (Durable, Entries)
        ensures first { result.0 ≡ self.first }
        ensures entries { result.1 ≡ self.entries }
        ensures within { length self.entries ≤ self.limit }
    {
        let Log {
            first,
            entries,
            limit: _,
            frozen: _,
        } = self;
        (first, Entries::from_vec(entries))
    }
}
