use admission_core::{Call, Reply};
use std::marker::Model;

/// A call that was served: the number of the pass that made it, the call, and its reply.
#[derive(Debug, Drop)]
pub struct Entry {
    pub pass: u16,
    pub call: Call,
    pub reply: Reply,
}

/// The entries of one opening, oldest first.
#[derive(Debug, Drop)]
pub struct Entries {
    items: Vec<Entry>,
}

// Contracts see the list.
impl Model for Entries {
    ghost use Rattle.std.specs.Prelude.{List};
    ghost use Rattle.desk_log.specs.declared.entry.Entry.{Entry};

    ghost Value = { List Entry };

    ghost view = { λ e. e.items.items };
}

impl Entries {
    ghost use Rattle.std.specs.Prelude.{◌≡◌, length};

    /// These entries. Takes no memory.
    pub fn from_vec(items: Vec<Entry>) -> Entries
        ensures { result ≡ items.items }
    {
        Entries { items }
    }

    /// The entries, given back. Takes no memory.
    pub fn into_vec(self) -> Vec<Entry>
        ensures { result.items ≡ self }
    {
        let Entries { items } = self;
        items
    }

    /// The entries.
    pub fn as_slice(&self) -> &[Entry]
        ensures { result.now ≡ self.now }
    {
        self.items.as_slice()
    }

    /// How many there are.
    pub fn len(&self) -> usize
        ensures { result ≡ length self.now }
    {
        self.items.len()
    }
}
