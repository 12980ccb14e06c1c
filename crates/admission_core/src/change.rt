use admission_model::{DurableCell, Session};
use std::marker::Model;

/// A session that a store puts or removes.
#[derive(Clone, Copy, Debug, PartialEq, Eq)]
pub enum SessionChange {
    /// The session came, or has another phase; a session that is there keeps its place.
    Put(Session),
    /// The session went.
    Removed(Session),
}

/// What a call changes of what a store keeps: the counters that rise, with their new values, rising by record
/// and slot, and at most one session.
#[derive(Debug, Drop)]
pub struct Change {
    cells: Vec<DurableCell>,
    session: Option<SessionChange>,
}

// Contracts see the list of the cells and the session.
impl Model for Change {
    ghost use Rattle.admission_core.specs.Kept.{ChangeState};

    ghost Value = { ChangeState };

    ghost view = { λ c. record { cells = c.cells.items; session = c.session } };
}

impl Change {
    ghost use Rattle.std.specs.Prelude.{◌≡◌, ◌↔◌, [], None, IsTrue};

    /// The change with these cells and this session. Takes no memory.
    pub fn new(cells: Vec<DurableCell>, session: Option<SessionChange>) -> Change
        ensures { result ≡ record { cells = cells.items; session = session } }
    {
        Change { cells, session }
    }

    /// The counters that rise.
    pub fn cells(&self) -> &[DurableCell]
        ensures { result.now ≡ self.now.cells }
    {
        self.cells.as_slice()
    }

    /// The session that is put or removed.
    pub fn session(&self) -> Option<SessionChange>
        ensures { result ≡ self.now.session }
    {
        self.session
    }

    /// Whether nothing changes.
    pub fn is_empty(&self) -> bool
        ensures { IsTrue result ↔ ((self.now.cells ≡ []) × (self.now.session ≡ None)) }
    {
        self.cells.is_empty() && self.session.is_none()
    }
}
