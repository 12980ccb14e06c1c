use admission_model::{DurableCell, Session};
use std::alloc::{AllocError, Global};
use std::marker::Model;

/// What a stop leaves of a site: the counters that have left their start, rising by record and slot, and the
/// sessions in order of arrival.
///
/// At site `i` of `n`, slot `j` below `n` is the counter of seats that `i` moved to `j`, slot `i` its grant and
/// the seats given back, 100 + `j` the seats that another site `j` moved to `i`, 200 the seats taken, 201 and 202 the
/// writers announced and finished, and 300 + `j` and 400 + `j` those of another site `j`.
#[derive(Debug, Drop)]
pub struct Durable {
    cells: Vec<DurableCell>,
    sessions: Vec<Session>,
}

// Contracts see the two lists.
impl Model for Durable {
    ghost use Rattle.admission_core.specs.Kept.{DurableState};

    ghost Value = { DurableState };

    ghost view = { λ d. record { cells = d.cells.items; sessions = d.sessions.items } };
}

impl Durable {
    ghost use Rattle.std.specs.Prelude.{◌≡◌, IfOk};

    /// The part with these cells and sessions, which [`SiteCore::restore`](crate::SiteCore::restore) judges.
    /// Takes no memory.
    pub fn new(cells: Vec<DurableCell>, sessions: Vec<Session>) -> Durable
        ensures { result ≡ record { cells = cells.items; sessions = sessions.items } }
    {
        Durable { cells, sessions }
    }

    /// The counters.
    pub fn cells(&self) -> &[DurableCell]
        ensures { result.now ≡ self.now.cells }
    {
        self.cells.as_slice()
    }

    /// The sessions, in order of arrival.
    pub fn sessions(&self) -> &[Session]
        ensures { result.now ≡ self.now.sessions }
    {
        self.sessions.as_slice()
    }

    /// The two lists, given back. Takes no memory.
    pub fn into_parts(self) -> (Vec<DurableCell>, Vec<Session>)
        ensures cells { result.0.items ≡ self.cells }
        ensures sessions { result.1.items ≡ self.sessions }
    {
        let Durable { cells, sessions } = self;
        (cells, sessions)
    }

    /// An equal part.
    pub fn try_copy(&self, alloc: Global) -> Result<Durable, AllocError>
        ensures { IfOk result (λ copy. copy ≡ self.now) }
    {
        let cells = Vec::from_slice(alloc, self.cells.as_slice())?;
        let sessions = Vec::from_slice(alloc, self.sessions.as_slice())?;
        Ok(Durable { cells, sessions })
    }
}
