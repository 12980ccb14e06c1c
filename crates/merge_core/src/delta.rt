ghost use Rattle.std.specs.Prelude.{◌≡◌, IfOk};

use crate::layout::MOST_SITES;
use grow_counters::Counts;
use std::alloc::{AllocError, Global};
use std::marker::Model;
use thiserror::Error;

mod order;
mod thin;

use order::{are_rows, copied};
use thin::thin_rows;

/// Why a list of rows is no delta.
#[derive(Clone, Copy, Debug, PartialEq, Eq, Error)]
pub enum DeltaError {
    /// The label is no site's number, the rows do not rise, or a row has numbers that no layout has.
    #[error("the rows are no delta")]
    BadDelta,
}

/// The counters of site `s` for record `r`: row `s` of the bounded counter's matrix with the diagonal, the
/// units taken, and the writers announced and finished.
#[derive(Debug, Drop)]
pub struct Row {
    pub r: u16,
    pub s: u16,
    pub out: Counts,
    pub taken: u64,
    pub ann: u64,
    pub fin: u64,
}

impl Row {
    ghost use Rattle.std.specs.Prelude.{◌≡◌, IfOk};

    /// An equal row.
    pub fn try_copy(&self, alloc: Global) -> Result<Row, AllocError>
        ensures { IfOk result (λ copy. copy ≡ self.now) }
    {
        let out = Vec::from_slice(alloc, self.out.as_slice())?;
        Ok(Row {
            r: self.r,
            s: self.s,
            out: Counts::from_vec(out),
            taken: self.taken,
            ann: self.ann,
            fin: self.fin,
        })
    }
}

/// What one site tells another: rows of counters, rising by record and then by site, and as a label the
/// site that made it.
#[derive(Debug, Drop)]
pub struct Delta {
    from: u16,
    rows: Vec<Row>,
}

// Contracts see the label and the list of the rows, which always rise.
impl Model for Delta {
    ghost use Rattle.merge_core.specs.Delta.{DeltaState, IsDelta};

    ghost Value = { DeltaState };

    ghost view = { λ d. record { from = d.from; rows = d.rows.items } };

    ghost invariant = { λ d. IsDelta (record { from = d.from; rows = d.rows.items }) };
}

impl Delta {
    ghost use Rattle.std.specs.Prelude.{◌≡◌, IfOk, MatchResult};
    ghost use Rattle.merge_core.specs.Delta.{IsDelta};
    ghost use Rattle.merge_core.specs.Thin.{thin_rows};

    /// The delta with this label and these rows, if they are one. Takes no memory; linear in the rows.
    pub fn new(from: u16, rows: Vec<Row>) -> Result<Delta, DeltaError>
        ensures answer { MatchResult result
            (λ _. IsDelta (record { from = from; rows = rows.items }))
            (λ _. ¬ IsDelta (record { from = from; rows = rows.items })) }
        ensures value { IfOk result (λ d. d ≡ record { from = from; rows = rows.items }) }
    {
        if from >= MOST_SITES || !are_rows(rows.as_slice()) {
            return Err(DeltaError::BadDelta);
        }
        Ok(Delta { from, rows })
    }

    /// The delta with this label and these rows, whose caller shows that they are one. Takes no memory.
    pub(crate) fn of_rows(from: u16, rows: Vec<Row>) -> Delta
        requires { IsDelta (record { from = from; rows = rows.items }) }
        ensures { result ≡ record { from = from; rows = rows.items } }
    {
        Delta { from, rows }
    }

    /// The number of the site that made the delta: a label, which decides nothing.
    pub fn from_site(&self) -> u16
        ensures label { result ≡ self.now.from }
        ensures valid { IsDelta self.now }
    {
        self.from
    }

    /// The rows, rising by record and then by site.
    pub fn rows(&self) -> &[Row]
        ensures rows { result.now ≡ self.now.rows }
        ensures valid { IsDelta self.now }
    {
        self.rows.as_slice()
    }

    /// The rows for which `last` has no equal row, with the same label: what a site that took `last` has to
    /// be told. Linear in both.
    pub fn thin(&self, alloc: Global, last: &Delta) -> Result<Delta, AllocError>
        ensures { IfOk result (λ d. d ≡ record { from = self.now.from; rows = thin_rows self.now.rows last.now.rows }) }
    {
        let rows = thin_rows(alloc, self.rows.as_slice(), last.rows.as_slice())?;
        Ok(Delta {
            from: self.from,
            rows,
        })
    }

    /// An equal delta.
    pub fn try_copy(&self, alloc: Global) -> Result<Delta, AllocError>
        ensures { IfOk result (λ copy. copy ≡ self.now) }
    {
        let rows = copied(alloc, self.rows.as_slice())?;
        Ok(Delta {
            from: self.from,
            rows,
        })
    }
}
