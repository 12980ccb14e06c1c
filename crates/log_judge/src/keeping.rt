//! Which merges are kept until the verdict, and own rows that were found before.
ghost use Rattle.std.specs.Prelude.{◌↔◌, ℕ, IsTrue, MatchOption, ◌≡◌, slice_index_or};
ghost use Rattle.merge_core.specs.Rows.{counters_of};
ghost use Rattle.admission_model.specs.Account.{Account as AccountThere};
ghost use Rattle.log_judge.specs.Excess.{AreSame, AreWithin, IsAbove, no_row, own_in};
ghost use Rattle.log_judge.specs.declared.keeping.Keeping.TheVariants.{All as KeepsAll};
ghost use Rattle.log_judge.specs.Stream.{IsGuess, TellAll};

use crate::excess::is_row_above;
use log_replay::OwnRows;
use merge_core::Row;

/// Which merges are kept until the verdict.
#[derive(Debug, Drop)]
pub enum Keeping {
    /// All that may tell more than their sites had done so far. Memory grows with their number.
    All,
    /// Of these the first of each site, at most so many. Memory does not grow with the entries.
    First(usize),
    /// The first of each site with a row above these own rows, which the caller takes for those at the cut. Memory does not
    /// grow with the entries.
    Above(Vec<OwnRows>),
}

// The own row of a site and a record, if there is one.
fn row_at(tables: &[OwnRows], s: usize, r: usize) -> Option<&Row>
    ensures { MatchOption result (own_in tables.now s r ≡ no_row) (λ own. own.now ≡ own_in tables.now s r) }
{
    let own = tables.get(s)?;
    own.as_slice().get(r)
}

// Whether a row has a counter above that of an own row; without one that is 0.
fn is_over(row: &Row, tables: &[OwnRows], s: usize, r: usize) -> bool
    ensures { IsTrue result ↔ IsAbove (counters_of row.now) (counters_of (own_in tables.now s r)) }
{
    match row_at(tables, s, r) {
        Some(own) => is_row_above(row, own.out.as_slice(), own.taken, own.ann, own.fin),
        None => is_row_above(row, &[], 0, 0, 0),
    }
}

// Whether no row of a list has a counter above that of the own row of its place.
fn are_rows_within(rows: &[Row], tables: &[OwnRows], s: usize) -> bool
    ensures { IsTrue result ↔ ((r : ℕ) → ¬ IsAbove (counters_of (slice_index_or rows.now r no_row)) (counters_of (own_in tables.now s r))) }
{
    'rows: for r in 0..rows.len() {
        let row = &rows[r];
        if is_over(row, tables, s, r) {
            return false;
        }
    }
    true
}

// The same of the own rows of all sites.
fn are_within(tables: &[OwnRows], others: &[OwnRows]) -> bool
    ensures { IsTrue result ↔ AreWithin tables.now others.now }
{
    'sites: for s in 0..tables.len() {
        let own = &tables[s];
        if !are_rows_within(own.as_slice(), others, s) {
            return false;
        }
    }
    true
}

// Whether own rows have equal counters.
fn are_same(tables: &[OwnRows], others: &[OwnRows]) -> bool
    ensures { IsTrue result ↔ AreSame tables.now others.now }
{
    if !are_within(tables, others) {
        return false;
    }
    are_within(others, tables)
}

impl Keeping {
    // Whether merges were kept by the own rows at the cut, which these are, if they were kept by any.
    pub(crate) fn is_guess(&self, tables: &[OwnRows]) -> bool
        ensures all { self.now ≡ KeepsAll → IsTrue result }
        ensures guess { (accounts : ℕ → AccountThere) → TellAll tables.now accounts → IsTrue result ↔ IsGuess self.now accounts }
    {
        match self {
            Keeping::Above(guess) => are_same(guess.as_slice(), tables),
            _ => true,
        }
    }
}
