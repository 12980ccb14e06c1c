ghost use Rattle.std.specs.Prelude.{◌≡◌, ◌==◌, ◌≢◌, ℕ, ◌↔◌, ◌≤◌, IsTrue, slice_index};
ghost use Rattle.grow_counters.specs.Counts.{counter_limit};
ghost use Rattle.merge_core.specs.Tests.{overfull};

use super::Book;
use crate::check::CheckError;
use crate::{Delta, Row};
use grow_counters::{COUNTER_LIMIT, Counts};

impl Book {
    ghost use Rattle.std.specs.Prelude.{◌≡◌, not};
    ghost use Rattle.std.specs.List.{position};
    ghost use Rattle.merge_core.specs.Rows.{grant};
    ghost use Rattle.merge_core.specs.Tests.{is_placed, is_valid};
    ghost use Rattle.merge_core.specs.Book.{book_shape};
    ghost use Rattle.merge_core.specs.Check.{IsCheckOf};

    /// Whether the book takes the delta: each row has its place in the layout and shows what its site can
    /// have done. A row may lack the counters of sites behind its own. Linear in the delta.
    pub fn check(&self, delta: &Delta) -> Result<(), CheckError>
        ensures { IsCheckOf (book_shape self.now) delta.now.rows result }
    {
        if let Some(row) = self.first_misplaced(delta.rows()) {
            return Err(CheckError::OtherLayout { row });
        }
        if let Some(row) = self.first_invalid(delta.rows()) {
            return Err(CheckError::BadRow { row });
        }
        Ok(())
    }

    // The first row without a place in the layout.
    fn first_misplaced(&self, rows: &[Row]) -> Option<usize>
        ensures { result ≡ position (λ p. not (is_placed (book_shape self.now) p)) rows.now }
    {
        rows.iter().position(|row| !self.is_placed(row))
    }

    // The first row that is not valid.
    fn first_invalid(&self, rows: &[Row]) -> Option<usize>
        ensures { result ≡ position (λ p. not (is_valid (book_shape self.now) p)) rows.now }
    {
        rows.iter().position(|row| !self.is_valid(row))
    }

    // The seats that site `s` is granted of record `r`.
    fn grant(&self, r: u16, s: u16) -> u64
        ensures { result ≡ grant (book_shape self.now) r s }
    {
        match self.records.get(usize::from(r)) {
            Some(it) => it.seats.grant(s),
            None => 0,
        }
    }

    fn is_placed(&self, row: &Row) -> bool
        ensures { result ≡ is_placed (book_shape self.now) row.now }
    {
        usize::from(row.r) < self.records.len()
            && usize::from(row.s) < row.out.len()
            && row.out.len() <= usize::from(self.sites)
    }

    fn is_valid(&self, row: &Row) -> bool
        ensures { result ≡ is_valid (book_shape self.now) row.now }
    {
        let granted = self.grant(row.r, row.s);
        let own = counter_or_zero(row.out.as_slice(), row.s);
        granted <= own
            && own - granted <= row.taken
            && row.taken <= COUNTER_LIMIT
            && has_few_moved(row)
            && row.fin <= row.ann
            && row.ann <= COUNTER_LIMIT
    }
}

// The counter at `i`, or 0 past the end.
fn counter_or_zero(counters: &[u64], i: u16) -> u64
    ensures { result ≡ slice_index counters.now i }
{
    counters.get(usize::from(i)).copied().unwrap_or(0)
}

// Whether every counter but the site's own is within the limit.
fn has_few_moved(row: &Row) -> bool
    ensures { result ≡ (overfull row.now == 0) }
{
    are_limited(&row.out, usize::from(row.s))
}

// Whether every counter but the one at `own` is within the limit.
fn are_limited(out: &Counts, own: usize) -> bool
    ensures { IsTrue result ↔ ((j : ℕ) → j ≢ own → slice_index out.now j ≤ counter_limit) }
{
    for j in 0..out.len() {
        if j != own && out.get(j) > COUNTER_LIMIT {
            return false;
        }
    }
    true
}
