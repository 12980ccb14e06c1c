//! Whether a delta is the book's snapshot, row by row and in place.
ghost use Rattle.std.specs.Prelude.{◌≡◌, ◌↔◌, ◌<◌, length, slice_index, IsTrue};
ghost use Rattle.rights_matrix.specs.Matrix.{site_count, row_of};
ghost use Rattle.seat_rows.specs.Seats.{taken_at};

use super::Book;
use crate::record::RecordState;
use crate::{Delta, Row};

impl Book {
    ghost use Rattle.std.specs.Prelude.{◌≡◌, ◌≢◌, ◌↔◌, ◌<◌, ◌++◌, List, length, IsTrue, MatchOption};
    ghost use Rattle.merge_core.specs.declared.delta.Row.{Row as RowThere};
    ghost use Rattle.merge_core.specs.Book.{IsBook, counter_of, book_shape};
    ghost use Rattle.merge_core.specs.Moved.{told_row, has_moved, row_if, moved_rows, all_moved};

    /// Whether a delta is the one that [`Book::snapshot`] makes with the same label. Takes no memory. Linear in the records,
    /// and in the counters of the rows that ever left their start, up to the first difference.
    pub fn is_snapshot(&self, from: u16, delta: &Delta) -> bool
        requires { from < self.now.sites }
        ensures { IsTrue result ↔ (delta.now ≡ record { from = from; rows = all_moved (book_shape self.now) (counter_of self.now) }) }
    {
        delta.from_site() == from && self.is_all_moved(delta.rows())
    }

    // Whether rows are those that have left their start.
    fn is_all_moved(&self, rows: &[Row]) -> bool
        ensures { IsTrue result ↔ (rows.now ≡ all_moved (book_shape self.now) (counter_of self.now)) }
    {
        let mut rest = rows;
        for r in 0..self.records.len() {
            let Some(more) = self.behind_record(r as u16, rest) else {
                return false;
            };
            rest = more;
        }
        rest.is_empty()
    }

    // What stands behind the rows of record `r` that have left their start, if these come first.
    fn behind_record<'a>(&self, r: u16, rows: &'a [Row]) -> Option<&'a [Row]>
        requires { r < length self.now.records }
        ensures { MatchOption result
            ((more : List RowThere) → rows.now ≢ moved_rows (book_shape self.now) (counter_of self.now) r self.now.sites ++ more)
            (λ more. rows.now ≡ moved_rows (book_shape self.now) (counter_of self.now) r self.now.sites ++ more.now) }
    {
        if self.is_unmoved(r) {
            return Some(rows);
        }
        let mut rest = rows;
        for s in 0..self.sites {
            let Some(more) = self.behind_row(r, s, rest) else {
                return None;
            };
            rest = more;
        }
        Some(rest)
    }

    // What stands behind the row of site `s` for record `r`, if that comes first or has not left its start.
    #[inline(always)]
    fn behind_row<'a>(&self, r: u16, s: u16, rows: &'a [Row]) -> Option<&'a [Row]>
        requires record { r < length self.now.records }
        requires site { s < self.now.sites }
        ensures { MatchOption result
            ((more : List RowThere) → rows.now ≢ row_if (has_moved (book_shape self.now) (counter_of self.now) r s) (told_row self.now.sites (counter_of self.now) r s) ++ more)
            (λ more. rows.now ≡ row_if (has_moved (book_shape self.now) (counter_of self.now) r s) (told_row self.now.sites (counter_of self.now) r s) ++ more.now) }
    {
        if !self.has_moved(r, s) {
            return Some(rows);
        }
        let [row, more @ ..] = rows else {
            return None;
        };
        if !self.is_told(row, r, s) {
            return None;
        }
        Some(more)
    }

    // Whether a row is that of site `s` for record `r`.
    #[inline(always)]
    fn is_told(&self, row: &Row, r: u16, s: u16) -> bool
        requires record { r < length self.now.records }
        requires site { s < self.now.sites }
        ensures { IsTrue result ↔ (row.now ≡ told_row self.now.sites (counter_of self.now) r s) }
    {
        row.r == r && row.s == s && is_row_of(row, &self.records[usize::from(r)])
    }
}

// Whether a row has the counters of its site, of a record as it is known.
#[inline(always)]
fn is_row_of(row: &Row, it: &RecordState) -> bool
    requires seats { row.now.s < site_count it.now.seats.matrix }
    requires notices { row.now.s < length it.now.notices.announced }
    ensures { IsTrue result ↔ (row.now ≡ record row.now {
      out = row_of it.now.seats.matrix row.now.s;
      taken = taken_at it.now.seats row.now.s;
      ann = slice_index it.now.notices.announced row.now.s;
      fin = slice_index it.now.notices.finished row.now.s;
    }) }
{
    row.out.as_slice() == it.seats.row(row.s)
        && row.taken == it.seats.taken(row.s)
        && row.ann == it.notices.announced(row.s)
        && row.fin == it.notices.finished(row.s)
}
