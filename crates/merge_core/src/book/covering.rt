//! Whether a book knows all that a row tells.
ghost use Rattle.std.specs.Prelude.{◌↔◌, ◌<◌, ◌≤◌, ℕ, length, slice_index, IsTrue};
ghost use Rattle.rights_matrix.specs.Matrix.{site_count, row_of};
ghost use Rattle.seat_rows.specs.Seats.{taken_at};

use super::Book;
use crate::Row;
use crate::record::RecordState;

impl Book {
    ghost use Rattle.std.specs.Prelude.{◌↔◌, IsTrue};
    ghost use Rattle.merge_core.specs.Cover.{Covers};

    /// Whether a row has its place in the book, and none of its counters is above the book's. Linear in the row's counters.
    pub fn covers(&self, row: &Row) -> bool
        ensures { IsTrue result ↔ Covers self.now row.now }
    {
        let r = usize::from(row.r);
        if r >= self.records.len() {
            return false;
        }
        if row.s >= self.sites {
            return false;
        }
        is_row_within(row, &self.records[r])
    }
}

// Whether a row has no counter of a site that is not there, and none above its site's, of a record as it is known.
#[inline(always)]
fn is_row_within(row: &Row, it: &RecordState) -> bool
    requires seats { row.now.s < site_count it.now.seats.matrix }
    requires notices { row.now.s < length it.now.notices.announced }
    ensures { IsTrue result ↔ ((row.now.taken ≤ taken_at it.now.seats row.now.s) × ((row.now.ann ≤ slice_index it.now.notices.announced row.now.s)
        × ((row.now.fin ≤ slice_index it.now.notices.finished row.now.s) × ((length row.now.out ≤ length (row_of it.now.seats.matrix row.now.s))
        × ((j : ℕ) → slice_index row.now.out j ≤ slice_index (row_of it.now.seats.matrix row.now.s) j))))) }
{
    row.taken <= it.seats.taken(row.s)
        && row.ann <= it.notices.announced(row.s)
        && row.fin <= it.notices.finished(row.s)
        && is_within(row.out.as_slice(), it.seats.row(row.s))
}

// Whether a list is no longer than another, and none of its numbers is above the other's at its place.
#[inline(always)]
fn is_within(xs: &[u64], ys: &[u64]) -> bool
    ensures { IsTrue result ↔ ((length xs.now ≤ length ys.now) × ((j : ℕ) → slice_index xs.now j ≤ slice_index ys.now j)) }
{
    if xs.len() > ys.len() {
        return false;
    }
    for k in 0..xs.len() {
        if xs[k] > ys[k] {
            return false;
        }
    }
    true
}
