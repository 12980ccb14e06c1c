ghost use Rattle.std.specs.Prelude.{◌≡◌, ◌==◌, ◌||◌, ◌<◌, not, nat_lt, length, slice_index};
ghost use Rattle.rights_matrix.specs.Matrix.{site_count, entry};
ghost use Rattle.seat_rows.specs.Seats.{taken_at};
ghost use Rattle.merge_core.specs.declared.cell.Cell.TheVariants.{Out};
ghost use Rattle.merge_core.specs.Sums.{total, one_if};
ghost use Rattle.merge_core.specs.Book.{IsRecord};
ghost use Rattle.merge_core.specs.Kept.{start_in};

use super::Book;
use super::marks::is_marked;
use crate::record::RecordState;
use crate::{Delta, Row};
use grow_counters::Counts;
use std::alloc::{AllocError, Global};

impl Book {
    ghost use Rattle.std.specs.Prelude.{◌≡◌, ℕ, ◌↔◌, ◌+◌, ◌<◌, ◌≤◌, ◌++◌, [], length, vec_len, vec_capacity, IfOk, OnOk, IsTrue};
    ghost use Rattle.merge_core.specs.Book.{IsBook, counter_of, book_shape, Names};
    ghost use Rattle.merge_core.specs.declared.cell.Cell.{Cell};
    ghost use Rattle.merge_core.specs.Check.{IsChecked};
    ghost use Rattle.merge_core.specs.Naming.{shown_by, RowsName};
    ghost use Rattle.merge_core.specs.Moved.{told_row, has_moved, row_if, moved_rows, all_moved};

    /// All that the book names, as a delta of site `from`: the rows that have left their start, rising by
    /// record and then by site. It makes one list with a place for each of these rows and no more, and a list
    /// of counters for each row; where no row has left its start it takes no memory. Linear in the records, and
    /// in the counters of the rows that ever left their start.
    pub fn snapshot(&self, alloc: Global, from: u16) -> Result<Delta, AllocError>
        requires { from < self.now.sites }
        ensures label { IfOk result (λ d. d.from ≡ from) }
        ensures rows { IfOk result (λ d. d.rows ≡ all_moved (book_shape self.now) (counter_of self.now)) }
        ensures checked { IfOk result (λ d. IsChecked (book_shape self.now) d.rows) }
        ensures counters { IfOk result (λ d. (r s : ℕ) (cell : Cell) → shown_by (book_shape self.now) d.rows r s cell ≡ counter_of self.now r s cell) }
        ensures names { IfOk result (λ d. (r s : ℕ) (cell : Cell) (k : ℕ) → RowsName (book_shape self.now) d.rows r s cell k ↔ Names self.now r s cell k) }
        ensures book { IfOk result (λ _. IsBook self.now) }
    {
        let rows = self.all_moved(alloc)?;
        Ok(Delta::of_rows(from, rows))
    }

    // The rows of all records that have left their start, in a list with a place for each and no more. The rows
    // are counted first, so that the list is made once.
    fn all_moved(&self, alloc: Global) -> Result<Vec<Row>, AllocError>
        ensures rows { IfOk result (λ rows. rows.items ≡ all_moved (book_shape self.now) (counter_of self.now)) }
        ensures exact { IfOk result (λ rows. vec_capacity rows ≡ length (all_moved (book_shape self.now) (counter_of self.now))) }
        ensures book { IsBook self.now }
    {
        let mut rows = Vec::with_capacity(alloc, self.count_moved())?;
        for r in 0..self.records.len() {
            self.push_moved(alloc, &mut rows, r as u16)?;
        }
        Ok(rows)
    }

    // How many rows of all records have left their start.
    fn count_moved(&self) -> usize
        ensures count { result ≡ length (all_moved (book_shape self.now) (counter_of self.now)) }
        ensures book { IsBook self.now }
    {
        let mut count = 0usize;
        for r in 0..self.records.len() {
            count += self.count_moved_in(r as u16);
        }
        count
    }

    // How many rows of record `r` have left their start.
    fn count_moved_in(&self, r: u16) -> usize
        requires { r < length self.now.records }
        ensures count { result ≡ length (moved_rows (book_shape self.now) (counter_of self.now) r self.now.sites) }
        ensures few { result ≤ 16 }
    {
        if self.is_unmoved(r) {
            return 0;
        }
        let mut count = 0usize;
        for s in 0..self.sites {
            count += usize::from(self.has_moved(r, s));
        }
        count
    }

    // Adds the rows of record `r` that have left their start, for each of which the list has a place.
    fn push_moved(&self, alloc: Global, rows: &mut Vec<Row>, r: u16) -> Result<(), AllocError>
        requires record { r < length self.now.records }
        requires room { vec_len rows.old + length (moved_rows (book_shape self.now) (counter_of self.now) r self.now.sites) ≤ vec_capacity rows.old }
        ensures rows { OnOk result (rows.new.items ≡ rows.old.items ++ moved_rows (book_shape self.now) (counter_of self.now) r self.now.sites) }
        ensures capacity { vec_capacity rows.new ≡ vec_capacity rows.old }
    {
        if self.is_unmoved(r) {
            return Ok(());
        }
        for s in 0..self.sites {
            self.push_if_moved(alloc, rows, r, s)?;
        }
        Ok(())
    }

    // Whether no row of record `r` is marked, so that none has left its start.
    pub(super) fn is_unmoved(&self, r: u16) -> bool
        requires { r < length self.now.records }
        ensures { IsTrue result → moved_rows (book_shape self.now) (counter_of self.now) r self.now.sites ≡ [] }
    {
        self.marks[usize::from(r)] == 0
    }

    // Adds the row of site `s` for record `r`, if it has left its start, to a list that has a place for it.
    fn push_if_moved(
        &self,
        alloc: Global,
        rows: &mut Vec<Row>,
        r: u16,
        s: u16,
    ) -> Result<(), AllocError>
        requires record { r < length self.now.records }
        requires site { s < self.now.sites }
        requires room { IsTrue (has_moved (book_shape self.now) (counter_of self.now) r s) → vec_len rows.old < vec_capacity rows.old }
        ensures rows { OnOk result (rows.new.items ≡ rows.old.items ++ row_if (has_moved (book_shape self.now) (counter_of self.now) r s) (told_row self.now.sites (counter_of self.now) r s)) }
        ensures capacity { vec_capacity rows.new ≡ vec_capacity rows.old }
    {
        if self.has_moved(r, s) {
            rows.push_reserved(self.told_row(alloc, r, s)?);
        }
        Ok(())
    }

    // Whether a counter of the row of site `s` for record `r` has left its start.
    pub(super) fn has_moved(&self, r: u16, s: u16) -> bool
        requires record { r < length self.now.records }
        requires site { s < self.now.sites }
        ensures { result ≡ has_moved (book_shape self.now) (counter_of self.now) r s }
    {
        if !is_marked(self.marks.as_slice(), r, s) {
            return false;
        }
        let it = &self.records[usize::from(r)];
        has_moved_counts(it, s) || has_moved_rights(self.sites, it, s)
    }

    // The row of site `s` for record `r`.
    fn told_row(&self, alloc: Global, r: u16, s: u16) -> Result<Row, AllocError>
        requires record { r < length self.now.records }
        requires site { s < self.now.sites }
        ensures { IfOk result (λ row. row ≡ told_row self.now.sites (counter_of self.now) r s) }
    {
        let it = &self.records[usize::from(r)];
        let out = Vec::from_slice(alloc, it.seats.row(s))?;
        Ok(Row {
            r,
            s,
            out: Counts::from_vec(out),
            taken: it.seats.taken(s),
            ann: it.notices.announced(s),
            fin: it.notices.finished(s),
        })
    }
}

// Whether site `s` has taken seats, or announced or finished writers.
fn has_moved_counts(it: &RecordState, s: u16) -> bool
    requires seats { s < site_count it.now.seats.matrix }
    requires notices { s < length it.now.notices.announced }
    ensures { result ≡ (not (taken_at it.now.seats s == 0)
        || (not (slice_index it.now.notices.announced s == 0) || not (slice_index it.now.notices.finished s == 0))) }
{
    it.seats.taken(s) != 0 || it.notices.announced(s) != 0 || it.notices.finished(s) != 0
}

// Whether some of the rights that site `s` made or moved have left their start.
fn has_moved_rights(sites: u16, it: &RecordState, s: u16) -> bool
    requires valid { IsRecord sites it.now }
    requires site { s < sites }
    ensures { result ≡ nat_lt 0 (total sites (λ j. one_if (not (entry it.now.seats.matrix s j == start_in it.now s (Out j))))) }
{
    for j in 0..sites {
        if !is_start_entry(it, s, j) {
            return true;
        }
    }
    false
}

// Whether the rights that site `s` moved to site `j` are as they were at the start.
fn is_start_entry(it: &RecordState, s: u16, j: u16) -> bool
    requires from { s < site_count it.now.seats.matrix }
    requires to { j < site_count it.now.seats.matrix }
    ensures { result ≡ (entry it.now.seats.matrix s j == start_in it.now s (Out j)) }
{
    let start = if j == s { it.seats.grant(s) } else { 0 };
    it.seats.get(s, j) == start
}
