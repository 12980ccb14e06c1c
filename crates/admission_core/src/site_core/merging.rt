//! What a delta would do to the book: why it is refused, how many counters it raises, and which of those a
//! store keeps.
ghost use Rattle.std.specs.Prelude.{◌≡◌, ◌≢◌, ◌<◌, ◌≤◌, ℕ, length, slice_index_or};
ghost use Rattle.merge_core.specs.Rows.{counter_in, counters_of};
ghost use Rattle.merge_core.specs.declared.delta.Row.{Row};

use super::SiteCore;
use crate::kept::{ANNOUNCED_ELSEWHERE, FINISHED_ELSEWHERE, SENT};
use admission_model::{DurableCell, Refusal};
use merge_core::{Cell, CheckError, Delta, Row};
use std::alloc::AllocError;

impl SiteCore {
    ghost use Rattle.std.specs.Prelude.{◌≡◌, ◌≤◌, ◌++◌, None, IfOk, OnOk, IsTrue, All};
    ghost use Rattle.merge_core.specs.declared.cell.Cell.TheVariants.{Out};
    ghost use Rattle.merge_core.specs.Book.{HasCell, counter_of, book_shape};
    ghost use Rattle.merge_core.specs.Check.{IsChecked};
    ghost use Rattle.merge_core.specs.Layout.{shape_of};
    ghost use Rattle.merge_core.specs.Moved.{raised_by};
    ghost use Rattle.merge_core.specs.Sums.{total, one_if};
    ghost use Rattle.merge_core.specs.Tests.{is_placed};
    ghost use Rattle.admission_model.specs.declared.ask.Call.TheVariants.{Merge};
    ghost use Rattle.admission_model.specs.Durable.{at_slot, places, risen_cells};
    ghost use Rattle.admission_model.specs.Merging.{first_ahead};
    ghost use Rattle.admission_model.specs.Serving.{reason};
    ghost use Rattle.admission_core.specs.Core.{core_view};
    ghost use Rattle.admission_core.specs.Joining.{joined_counter, raises_cell, row_raises};
    ghost use Rattle.admission_core.specs.Joining.{cell_if, raises_other, cell_told, raised_column, raised_cells};

    /// Why the site refuses a delta. Linear in it.
    pub(super) fn merge_reason(&self, delta: &Delta) -> Option<Refusal>
        ensures { result ≡ reason (core_view self.now) (Merge delta.now) }
    {
        let _ = &self.alloc; // tells the invariant: the book is of the layout
        match self.book.check(delta) {
            Err(CheckError::OtherLayout { row }) => Some(Refusal::OtherLayout { row }),
            Err(CheckError::BadRow { row }) => Some(Refusal::BadRow { row }),
            Ok(()) => self.own_row_ahead(delta),
        }
    }

    // Refuses a delta that tells more of the site's own row than the site did.
    fn own_row_ahead(&self, delta: &Delta) -> Option<Refusal>
        requires { IsChecked (book_shape self.now.book) delta.now.rows }
        ensures { result ≡ reason (core_view self.now) (Merge delta.now) }
    {
        let _ = &self.alloc; // tells the invariant: the book is of the layout
        let rec = self.first_ahead(delta)?;
        Some(Refusal::OwnRowAhead { rec })
    }

    // The least record of which a row of the site's own is ahead of the book. Rows rise, so it is the first one's.
    fn first_ahead(&self, delta: &Delta) -> Option<u16>
        requires { IsChecked (book_shape self.now.book) delta.now.rows }
        ensures { result ≡ first_ahead (core_view self.now) delta.now.rows }
    {
        let _ = &self.alloc; // tells the invariant: no counter is below its start
        for row in delta.rows() {
            if row.s == self.site && self.rises(row) > 0 {
                return Some(row.r);
            }
        }
        None
    }

    /// How many counters a delta raises. Linear in it.
    pub(super) fn raised_by(&self, delta: &Delta) -> u64
        requires { reason (core_view self.now) (Merge delta.now) ≡ None }
        ensures { result ≡ raised_by (shape_of self.now.layout) (counter_of self.now.book) delta.now.rows }
    {
        let _ = &self.alloc; // tells the invariant: no counter is below its start
        let mut risen = 0;
        for row in delta.rows() {
            risen += self.rises(row);
        }
        risen
    }

    // How many counters a row raises.
    fn rises(&self, row: &Row) -> u64
        requires { IsTrue (is_placed (book_shape self.now.book) row.now) }
        ensures value { result ≡ row_raises self.now.book.sites (counter_of self.now.book) row.now }
        ensures few { result ≤ 19 }
    {
        self.rises_out(row)
            + (self.rise(row, Cell::Taken)
                + (self.rise(row, Cell::Ann) + self.rise(row, Cell::Fin)))
    }

    // How many counters of moved rights a row raises.
    fn rises_out(&self, row: &Row) -> u64
        requires { IsTrue (is_placed (book_shape self.now.book) row.now) }
        ensures value { result ≡ total self.now.book.sites
            (λ j. one_if (raises_cell (counter_of self.now.book) row.now (Out j))) }
        ensures few { result ≤ 16 }
    {
        let mut risen = 0;
        for j in 0..self.book.sites() {
            risen += self.rise(row, Cell::Out(j));
        }
        risen
    }

    // 1 where a row raises the counter, else 0.
    fn rise(&self, row: &Row, cell: Cell) -> u64
        requires placed { IsTrue (is_placed (book_shape self.now.book) row.now) }
        requires cell { HasCell self.now.book.sites cell }
        ensures { result ≡ one_if (raises_cell (counter_of self.now.book) row.now cell) }
    {
        u64::from(self.book.counter(row.r, row.s, cell) < counter_in(row, cell))
    }

    /// The counters that a store keeps and a delta raises, with their new values. Linear in the delta.
    pub(super) fn risen_cells(&self, delta: &Delta) -> Result<Vec<DurableCell>, AllocError>
        requires { reason (core_view self.now) (Merge delta.now) ≡ None }
        ensures { IfOk result (λ cells. cells.items ≡ risen_cells
            (at_slot self.now.layout.sites self.now.site (counter_of self.now.book))
            (at_slot self.now.layout.sites self.now.site (joined_counter (core_view self.now) delta.now.rows))
            (places self.now.layout)) }
    {
        let _ = &self.alloc; // tells the invariant: the book is of the layout
        let rows = delta.rows();
        let mut cells = Vec::new(self.alloc);
        let mut done = 0;
        while done < rows.len() {
            let end = end_of_record(rows, done);
            self.push_record(&mut cells, &rows[done..end])?;
            done = end;
        }
        Ok(cells)
    }

    // Adds what rows of one record raise, by slot.
    fn push_record(&self, cells: &mut Vec<DurableCell>, rows: &[Row]) -> Result<(), AllocError>
        requires { All (λ p. IsTrue (is_placed (book_shape self.now.book) p)) rows.now }
        ensures { OnOk result (cells.new.items ≡ cells.old.items
            ++ raised_cells (counter_of self.now.book) self.now.site rows.now) }
    {
        let _ = &self.alloc; // tells the invariant: the site is one of the book's
        self.push_column(cells, rows, SENT, Cell::Out(self.site))?;
        self.push_column(cells, rows, ANNOUNCED_ELSEWHERE, Cell::Ann)?;
        self.push_column(cells, rows, FINISHED_ELSEWHERE, Cell::Fin)
    }

    // Adds the counters of one kind that rows of other sites raise.
    fn push_column(
        &self,
        cells: &mut Vec<DurableCell>,
        rows: &[Row],
        first: u16,
        cell: Cell,
    ) -> Result<(), AllocError>
        requires placed { All (λ p. IsTrue (is_placed (book_shape self.now.book) p)) rows.now }
        requires first { first ≤ 400 }
        requires cell { HasCell self.now.book.sites cell }
        ensures { OnOk result (cells.new.items ≡ cells.old.items
            ++ raised_column (counter_of self.now.book) self.now.site first cell rows.now) }
    {
        for row in rows {
            self.push_if_raised(cells, row, first, cell)?;
        }
        Ok(())
    }

    // Adds the counter that a row tells, if it is another site's and raised.
    fn push_if_raised(
        &self,
        cells: &mut Vec<DurableCell>,
        row: &Row,
        first: u16,
        cell: Cell,
    ) -> Result<(), AllocError>
        requires placed { IsTrue (is_placed (book_shape self.now.book) row.now) }
        requires first { first ≤ 400 }
        requires cell { HasCell self.now.book.sites cell }
        ensures { OnOk result (cells.new.items ≡ cells.old.items
            ++ cell_if (raises_other (counter_of self.now.book) self.now.site cell row.now) (cell_told first cell row.now)) }
    {
        if row.s != self.site && self.rise(row, cell) > 0 {
            cells.push(DurableCell {
                r: row.r,
                slot: first + row.s,
                value: counter_in(row, cell),
            })?;
        }
        Ok(())
    }
}

// The counter of a row, or 0 where it has none.
fn counter_in(row: &Row, cell: Cell) -> u64
    ensures { result ≡ counter_in (counters_of row.now) cell }
{
    match cell {
        Cell::Out(j) => row.out.as_slice().get(usize::from(j)).copied().unwrap_or(0),
        Cell::Taken => row.taken,
        Cell::Ann => row.ann,
        Cell::Fin => row.fin,
    }
}

// Where the rows of the record end that begin at `from`.
fn end_of_record(rows: &[Row], from: usize) -> usize
    requires { from < length rows.now }
    ensures further { from < result }
    ensures within { result ≤ length rows.now }
    ensures same { (k : ℕ) (d : Row) → from ≤ k → k < result
        → (slice_index_or rows.now k d).r ≡ (slice_index_or rows.now from d).r }
    ensures other { (d : Row) → result < length rows.now
        → (slice_index_or rows.now result d).r ≢ (slice_index_or rows.now from d).r }
{
    let r = rows[from].r;
    for i in from + 1..rows.len() {
        if rows[i].r != r {
            return i;
        }
    }
    rows.len()
}
