//! The rows of a table's counters, as a delta that a book can take in.
ghost use Rattle.std.specs.Prelude.{◌≡◌, ◌==◌, ℕ, ◌++◌, ◌*◌, ◌^◌, ◌<◌, not, nat_lt, length, IfOk, OnOk, None, unwrap_or, slice_index_or};
ghost use Rattle.merge_core.specs.declared.cell.Cell.TheVariants.{Out};
ghost use Rattle.merge_core.specs.Layout.{shape_of};
ghost use Rattle.merge_core.specs.Rows.{start_counter};
ghost use Rattle.merge_core.specs.Sums.{total, one_if};
ghost use Rattle.merge_core.specs.Book.{HasCell};
ghost use Rattle.merge_core.specs.Moved.{first_numbers, told_row, has_moved, row_if, moved_rows, all_moved};
ghost use Rattle.admission_core.specs.Restored.{counters_in};

use super::counters::counter;
use crate::starts::start_counter;
use grow_counters::Counts;
use merge_core::{Cell, Delta, Layout, Row};
use std::alloc::{AllocError, Global};

/// The rows that have left their start, under the site's number. Linear in the layout's slots.
pub fn delta_of(
    alloc: Global,
    layout: &Layout,
    site: u16,
    table: &[Option<u64>],
) -> Result<Delta, AllocError>
    requires site { site < layout.now.sites }
    requires table { length table.now ≡ length layout.now.records * 416 }
    requires fits { (k : ℕ) → unwrap_or (slice_index_or table.now k None) 0 < 2 ^ 64 }
    ensures { IfOk result (λ d. d.rows ≡ all_moved (shape_of layout.now) (counters_in layout.now site table.now)) }
{
    let mut rows = Vec::new(alloc);
    let few = layout.records().len() as u16;
    for r in 0..few {
        push_moved(alloc, &mut rows, layout, site, table, r)?;
    }
    match Delta::new(site, rows) {
        Ok(delta) => Ok(delta),
        Err(_) => unreachable!(),
    }
}

// Adds the rows of a record that have left their start.
fn push_moved(
    alloc: Global,
    rows: &mut Vec<Row>,
    layout: &Layout,
    site: u16,
    table: &[Option<u64>],
    r: u16,
) -> Result<(), AllocError>
    requires record { r < length layout.now.records }
    requires table { length table.now ≡ length layout.now.records * 416 }
    ensures { OnOk result (rows.new.items ≡ rows.old.items ++ moved_rows (shape_of layout.now) (counters_in layout.now site table.now) r layout.now.sites) }
{
    for s in 0..layout.sites() {
        push_if_moved(alloc, rows, layout, site, table, r, s)?;
    }
    Ok(())
}

// Adds the row of site `s` for a record, if it has left its start.
fn push_if_moved(
    alloc: Global,
    rows: &mut Vec<Row>,
    layout: &Layout,
    site: u16,
    table: &[Option<u64>],
    r: u16,
    s: u16,
) -> Result<(), AllocError>
    requires record { r < length layout.now.records }
    requires row { s < layout.now.sites }
    requires table { length table.now ≡ length layout.now.records * 416 }
    ensures { let counter = counters_in layout.now site table.now in OnOk result (rows.new.items
        ≡ rows.old.items ++ row_if (has_moved (shape_of layout.now) counter r s) (told_row layout.now.sites counter r s)) }
{
    if has_moved(layout, site, table, r, s) {
        rows.push(told_row(alloc, layout, site, table, r, s)?)?;
    }
    Ok(())
}

// The row of site `s` for a record.
fn told_row(
    alloc: Global,
    layout: &Layout,
    site: u16,
    table: &[Option<u64>],
    r: u16,
    s: u16,
) -> Result<Row, AllocError>
    requires record { r < length layout.now.records }
    requires row { s < layout.now.sites }
    requires table { length table.now ≡ length layout.now.records * 416 }
    ensures { IfOk result (λ row. row ≡ told_row layout.now.sites (counters_in layout.now site table.now) r s) }
{
    let out = sent_row(alloc, layout, site, table, r, s)?;
    Ok(Row {
        r,
        s,
        out: Counts::from_vec(out),
        taken: counter(layout, site, table, r, s, Cell::Taken),
        ann: counter(layout, site, table, r, s, Cell::Ann),
        fin: counter(layout, site, table, r, s, Cell::Fin),
    })
}

// The seats that site `s` moved to each site.
fn sent_row(
    alloc: Global,
    layout: &Layout,
    site: u16,
    table: &[Option<u64>],
    r: u16,
    s: u16,
) -> Result<Vec<u64>, AllocError>
    requires record { r < length layout.now.records }
    requires row { s < layout.now.sites }
    requires table { length table.now ≡ length layout.now.records * 416 }
    ensures { IfOk result (λ out. out.items ≡ first_numbers layout.now.sites (λ j. counters_in layout.now site table.now r s (Out j))) }
{
    let mut out = Vec::with_capacity(alloc, usize::from(layout.sites()))?;
    for j in 0..layout.sites() {
        out.push(counter(layout, site, table, r, s, Cell::Out(j)))?;
    }
    Ok(out)
}

// Whether a counter of the row of site `s` has left its start.
fn has_moved(layout: &Layout, site: u16, table: &[Option<u64>], r: u16, s: u16) -> bool
    requires record { r < length layout.now.records }
    requires row { s < layout.now.sites }
    requires table { length table.now ≡ length layout.now.records * 416 }
    ensures { result ≡ has_moved (shape_of layout.now) (counters_in layout.now site table.now) r s }
{
    has_sent(layout, site, table, r, s)
        || is_moved(layout, site, table, r, s, Cell::Taken)
        || is_moved(layout, site, table, r, s, Cell::Ann)
        || is_moved(layout, site, table, r, s, Cell::Fin)
}

// Whether some of the seats that site `s` made or moved have left their start.
fn has_sent(layout: &Layout, site: u16, table: &[Option<u64>], r: u16, s: u16) -> bool
    requires record { r < length layout.now.records }
    requires row { s < layout.now.sites }
    requires table { length table.now ≡ length layout.now.records * 416 }
    ensures { result ≡ nat_lt 0 (total layout.now.sites (λ j. one_if (not (counters_in layout.now site table.now r s (Out j) == start_counter (shape_of layout.now) r s (Out j))))) }
{
    for j in 0..layout.sites() {
        if is_moved(layout, site, table, r, s, Cell::Out(j)) {
            return true;
        }
    }
    false
}

// Whether a counter has left its start.
fn is_moved(layout: &Layout, site: u16, table: &[Option<u64>], r: u16, s: u16, cell: Cell) -> bool
    requires record { r < length layout.now.records }
    requires row { s < layout.now.sites }
    requires cell { HasCell layout.now.sites cell }
    requires table { length table.now ≡ length layout.now.records * 416 }
    ensures { result ≡ not (counters_in layout.now site table.now r s cell == start_counter (shape_of layout.now) r s cell) }
{
    counter(layout, site, table, r, s, cell) != start_counter(layout, r, s, cell)
}
