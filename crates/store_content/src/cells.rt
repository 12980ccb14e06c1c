//! The counters of a change: which of them begin a row of notices, and the value of each.
ghost use Rattle.std.specs.Prelude.{◌≡◌, ◌≤◌, IsTrue, IfOk};
ghost use Rattle.admission_model.specs.Durable.{AreRising};
ghost use Rattle.admission_model.specs.Restoring.{stored_at};
ghost use Rattle.store_content.specs.Plan.{begins_row, cells_of, site_at};

use admission_core::DurableCell;
use std::alloc::{AllocError, Global};
use store_rows::StoredCell;

/// The first slot of what is known of other sites' announced writers.
pub const ANNOUNCED: u16 = 300;

/// The first slot of what is known of other sites' finished writers.
pub const FINISHED: u16 = 400;

/// The value at a record's slot, if there is a cell for it, among cells that rise. A binary search.
pub fn value_at(cells: &[DurableCell], r: u16, slot: u16) -> Option<u64>
    ensures { AreRising cells.now → result ≡ stored_at cells.now r slot }
{
    search(cells, DurableCell { r, slot, value: 0 })
}

// The value at the place of a wanted cell.
fn search(cells: &[DurableCell], wanted: DurableCell) -> Option<u64>
    ensures { AreRising cells.now → result ≡ stored_at cells.now wanted.r wanted.slot }
{
    if cells.is_empty() {
        return None;
    }
    let middle = cells.len() / 2;
    let cell = cells[middle];
    if cell.is_before(wanted) {
        return search(&cells[middle + 1..], wanted);
    }
    if wanted.is_before(cell) {
        return search(&cells[..middle], wanted);
    }
    Some(cell.value)
}

/// The site whose writers a slot from 300 on counts.
pub fn site_at(slot: u16) -> u16
    requires { 300 ≤ slot }
    ensures { result ≡ site_at slot }
{
    if slot < FINISHED {
        slot - ANNOUNCED
    } else {
        slot - FINISHED
    }
}

/// Whether a cell, one of those of a change, is the first of a notice that changes. A binary search.
pub fn begins_row(cells: &[DurableCell], cell: DurableCell) -> bool
    ensures notice { IsTrue result → 300 ≤ cell.slot }
    ensures first { AreRising cells.now → result ≡ begins_row cells.now cell }
{
    if cell.slot < ANNOUNCED {
        return false;
    }
    cell.slot < FINISHED || value_at(cells, cell.r, cell.slot - (FINISHED - ANNOUNCED)).is_none()
}

/// The cells that stand in the table of counters. Linear.
pub fn stored_cells(alloc: Global, cells: &[DurableCell]) -> Result<Vec<StoredCell>, AllocError>
    ensures { IfOk result (λ rows. rows.items ≡ cells_of cells.now) }
{
    cells
        .iter()
        .filter(|cell| cell.slot < ANNOUNCED)
        .map(|cell| StoredCell {
            r: cell.r,
            slot: cell.slot,
            n: cell.value,
        })
        .collect(alloc)
}
