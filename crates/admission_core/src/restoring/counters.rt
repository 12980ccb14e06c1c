//! The counters that a table of stored values tells, and what they add up to.
ghost use Rattle.std.specs.Prelude.{◌≡◌, ℕ, ◌*◌, ◌<◌, ◌≤◌, ◌↔◌, length, IsTrue, IfSome};
ghost use Rattle.merge_core.specs.Layout.{shape_of};
ghost use Rattle.merge_core.specs.Rows.{grant, start_counter};
ghost use Rattle.merge_core.specs.Book.{HasCell};
ghost use Rattle.admission_model.specs.Restoring.{slot_of};
ghost use Rattle.admission_core.specs.Restored.{counters_in, gained_by, spent_by, KeepsLimits};

use super::table::value_at;
use crate::starts::start_counter;
use merge_core::{Cell, Layout};
use writer_notices::MOST_WRITERS;

/// One counter of a table.
pub fn counter(layout: &Layout, site: u16, table: &[Option<u64>], r: u16, s: u16, cell: Cell) -> u64
    requires record { r < length layout.now.records }
    requires row { s < layout.now.sites }
    requires cell { HasCell layout.now.sites cell }
    requires table { length table.now ≡ length layout.now.records * 416 }
    ensures { result ≡ counters_in layout.now site table.now r s cell }
{
    let start = start_counter(layout, r, s, cell);
    match slot_of(layout.sites(), site, s, cell) {
        Some(slot) => value_at(table, r, slot).unwrap_or(start),
        None => start,
    }
}

// The slot of a counter of row `s` at `site` of so many.
fn slot_of(sites: u16, site: u16, s: u16, cell: Cell) -> Option<u16>
    requires few { sites ≤ 16 }
    requires row { s < sites }
    requires cell { HasCell sites cell }
    ensures slot { result ≡ slot_of sites site s cell }
    ensures low { IfSome result (λ slot. slot < 416) }
{
    let own = s == site;
    match cell {
        Cell::Out(j) if own => Some(j),
        Cell::Out(j) if j == site => Some(100 + s),
        Cell::Out(_) => None,
        Cell::Taken if own => Some(200),
        Cell::Taken => None,
        Cell::Ann => Some(if own { 201 } else { 300 + s }),
        Cell::Fin => Some(if own { 202 } else { 400 + s }),
    }
}

/// Whether every record leaves no right of the site below 0, and it has at most 64 unfinished writers of it.
/// Linear in the layout.
pub fn all_keep_limits(layout: &Layout, site: u16, table: &[Option<u64>]) -> bool
    requires site { site < layout.now.sites }
    requires table { length table.now ≡ length layout.now.records * 416 }
    ensures { IsTrue result ↔ ((r : ℕ) → r < length layout.now.records → KeepsLimits layout.now.sites site (counters_in layout.now site table.now) r) }
{
    let few = layout.records().len() as u16;
    for r in 0..few {
        if !keeps_limits(layout, site, table, r) {
            return false;
        }
    }
    true
}

// Whether a record leaves no right of the site below 0, and it has at most 64 unfinished writers of it.
fn keeps_limits(layout: &Layout, site: u16, table: &[Option<u64>], r: u16) -> bool
    requires site { site < layout.now.sites }
    requires record { r < length layout.now.records }
    requires table { length table.now ≡ length layout.now.records * 416 }
    ensures { IsTrue result ↔ KeepsLimits layout.now.sites site (counters_in layout.now site table.now) r }
{
    let announced = counter(layout, site, table, r, site, Cell::Ann);
    let finished = counter(layout, site, table, r, site, Cell::Fin);
    spent(layout, site, table, r) <= gained(layout, site, table, r)
        && u128::from(announced) <= u128::from(finished) + u128::from(MOST_WRITERS)
}

// The seats that the site gained of a record: its column.
fn gained(layout: &Layout, site: u16, table: &[Option<u64>], r: u16) -> u128
    requires site { site < layout.now.sites }
    requires record { r < length layout.now.records }
    requires table { length table.now ≡ length layout.now.records * 416 }
    ensures { result ≡ gained_by layout.now.sites site (counters_in layout.now site table.now) r }
{
    let mut sum: u128 = 0;
    for j in 0..layout.sites() {
        sum += u128::from(counter(layout, site, table, r, j, Cell::Out(site)));
    }
    sum
}

// The seats that the site moved elsewhere or took of a record: its row.
fn spent(layout: &Layout, site: u16, table: &[Option<u64>], r: u16) -> u128
    requires site { site < layout.now.sites }
    requires record { r < length layout.now.records }
    requires table { length table.now ≡ length layout.now.records * 416 }
    ensures { result ≡ spent_by layout.now.sites site (counters_in layout.now site table.now) r }
{
    let mut sum: u128 = 0;
    for j in 0..layout.sites() {
        if j != site {
            sum += u128::from(counter(layout, site, table, r, site, Cell::Out(j)));
        }
    }
    sum + u128::from(counter(layout, site, table, r, site, Cell::Taken))
}
