//! Which lists of cells a store may have: they rise, and each names a counter that has left its start.
ghost use Rattle.std.specs.Prelude.{◌≡◌, ◌≢◌, ◌<◌, ◌≤◌, ◌↔◌, length, All, IsTrue, IsSome};
ghost use Rattle.merge_core.specs.Rows.{start_counter};
ghost use Rattle.merge_core.specs.Layout.{shape_of};
ghost use Rattle.admission_model.specs.Durable.{AreRising, at_slot, named};
ghost use Rattle.admission_core.specs.Restored.{IsListed};

use crate::starts::grant;
use admission_model::DurableCell;
use merge_core::Layout;

/// Whether the cells rise and each is of a record, a slot and a value of its own. Linear in the cells.
pub fn are_listed(layout: &Layout, site: u16, cells: &[DurableCell]) -> bool
    requires { site < layout.now.sites }
    ensures { IsTrue result ↔ (AreRising cells.now × All (IsListed layout.now site) cells.now) }
{
    all_listed(layout, site, cells) && are_rising(cells)
}

// Whether each cell stands before the next.
fn are_rising(cells: &[DurableCell]) -> bool
    ensures { IsTrue result ↔ AreRising cells.now }
{
    for i in 1..cells.len() {
        if !cells[i - 1].is_before(cells[i]) {
            return false;
        }
    }
    true
}

// Whether each cell is one that a store may have.
fn all_listed(layout: &Layout, site: u16, cells: &[DurableCell]) -> bool
    requires { site < layout.now.sites }
    ensures { IsTrue result ↔ All (IsListed layout.now site) cells.now }
{
    cells.iter().all(|cell| is_listed(layout, site, cell))
}

// Whether a cell is of a record and a slot, and has left its start.
fn is_listed(layout: &Layout, site: u16, cell: &DurableCell) -> bool
    requires { site < layout.now.sites }
    ensures { IsTrue result ↔ IsListed layout.now site cell.now }
{
    usize::from(cell.r) < layout.records().len()
        && has_slot(layout.sites(), site, cell.slot)
        && cell.value != start_at(layout, site, cell.r, cell.slot)
}

// Whether a slot names a counter at `site` of so many.
fn has_slot(sites: u16, site: u16, slot: u16) -> bool
    requires few { sites ≤ 16 }
    ensures { IsTrue result ↔ IsSome (named sites site slot) }
{
    match slot {
        0..=99 => slot < sites,
        100..=199 => is_other(sites, site, slot - 100),
        200..=202 => true,
        203..=299 => false,
        300..=399 => is_other(sites, site, slot - 300),
        _ => is_other(sites, site, slot - 400),
    }
}

// Whether `j` is another of so many sites.
fn is_other(sites: u16, site: u16, j: u16) -> bool
    ensures { IsTrue result ↔ ((j < sites) × (j ≢ site)) }
{
    j < sites && j != site
}

// The start of the counter at a slot: a grant at the site's own, and 0 elsewhere.
fn start_at(layout: &Layout, site: u16, r: u16, slot: u16) -> u64
    requires record { r < length layout.now.records }
    requires site { site < layout.now.sites }
    requires few { layout.now.sites ≤ 16 }
    ensures { result ≡ at_slot layout.now.sites site (start_counter (shape_of layout.now)) r slot }
{
    if slot == site {
        grant(layout, r, site)
    } else {
        0
    }
}
