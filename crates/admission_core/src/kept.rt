//! The counters that a store keeps of a site, by record and slot.
ghost use Rattle.std.specs.Prelude.{◌≡◌, ◌<◌, ◌≤◌, ◌++◌, ℕ, length, option_map, IfSome, IfOk, OnOk};
ghost use Rattle.merge_core.specs.declared.cell.Cell.{Cell};
ghost use Rattle.merge_core.specs.Book.{HasCell, book_shape, counter_of};
ghost use Rattle.merge_core.specs.Layout.{LayoutState, shape_of};
ghost use Rattle.merge_core.specs.Rows.{start_counter};
ghost use Rattle.admission_model.specs.Durable.{at_slot, kept_cells, named, of_other, places, slot_count, slots_from};

use crate::starts::start_counter;
use admission_model::DurableCell;
use merge_core::{Book, Cell, Layout};
use std::alloc::{AllocError, Global};

/// The first slot of the seats that each other site sent to the site.
pub(crate) const SENT: u16 = 100;
/// The first slot of the writers that each other site announced.
pub(crate) const ANNOUNCED_ELSEWHERE: u16 = 300;
/// The first slot of the writers that each other site finished.
pub(crate) const FINISHED_ELSEWHERE: u16 = 400;

/// Counters of all sites that are read one by one: those of a book, or others that follow from one.
pub trait Counters {
    /// Each of them, at a layout: by record, site and cell.
    ghost counter: { Self → LayoutState → ℕ → ℕ → Cell → ℕ };

    /// They are counters of a layout's records and sites.
    ghost fits: { Self → LayoutState → Type 0 };

    /// The counter of site `s` for record `r`.
    fn read(&self, layout: &Layout, r: u16, s: u16, cell: Cell) -> u64
        requires fits { fits self.now layout.now }
        requires record { r < length layout.now.records }
        requires row { s < layout.now.sites }
        requires cell { HasCell layout.now.sites cell }
        ensures { result ≡ counter self.now layout.now r s cell };
}

impl Counters for Book {
    ghost counter = { λ book layout. counter_of book };

    ghost fits = { λ book layout. book_shape book ≡ shape_of layout };

    fn read(&self, layout: &Layout, r: u16, s: u16, cell: Cell) -> u64 {
        let _ = layout;
        self.counter(r, s, cell)
    }
}

/// The counters of a site that have left their start, by record and slot. Linear in the slots that name a counter.
pub fn kept_cells<C: Counters>(
    alloc: Global,
    layout: &Layout,
    site: u16,
    counters: &C,
) -> Result<Vec<DurableCell>, AllocError>
    requires site { site < layout.now.sites }
    requires fits { C.fits counters.now layout.now }
    ensures { IfOk result (λ cells. cells.items ≡ kept_cells
        (at_slot layout.now.sites site (start_counter (shape_of layout.now)))
        (at_slot layout.now.sites site (C.counter counters.now layout.now))
        (places layout.now)) }
{
    let mut cells = Vec::new(alloc);
    let few = layout.records().len() as u16;
    for r in 0..few {
        push_kept(&mut cells, layout, site, counters, r)?;
    }
    Ok(cells)
}

// Adds the counters of a record that have left their start, by slot. Only the slots below name a counter.
fn push_kept<C: Counters>(
    cells: &mut Vec<DurableCell>,
    layout: &Layout,
    site: u16,
    counters: &C,
    r: u16,
) -> Result<(), AllocError>
    requires site { site < layout.now.sites }
    requires fits { C.fits counters.now layout.now }
    requires record { r < length layout.now.records }
    ensures { OnOk result (cells.new.items ≡ cells.old.items ++ kept_cells
        (at_slot layout.now.sites site (start_counter (shape_of layout.now)))
        (at_slot layout.now.sites site (C.counter counters.now layout.now))
        (slots_from r 0 slot_count)) }
{
    let sites = layout.sites();
    push_slots(cells, layout, site, counters, r, 0, sites)?;
    push_slots(cells, layout, site, counters, r, SENT, sites)?;
    push_slots(cells, layout, site, counters, r, 200, 3)?;
    push_slots(cells, layout, site, counters, r, ANNOUNCED_ELSEWHERE, sites)?;
    push_slots(cells, layout, site, counters, r, FINISHED_ELSEWHERE, sites)
}

// Adds those of so many slots from the first one on.
fn push_slots<C: Counters>(
    cells: &mut Vec<DurableCell>,
    layout: &Layout,
    site: u16,
    counters: &C,
    r: u16,
    first: u16,
    count: u16,
) -> Result<(), AllocError>
    requires site { site < layout.now.sites }
    requires fits { C.fits counters.now layout.now }
    requires record { r < length layout.now.records }
    requires first { first ≤ 400 }
    requires count { count ≤ 16 }
    ensures { OnOk result (cells.new.items ≡ cells.old.items ++ kept_cells
        (at_slot layout.now.sites site (start_counter (shape_of layout.now)))
        (at_slot layout.now.sites site (C.counter counters.now layout.now))
        (slots_from r first count)) }
{
    for slot in first..first + count {
        push_slot(cells, layout, site, counters, r, slot)?;
    }
    Ok(())
}

// Adds the counter at a slot, if it has left its start.
fn push_slot<C: Counters>(
    cells: &mut Vec<DurableCell>,
    layout: &Layout,
    site: u16,
    counters: &C,
    r: u16,
    slot: u16,
) -> Result<(), AllocError>
    requires site { site < layout.now.sites }
    requires fits { C.fits counters.now layout.now }
    requires record { r < length layout.now.records }
    ensures { OnOk result (cells.new.items ≡ cells.old.items ++ kept_cells
        (at_slot layout.now.sites site (start_counter (shape_of layout.now)))
        (at_slot layout.now.sites site (C.counter counters.now layout.now))
        (slots_from r slot 1)) }
{
    if let Some((s, cell)) = named(layout.sites(), site, slot) {
        let value = counters.read(layout, r, s, cell);
        if value != start_counter(layout, r, s, cell) {
            cells.push(DurableCell { r, slot, value })?;
        }
    }
    Ok(())
}

// The counter that a slot names at a site: whose row, and which counter of it.
fn named(sites: u16, site: u16, slot: u16) -> Option<(u16, Cell)>
    requires { site < sites }
    ensures named { result ≡ option_map (λ it. (it.s, it.cell)) (named sites site slot) }
    ensures there { IfSome result (λ it. (it.0 < sites) × HasCell sites it.1) }
{
    match slot {
        0..=99 => (slot < sites).then_some((site, Cell::Out(slot))),
        100..=199 => of_other(sites, site, slot - 100, Cell::Out(site)),
        200 => Some((site, Cell::Taken)),
        201 => Some((site, Cell::Ann)),
        202 => Some((site, Cell::Fin)),
        203..=299 => None,
        300..=399 => of_other(sites, site, slot - 300, Cell::Ann),
        _ => of_other(sites, site, slot - 400, Cell::Fin),
    }
}

// A counter of another site's row.
fn of_other(sites: u16, site: u16, j: u16, cell: Cell) -> Option<(u16, Cell)>
    requires { HasCell sites cell }
    ensures named { result ≡ option_map (λ it. (it.s, it.cell)) (of_other sites site j cell) }
    ensures there { IfSome result (λ it. (it.0 < sites) × HasCell sites it.1) }
{
    (j < sites && j != site).then_some((j, cell))
}
