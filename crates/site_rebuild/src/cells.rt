//! The counters with which a site begins that is built again, by record and slot.
ghost use Rattle.std.specs.Prelude.{◌≡◌, ◌<◌, length, IfOk};
ghost use Rattle.merge_core.specs.Book.{HasCell, counter_of, book_shape};
ghost use Rattle.merge_core.specs.Layout.{shape_of};
ghost use Rattle.merge_core.specs.Rows.{grant, start_counter};
ghost use Rattle.admission_model.specs.Durable.{at_slot, kept_cells, places};
ghost use Rattle.rebuild_laws.specs.Groups.{told_settled};
ghost use Rattle.site_rebuild.specs.Rebuilt.{gone_of, settled_by, counters_by, IsWithin};

use crate::settling::settled;
use admission_core::{Counters, DurableCell, kept_cells};
use merge_core::{Book, Cell, Layout};
use std::alloc::{AllocError, Global};

/// The counters of a site that is built again.
#[derive(Drop)]
struct Rebuilt<'a> {
    site: u16,
    book: &'a Book,
    lost: &'a [u16],
}

impl Counters for Rebuilt<'_> {
    ghost counter = { λ c layout. counters_by layout (gone_of c.lost.now) c.site (counter_of c.book.now) };

    ghost fits = { λ c layout. (c.site < layout.sites) × ((book_shape c.book.now ≡ shape_of layout) × IsWithin layout (gone_of c.lost.now) (counter_of c.book.now)) };

    fn read(&self, layout: &Layout, r: u16, s: u16, cell: Cell) -> u64 {
        rebuilt_counter(layout, self.site, self.book, self.lost, r, s, cell)
    }
}

/// The counters that have left their start. Linear in the book.
pub fn rebuilt_cells(
    alloc: Global,
    layout: &Layout,
    site: u16,
    book: &Book,
    lost: &[u16],
) -> Result<Vec<DurableCell>, AllocError>
    requires site { site < layout.now.sites }
    requires shape { book_shape book.now ≡ shape_of layout.now }
    requires within { IsWithin layout.now (gone_of lost.now) (counter_of book.now) }
    ensures { IfOk result (λ cells. cells.items ≡ kept_cells
        (at_slot layout.now.sites site (start_counter (shape_of layout.now)))
        (at_slot layout.now.sites site (counters_by layout.now (gone_of lost.now) site (counter_of book.now)))
        (places layout.now)) }
{
    kept_cells(alloc, layout, site, &Rebuilt { site, book, lost })
}

// One counter of the site that is built again.
#[tactic(auto, unfolding(crate::specs::Rebuilt::counters_by))]
fn rebuilt_counter(
    layout: &Layout,
    site: u16,
    book: &Book,
    lost: &[u16],
    r: u16,
    s: u16,
    cell: Cell,
) -> u64
    requires site { site < layout.now.sites }
    requires shape { book_shape book.now ≡ shape_of layout.now }
    requires within { IsWithin layout.now (gone_of lost.now) (counter_of book.now) }
    requires record { r < length layout.now.records }
    requires row { s < layout.now.sites }
    requires cell { HasCell layout.now.sites cell }
    ensures { result ≡ counters_by layout.now (gone_of lost.now) site (counter_of book.now) r s cell }
{
    if s != site {
        return told(layout, book, lost, r, s, cell);
    }
    match cell {
        Cell::Out(j) if j == site => grant(layout, r, site),
        Cell::Out(_) => told(layout, book, lost, r, site, cell),
        Cell::Taken => 0,
        Cell::Ann | Cell::Fin => book.counter(r, site, Cell::Ann),
    }
}

// What is told of a counter, and settled.
fn told(layout: &Layout, book: &Book, lost: &[u16], r: u16, s: u16, cell: Cell) -> u64
    requires shape { book_shape book.now ≡ shape_of layout.now }
    requires within { IsWithin layout.now (gone_of lost.now) (counter_of book.now) }
    requires record { r < length layout.now.records }
    requires row { s < layout.now.sites }
    requires cell { HasCell layout.now.sites cell }
    ensures { result ≡ told_settled (settled_by layout.now (gone_of lost.now) (counter_of book.now)) (counter_of book.now) r s cell }
{
    let value = book.counter(r, s, cell);
    match cell {
        Cell::Out(j) => value.max(settled(layout, book, lost, r, s, j)),
        Cell::Taken | Cell::Ann | Cell::Fin => value,
    }
}

// The seats that a site is granted of a record.
pub fn grant(layout: &Layout, r: u16, s: u16) -> u64
    requires { r < length layout.now.records }
    ensures { result ≡ grant (shape_of layout.now) r s }
{
    let record = &layout.records()[usize::from(r)];
    if s == record.home {
        u64::from(record.seats)
    } else {
        0
    }
}
