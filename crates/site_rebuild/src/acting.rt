//! Whether what is told of a lost site shows that it took part in the new group.
ghost use Rattle.std.specs.Prelude.{◌≡◌, ◌≢◌, ◌↔◌, ◌++◌, ◌∷◌, [], true, false, ℕ, ◌<◌, ◌≤◌, length, get_or, List, All, IfOk, IsTrue};
ghost use Rattle.merge_core.specs.declared.cell.Cell.TheVariants.{Out, Taken};
ghost use Rattle.merge_core.specs.declared.cell.Cell.{Cell};
ghost use Rattle.merge_core.specs.Book.{BookState, book_shape, counter_of};
ghost use Rattle.merge_core.specs.Changes.{JoinsAll};
ghost use Rattle.merge_core.specs.Check.{IsChecked};
ghost use Rattle.merge_core.specs.Delta.{DeltaState};
ghost use Rattle.merge_core.specs.Layout.{shape_of};
ghost use Rattle.merge_core.specs.Rows.{grant};
ghost use Rattle.rebuild_laws.specs.Settling.{settlement};
ghost use Rattle.site_rebuild.specs.Rebuilt.{gone_of, of_site, told_from, AreFit, IsUnused, IsUnusedAt, IsWithin, AreShown, AreSettledAt};

use crate::cells::grant;
use crate::settling::{is_lost, settled};
use merge_core::{Book, Cell, Delta, Layout};
use std::alloc::{AllocError, Global};

/// Whether nothing that is told of the site's row shows that it acted. Makes a book for each site that is left, one after
/// the other; linear in the deltas, cubic in the number of sites.
pub fn is_unused(
    alloc: Global,
    layout: &Layout,
    book: &Book,
    lost: &[u16],
    site: u16,
    deltas: &[Delta],
) -> Result<bool, AllocError>
    requires shape { book_shape book.now ≡ shape_of layout.now }
    requires within { IsWithin layout.now (gone_of lost.now) (counter_of book.now) }
    requires site { site < layout.now.sites }
    requires fits { AreFit (shape_of layout.now) deltas.now }
    ensures { IfOk result (λ unused. IsTrue unused ↔ IsUnused layout.now (gone_of lost.now) site deltas.now (counter_of book.now)) }
{
    if !are_rows_unused(layout, book, lost, site) || !are_of_others(lost, deltas) {
        return Ok(false);
    }
    for j in 0..layout.sites() {
        if !is_lost(lost, j) && !are_shown(alloc, layout, book, site, j, deltas)? {
            return Ok(false);
        }
    }
    Ok(true)
}

// Whether no delta is of a lost site.
fn are_of_others(lost: &[u16], deltas: &[Delta]) -> bool
    ensures { IsTrue result ↔ All (λ m. gone_of lost.now m.from ≡ false) deltas.now }
{
    for k in 0..deltas.len() {
        if is_lost(lost, deltas[k].from_site()) {
            return false;
        }
    }
    true
}

// Whether of no record a seat was taken, given back, or given to a lost site and not settled.
fn are_rows_unused(layout: &Layout, book: &Book, lost: &[u16], site: u16) -> bool
    requires shape { book_shape book.now ≡ shape_of layout.now }
    requires within { IsWithin layout.now (gone_of lost.now) (counter_of book.now) }
    requires site { site < layout.now.sites }
    ensures { IsTrue result ↔ ((r : ℕ) → r < length layout.now.records → IsUnusedAt layout.now (gone_of lost.now) site (counter_of book.now) r) }
{
    let few = layout.records().len() as u16;
    for r in 0..few {
        if !is_row_unused(layout, book, lost, site, r) {
            return false;
        }
    }
    true
}

// The same of one record.
fn is_row_unused(layout: &Layout, book: &Book, lost: &[u16], site: u16, r: u16) -> bool
    requires shape { book_shape book.now ≡ shape_of layout.now }
    requires within { IsWithin layout.now (gone_of lost.now) (counter_of book.now) }
    requires site { site < layout.now.sites }
    requires record { r < length layout.now.records }
    ensures { IsTrue result ↔ IsUnusedAt layout.now (gone_of lost.now) site (counter_of book.now) r }
{
    if book.counter(r, site, Cell::Taken) != 0 {
        return false;
    }
    if book.counter(r, site, Cell::Out(site)) > grant(layout, r, site) {
        return false;
    }
    are_settled(layout, book, lost, site, r)
}

// Whether what the site gave to lost ones was settled.
fn are_settled(layout: &Layout, book: &Book, lost: &[u16], site: u16, r: u16) -> bool
    requires shape { book_shape book.now ≡ shape_of layout.now }
    requires within { IsWithin layout.now (gone_of lost.now) (counter_of book.now) }
    requires site { site < layout.now.sites }
    requires record { r < length layout.now.records }
    ensures { IsTrue result ↔ ((j : ℕ) → j < layout.now.sites → AreSettledAt layout.now (gone_of lost.now) site (counter_of book.now) r j) }
{
    for j in 0..layout.sites() {
        if !is_settled(layout, book, lost, site, r, j) {
            return false;
        }
    }
    true
}

// Whether what it gave to site `j` was, if that one is lost.
fn is_settled(layout: &Layout, book: &Book, lost: &[u16], site: u16, r: u16, j: u16) -> bool
    requires shape { book_shape book.now ≡ shape_of layout.now }
    requires within { IsWithin layout.now (gone_of lost.now) (counter_of book.now) }
    requires site { site < layout.now.sites }
    requires record { r < length layout.now.records }
    requires getter { j < layout.now.sites }
    ensures { IsTrue result ↔ AreSettledAt layout.now (gone_of lost.now) site (counter_of book.now) r j }
{
    if j == site || !is_lost(lost, j) {
        return true;
    }
    book.counter(r, site, Cell::Out(j)) <= settled(layout, book, lost, r, site, j)
}

// Whether the deltas of site `j` show all seats that are told to have been given to it.
fn are_shown(
    alloc: Global,
    layout: &Layout,
    book: &Book,
    site: u16,
    j: u16,
    deltas: &[Delta],
) -> Result<bool, AllocError>
    requires shape { book_shape book.now ≡ shape_of layout.now }
    requires site { site < layout.now.sites }
    requires getter { j < layout.now.sites }
    requires fits { AreFit (shape_of layout.now) deltas.now }
    ensures { IfOk result (λ shown. IsTrue shown ↔ AreShown layout.now site deltas.now (counter_of book.now) j) }
{
    let own = book_from(alloc, layout, j, deltas)?;
    let few = layout.records().len() as u16;
    for r in 0..few {
        if !is_shown(book, &own, site, j, r) {
            return Ok(false);
        }
    }
    Ok(true)
}

// Whether one book knows of as many seats that were given to site `j` as another one.
fn is_shown(book: &Book, own: &Book, site: u16, j: u16, r: u16) -> bool
    requires shape { book_shape own.now ≡ book_shape book.now }
    requires site { site < book.now.sites }
    requires getter { j < book.now.sites }
    requires record { r < length book.now.records }
    ensures { IsTrue result ↔ (counter_of book.now r site (Out j) ≤ counter_of own.now r site (Out j)) }
{
    book.counter(r, site, Cell::Out(j)) <= own.counter(r, site, Cell::Out(j))
}

// The book of the deltas of site `j`.
fn book_from(alloc: Global, layout: &Layout, j: u16, deltas: &[Delta]) -> Result<Book, AllocError>
    requires fits { AreFit (shape_of layout.now) deltas.now }
    ensures shape { IfOk result (λ b. book_shape b ≡ shape_of layout.now) }
    ensures told { IfOk result (λ b. (r s : ℕ) (cell : Cell) → counter_of b r s cell ≡ told_from (shape_of layout.now) deltas.now j r s cell) }
{
    let mut book = Book::genesis(alloc, layout)?;
    for k in 0..deltas.len() {
        join_from(&mut book, &deltas[k], j);
    }
    Ok(book)
}

// Joins a delta, if it is of site `j`.
fn join_from(book: &mut Book, delta: &Delta, j: u16)
    requires fits { IsChecked (book_shape book.old) delta.now.rows }
    ensures shape { book_shape book.new ≡ book_shape book.old }
    ensures joins { (start : BookState) → (ds : List DeltaState) → JoinsAll start book.old (of_site j ds) → JoinsAll start book.new (of_site j (ds ++ delta.now ∷ [])) }
{
    if delta.from_site() == j {
        book.join(delta);
    }
}
