//! A site's core from deltas of the others.
ghost use Rattle.std.specs.Prelude.{◌≡◌, ◌==◌, ◌↔◌, true, false, ℕ, ◌<◌, ◌≤◌, length, get_or, List, All, IsTrue, MatchOption};
ghost use Rattle.merge_core.specs.Counts.{counter_limit};
ghost use Rattle.std.specs.List.{list_any};
ghost use Rattle.merge_core.specs.Book.{book_shape, counter_of};
ghost use Rattle.merge_core.specs.Check.{IsChecked};
ghost use Rattle.merge_core.specs.Delta.{DeltaState};
ghost use Rattle.merge_core.specs.Layout.{shape_of};
ghost use Rattle.rebuild_laws.specs.Groups.{IsTeller};
ghost use Rattle.rebuild_laws.specs.Settling.{lacking};
ghost use Rattle.site_rebuild.specs.Rebuilt.{gone_of, IsLost, IsFit, IsRebuilt, AreTellers, AreFit, IsFirstUnfit, IsFirstWithout, IsWithin, IsWithinAt, IsCoreOf, TellsMost};
ghost use Rattle.site_rebuild.specs.declared.rebuilding.RebuildError.TheVariants.{Memory};

use crate::acting::is_unused;
use crate::cells::rebuilt_cells;
use crate::settling::{is_lost, site_lacking};
use admission_core::{Durable, RestoreError, SiteCore};
use merge_core::{Book, Delta, Layout};
use std::alloc::{AllocError, Global};
use thiserror::Error;

/// The most that a counter of seats holds.
const MOST: u128 = 1_000_000_000_000;

/// Why a site can't be built again.
#[derive(Clone, Copy, Debug, PartialEq, Eq, Error)]
pub enum RebuildError {
    /// The site is not among the lost ones, or one of these is none of the layout's.
    #[error("the site is not a lost one of the layout's")]
    BadSite,
    /// No delta is of this site, the least that is left without one.
    #[error("no delta of site {site}")]
    NoDelta { site: u16 },
    /// The first delta that is of no site of the layout, or that the layout's books don't take.
    #[error("delta {index} is not one of this layout")]
    BadDelta { index: usize },
    /// A lost site gave more seats too many than a counter holds, so other lost ones can't give them.
    #[error("the lost sites' seats do not fit a counter")]
    CounterFull,
    /// A delta is of a lost site, or what is told of the site shows that it took part in the new group: it took seats, gave
    /// some back, or gave some that their receiver does not tell of. It may have been built again before; or a delta is not
    /// of this group.
    #[error("the site has acted in this group")]
    Acted,
    /// The deltas are not those of one new group.
    #[error("the deltas do not agree")]
    Apart,
    #[error("out of memory")]
    Memory,
}

impl From<AllocError> for RebuildError {
    ghost from_gives = { λ _ e. e ≡ Memory };

    fn from(_e: AllocError) -> RebuildError {
        RebuildError::Memory
    }
}

/// The core of a site that lost its store, as the others know it: from a delta of each site that is not lost, made in the
/// new group. Where several are lost, each has to be built from the same deltas, those that the others made first in the
/// new group: what lost sites settle between them depends on these. Cubic in the number of sites, linear in records and
/// deltas.
pub fn rebuilt_core(
    alloc: Global,
    layout: Layout,
    site: u16,
    lost: &[u16],
    deltas: &[Delta],
) -> Result<SiteCore, RebuildError>
    ensures { IsRebuilt layout lost.now site deltas.now result }
{
    if !are_lost(layout.sites(), lost, site) {
        return Err(RebuildError::BadSite);
    }
    if let Some(silent) = first_silent(layout.sites(), lost, deltas) {
        return Err(RebuildError::NoDelta { site: silent });
    }
    let mut book = Book::genesis(alloc, &layout)?;
    if let Some(index) = first_unfit(&book, deltas) {
        return Err(RebuildError::BadDelta { index });
    }
    book.join_all(deltas);
    if !are_within(&layout, &book, lost) {
        return Err(RebuildError::CounterFull);
    }
    if !is_unused(alloc, &layout, &book, lost, site, deltas)? {
        return Err(RebuildError::Acted);
    }
    core_of(alloc, layout, site, &book, lost)
}

// The core of a site that is built again of a book of all that was told.
fn core_of(
    alloc: Global,
    layout: Layout,
    site: u16,
    book: &Book,
    lost: &[u16],
) -> Result<SiteCore, RebuildError>
    requires site { site < layout.sites }
    requires shape { book_shape book.now ≡ shape_of layout }
    requires within { IsWithin layout (gone_of lost.now) (counter_of book.now) }
    ensures { (ds : List DeltaState) → TellsMost layout ds book.now → IsCoreOf layout (gone_of lost.now) site ds result }
{
    let cells = rebuilt_cells(alloc, &layout, site, book, lost)?;
    match SiteCore::restore(alloc, layout, site, Durable::new(cells, Vec::new(alloc))) {
        Ok(core) => Ok(core),
        Err(RestoreError::Memory) => Err(RebuildError::Memory),
        Err(RestoreError::BadSite) => Err(RebuildError::Apart),
        Err(RestoreError::WrongCounters) => Err(RebuildError::Apart),
        Err(RestoreError::WrongSessions) => Err(RebuildError::Apart),
    }
}

// Whether the lost sites are the layout's, and the site is one of them.
fn are_lost(sites: u16, lost: &[u16], site: u16) -> bool
    ensures { IsTrue result ↔ IsLost sites lost.now site }
{
    if site >= sites {
        return false;
    }
    if !is_lost(lost, site) {
        return false;
    }
    are_there(sites, lost)
}

// Whether the lost sites are the layout's.
fn are_there(sites: u16, lost: &[u16]) -> bool
    ensures { IsTrue result ↔ All (λ s. s < sites) lost.now }
{
    for k in 0..lost.len() {
        if lost[k] >= sites {
            return false;
        }
    }
    true
}

// The least site that is left of which there is no delta.
fn first_silent(sites: u16, lost: &[u16], deltas: &[Delta]) -> Option<u16>
    ensures { MatchOption result (AreTellers sites (gone_of lost.now) deltas.now) (IsFirstWithout sites (gone_of lost.now) deltas.now) }
{
    for i in 0..sites {
        if !is_lost(lost, i) && !is_told_by(deltas, i) {
            return Some(i);
        }
    }
    None
}

// Whether one of the deltas is of site `i`.
fn is_told_by(deltas: &[Delta], i: u16) -> bool
    ensures { result ≡ list_any (λ d. d.from == i) deltas.now }
{
    deltas.iter().any(|delta| delta.from_site() == i)
}

// The first delta that is of no site, or that the book does not take.
fn first_unfit(book: &Book, deltas: &[Delta]) -> Option<usize>
    ensures { MatchOption result (AreFit (book_shape book.now) deltas.now) (IsFirstUnfit (book_shape book.now) deltas.now) }
{
    for i in 0..deltas.len() {
        if !is_fit(book, &deltas[i]) {
            return Some(i);
        }
    }
    None
}

// Whether a delta is of a site, and the book takes it.
fn is_fit(book: &Book, delta: &Delta) -> bool
    ensures { IsTrue result ↔ IsFit (book_shape book.now) delta.now }
{
    if delta.from_site() >= book.sites() {
        return false;
    }
    !book.check(delta).is_err()
}

// Whether no lost site lacks more seats than a counter holds.
fn are_within(layout: &Layout, book: &Book, lost: &[u16]) -> bool
    requires shape { book_shape book.now ≡ shape_of layout.now }
    ensures { IsTrue result ↔ IsWithin layout.now (gone_of lost.now) (counter_of book.now) }
{
    let few = layout.records().len() as u16;
    for r in 0..few {
        if !is_within(layout, book, lost, r) {
            return false;
        }
    }
    true
}

// The same of one record.
fn is_within(layout: &Layout, book: &Book, lost: &[u16], r: u16) -> bool
    requires shape { book_shape book.now ≡ shape_of layout.now }
    requires record { r < length layout.now.records }
    ensures { IsTrue result ↔ IsWithinAt layout.now (gone_of lost.now) (counter_of book.now) r }
{
    for d in 0..layout.sites() {
        if is_lost(lost, d) && site_lacking(layout, book, lost, r, d) > MOST {
            return false;
        }
    }
    true
}
