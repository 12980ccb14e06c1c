//! The book that a store's counters make.
ghost use Rattle.std.specs.Prelude.{◌<◌};
ghost use Rattle.merge_core.specs.Layout.{IsLayout};
ghost use Rattle.admission_core.specs.Restored.{IsBookOf};

use super::RestoreError;
use super::cells::are_listed;
use super::counters::all_keep_limits;
use super::rows::delta_of;
use super::table::table_of;
use admission_model::DurableCell;
use merge_core::{Book, Layout};
use std::alloc::Global;

/// The book that has the counters of these cells, if they are a site's. Linear in the layout's slots and the
/// cells.
pub fn restored_book(
    alloc: Global,
    layout: &Layout,
    site: u16,
    cells: &[DurableCell],
) -> Result<Book, RestoreError>
    requires site { site < layout.now.sites }
    requires layout { IsLayout layout.now }
    ensures { IsBookOf layout.now site cells.now result }
{
    if !are_listed(layout, site, cells) {
        return Err(RestoreError::WrongCounters);
    }
    let stored = table_of(alloc, layout, site, cells)?;
    let table = stored.as_slice();
    let delta = delta_of(alloc, layout, site, table)?;
    let mut book = Book::genesis(alloc, layout)?;
    if book.check(&delta).is_err() {
        return Err(RestoreError::WrongCounters);
    }
    if !all_keep_limits(layout, site, table) {
        return Err(RestoreError::WrongCounters);
    }
    book.join(&delta);
    Ok(book)
}
