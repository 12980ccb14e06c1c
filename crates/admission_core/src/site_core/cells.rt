//! The counters that a store keeps of a site, read off its book.
use super::SiteCore;
use crate::kept::kept_cells;
use admission_model::DurableCell;
use std::alloc::AllocError;

impl SiteCore {
    ghost use Rattle.std.specs.Prelude.{◌≡◌, IfOk};
    ghost use Rattle.merge_core.specs.Book.{counter_of};
    ghost use Rattle.merge_core.specs.Layout.{shape_of};
    ghost use Rattle.merge_core.specs.Rows.{start_counter};
    ghost use Rattle.admission_model.specs.Durable.{at_slot, places, kept_cells};

    /// The counters that have left their start. Linear in the book.
    pub(super) fn durable_cells(&self) -> Result<Vec<DurableCell>, AllocError>
        ensures { IfOk result (λ cells. cells.items ≡ kept_cells
            (at_slot self.now.layout.sites self.now.site (start_counter (shape_of self.now.layout)))
            (at_slot self.now.layout.sites self.now.site (counter_of self.now.book))
            (places self.now.layout)) }
    {
        let _ = &self.alloc; // tells the invariant: the book is of the layout
        kept_cells(self.alloc, &self.layout, self.site, &self.book)
    }
}
