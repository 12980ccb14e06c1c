use super::Book;
use crate::Layout;
use std::alloc::{AllocError, Global};

impl Book {
    ghost use Rattle.std.specs.Prelude.{IfOk};
    ghost use Rattle.merge_core.specs.Layout.{IsEarlierShape, shape_of};
    ghost use Rattle.merge_core.specs.Book.{IsBook, book_shape};
    ghost use Rattle.merge_core.specs.Changes.{IsWidened};

    /// The book under a layout that grew by sites: the same counters, and 0 for the sites that came. Linear
    /// in the counters of the wider book.
    pub fn widened(&self, alloc: Global, layout: &Layout) -> Result<Book, AllocError>
        requires { IsEarlierShape (book_shape self.now) (shape_of layout.now) }
        ensures counters { IfOk result (λ b. IsWidened (shape_of layout.now) self.now b) }
        ensures book { IfOk result (λ b. IsBook b) }
    {
        let told = self.snapshot(alloc, 0)?;
        let mut wide = Book::genesis(alloc, layout)?;
        wide.join(&told);
        Ok(wide)
    }
}
