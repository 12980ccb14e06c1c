//! The rows that a snapshot has, lent in place.
ghost use Rattle.std.specs.Prelude.{◌≡◌};

use super::Book;

/// A row as a book has it: record, site, and the counters, of which those of rights are the book's own.
#[derive(Clone, Copy, Debug)]
pub struct LentRow<'a> {
    pub r: u16,
    pub s: u16,
    pub out: &'a [u64],
    pub taken: u64,
    pub ann: u64,
    pub fin: u64,
}

impl Book {
    ghost use Rattle.std.specs.Prelude.{◌≡◌, ◌<◌, length, true, false, MatchOption};
    ghost use Rattle.merge_core.specs.Book.{counter_of, book_shape};
    ghost use Rattle.merge_core.specs.Lent.{lent_row};
    ghost use Rattle.merge_core.specs.Moved.{told_row, has_moved};

    /// The row of site `s` for record `r`, if a counter of it has left its start. [`Book::snapshot`] has these rows and no
    /// others. Linear in the sites.
    pub fn moved_row(&self, r: u16, s: u16) -> Option<LentRow<'_>>
        requires record { r < length self.now.records }
        requires site { s < self.now.sites }
        ensures { MatchOption result
            (has_moved (book_shape self.now) (counter_of self.now) r s ≡ false)
            (λ row. (has_moved (book_shape self.now) (counter_of self.now) r s ≡ true) × (lent_row row ≡ told_row self.now.sites (counter_of self.now) r s)) }
    {
        if !self.has_moved(r, s) {
            return None;
        }
        Some(self.lend_row(r, s))
    }

    // The row of site `s` for record `r`.
    fn lend_row(&self, r: u16, s: u16) -> LentRow<'_>
        requires record { r < length self.now.records }
        requires site { s < self.now.sites }
        ensures { lent_row result ≡ told_row self.now.sites (counter_of self.now) r s }
    {
        let it = &self.records[usize::from(r)];
        LentRow {
            r,
            s,
            out: it.seats.row(s),
            taken: it.seats.taken(s),
            ann: it.notices.announced(s),
            fin: it.notices.finished(s),
        }
    }
}
