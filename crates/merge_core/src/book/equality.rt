ghost use Rattle.std.specs.Prelude.{◌≡◌, ◌↔◌, ◌<◌, length, IsTrue};
ghost use Rattle.rights_matrix.specs.Matrix.{site_count};
ghost use Rattle.merge_core.specs.Book.{IsRecord, row_in, shape_in};

use super::Book;
use crate::record::RecordState;

impl Book {
    ghost use Rattle.std.specs.Prelude.{◌≡◌, ◌↔◌, IsTrue};
    ghost use Rattle.merge_core.specs.Book.{book_shape};
    ghost use Rattle.merge_core.specs.Order.{NamesSame};

    /// Whether the two books of one layout name the same. Linear in the counters.
    pub fn same(&self, other: &Book) -> bool
        requires { book_shape other.now ≡ book_shape self.now }
        ensures names { IsTrue result ↔ NamesSame self.now other.now }
        ensures equal { IsTrue result ↔ (self.now ≡ other.now) }
    {
        for r in 0..self.records.len() {
            if !same_record(self.sites, &self.records[r], &other.records[r]) {
                return false;
            }
        }
        true
    }
}

// Whether what is known of a record of so many sites is the same.
fn same_record(sites: u16, a: &RecordState, b: &RecordState) -> bool
    requires left { IsRecord sites a.now }
    requires right { IsRecord sites b.now }
    requires shape { shape_in b.now ≡ shape_in a.now }
    ensures { IsTrue result ↔ (a.now ≡ b.now) }
{
    for s in 0..sites {
        if !same_row(a, b, s) {
            return false;
        }
    }
    true
}

// Whether the rows of a site are the same.
fn same_row(a: &RecordState, b: &RecordState, s: u16) -> bool
    requires left { s < site_count a.now.seats.matrix }
    requires right { s < site_count b.now.seats.matrix }
    requires left_notices { s < length a.now.notices.announced }
    requires right_notices { s < length b.now.notices.announced }
    ensures { IsTrue result ↔ (row_in a.now s ≡ row_in b.now s) }
{
    a.seats.row(s) == b.seats.row(s)
        && a.seats.taken(s) == b.seats.taken(s)
        && a.notices.announced(s) == b.notices.announced(s)
        && a.notices.finished(s) == b.notices.finished(s)
}
