ghost use Rattle.std.specs.Prelude.{◌≡◌, ◌<◌, ◌≤◌, length};
ghost use Rattle.grow_counters.specs.Counts.{counter_limit};
ghost use Rattle.rights_matrix.specs.Matrix.{site_count};
ghost use Rattle.seat_rows.specs.Seats.{IsSeatState, IsValidSeatRow};
ghost use Rattle.writer_notices.specs.Notices.{IsNotices};
ghost use Rattle.merge_core.specs.Book.{record_rises};
ghost use Rattle.merge_core.specs.Joined.{joined_record};

use super::Book;
use super::marks::mark;
use crate::record::RecordState;
use crate::{Delta, Row};

impl Book {
    ghost use Rattle.std.specs.Prelude.{◌≡◌, ◌≤◌, All, IsTrue};
    ghost use Rattle.merge_core.specs.Tests.{is_placed, is_valid};
    ghost use Rattle.merge_core.specs.Book.{IsBook, counter_of, book_shape, book_rises};
    ghost use Rattle.merge_core.specs.Moved.{raised_by};
    ghost use Rattle.merge_core.specs.Check.{IsChecked};
    ghost use Rattle.merge_core.specs.Changes.{JoinsRows, JoinsAll};
    ghost use Rattle.merge_core.specs.Order.{IsUnionWith, IsLeastWith, NamesKnown};
    ghost use Rattle.merge_core.specs.Joined.{with_row};

    /// Takes a checked delta in: raises each counter to the delta's, and answers how many rose. Linear in the
    /// delta.
    pub fn join(&mut self, delta: &Delta) -> u64
        requires { IsChecked (book_shape self.old) delta.now.rows }
        ensures counters { JoinsRows self.old self.new delta.now.rows }
        ensures names { IsUnionWith self.old delta.now.rows self.new }
        ensures least { IsLeastWith self.old delta.now.rows self.new }
        ensures risen { result ≡ raised_by (book_shape self.old) (counter_of self.old) delta.now.rows }
        ensures book { IsBook self.new }
    {
        let _ = &self.sites; // tells the invariant, which the loop keeps
        let mut risen = 0;
        for row in delta.rows() {
            risen += self.join_row(row);
        }
        risen
    }

    /// Takes checked deltas in, one after another. Linear in the deltas.
    pub fn join_all(&mut self, deltas: &[Delta])
        requires { All (λ d. IsChecked (book_shape self.old) d.rows) deltas.now }
        ensures counters { JoinsAll self.old self.new deltas.now }
        ensures names { NamesKnown self.old deltas.now self.new }
        ensures book { IsBook self.new }
    {
        let _ = &self.sites; // tells the invariant, which the loop keeps
        for delta in deltas {
            self.join(delta);
        }
    }

    // Takes one row in, and answers how many counters rose.
    fn join_row(&mut self, row: &Row) -> u64
        requires placed { IsTrue (is_placed (book_shape self.old) row.now) }
        requires valid { IsTrue (is_valid (book_shape self.old) row.now) }
        ensures change { self.new ≡ with_row self.old row.now }
        ensures risen { result ≡ book_rises self.old self.new }
        ensures few { result ≤ 19 }
        ensures book { IsBook self.new }
    {
        mark(&mut self.marks, row.r, row.s);
        let it = &mut self.records[usize::from(row.r)];
        join_record(it, row)
    }
}

// Takes one row of a record in.
fn join_record(it: &mut RecordState, row: &Row) -> u64
    requires site { row.now.s < site_count it.old.seats.matrix }
    requires size { length row.now.out ≤ site_count it.old.seats.matrix }
    requires seats { IsValidSeatRow it.old.seats.matrix row.now.s row.now.out row.now.taken }
    requires seat_state { IsSeatState it.old.seats }
    requires notice_site { row.now.s < length it.old.notices.announced }
    requires in_order { row.now.fin ≤ row.now.ann }
    requires limited { row.now.ann ≤ counter_limit }
    ensures change { it.new ≡ joined_record it.old row.now }
    ensures risen { result ≡ record_rises it.old it.new }
    ensures few { result ≤ 19 }
    ensures seats_valid { IsSeatState it.new.seats }
    ensures notices_valid { IsNotices it.new.notices }
{
    let in_seats = it.seats.join_row(row.s, row.out.as_slice(), row.taken);
    let in_notices = it.notices.join_row(row.s, row.ann, row.fin);
    in_seats + in_notices
}
