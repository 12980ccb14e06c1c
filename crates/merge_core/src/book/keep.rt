ghost use Rattle.std.specs.Prelude.{ℕ, ◌≡◌, ◌<◌, length, slice_index_or};
ghost use Rattle.merge_core.specs.Book.{nothing_known, IsRecord};
ghost use Rattle.merge_core.specs.Kept.{KeepsOwnIn};

use super::Book;
use super::marks::unmark;
use crate::record::RecordState;

impl Book {
    ghost use Rattle.std.specs.Prelude.{◌≡◌, ◌<◌, length};
    ghost use Rattle.merge_core.specs.Book.{IsBook};
    ghost use Rattle.merge_core.specs.Changes.{KeepsOwn};

    /// What a restart of `site` leaves: the site's own rows, the rights that were sent to it, and all notices.
    /// Linear in the counters.
    pub fn keep(&mut self, site: u16)
        requires { site < self.old.sites }
        ensures counters { KeepsOwn site self.old self.new }
        ensures book { IsBook self.new }
    {
        keep_records(self.sites, &mut self.records, site);
        self.clear_marks();
    }

    // Clears the mark of each row that is at its start, so that no snapshot looks at it again.
    fn clear_marks(&mut self)
        ensures same { self.new ≡ self.old }
        ensures book { IsBook self.new }
    {
        let _ = &self.sites; // tells the invariant, which the loop keeps
        for r in 0..self.records.len() {
            self.clear_marks_in(r as u16);
        }
    }

    // Clears the mark of each row of record `r` that is at its start.
    fn clear_marks_in(&mut self, r: u16)
        requires { r < length self.old.records }
        ensures same { self.new ≡ self.old }
        ensures book { IsBook self.new }
    {
        if self.is_unmoved(r) {
            return;
        }
        for s in 0..self.sites {
            self.clear_mark(r, s);
        }
    }

    // Clears the mark of the row of site `s` for record `r`, if the row is at its start.
    fn clear_mark(&mut self, r: u16, s: u16)
        requires record { r < length self.old.records }
        requires site { s < self.old.sites }
        ensures same { self.new ≡ self.old }
        ensures book { IsBook self.new }
    {
        if !self.has_moved(r, s) {
            unmark(&mut self.marks, r, s);
        }
    }
}

// What a restart leaves of each record of so many sites.
fn keep_records(sites: u16, records: &mut Vec<RecordState>, site: u16)
    requires site { site < sites }
    requires valid { (r : ℕ) → r < length records.old.items → IsRecord sites (slice_index_or records.old.items r nothing_known) }
    ensures size { length records.new.items ≡ length records.old.items }
    ensures kept { (r : ℕ) → KeepsOwnIn site (slice_index_or records.old.items r nothing_known) (slice_index_or records.new.items r nothing_known) }
    ensures valid { (r : ℕ) → r < length records.new.items → IsRecord sites (slice_index_or records.new.items r nothing_known) }
{
    for r in 0..records.len() {
        keep_record(sites, &mut records[r], site);
    }
}

// What a restart leaves of a record of so many sites.
fn keep_record(sites: u16, it: &mut RecordState, site: u16)
    requires site { site < sites }
    requires valid { IsRecord sites it.old }
    ensures kept { KeepsOwnIn site it.old it.new }
    ensures valid { IsRecord sites it.new }
{
    it.seats.keep(site);
}
