use crate::record::RecordState;
use crate::{Cell, Layout};
use genesis::genesis_records;
pub use lending::LentRow;
use marks::mark;
use rights_matrix::TransferError;
use seat_rows::SeatError;
use std::alloc::{AllocError, Global};
use std::marker::Model;
use writer_notices::NoticeError;

mod covering;
mod equality;
mod genesis;
mod growth;
mod join;
mod keep;
mod lending;
mod marks;
mod snapshot;
mod telling;
mod validity;

/// What a site knows of every record: the counters of all sites, as far as it did or heard what they count.
/// Two books join to the union of what they name (a state-based replicated data type, Shapiro et al., 2011).
#[derive(Debug, Drop)]
pub struct Book {
    sites: u16,
    records: Vec<RecordState>,
    // A bit for each site and record whose row may have left its start.
    marks: Vec<u16>,
}

// Contracts see the number of sites and what is known of each record. Each row that has left its start is marked.
impl Model for Book {
    ghost use Rattle.merge_core.specs.Book.{BookState, IsBook};
    ghost use Rattle.merge_core.specs.Marked.{MarksMoved};

    ghost Value = { BookState };

    ghost view = { λ b. record { sites = b.sites; records = b.records.items } };

    ghost invariant = { λ b. let it : BookState = record { sites = b.sites; records = b.records.items } in
        (IsBook it) × (MarksMoved it b.marks.items) };
}

impl Book {
    ghost use Rattle.std.specs.Prelude.{◌≡◌, ℕ, ◌↔◌, ◌<◌, ◌≤◌, length, None, Some, IsTrue, IfOk, OnOk, MatchResult, MatchOption, All};
    ghost use Rattle.rights_matrix.specs.Transfer.{transfer_fault};
    ghost use Rattle.seat_rows.specs.Seats.{taken_at, inside_of, seat_rights, HasSeatRights, after_take, after_raise};
    ghost use Rattle.seat_rows.specs.Take.{take_fault};
    ghost use Rattle.writer_notices.specs.Notices.{open_count, IsOpen, IsLeastOpen, announce_fault, announced_at, finished_at};
    ghost use Rattle.merge_core.specs.declared.cell.Cell.TheVariants.{Out, Taken, Ann, Fin};
    ghost use Rattle.merge_core.specs.Layout.{shape_of};
    ghost use Rattle.merge_core.specs.Rows.{start_counter};
    ghost use Rattle.merge_core.specs.Book.{IsBook, seats_at, notices_at, counter_of, book_shape, HasCell, with_seats, with_notices};
    ghost use Rattle.merge_core.specs.Changes.{Raises};
    ghost use Rattle.merge_core.specs.Order.{NamesGrants};

    /// The book before any operation: it names the grants alone.
    pub fn genesis(alloc: Global, layout: &Layout) -> Result<Book, AllocError>
        ensures shape { IfOk result (λ b. book_shape b ≡ shape_of layout.now) }
        ensures counters { IfOk result (λ b. (r s : ℕ) (cell : Cell) → counter_of b r s cell ≡ start_counter (shape_of layout.now) r s cell) }
        ensures names { IfOk result (λ b. NamesGrants b) }
        ensures rights { IfOk result (λ b. (r i : ℕ) → HasSeatRights (seats_at b r) i) }
        ensures book { IfOk result (λ b. IsBook b) }
    {
        let sites = layout.sites();
        let records = genesis_records(alloc, sites, layout.records())?;
        let marks = vec![in alloc; 0; records.len()]?;
        Ok(Book {
            sites,
            records,
            marks,
        })
    }

    /// The number of sites.
    pub fn sites(&self) -> u16
        ensures sites { result ≡ self.now.sites }
        ensures book { IsBook self.now }
    {
        self.sites
    }

    /// The number of records.
    pub fn records(&self) -> u16
        ensures records { result ≡ length self.now.records }
        ensures book { IsBook self.now }
    {
        let _ = &self.sites; // tells the invariant: at most 256 records
        self.records.len() as u16
    }

    /// One counter of site `s` for record `r`.
    pub fn counter(&self, r: u16, s: u16, cell: Cell) -> u64
        requires record { r < length self.now.records }
        requires site { s < self.now.sites }
        requires cell { HasCell self.now.sites cell }
        ensures { result ≡ counter_of self.now r s cell }
    {
        let it = &self.records[usize::from(r)];
        match cell {
            Cell::Out(j) => it.seats.get(s, j),
            Cell::Taken => it.seats.taken(s),
            Cell::Ann => it.notices.announced(s),
            Cell::Fin => it.notices.finished(s),
        }
    }

    /// How many seats of record `r` site `i` may still take by itself.
    pub fn rights(&self, r: u16, i: u16) -> u64
        requires record { r < length self.now.records }
        requires site { i < self.now.sites }
        requires enough { HasSeatRights (seats_at self.now r) i }
        ensures { result ≡ seat_rights (seats_at self.now r) i }
    {
        let it = &self.records[usize::from(r)];
        it.seats.rights(i)
    }

    /// How many seats of record `r` are taken at site `i` and not given back.
    pub fn inside(&self, r: u16, i: u16) -> u64
        requires record { r < length self.now.records }
        requires site { i < self.now.sites }
        ensures { result ≡ inside_of (seats_at self.now r) i }
    {
        let it = &self.records[usize::from(r)];
        it.seats.inside(i)
    }

    /// The least site with an unfinished writer of record `r`. Linear in the sites.
    pub fn unfinished(&self, r: u16) -> Option<u16>
        requires { r < length self.now.records }
        ensures { MatchOption result
            ((s : ℕ) → ¬ IsOpen (notices_at self.now r) s)
            (λ s. IsLeastOpen (notices_at self.now r) s) }
    {
        let it = &self.records[usize::from(r)];
        it.notices.unfinished()
    }

    /// How many writers of record `r` site `i` announced that have not finished.
    pub fn open_at(&self, r: u16, i: u16) -> u64
        requires record { r < length self.now.records }
        requires site { i < self.now.sites }
        ensures { result ≡ open_count (notices_at self.now r) i }
    {
        let it = &self.records[usize::from(r)];
        it.notices.open_at(i)
    }

    /// Takes `w` seats of record `r` at site `i`, or refuses as `SeatRow::take` does.
    pub fn take(&mut self, r: u16, i: u16, w: u64) -> Result<(), SeatError>
        requires record { r < length self.old.records }
        requires site { i < self.old.sites }
        requires enough { HasSeatRights (seats_at self.old r) i }
        ensures answer { MatchResult result
            (λ _. take_fault (seats_at self.old r) i w ≡ None)
            (λ e. take_fault (seats_at self.old r) i w ≡ Some e) }
        ensures change { MatchResult result
            (λ _. self.new ≡ with_seats self.old r (after_take (seats_at self.old r) i w))
            (λ _. self.new ≡ self.old) }
        ensures counters { OnOk result (Raises self.old self.new r i Taken w) }
        ensures enough { HasSeatRights (seats_at self.new r) i }
        ensures book { IsBook self.new }
    {
        mark(&mut self.marks, r, i);
        let it = &mut self.records[usize::from(r)];
        it.seats.take(i, w)
    }

    /// Gives `w` seats of record `r` back that are taken at site `i`. It can not be refused.
    pub fn give(&mut self, r: u16, i: u16, w: u64)
        requires record { r < length self.old.records }
        requires site { i < self.old.sites }
        requires taken { w ≤ inside_of (seats_at self.old r) i }
        ensures change { self.new ≡ with_seats self.old r (after_raise (seats_at self.old r) i i w) }
        ensures counters { Raises self.old self.new r i (Out i) w }
        ensures enough { HasSeatRights (seats_at self.old r) i → HasSeatRights (seats_at self.new r) i }
        ensures book { IsBook self.new }
    {
        mark(&mut self.marks, r, i);
        let it = &mut self.records[usize::from(r)];
        it.seats.give(i, w);
    }

    /// Sends `n` rights of record `r` from site `i` to site `j`, or refuses as `SeatRow::transfer` does.
    pub fn transfer(&mut self, r: u16, i: u16, j: u16, n: u64) -> Result<(), TransferError>
        requires record { r < length self.old.records }
        requires from { i < self.old.sites }
        requires to { j < self.old.sites }
        requires enough { HasSeatRights (seats_at self.old r) i }
        ensures answer { let fault = transfer_fault (seats_at self.old r).matrix i j n (taken_at (seats_at self.old r) i) in
            MatchResult result (λ _. fault ≡ None) (λ e. fault ≡ Some e) }
        ensures change { MatchResult result
            (λ _. self.new ≡ with_seats self.old r (after_raise (seats_at self.old r) i j n))
            (λ _. self.new ≡ self.old) }
        ensures counters { OnOk result (Raises self.old self.new r i (Out j) n) }
        ensures enough { HasSeatRights (seats_at self.new r) i }
        ensures book { IsBook self.new }
    {
        mark(&mut self.marks, r, i);
        let it = &mut self.records[usize::from(r)];
        it.seats.transfer(i, j, n)
    }

    /// Announces a writer of record `r` at site `i`, and answers its number, or refuses as
    /// `Notices::announce` does.
    pub fn announce(&mut self, r: u16, i: u16) -> Result<u64, NoticeError>
        requires record { r < length self.old.records }
        requires site { i < self.old.sites }
        ensures answer { MatchResult result
            (λ n. (announce_fault (notices_at self.old r) i ≡ None) × (n ≡ counter_of self.new r i Ann))
            (λ e. announce_fault (notices_at self.old r) i ≡ Some e) }
        ensures change { MatchResult result
            (λ _. self.new ≡ with_notices self.old r (announced_at (notices_at self.old r) i))
            (λ _. self.new ≡ self.old) }
        ensures counters { OnOk result (Raises self.old self.new r i Ann 1) }
        ensures book { IsBook self.new }
    {
        mark(&mut self.marks, r, i);
        let it = &mut self.records[usize::from(r)];
        it.notices.announce(i)
    }

    /// Finishes a writer of record `r` at site `i`, whose caller shows that one is unfinished.
    pub fn finish(&mut self, r: u16, i: u16)
        requires record { r < length self.old.records }
        requires open { IsOpen (notices_at self.old r) i }
        ensures change { self.new ≡ with_notices self.old r (finished_at (notices_at self.old r) i) }
        ensures counters { Raises self.old self.new r i Fin 1 }
        ensures book { IsBook self.new }
    {
        mark(&mut self.marks, r, i);
        let it = &mut self.records[usize::from(r)];
        it.notices.finish(i);
    }
}
