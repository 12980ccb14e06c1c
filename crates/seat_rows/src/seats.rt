ghost use Rattle.std.specs.Prelude.{◌≡◌, ℕ, ◌+◌, ◌-◌, ◌*◌, ◌<◌, ◌≤◌, max, if◌then◌else◌, length, slice_index, slice_set, None, Some, IfOk, OnOk, MatchResult};
ghost use Rattle.rights_matrix.specs.Changes.{MovesRights, SameRightsAt};
ghost use Rattle.rights_matrix.specs.Kept.{kept_entry};
ghost use Rattle.rights_matrix.specs.Matrix.{site_count, most_sites, grant, entry, start_entry, row_of, SameShape};
ghost use Rattle.rights_matrix.specs.Transfer.{transfer_fault};
ghost use Rattle.grow_counters.specs.Counts.{counter_limit, rise_count};
ghost use Rattle.seat_rows.specs.Seats.{SeatState, taken_at, returned_at, inside_of, seat_rights, signed_rights, TellsRights, HasSeatRights, IsSeatState, IsValidSeatRow, start_seats, after_take, after_raise, joined_seats, joined_seats_at, seat_rises, kept_taken};
ghost use Rattle.seat_rows.specs.Take.{take_fault};

use crate::balances::Balances;
use crate::faults::SeatError;
use grow_counters::{COUNTER_LIMIT, Counts};
use rights_matrix::{Rights, TransferError};
use std::alloc::{AllocError, Global};
use std::marker::Model;

/// The seats of one record at 1 to 16 sites: a bounded counter (Balegas et al., 2015) whose value is the
/// number of free seats, and whose rights say how many of them each site may take by itself.
#[derive(Debug, Drop)]
pub struct SeatRow {
    rights: Rights,
    taken: Counts,
    cached: Balances,
}

// Contracts see the matrix and the list of taken counts. The cached numbers always tell the formula.
impl Model for SeatRow {
    ghost Value = { SeatState };

    ghost view = { λ r. record { matrix = r.rights; taken = r.taken } };

    ghost invariant = { λ r. let st : SeatState = record { matrix = r.rights; taken = r.taken } in
        (IsSeatState st) × (TellsRights st r.cached) };
}

impl SeatRow {
    /// The seats of `n` sites at the start: all at `home`, none taken.
    pub fn new(alloc: Global, n: u16, home: u16, seats: u32) -> Result<SeatRow, AllocError>
        requires few { n ≤ most_sites }
        requires home { home < n }
        ensures start { IfOk result (λ row. row ≡ start_seats n home seats) }
        ensures state { IfOk result (λ row. IsSeatState row) }
    {
        let rights = Rights::new(alloc, n, home, seats)?;
        let taken = Counts::new(alloc, usize::from(n))?;
        let mut cached = Balances::new(alloc, usize::from(n))?;
        recount(&rights, &taken, &mut cached);
        Ok(SeatRow {
            rights,
            taken,
            cached,
        })
    }

    /// The number of sites, 1 to 16.
    pub fn sites(&self) -> u16
        ensures count { result ≡ site_count self.now.matrix }
        ensures state { IsSeatState self.now }
    {
        self.rights.sites()
    }

    /// The site that all seats were granted to.
    pub fn home(&self) -> u16
        ensures { result ≡ self.now.matrix.home }
    {
        self.rights.home()
    }

    /// The number of seats.
    pub fn seats(&self) -> u32
        ensures { result ≡ self.now.matrix.seats }
    {
        self.rights.seats()
    }

    /// What site `i` was granted at the start.
    pub fn grant(&self, i: u16) -> u64
        ensures { result ≡ grant self.now.matrix i }
    {
        self.rights.grant(i)
    }

    /// Entry (`i`, `j`) of the rights matrix.
    pub fn get(&self, i: u16, j: u16) -> u64
        requires from { i < site_count self.now.matrix }
        requires to { j < site_count self.now.matrix }
        ensures { result ≡ entry self.now.matrix i j }
    {
        self.rights.get(i, j)
    }

    /// How many seats were ever taken at site `i`.
    pub fn taken(&self, i: u16) -> u64
        requires { i < site_count self.now.matrix }
        ensures { result ≡ taken_at self.now i }
    {
        self.taken.get(usize::from(i))
    }

    /// The row of site `i` in the rights matrix.
    pub fn row(&self, i: u16) -> &[u64]
        requires { i < site_count self.now.matrix }
        ensures { result.now ≡ row_of self.now.matrix i }
    {
        self.rights.row(i)
    }

    /// What site `i` ever got less what it sent and took, as far as it is known here: for a foreign site, whose
    /// column is perhaps known in part, it may be below 0.
    pub fn cached(&self, i: u16) -> i64
        requires { i < site_count self.now.matrix }
        ensures { result ≡ signed_rights self.now i }
    {
        self.cached.get(i)
    }

    /// How many seats site `i` may still take by itself.
    pub fn rights(&self, i: u16) -> u64
        requires site { i < site_count self.now.matrix }
        requires enough { HasSeatRights self.now i }
        ensures { result ≡ seat_rights self.now i }
    {
        self.cached(i) as u64
    }

    /// How many seats are taken at site `i` and not given back.
    pub fn inside(&self, i: u16) -> u64
        requires { i < site_count self.now.matrix }
        ensures { result ≡ inside_of self.now i }
    {
        self.taken(i) - self.returned(i)
    }

    /// Sends `n` rights from site `i` to site `j`, or refuses as [`Rights::transfer`] does.
    pub fn transfer(&mut self, i: u16, j: u16, n: u64) -> Result<(), TransferError>
        requires from { i < site_count self.old.matrix }
        requires to { j < site_count self.old.matrix }
        requires enough { HasSeatRights self.old i }
        ensures answer { let fault = transfer_fault self.old.matrix i j n (taken_at self.old i) in
            MatchResult result (λ _. fault ≡ None) (λ e. fault ≡ Some e) }
        ensures change { MatchResult result
            (λ _. self.new ≡ after_raise self.old i j n)
            (λ _. self.new ≡ self.old) }
        ensures rights { OnOk result (MovesRights self.old.matrix self.new.matrix i j n) }
        ensures enough { HasSeatRights self.new i }
        ensures state { IsSeatState self.new }
    {
        let rights = self.rights(i);
        self.rights.transfer_from(i, j, n, rights)?;
        self.cached.lose(i, n);
        self.cached.gain(j, n);
        Ok(())
    }

    /// Takes `w` seats at site `i`. Refused where the counter would pass its limit, and then where the site
    /// has fewer rights than `w`.
    pub fn take(&mut self, i: u16, w: u64) -> Result<(), SeatError>
        requires site { i < site_count self.old.matrix }
        requires enough { HasSeatRights self.old i }
        ensures answer { MatchResult result
            (λ _. take_fault self.old i w ≡ None)
            (λ e. take_fault self.old i w ≡ Some e) }
        ensures change { MatchResult result
            (λ _. self.new ≡ after_take self.old i w)
            (λ _. self.new ≡ self.old) }
        ensures rights { OnOk result (seat_rights self.new i + w ≡ seat_rights self.old i) }
        ensures inside { OnOk result (inside_of self.new i ≡ inside_of self.old i + w) }
        ensures enough { HasSeatRights self.new i }
        ensures state { IsSeatState self.new }
    {
        if let Some(fault) = self.fault(i, w) {
            return Err(fault);
        }
        self.taken.add(usize::from(i), w);
        self.cached.lose(i, w);
        Ok(())
    }

    /// Gives `w` seats back that are taken at site `i`: its rights grow by as many.
    pub fn give(&mut self, i: u16, w: u64)
        requires site { i < site_count self.old.matrix }
        requires taken { w ≤ inside_of self.old i }
        ensures change { self.new ≡ after_raise self.old i i w }
        ensures rights { HasSeatRights self.old i → seat_rights self.new i ≡ seat_rights self.old i + w }
        ensures inside { inside_of self.new i + w ≡ inside_of self.old i }
        ensures enough { HasSeatRights self.old i → HasSeatRights self.new i }
        ensures state { IsSeatState self.new }
    {
        self.rights.give_back(i, w);
        self.cached.gain(i, w);
    }

    /// Forgets what was heard of other sites, for a restart of `site`: sets their taken counts to 0, and every
    /// entry outside the site's row and column back to the start. Linear in the number of counters.
    pub fn keep(&mut self, site: u16)
        requires { site < site_count self.old.matrix }
        ensures shape { SameShape self.old.matrix self.new.matrix }
        ensures entries { (i j : ℕ) → entry self.new.matrix i j ≡ kept_entry self.old.matrix site i j }
        ensures taken { (i : ℕ) → taken_at self.new i ≡ kept_taken self.old site i }
        ensures rights { SameRightsAt self.old.matrix self.new.matrix site }
        ensures enough { HasSeatRights self.old site → HasSeatRights self.new site }
        ensures state { IsSeatState self.new }
    {
        self.rights.keep(site);
        let sites = self.taken.len();
        self.taken.keep_one(0, sites, usize::from(site));
        recount(&self.rights, &self.taken, &mut self.cached);
    }

    /// Raises each counter to the other copy's, and answers how many rose. Linear in the number of counters.
    pub fn join(&mut self, other: &SeatRow) -> u64
        requires { SameShape self.old.matrix other.now.matrix }
        ensures change { self.new ≡ joined_seats self.old other.now }
        ensures risen { result ≡ seat_rises self.old self.new }
        ensures few { result ≤ most_sites * (most_sites + 1) }
        ensures state { IsSeatState self.new }
    {
        let in_matrix = self.rights.join(&other.rights);
        let in_taken = self.taken.join(&other.taken);
        recount(&self.rights, &self.taken, &mut self.cached);
        in_matrix + in_taken
    }

    /// Raises the counters of site `s` to those of a valid row and a taken count, and answers how many rose.
    /// Counters that the given row lacks stay. Linear in the length of the given row: compares counters up to the
    /// first that is above the site's own, and raises from there on.
    pub fn join_row(&mut self, s: u16, given: &[u64], taken: u64) -> u64
        requires site { s < site_count self.old.matrix }
        requires size { length given.now ≤ site_count self.old.matrix }
        requires valid { IsValidSeatRow self.old.matrix s given.now taken }
        ensures change { self.new ≡ joined_seats_at self.old s given.now taken }
        ensures risen { result ≡ seat_rises self.old self.new }
        ensures few { result ≤ most_sites + 1 }
        ensures state { IsSeatState self.new }
    {
        let mut risen = u64::from(self.raise_taken(s, taken));
        let first = first_above(given, self.rights.row(s));
        for j in first as u16..given.len() as u16 {
            risen += u64::from(self.raise_entry(s, j, given[usize::from(j)]) > 0);
        }
        risen
    }

    // Raises the taken count of site `s` to at least `n`, and tells whether it rose.
    fn raise_taken(&mut self, s: u16, n: u64) -> bool
        requires site { s < site_count self.old.matrix }
        requires limit { n ≤ counter_limit }
        ensures change { self.new
            ≡ record self.old { taken = slice_set self.old.taken s (max (taken_at self.old s) n) } }
        ensures risen { rise_count self.old.taken self.new.taken ≡ (if result then 1 else 0) }
        ensures state { IsSeatState self.new }
    {
        let by = n.saturating_sub(self.taken(s));
        let rose = self.taken.raise_to(usize::from(s), n);
        self.cached.lose(s, by);
        rose
    }

    // Raises entry (`s`, `j`) to at least `n`, and answers by how much it rose.
    fn raise_entry(&mut self, s: u16, j: u16, n: u64) -> u64
        requires site { s < site_count self.old.matrix }
        requires to { j < site_count self.old.matrix }
        requires limit { n ≤ start_entry self.old.matrix s j + counter_limit }
        requires returned { s ≡ j → n - grant self.old.matrix s ≤ taken_at self.old s }
        ensures by { result ≡ n - entry self.old.matrix s j }
        ensures change { self.new ≡ after_raise self.old s j result }
        ensures state { IsSeatState self.new }
    {
        let by = self.rights.raise_to(s, j, n);
        if s == j {
            self.cached.gain(s, by);
            return by;
        }
        self.cached.lose(s, by);
        self.cached.gain(j, by);
        by
    }

    // The seats given back at site `i`.
    fn returned(&self, i: u16) -> u64
        requires { i < site_count self.now.matrix }
        ensures value { result ≡ returned_at self.now i }
        ensures below { result ≤ taken_at self.now i }
    {
        self.rights.get(i, i) - self.grant(i)
    }

    // Why seats are not taken, if they are not.
    fn fault(&self, i: u16, w: u64) -> Option<SeatError>
        requires site { i < site_count self.now.matrix }
        requires enough { HasSeatRights self.now i }
        ensures { result ≡ take_fault self.now i w }
    {
        if !self.taken.has_room(usize::from(i), w, COUNTER_LIMIT) {
            return Some(SeatError::CounterFull);
        }
        let rights = self.rights(i);
        if rights < w {
            return Some(SeatError::NoSeat { rights });
        }
        None
    }
}

// The place of the first counter that is above the one at its place, or the length of `given` where none is.
fn first_above(given: &[u64], row: &[u64]) -> usize
    requires { length given.now ≤ length row.now }
    ensures place { result ≤ length given.now }
    ensures before { (k : ℕ) → k < result → slice_index given.now k ≤ slice_index row.now k }
    ensures above { result < length given.now → slice_index row.now result < slice_index given.now result }
{
    for i in 0..given.len() {
        if given[i] > row[i] {
            return i;
        }
    }
    given.len()
}

// Adds up the number of each site anew. Linear in the number of counters.
fn recount(rights: &Rights, taken: &Counts, cached: &mut Balances)
    requires counts { length taken.now ≡ site_count rights.now }
    requires numbers { length cached.old ≡ site_count rights.now }
    requires limit { (i : ℕ) → i < site_count rights.now → slice_index taken.now i ≤ counter_limit }
    ensures { TellsRights (record { matrix = rights.now; taken = taken.now }) cached.new }
{
    for i in 0..rights.sites() {
        cached.set(i, rights.balance(i) - taken.get(usize::from(i)) as i64);
    }
}
