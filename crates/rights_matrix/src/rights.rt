ghost use Rattle.std.specs.Prelude.{◌≡◌, ◌≢◌, ℕ, ◌+◌, ◌-◌, ◌*◌, ◌^◌, ◌<◌, ◌≤◌, pos, ◌-ℤ◌, [], length, sum, sum_by, slice_index, slice_index_or, None, Some, IfOk, OnOk, MatchResult};
ghost use Rattle.rights_matrix.specs.Changes.{MovesRights, MakesRights, SameRightsAt};
ghost use Rattle.rights_matrix.specs.Joined.{joined, joined_at, rise_counts};
ghost use Rattle.rights_matrix.specs.Kept.{kept_entry, kept_counter};
ghost use Rattle.rights_matrix.specs.Matrix.{MatrixState, matrix_of, site_count, most_sites, grant, row_of, entry, start_entry, start_matrix, gained, given, rights_of, HasRights, IsValidRow, IsMatrix, SameShape, raised};
ghost use Rattle.rights_matrix.specs.Transfer.{refusal_of, transfer_fault};
ghost use Rattle.grow_counters.specs.Counts.{counter_limit};

use crate::faults::TransferError;
use crate::grid::Grid;
use grow_counters::{COUNTER_LIMIT, Counts};
use std::alloc::{AllocError, Global};
use std::marker::Model;

/// The greatest number of sites of a record.
pub const MOST_SITES: u16 = 16;

/// The rights of 1 to 16 sites to the seats of one record: a bounded counter without its decrements
/// (Balegas et al., 2015), which callers keep and pass in as `taken`.
#[derive(Debug, Drop)]
pub struct Rights {
    home: u16,
    seats: u32,
    cells: Grid,
}

// Contracts see home, seats and the rows as lists.
impl Model for Rights {
    ghost Value = { MatrixState };

    ghost view = { λ r. matrix_of r.home r.seats r.cells };

    ghost invariant = { λ r. IsMatrix (matrix_of r.home r.seats r.cells) };
}

impl Rights {
    /// The matrix of `n` sites at the start, when all `seats` are at `home`.
    pub fn new(alloc: Global, n: u16, home: u16, seats: u32) -> Result<Rights, AllocError>
        requires few { n ≤ most_sites }
        requires home { home < n }
        ensures start { IfOk result (λ m. m ≡ start_matrix n home seats) }
        ensures matrix { IfOk result (λ m. IsMatrix m) }
    {
        let mut cells = Grid::new(alloc, n)?;
        cells.add(home, home, u64::from(seats));
        Ok(Rights { home, seats, cells })
    }

    /// The number of sites, 1 to 16.
    pub fn sites(&self) -> u16
        ensures count { result ≡ site_count self.now }
        ensures matrix { IsMatrix self.now }
    {
        self.cells.side()
    }

    /// The site that all seats were granted to.
    pub fn home(&self) -> u16
        ensures { result ≡ self.now.home }
    {
        self.home
    }

    /// The number of seats.
    pub fn seats(&self) -> u32
        ensures { result ≡ self.now.seats }
    {
        self.seats
    }

    /// What site `i` was granted at the start.
    pub fn grant(&self, i: u16) -> u64
        ensures { result ≡ grant self.now i }
    {
        if i == self.home {
            u64::from(self.seats)
        } else {
            0
        }
    }

    /// Entry (`i`, `j`): the increments made at `i` where both are one site, else the rights sent from `i`
    /// to `j`.
    pub fn get(&self, i: u16, j: u16) -> u64
        requires from { i < site_count self.now }
        requires to { j < site_count self.now }
        ensures { result ≡ entry self.now i j }
    {
        self.cells.get(i, j)
    }

    /// The row of site `i`.
    pub fn row(&self, i: u16) -> &[u64]
        requires { i < site_count self.now }
        ensures { result.now ≡ row_of self.now i }
    {
        self.cells.row(i)
    }

    /// The rights of site `i`, which has taken `taken` at `i`. Linear in the number of sites.
    pub fn rights(&self, i: u16, taken: &Counts) -> u64
        requires site { i < site_count self.now }
        requires size { length taken.now ≡ site_count self.now }
        requires enough { HasRights self.now i (slice_index taken.now i) }
        ensures { result ≡ rights_of self.now i (slice_index taken.now i) }
    {
        self.gained(i) - self.given(i) - taken.get(usize::from(i))
    }

    /// What site `i` ever got less what it ever sent, which is below 0 where not all that was sent to it is
    /// known here. Linear in the number of sites.
    pub fn balance(&self, i: u16) -> i64
        requires { i < site_count self.now }
        ensures { result ≡ pos (gained self.now i) -ℤ pos (given self.now i) }
    {
        self.gained(i) as i64 - self.given(i) as i64
    }

    /// Raises each counter to the other copy's, and answers how many rose. Linear in the number of counters.
    pub fn join(&mut self, other: &Rights) -> u64
        requires { SameShape self.old other.now }
        ensures state { self.new ≡ joined self.old other.now }
        ensures risen { result ≡ rise_counts self.old.rows self.new.rows }
        ensures few { result ≤ most_sites * most_sites }
        ensures matrix { IsMatrix self.new }
    {
        self.cells.join(&other.cells)
    }

    /// Raises the counters of row `s` to those of a valid row, and answers how many rose. Counters that the
    /// given row lacks stay. Linear in the length of the given row.
    pub fn join_row(&mut self, s: u16, given: &[u64]) -> u64
        requires site { s < site_count self.old }
        requires size { length given.now ≤ site_count self.old }
        requires valid { IsValidRow self.old s given.now }
        ensures state { self.new ≡ joined_at self.old s given.now }
        ensures risen { result ≡ rise_counts self.old.rows self.new.rows }
        ensures few { result ≤ most_sites }
        ensures matrix { IsMatrix self.new }
    {
        prove!(given.len() <= usize::from(self.sites()));
        let mut risen = 0;
        for j in 0..given.len() {
            risen += u64::from(self.raise_to(s, j as u16, given[j]) > 0);
        }
        risen
    }

    /// Raises entry (`i`, `j`) to at least `n`, and answers by how much it rose.
    pub fn raise_to(&mut self, i: u16, j: u16, n: u64) -> u64
        requires from { i < site_count self.old }
        requires to { j < site_count self.old }
        requires limit { n ≤ start_entry self.old i j + counter_limit }
        ensures by { result ≡ n - entry self.old i j }
        ensures state { self.new ≡ raised self.old i j result }
        ensures makes { i ≡ j → MakesRights self.old self.new i result }
        ensures moves { i ≢ j → MovesRights self.old self.new i j result }
        ensures matrix { IsMatrix self.new }
    {
        let by = n.saturating_sub(self.get(i, j));
        self.cells.add(i, j, by);
        by
    }

    /// Sends `n` rights from site `i` to site `j`; `taken` is as for [`Rights::rights`]. Refused in this
    /// order: one site, no rights, a counter past its limit, fewer rights than `n`. Linear in the number of
    /// sites.
    pub fn transfer(&mut self, i: u16, j: u16, n: u64, taken: &Counts) -> Result<(), TransferError>
        requires from { i < site_count self.old }
        requires to { j < site_count self.old }
        requires size { length taken.now ≡ site_count self.old }
        requires enough { HasRights self.old i (slice_index taken.now i) }
        ensures answer { let fault = transfer_fault self.old i j n (slice_index taken.now i) in
            MatchResult result (λ _. fault ≡ None) (λ e. fault ≡ Some e) }
        ensures state { MatchResult result
            (λ _. self.new ≡ raised self.old i j n)
            (λ _. self.new ≡ self.old) }
        ensures rights { OnOk result (MovesRights self.old self.new i j n) }
        ensures enough { HasRights self.new i (slice_index taken.now i) }
        ensures matrix { IsMatrix self.new }
    {
        let rights = self.rights(i, taken);
        self.transfer_from(i, j, n, rights)
    }

    /// Sends `n` rights from site `i`, which has these `rights`, to site `j`, or refuses as
    /// [`Rights::transfer`] does, and adds nothing up.
    pub fn transfer_from(
        &mut self,
        i: u16,
        j: u16,
        n: u64,
        rights: u64,
    ) -> Result<(), TransferError>
        requires from { i < site_count self.old }
        requires to { j < site_count self.old }
        ensures answer { let fault = refusal_of self.old i j n rights in
            MatchResult result (λ _. fault ≡ None) (λ e. fault ≡ Some e) }
        ensures state { MatchResult result
            (λ _. self.new ≡ raised self.old i j n)
            (λ _. self.new ≡ self.old) }
        ensures rights { OnOk result (MovesRights self.old self.new i j n) }
        ensures matrix { IsMatrix self.new }
    {
        if let Some(fault) = self.refusal(i, j, n, rights) {
            return Err(fault);
        }
        self.cells.add(i, j, n);
        Ok(())
    }

    /// Counts `n` increments at site `i`: rights that were taken there and come back.
    pub fn give_back(&mut self, i: u16, n: u64)
        requires site { i < site_count self.old }
        requires room { entry self.old i i - grant self.old i + n ≤ counter_limit }
        ensures state { self.new ≡ raised self.old i i n }
        ensures rights { MakesRights self.old self.new i n }
        ensures matrix { IsMatrix self.new }
    {
        self.cells.add(i, i, n);
    }

    /// Forgets what was heard of other sites, for a restart of `site`: sets every entry outside its row and
    /// column back to the start. Linear in the number of counters.
    pub fn keep(&mut self, site: u16)
        requires { site < site_count self.old }
        ensures shape { SameShape self.old self.new }
        ensures entries { (i j : ℕ) → entry self.new i j ≡ kept_entry self.old site i j }
        ensures rights { SameRightsAt self.old self.new site }
        ensures matrix { IsMatrix self.new }
    {
        keep_rows(&mut self.cells, site, self.home, self.seats);
    }

    // All rights that site `i` ever got.
    fn gained(&self, i: u16) -> u64
        requires { i < site_count self.now }
        ensures sum { result ≡ gained self.now i }
        ensures small { result ≤ most_sites * (2 * counter_limit) }
    {
        column_sum(&self.cells, i)
    }

    // All rights that site `i` ever sent.
    fn given(&self, i: u16) -> u64
        requires { i < site_count self.now }
        ensures sum { result ≡ given self.now i }
        ensures small { result ≤ most_sites * (2 * counter_limit) }
    {
        row_sum(self.cells.row(i)) - self.cells.get(i, i)
    }

    // Why a transfer is refused, if it is, where site `i` has these rights.
    fn refusal(&self, i: u16, j: u16, n: u64, rights: u64) -> Option<TransferError>
        requires from { i < site_count self.now }
        requires to { j < site_count self.now }
        ensures { result ≡ refusal_of self.now i j n rights }
    {
        if i == j {
            return Some(TransferError::ToSelf);
        }
        if n == 0 {
            return Some(TransferError::ZeroSeats);
        }
        if !self.cells.has_room(i, j, n, COUNTER_LIMIT) {
            return Some(TransferError::CounterFull);
        }
        if rights < n {
            return Some(TransferError::TooFewRights { rights });
        }
        None
    }
}

// Column `i`, summed.
fn column_sum(cells: &Grid, i: u16) -> u64
    requires few { length cells.now ≤ most_sites }
    requires column { i < length cells.now }
    requires small { (k : ℕ) → k < length cells.now →
        slice_index (slice_index_or cells.now k []) i ≤ 2 * counter_limit }
    ensures sum { result ≡ sum_by (λ row. slice_index row i) cells.now }
    ensures small { result ≤ most_sites * (2 * counter_limit) }
{
    let mut all = 0;
    for k in 0..cells.side() {
        all += cells.get(k, i);
    }
    all
}

// A row, summed.
fn row_sum(row: &[u64]) -> u64
    requires { sum row.now < 2 ^ 64 }
    ensures { result ≡ sum row.now }
{
    row.iter().sum()
}

// Sets every entry outside row and column `site` back to the start.
fn keep_rows(cells: &mut Grid, site: u16, home: u16, seats: u32)
    requires site { site < length cells.old }
    requires matrix { IsMatrix (matrix_of home seats cells.old) }
    ensures size { length cells.new ≡ length cells.old }
    ensures widths { (k : ℕ) →
        length (slice_index_or cells.new k []) ≡ length (slice_index_or cells.old k []) }
    ensures entries { let old = matrix_of home seats cells.old in
        (i j : ℕ) → slice_index (slice_index_or cells.new i []) j ≡ kept_entry old site i j }
{
    for i in 0..cells.side() {
        keep_row(cells, i, site, if i == home { seats } else { 0 });
    }
}

// Sets the entries of row `i` that are not in column `site` back to the start, where `start` is the row's own
// entry; leaves the row of the site itself.
fn keep_row(cells: &mut Grid, i: u16, site: u16, start: u32)
    requires row { i < length cells.old }
    requires column { site < length cells.old }
    requires width { length (slice_index_or cells.old i []) ≡ length cells.old }
    ensures size { length cells.new ≡ length cells.old }
    ensures width { length (slice_index_or cells.new i []) ≡ length (slice_index_or cells.old i []) }
    ensures counters { (j : ℕ) → slice_index (slice_index_or cells.new i []) j
        ≡ kept_counter (slice_index_or cells.old i []) i site start j }
    ensures others { (k : ℕ) → k ≢ i → slice_index_or cells.new k [] ≡ slice_index_or cells.old k [] }
{
    if i == site {
        return;
    }
    cells.keep_one(i, site);
    cells.add(i, i, u64::from(start));
}
