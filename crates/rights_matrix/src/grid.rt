ghost use Rattle.std.specs.Prelude.{◌≡◌, ◌≢◌, ℕ, ◌+◌, ◌*◌, ◌^◌, ◌<◌, ◌≤◌, ◌↔◌, ◌==◌, List, [], All, length, replicate, slice_index, slice_index_or, slice_set, if◌then◌else◌, IsTrue, IfOk};
ghost use Rattle.rights_matrix.specs.Grid.{rows_of};
ghost use Rattle.rights_matrix.specs.Joined.{joined_rows, rise_counts};
ghost use Rattle.rights_matrix.specs.Matrix.{most_sites};

use grow_counters::Counts;
use std::alloc::{AllocError, Global};
use std::marker::Model;

/// A square of counters, row after row in one list.
#[derive(Debug, Drop)]
pub struct Grid {
    side: u16,
    cells: Counts,
}

// Contracts see the rows as lists.
impl Model for Grid {
    ghost Value = { List (List ℕ) };

    ghost view = { λ g. rows_of g.side g.side g.cells };

    ghost invariant = { λ g. (g.side ≤ most_sites) × (length g.cells ≡ g.side * g.side) };
}

impl Grid {
    /// `side` rows of `side` zeros.
    pub fn new(alloc: Global, side: u16) -> Result<Grid, AllocError>
        requires { side ≤ most_sites }
        ensures { IfOk result (λ g. g ≡ replicate side (replicate {A = ℕ} side 0)) }
    {
        let all = usize::from(side) * usize::from(side);
        let cells = Counts::new(alloc, all)?;
        Ok(Grid { side, cells })
    }

    /// The number of rows and of columns.
    pub fn side(&self) -> u16
        ensures { result ≡ length self.now }
    {
        self.side
    }

    /// Row `i`.
    pub fn row(&self, i: u16) -> &[u64]
        requires { i < length self.now }
        ensures { result.now ≡ slice_index_or self.now i [] }
    {
        let from = place(self.side, i, 0);
        let cells = self.cells.as_slice();
        &cells[from..from + usize::from(self.side)]
    }

    /// The counter of row `i` and column `j`.
    pub fn get(&self, i: u16, j: u16) -> u64
        requires row { i < length self.now }
        requires column { j < length self.now }
        ensures { result ≡ slice_index (slice_index_or self.now i []) j }
    {
        self.cells.get(place(self.side, i, j))
    }

    /// Whether the counter of row `i` and column `j` may grow by `by` and is then at most `most`.
    pub fn has_room(&self, i: u16, j: u16, by: u64, most: u64) -> bool
        requires row { i < length self.now }
        requires column { j < length self.now }
        ensures { IsTrue result ↔ (slice_index (slice_index_or self.now i []) j + by ≤ most) }
    {
        self.cells.has_room(place(self.side, i, j), by, most)
    }

    /// Adds `by` to the counter of row `i` and column `j`, whose caller shows the room.
    pub fn add(&mut self, i: u16, j: u16, by: u64)
        requires row { i < length self.old }
        requires column { j < length self.old }
        requires room { slice_index (slice_index_or self.old i []) j + by < 2 ^ 64 }
        ensures { let row = slice_index_or self.old i [] in
            self.new ≡ slice_set self.old i (slice_set row j (slice_index row j + by)) }
    {
        let at = place(self.side, i, j);
        self.cells.add(at, by);
    }

    /// Raises each counter to the other's, and answers how many rose. Linear in the number of counters.
    pub fn join(&mut self, other: &Grid) -> u64
        requires { length other.now ≡ length self.old }
        ensures rows { self.new ≡ joined_rows self.old other.now }
        ensures risen { result ≡ rise_counts self.old self.new }
        ensures few { result ≤ most_sites * most_sites }
    {
        self.cells.join(&other.cells)
    }

    /// Sets row `i` back to 0, all but the counter of column `kept`. Linear in the length of the row.
    pub fn keep_one(&mut self, i: u16, kept: u16)
        requires row { i < length self.old }
        requires column { kept < length self.old }
        ensures size { length self.new ≡ length self.old }
        ensures width { length (slice_index_or self.new i []) ≡ length (slice_index_or self.old i []) }
        ensures counters { (j : ℕ) → slice_index (slice_index_or self.new i []) j
            ≡ (if j == kept then slice_index (slice_index_or self.old i []) j else 0) }
        ensures others { (k : ℕ) → k ≢ i → slice_index_or self.new k [] ≡ slice_index_or self.old k [] }
    {
        let from = place(self.side, i, 0);
        let at = place(self.side, i, kept);
        self.cells.keep_one(from, from + usize::from(self.side), at);
    }
}

// Where the counter of row `i` and column `j` stands in the list.
fn place(side: u16, i: u16, j: u16) -> usize
    requires few { side ≤ most_sites }
    requires row { i < side }
    requires column { j < side }
    ensures value { result ≡ i * side + j }
    ensures inside { result < side * side }
    ensures row { i * side + side ≤ side * side }
{
    usize::from(i) * usize::from(side) + usize::from(j)
}
