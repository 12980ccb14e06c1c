ghost use Rattle.std.specs.Prelude.{◌≡◌, ℕ, ◌+◌, ◌^◌, ◌<◌, ◌≤◌, ◌↔◌, ◌==◌, max, List, length, replicate, slice_index, slice_set, All, if◌then◌else◌, IsTrue, IfOk, MatchResult};
ghost use Rattle.grow_counters.specs.Counts.{maxima, rise_count, kept_count, IsWithin, IsLeastAbove};

use std::alloc::{AllocError, Global};
use std::marker::Model;
use thiserror::Error;

/// The greatest value of a record's counter, where no rule names another.
pub const COUNTER_LIMIT: u64 = 1_000_000_000_000;

/// Why a counter was not raised.
#[derive(Clone, Copy, Debug, PartialEq, Eq, Error)]
pub enum CounterError {
    /// The sum would pass the limit that the caller named.
    #[error("the counter would pass its limit")]
    CounterFull,
}

/// A fixed number of counters. They only grow, [`Counts::reset`] aside, and merge place by place to the
/// greater one: the state of a grow-only counter (Shapiro et al., 2011).
#[derive(Debug, Drop)]
pub struct Counts {
    counters: Vec<u64>,
}

// Contracts see the list of the counters.
impl Model for Counts {
    ghost Value = { List ℕ };

    ghost view = { λ c. c.counters.items };
}

impl Counts {
    /// `n` counters at 0.
    pub fn new(alloc: Global, n: usize) -> Result<Counts, AllocError>
        ensures zeros { IfOk result (λ counts. counts ≡ replicate n 0) }
    {
        let counters = vec![in alloc; 0; n]?;
        Ok(Counts { counters })
    }

    /// The counters of a list, in its order. Takes no memory.
    pub fn from_vec(counters: Vec<u64>) -> Counts
        ensures { result ≡ counters.items }
    {
        Counts { counters }
    }

    /// The list of the counters, given back. Takes no memory.
    pub fn into_vec(self) -> Vec<u64>
        ensures { result.items ≡ self }
    {
        let Counts { counters } = self;
        counters
    }

    /// The counters as a slice.
    pub fn as_slice(&self) -> &[u64]
        ensures counters { result.now ≡ self.now }
        ensures fits { All (λ n. n < 2 ^ 64) self.now }
    {
        let counters = self.counters.as_slice();
        counters
    }

    /// The number of counters.
    pub fn len(&self) -> usize
        ensures { result ≡ length self.now }
    {
        self.counters.len()
    }

    /// Whether there is no counter.
    pub fn is_empty(&self) -> bool
        ensures { IsTrue result ↔ (length self.now ≡ 0) }
    {
        self.counters.is_empty()
    }

    /// The counter at `i`.
    pub fn get(&self, i: usize) -> u64
        requires { i < length self.now }
        ensures { result ≡ slice_index self.now i }
    {
        self.as_slice()[i]
    }

    /// Whether no counter is greater than the other's, where a counter that is not there counts as 0.
    /// Linear in the number of counters.
    pub fn within(&self, other: &Counts) -> bool
        ensures { IsTrue result ↔ IsWithin self.now other.now }
    {
        for i in 0..self.counters.len() {
            if self.counters[i] > value_or_zero(other.counters.as_slice(), i) {
                return false;
            }
        }
        true
    }

    /// Whether the counter at `i` may grow by `by` and is then at most `most`. The sum need not fit 64 bits.
    pub fn has_room(&self, i: usize, by: u64, most: u64) -> bool
        requires { i < length self.now }
        ensures { IsTrue result ↔ (slice_index self.now i + by ≤ most) }
    {
        by <= most && self.get(i) <= most - by
    }

    /// Adds `by` to the counter at `i`, unless the sum would pass `most`.
    pub fn raise(&mut self, i: usize, by: u64, most: u64) -> Result<(), CounterError>
        requires { i < length self.old }
        ensures answer { MatchResult result
            (λ _. slice_index self.old i + by ≤ most)
            (λ e. most < slice_index self.old i + by) }
        ensures counters { MatchResult result
            (λ _. self.new ≡ slice_set self.old i (slice_index self.old i + by))
            (λ _. self.new ≡ self.old) }
    {
        if !self.has_room(i, by, most) {
            return Err(CounterError::CounterFull);
        }
        self.add(i, by);
        Ok(())
    }

    /// Adds `by` to the counter at `i`, whose caller shows the room.
    pub fn add(&mut self, i: usize, by: u64)
        requires place { i < length self.old }
        requires room { slice_index self.old i + by < 2 ^ 64 }
        ensures { self.new ≡ slice_set self.old i (slice_index self.old i + by) }
    {
        self.counters[i] += by;
    }

    /// Raises the counter at `i` to at least `n`, and tells whether it rose.
    pub fn raise_to(&mut self, i: usize, n: u64) -> bool
        requires { i < length self.old }
        ensures counters { self.new ≡ slice_set self.old i (max (slice_index self.old i) n) }
        ensures rose { IsTrue result ↔ (slice_index self.old i < n) }
        ensures risen { rise_count self.old self.new ≡ (if result then 1 else 0) }
    {
        if n <= self.counters[i] {
            return false;
        }
        self.counters[i] = n;
        true
    }

    /// Lowers the counter at `i` to this value: for a restart alone, which forgets what was heard.
    pub fn reset(&mut self, i: usize, value: u64)
        requires place { i < length self.old }
        requires lower { value ≤ slice_index self.old i }
        ensures { self.new ≡ slice_set self.old i value }
    {
        self.counters[i] = value;
    }

    /// Sets the counters at `from` and after it, up to `until`, back to 0, but leaves the one at `kept`: for a
    /// restart alone, as [`Counts::reset`]. Linear in the number of counters between.
    pub fn keep_one(&mut self, from: usize, until: usize, kept: usize)
        requires { until ≤ length self.old }
        ensures size { length self.new ≡ length self.old }
        ensures counters { (k : ℕ) → slice_index self.new k ≡ kept_count self.old from until kept k }
    {
        for i in from..until {
            self.drop_unless(i, kept);
        }
    }

    /// Raises each counter to the other's, and answers how many rose. Linear in the number of counters.
    pub fn join(&mut self, other: &Counts) -> u64
        requires { length other.now ≤ length self.old }
        ensures counters { self.new ≡ maxima self.old other.now }
        ensures least { IsLeastAbove self.old other.now self.new }
        ensures risen { result ≡ rise_count self.old self.new }
    {
        self.join_slice(other.counters.as_slice())
    }

    /// Raises each counter to the one at its place in `other`, which may be shorter, and answers how many
    /// rose. Linear in the length of `other`.
    pub fn join_slice(&mut self, other: &[u64]) -> u64
        requires { length other.now ≤ length self.old }
        ensures counters { self.new ≡ maxima self.old other.now }
        ensures least { IsLeastAbove self.old other.now self.new }
        ensures risen { result ≡ rise_count self.old self.new }
    {
        let mut risen = 0;
        for i in 0..other.len() {
            risen += u64::from(self.raise_to(i, other[i]));
        }
        risen
    }

    // Sets the counter at `i` back to 0 unless it is the one at `kept`.
    fn drop_unless(&mut self, i: usize, kept: usize)
        requires { i < length self.old }
        ensures { self.new ≡ slice_set self.old i (if i == kept then slice_index self.old i else 0) }
    {
        if i != kept {
            self.reset(i, 0);
        }
    }
}

// The number at `i`, or 0 past the end.
fn value_or_zero(numbers: &[u64], i: usize) -> u64
    ensures { result ≡ slice_index numbers.now i }
{
    if i < numbers.len() { numbers[i] } else { 0 }
}
