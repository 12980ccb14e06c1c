ghost use Rattle.std.specs.Prelude.{◌≡◌, ◌^◌, ◌<◌, pos, neg_ℤ, ◌+ℤ◌, ◌-ℤ◌, ◌≤ℤ◌, ℤ, List, length, slice_index_or, slice_set, IfOk};

use std::alloc::{AllocError, Global};
use std::marker::Model;

/// A signed number for each site, which rises and falls.
#[derive(Debug, Drop)]
pub struct Balances {
    numbers: Vec<i64>,
}

// Contracts see the list of the numbers.
impl Model for Balances {
    ghost Value = { List ℤ };

    ghost view = { λ b. b.numbers.items };
}

impl Balances {
    /// `n` numbers at 0.
    pub fn new(alloc: Global, n: usize) -> Result<Balances, AllocError>
        ensures { IfOk result (λ b. length b ≡ n) }
    {
        let numbers = vec![in alloc; 0; n]?;
        Ok(Balances { numbers })
    }

    /// The number of site `i`.
    pub fn get(&self, i: u16) -> i64
        requires { i < length self.now }
        ensures { result ≡ slice_index_or self.now i (pos 0) }
    {
        self.numbers[usize::from(i)]
    }

    /// Puts `number` in the place of site `i`'s.
    pub fn set(&mut self, i: u16, number: i64)
        requires { i < length self.old }
        ensures { self.new ≡ slice_set self.old i number }
    {
        self.numbers[usize::from(i)] = number;
    }

    /// Adds `n` to the number of site `i`, whose caller shows the room.
    pub fn gain(&mut self, i: u16, n: u64)
        requires place { i < length self.old }
        requires small { n < 2 ^ 63 }
        requires room { (slice_index_or self.old i (pos 0) +ℤ pos n) ≤ℤ pos 9223372036854775807 }
        ensures { self.new ≡ slice_set self.old i (slice_index_or self.old i (pos 0) +ℤ pos n) }
    {
        self.set(i, self.get(i) + n as i64);
    }

    /// Takes `n` from the number of site `i`, whose caller shows the room.
    pub fn lose(&mut self, i: u16, n: u64)
        requires place { i < length self.old }
        requires small { n < 2 ^ 63 }
        requires room { neg_ℤ (pos 9223372036854775807) ≤ℤ (slice_index_or self.old i (pos 0) -ℤ pos n) }
        ensures { self.new ≡ slice_set self.old i (slice_index_or self.old i (pos 0) -ℤ pos n) }
    {
        self.set(i, self.get(i) - n as i64);
    }
}
