//! Gates that the tests choose.
use exchange_threads::Gate;
use std::alloc::Global;
use std::sync::Arc;
use std::sync::atomic::{AtomicU64, Ordering};
use std::thread;

/// A number that threads share.
pub type Shared = Arc<AtomicU64, Global>;

/// When an outbox may send.
#[derive(Drop)]
pub enum TestGate {
    /// At every turn.
    Always,
    /// At each third turn, from turn 1 on.
    Thirds,
    /// At turns that a seed picks, about half of them.
    Random(u64),
    /// At every turn; at turn 0 it counts itself, waits until so many gates have, and notes whether that came.
    Meets {
        met: Shared,
        all: u64,
        seen: Shared,
    },
    /// At every turn; it counts how often it is asked, and at one turn it waits until another gate was asked so often.
    Follows {
        asked: Shared,
        at: u64,
        other: Shared,
        often: u64,
    },
}

/// Whether the number is reached within so many turns.
pub fn is_reached_soon(met: &AtomicU64, all: u64) -> bool {
    for _ in 0..1_000_000_000u64 {
        if met.load(Ordering::SeqCst) >= all {
            return true;
        }
        thread::yield_now();
    }
    false
}

// The seed behind this one, by a linear congruence modulo 2^31.
fn next_seed(seed: u64) -> u64 {
    (seed % 2_147_483_648 * 1_103_515_245 + 12_345) % 2_147_483_648
}

impl Gate for TestGate {
    // Of the numbers that gates share no contract can say anything.
    ghost answers = { λ _ _ _ _. Unit {0} };

    fn open(&mut self, turn: u64) -> bool {
        match self {
            TestGate::Always => true,
            TestGate::Thirds => turn % 3 == 1,
            TestGate::Random(seed) => {
                *seed = next_seed(*seed);
                *seed / 65_536 % 2 == 0
            }
            TestGate::Meets { met, all, seen } => {
                if turn == 0 {
                    met.fetch_add(1, Ordering::SeqCst);
                    if is_reached_soon(met, *all) {
                        seen.fetch_add(1, Ordering::SeqCst);
                    }
                }
                true
            }
            TestGate::Follows {
                asked,
                at,
                other,
                often,
            } => {
                asked.fetch_add(1, Ordering::SeqCst);
                if turn == *at {
                    let _ = is_reached_soon(other, *often);
                }
                true
            }
        }
    }
}
