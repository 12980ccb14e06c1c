//! For the tests of the crates above: a reader and a writer whose bytes and faults the test chooses, and the layouts and
//! texts of deltas that several of them speak of.
#![tactic(auto)]

pub use streams::{Calls, Giving, Keeping, NEVER};

mod streams;
pub mod texts;
