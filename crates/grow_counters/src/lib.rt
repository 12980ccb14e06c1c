//! A fixed number of counters that grow, and the join of two such lists.
#![tactic(auto)]

pub use counts::{COUNTER_LIMIT, CounterError, Counts};

mod counts;
