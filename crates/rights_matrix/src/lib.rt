//! The rights matrix of a bounded counter: what each site gained and what it sent to the others.
#![tactic(auto)]

pub use faults::TransferError;
pub use rights::{MOST_SITES, Rights};

mod faults;
mod grid;
mod rights;
