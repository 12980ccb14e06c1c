//! A site that lost its store, built again from a delta of each other site.
#![tactic(auto)]

pub use rebuilding::{RebuildError, rebuilt_core};

mod acting;
mod cells;
pub mod laws;
mod rebuilding;
mod settling;
