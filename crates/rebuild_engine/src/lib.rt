//! A site that lost its store, built again of the lines of an input.
#![tactic(auto)]

pub use lines::{LineFault, LineRefusal, LineStop, read_deltas};
pub use rebuilding::{RebuildStop, Rebuilt, rebuilt_site};
pub use refusals::write_stop;

mod lines;
mod rebuilding;
mod refusals;
mod shown;
