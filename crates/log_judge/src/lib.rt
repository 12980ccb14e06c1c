//! The judge of closed logs: whether each site's log is legal, and whether a cut through all of them is consistent.
#![tactic(auto)]

pub use cut::{full_cut, is_cut};
pub use judging::{are_of_sites, judge};
pub use keeping::Keeping;
pub use stream::Logs;
pub use table::cut_table;
pub use verdict::Verdict;

mod cut;
mod excess;
mod judging;
mod keeping;
pub mod laws;
mod stream;
mod table;
mod verdict;
mod wanted;
