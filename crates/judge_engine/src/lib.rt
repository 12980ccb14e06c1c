//! The engine of `judge`: the closed logs of all sites are read, from one input or from files, and the verdict on a cut
//! through them is written.
#![tactic(auto)]

pub use cut::{Cut, CutError};
pub use engine::judge_engine;
pub use files::{FilesError, LogFiles, judge_files};
pub use verdict::verdict_line;

mod cut;
mod engine;
mod files;
mod intake;
pub mod laws;
mod reading;
mod verdict;
