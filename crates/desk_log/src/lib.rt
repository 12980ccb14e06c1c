//! The desk of a site: each call is answered, kept and logged as one step, and the log tells the whole history of an
//! opening.
#![tactic(auto)]

pub use desk::Desk;
pub use entry::{Entries, Entry};
pub use error::OpenError;
pub use step::commit_if_changed;
pub use transcript::{AppendError, Run, Runs, Transcript};

mod desk;
mod entry;
mod error;
pub mod laws;
mod log;
pub mod same;
mod step;
mod transcript;
