//! A site behind its lock: callers on any number of threads hold passes, and what they were answered is compared with
//! the log when the site is closed.
#![tactic(auto)]

pub use desk_log::{AppendError, Desk, Entries, Entry, OpenError, Run, Runs, Transcript, same};
pub use error::CloseError;
pub use opening::Opening;
pub use pass::{Pass, Receipt};
pub use site::Site;

mod closing;
mod error;
mod locked;
mod opening;
mod pass;
mod site;
