//! A site at work that keeps no log of its own: each call is answered, handed to a log where there is one, kept, and only
//! then carried out.
#![tactic(auto)]

pub use call_log::{CallLog, LogFault, NoLog};
pub use live_site::{LiveSite, Outcome};
pub use place::{NoPlace, StorePlace};

mod call_log;
pub mod laws;
mod live_site;
mod overfull;
mod place;
mod rounds;
mod step;
