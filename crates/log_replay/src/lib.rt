//! The closed log of one site, replayed from its start: whether it is legal, or its first fault, and what the site itself had
//! done at a cut.
#![tactic(auto)]

pub use own::OwnRows;
pub use replay::{Flags, History, Replayed, replay_runs};
pub use stream::{LogFault, SiteReplay, Stage};

mod done;
mod entries;
mod joint;
mod own;
mod replay;
mod stream;
