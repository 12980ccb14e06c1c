//! What the keeper of a site that serves promises besides: a mark that its store is older than what others have seen.
#![tactic(auto)]

pub use keeper::LiveKeeper;

mod keeper;
