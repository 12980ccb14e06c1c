//! Sites that lost their stores, and begin again with what the others know of them: laws of the world of several sites.
#![tactic(auto)]

pub mod laws;
