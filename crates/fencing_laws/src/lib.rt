//! Numbers by which a resource tells an earlier session from a later one, and that no reached world is stuck: laws
//! of the world of several sites.
#![tactic(auto)]

pub use number::fence_number;

pub mod laws;
mod number;
