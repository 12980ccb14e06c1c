//! Names of groups of sites, and the numbers of their generations.
#![tactic(auto)]

pub use names::{generation_of, is_group_name, next_name};

pub mod laws;
mod names;
