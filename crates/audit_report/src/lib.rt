//! Reports on a world of sites: what each site counts for itself, and who is there.
#![tactic(auto)]

pub use tables::{seat_table, session_table};

pub mod laws;
mod lines;
mod rows;
mod sessions;
mod tables;
