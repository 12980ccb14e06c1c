//! A site's durable part as the rows of its store: what a content stands for, and which rows a change puts.
#![tactic(auto)]

pub use durable::durable_of;
pub use index::Index;
pub use laws::{change_law, misplaced_law};
pub use rows::Rows;

mod cells;
mod checks;
mod durable;
mod index;
mod laws;
mod rows;
