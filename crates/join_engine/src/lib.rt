//! The engine of `join`: the delta texts of an input are joined as they come, and the text of the joined book is
//! written.
#![tactic(auto)]

pub use engine::join_engine;
pub use fault::LineFault;

mod engine;
mod fault;
mod joining;
pub mod laws;
mod lines;
