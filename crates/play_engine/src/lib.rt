//! The engine of `play`: the events of a script are carried out by a world, and its replies are written.
#![tactic(auto)]

pub use scripts::play_engine;

mod scripts;
