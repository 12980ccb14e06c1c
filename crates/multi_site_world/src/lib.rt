//! Several sites that tell each other what they did: the events of a world, the world that runs them, and the
//! laws of its definitions.
#![tactic(auto)]

pub use event::{Event, WorldReply};
pub use growth::GrowthError;
pub use world::{World, run_grown, run_world};

mod event;
mod growth;
pub mod laws;
mod world;
