//! Scripts of several sites: each line says an event of a world, and is answered by a line.
#![tactic(auto)]

pub use events::event_in;
pub use playing::{Played, play};
pub use replies::push_reply_line;

mod events;
pub mod laws;
mod playing;
mod replies;
