//! Transcripts from their text: the runs of all sites, read off lines.
#![tactic(auto)]

pub use lines::{Line, line_in};
pub use openings::Opening;
pub use reading::{ReadError, read_transcripts};
pub use runs::SiteRun;
pub use shown::shows_snapshot;

mod asks;
mod deltas;
mod entries;
pub mod laws;
mod lines;
mod numbers;
mod openings;
mod quoted;
mod reading;
mod replies;
mod runs;
mod sessions;
mod shown;
mod told;
mod words;
