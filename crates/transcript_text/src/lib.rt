//! Transcripts as text: the lines that a site's runs are written as.
#![tactic(auto)]

pub use asks::{push_call, push_record};
pub use entries::push_entry;
pub use openings::{push_front, push_sites};
pub use told::{book_told, layout_of_run};
pub use writing::{may_be_written, transcript_text};

mod asks;
mod entries;
mod openings;
mod quoted;
mod sessions;
mod told;
mod writing;
