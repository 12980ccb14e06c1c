//! The service of one site, over any keeper, conversation and log: each line is answered before another one is waited for, or
//! the lines that have come are committed together and then answered.
#![tactic(auto)]

pub use digests::digest_digits;
pub use engine::{LINE_LIMIT, line_limit, serve_engine};
pub use marks::{MarkFault, Marking};
pub use moved_texts::{TextFault, TextStop, moved_text, read_delta};
pub use request::Request;
pub use rounds::serve_together;
pub use showing::push_counts;

mod answering;
mod checksums;
mod digests;
mod engine;
mod fencing;
mod filling;
pub mod laws;
mod listing;
mod marks;
mod moved_texts;
mod request;
mod round;
mod rounds;
mod sending;
mod showing;
mod taking;
mod turns;
mod wrong_words;
