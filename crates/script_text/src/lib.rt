//! What the lines of a script ask of a site, and the texts of its replies.
#![tactic(auto)]

pub use asks::{ask_behind, ask_in};
pub use replies::{phase_name, push_refusal, push_reply, push_unread_line, refusal_name};
pub use words::{cut_word, number_word, record_word, short_word};

mod asks;
pub mod laws;
mod replies;
mod words;
