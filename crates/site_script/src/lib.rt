//! The script of one site: each line is a call that its desk serves, and is answered by a line.
#![tactic(auto)]

pub use lines::{Said, said_by_text, said_in};
pub use serving::{Served, push_no_delta_line, serve_script};

pub mod laws;
mod lines;
mod serving;
