//! The arguments of the program: what they ask for, by clap's rules, and the texts of its help.
#![tactic(auto)]

pub use arguments::{Command, Request, Serving, Words, parse_arguments};

mod arguments;
mod help;
pub mod laws;
mod parser;
