//! The program, over any runtime: its arguments are read, the layout is found, the command is carried out, and its end
//! is told.
#![tactic(auto)]

pub use laws::one_answer_is_noted;
pub use noted::Noted;
pub use one_line::OneLine;
pub use shell::{run, run_with};

mod closed_logs;
mod group;
mod laws;
mod logs_file;
mod moves;
mod noted;
mod one_line;
mod refused_layout;
mod service;
mod shell;
mod standard_error;
mod together;
