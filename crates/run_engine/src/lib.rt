//! The engine of `run`: a script is carried out at sites that work at the same time, each behind its own lock, with links
//! between all of them; and their closed logs are judged.
#![tactic(auto)]

pub use engine::run_engine;
pub use script::{Asked, LineError, MOST_LINES, ScriptError, read_script};

mod callers;
mod engine;
mod joins;
mod links;
mod logs;
mod pairs;
mod replies;
mod script;
mod site_threads;
mod sites;
mod tasks;
