//! The sessions of one site, in order of arrival: at most one for each holder at each record.
#![tactic(auto)]

pub use session::{Phase, Session};
pub use sessions::Sessions;

mod session;
mod sessions;
