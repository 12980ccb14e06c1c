//! The model of one site's admission: what callers may ask, what a site may answer, and the laws of the
//! definitions.
#![tactic(auto)]

pub use ask::{Ask, Call, HOLDER_LIMIT};
pub use durable::DurableCell;
pub use operation::Operation;
pub use reply::{Plan, Refusal, Reply};
pub use session_list::{Phase, Session};

mod ask;
mod durable;
pub mod laws;
mod operation;
mod reply;
