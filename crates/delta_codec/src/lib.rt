//! The JSON text of a delta, written and read exactly: a text is read where it is some delta's, and else
//! refused by its first fault.
#![tactic(auto)]

pub use fault::DecodeError;
pub use reading::decode;
pub use rows::{number_behind, numbers_behind, short_behind};
pub use writing::{encode, push_delta};

/// The most bytes of a text that is read. Every delta's text has fewer.
pub const TEXT_LIMIT: usize = 2_097_152;

mod fault;
pub mod laws;
mod reading;
mod rows;
mod writing;
