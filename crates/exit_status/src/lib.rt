//! How the program ends: its exit status, and what it then says on standard error.
#![tactic(auto)]

pub use status::Status;
pub use store_refusal::StoreRefusal;
pub use unread::write_too_long;

mod status;
mod store_refusal;
mod unread;
