//! Small parts of canonical texts, read off the front and written onto the end: literals, numbers in decimal
//! digits, and lists with commas between their elements. Each reader takes exactly what its writer writes.
#![tactic(auto)]

pub use lists::{Element, joined_at};
pub use literals::{after, behind_comma};
pub use numbers::{Number, number_at, short_at};
pub use same::is_same;
pub use unread::Unread;
pub use written::{Written, push_field, push_joined};

pub mod laws;
mod lists;
mod literals;
mod numbers;
mod same;
mod unread;
mod written;
