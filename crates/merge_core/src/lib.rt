//! The replicated book of all records: layouts, deltas, and a book whose join is the union of what was named.
#![tactic(auto)]

pub use book::{Book, LentRow};
pub use cell::Cell;
pub use check::CheckError;
pub use delta::{Delta, DeltaError, Row};
pub use layout::{
    Layout, LayoutError, MOST_NAME_BYTES, MOST_RECORDS, MOST_SEATS, MOST_SITES, RecordName,
    RecordSpec, are_name_bytes, is_named, is_record_name,
};

mod book;
mod cell;
mod check;
mod delta;
pub mod laws;
mod layout;
mod record;
