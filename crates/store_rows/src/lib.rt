//! What a site's store holds, row by row, and the statements that change it.
#![tactic(auto)]

pub use content::{Content, SessionEdit, Stage, StoredCell, StoredNotice, StoredSession};
pub use store_schema::Version;

mod content;
pub mod writes;
