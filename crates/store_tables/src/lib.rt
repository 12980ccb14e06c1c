//! A site's store in an SQLite database: the transactions that change it, and what it holds.
#![tactic(auto)]

pub use store_rows::{
    Content, SessionEdit, Stage, StoredCell, StoredNotice, StoredSession, Version,
};

mod commits;
mod error;
mod filling;
mod keeping;
mod making;
mod marking;
mod moving;
mod reads;
pub mod restart;
mod rounds;
mod tables;

pub use commits::check_connection;
pub use error::TableError;
pub use tables::Tables;
