//! One site over its store in a database: the store is opened, the engine of `site` ends over it, and the database is
//! handed back; and sites over the databases at paths, by a runtime that has some.
#![tactic(auto)]

pub use databases::{Databases, serve_stored};
pub use serving::serve_over;

mod databases;
mod serving;
