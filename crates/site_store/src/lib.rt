//! A site's durable part in a database: the keeper over it, how it is opened, and how it is found again.
#![tactic(auto)]

pub use durable_keeper::{Keeper, KeeperError, MemoryKeeper};
pub use error::{ServedError, StoreOpenError};
pub use groups::is_ungrouped;
pub use laws::{grown_law, own_law};
pub use new_store::make_store;
pub use round_keeper::RoundKeeper;
pub use served::Permission;
pub use sql::SqlKeeper;

mod error;
mod groups;
mod laws;
mod new_store;
mod opening;
pub mod restart;
mod rounds;
mod served;
mod sql;
