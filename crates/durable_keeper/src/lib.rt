//! What keeps a site's durable part, whatever it is written to: the trait, what is kept after a change, and a keeper in
//! memory.
#![tactic(auto)]

pub use cells::put_cells;
pub use error::KeeperError;
pub use keeper::Keeper;
pub use memory::MemoryKeeper;

mod cells;
mod error;
mod keeper;
mod memory;
