//! What whoever keeps the site of a service promises where changes of several calls are kept together, and a keeper whose
//! changes wait for that.
#![tactic(auto)]

pub use keeper::{RoundKeeper, are_empty};
pub use staged::{Base, Staged};

mod keeper;
mod memory;
mod staged;
