//! Two sites linked both ways by links that keep their order: what arrives is a prefix of what was sent, and is handed to the
//! site in that order.
#![tactic(auto)]

pub use pair::{PairError, PairReport, RuledEnd, run_ruled_pair};

mod inlet;
mod outlet;
mod pair;
