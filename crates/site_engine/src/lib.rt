//! The engine of `site`: the calls of a script are served by the desk of one site, over any keeper, and its replies are
//! written.
#![tactic(auto)]

pub use sites::{opening_status, site_engine};

mod sites;
