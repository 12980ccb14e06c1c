//! For the tests of the crates above: a keeper in memory whose faults the test chooses, and layouts of one record.
#![tactic(auto)]

pub use keeper::{Fake, Fault, Store, store_with};
pub use layouts::layout_of;

mod keeper;
mod layouts;
