//! Layout files, in TOML: the sites and records that one tells, or why it tells none, and which record is at fault; and the
//! layout without a file.
#![tactic(auto)]

pub use fault::LayoutFault;
pub use reading::{LAYOUT_LIMIT, built_in, read_layout, read_layout_file};
pub use refusal::LayoutRefusal;

mod fault;
mod places;
mod reading;
mod refusal;
