//! A link that carries texts from one end to another in the order in which they were put. What was taken at one end is a
//! prefix of what was put at the other, byte for byte, however the threads of the two run.
#![tactic(auto)]

pub use ends::{LINK_CAPACITY, Putter, Taker, make_link};

mod ends;
mod rule;
