//! What an engine reads and where it writes: an input that is read up to a limit, whole or part by part as it comes,
//! and cut into lines; and a sink that keeps the fault that it met.
#![tactic(auto)]

pub use input::{Accumulator, Input, InputError, read_input, read_into, read_up_to};
pub use lines::{cut_line, cut_whole_lines};
pub use sink::Sink;
pub use source::Source;

/// The most bytes of an input.
pub const INPUT_LIMIT: u32 = 16_777_216;

mod input;
mod lines;
mod sink;
mod source;
