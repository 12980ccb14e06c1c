//! A conversation by lines: a line comes in, a text goes out. A service that is proved over every conversation answers
//! each line before it reads the next one.
#![tactic(auto)]

pub use conversation::{Conversation, Next, RoundConversation};
pub use stream::StreamConversation;

mod ahead;
mod conversation;
mod held;
mod reading;
mod stream;
