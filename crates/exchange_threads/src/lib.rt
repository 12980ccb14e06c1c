//! The exchange: threads that carry deltas between the sites of one process over channels. An outbox asks its site to
//! help and sends what the site knows; an inbox merges what other sites sent.
#![tactic(auto)]

pub use counts::Refusals;
pub use error::LinkError;
pub use fate::Fate;
pub use gate::Gate;
pub use inbox::{run_inbox, run_inbox_at};
pub use inlet::{Inlet, TakeError};
pub use link::{LINK_CAPACITY, make_link};
pub use names::RefusalName;
pub use outbox::{run_outbox, run_outbox_at};
pub use outlet::{Outlet, PlainOutlet, PutError};
pub use port::{End, Port, Report, run_links, run_port};
pub use report::{InReport, MOST_TURNS, OutReport};

mod counts;
mod error;
mod fate;
mod gate;
mod hearing;
mod inbox;
mod inlet;
mod link;
mod names;
mod outbox;
mod outlet;
mod port;
mod report;
mod telling;
mod turn;
mod words;
