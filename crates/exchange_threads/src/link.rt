ghost use Rattle.exchange_threads.specs.Links.{IsLinkAnswer};

use crate::error::LinkError;
use crossbeam_channel::{Receiver, Sender};
use merge_core::Layout;
use std::alloc::Global;

/// How many texts a link holds.
pub const LINK_CAPACITY: usize = 16;

/// A link that carries texts of deltas from one site of the layout to another, and holds at most 16. A sender waits
/// while it is full, a receiver while it is empty; it is closed once all ends of one side are dropped, and then a
/// receiver still gets the texts that it holds. Refused, in this order: `NoLink`, where both are one site or one is no
/// site of the layout; `Memory`.
pub fn make_link(
    alloc: Global,
    layout: &Layout,
    from: u16,
    to: u16,
) -> Result<(Sender<String>, Receiver<String>), LinkError>
    ensures { IsLinkAnswer layout.now from to result }
{
    let sites = layout.sites();
    if from == to || from >= sites || to >= sites {
        return Err(LinkError::NoLink);
    }
    match crossbeam_channel::bounded(alloc, LINK_CAPACITY) {
        Ok(ends) => Ok(ends),
        Err(_) => Err(LinkError::Memory),
    }
}
