//! The links between all sites, both ways.
use crate::tasks::AlwaysOpen;
use exchange_threads::{End, make_link};
use merge_core::Layout;
use std::alloc::{AllocError, Global};

/// The ends of the links of one site.
pub type Ends = Vec<End<AlwaysOpen>>;

/// The ends of the links between all sites of a layout, the last site's first: for each two sites a link each way, whose
/// gate is always open.
pub fn ends_of(alloc: Global, layout: &Layout) -> Result<Vec<Ends>, AllocError> {
    let mut all = Vec::new(alloc);
    for _ in 0..layout.sites() {
        all.push(Vec::new(alloc))?;
    }
    for from in 0..layout.sites() {
        add_links(alloc, layout, all.as_mut_slice(), from)?;
    }
    all.as_mut_slice().reverse();
    Ok(all)
}

// Adds the links from a site to all others.
fn add_links(
    alloc: Global,
    layout: &Layout,
    all: &mut [Ends],
    from: u16,
) -> Result<(), AllocError> {
    for to in 0..layout.sites() {
        if from != to {
            add_link(alloc, layout, all, from, to)?;
        }
    }
    Ok(())
}

// Adds the link from a site to another.
fn add_link(
    alloc: Global,
    layout: &Layout,
    all: &mut [Ends],
    from: u16,
    to: u16,
) -> Result<(), AllocError> {
    let Ok((sender, receiver)) = make_link(alloc, layout, from, to) else {
        return Err(AllocError);
    };
    if let Some(ends) = all.get_mut(usize::from(from)) {
        ends.push(End::Outlet(sender, AlwaysOpen))?;
    }
    if let Some(ends) = all.get_mut(usize::from(to)) {
        ends.push(End::Inlet(receiver))?;
    }
    Ok(())
}
