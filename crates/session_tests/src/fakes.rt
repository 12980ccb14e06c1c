//! Desks over a keeper whose faults the test chooses.
use session_book::{Desk, OpenError};
use std::alloc::Global;
use test_keepers::{Fake, Fault, Store, layout_of, store_with};

/// A desk of this site, over a new keeper with this device.
pub fn desk_of(
    alloc: Global,
    (sites, seats): (u16, u32),
    site: u16,
    limit: usize,
    store: Store,
) -> Result<Desk<Fake>, Option<OpenError>> {
    let Some(layout) = layout_of(alloc, sites, seats, 1) else {
        return Err(None);
    };
    let Some(keeper) = Fake::new(alloc, &layout, site, store) else {
        return Err(None);
    };
    match Desk::open(alloc, keeper, layout, site, limit) {
        Ok(desk) => Ok(desk),
        Err((error, _keeper)) => Err(Some(error)),
    }
}

/// A desk of one of two sites with two seats, whose device never fails.
pub fn small_desk(alloc: Global, site: u16) -> Option<Desk<Fake>> {
    desk_of(alloc, (2, 2), site, 16, store_with(0, Fault::Never)).ok()
}
