use merge_core::{Layout, RecordName, RecordSpec};
use std::alloc::Global;

/// The layout of one record, `a`, with so many seats, which start at site 0.
pub fn layout_of(alloc: Global, sites: u16, seats: u32, problem: u16) -> Option<Layout> {
    let name = RecordName::from_string(String::from_str(alloc, "a").ok()?);
    let mut records = Vec::new(alloc);
    records
        .push(RecordSpec {
            name,
            seats,
            home: 0,
            problem,
        })
        .ok()?;
    Layout::new(sites, records).ok()
}
