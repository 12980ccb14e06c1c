//! The cores of a world before any event.
ghost use Rattle.std.specs.Prelude.{◌≡◌, ℕ, ◌<◌, ◌≤◌, length, IfOk, slice_index_or};
ghost use Rattle.merge_core.specs.Layout.{at_sites};
ghost use Rattle.admission_core.specs.Core.{Core as SiteState, Stands};
ghost use Rattle.multi_site_world.specs.World.{first_account};
ghost use Rattle.multi_site_world.specs.Worlds.{IsFirstLayout};

use crate::growth::GrowthError;
use admission_core::SiteCore;
use merge_core::Layout;
use std::alloc::{AllocError, Global};

/// The layout of the first sites: all sites, or fewer under which the same records are a layout.
pub fn first_layout(alloc: Global, layout: &Layout, first: u16) -> Result<Layout, GrowthError>
    ensures { IsFirstLayout first layout.now result }
{
    if first == layout.sites() {
        return Ok(layout.try_copy(alloc)?);
    }
    if first > layout.sites() {
        return Err(GrowthError::BadGrowth);
    }
    match layout.at_sites(alloc, first)? {
        Some(earlier) => {
            let _ = earlier.sites(); // tells the invariant: it is a layout
            Ok(earlier)
        }
        None => Err(GrowthError::BadGrowth),
    }
}

/// The cores before any event: the sites of the earlier layout begin under that, all others under the whole
/// one.
pub fn first_cores(
    alloc: Global,
    earlier: &Layout,
    layout: &Layout,
) -> Result<Vec<SiteCore>, AllocError>
    requires earlier { earlier.now ≡ at_sites earlier.now.sites layout.now }
    requires few { earlier.now.sites ≤ layout.now.sites }
    ensures number { IfOk result (λ cores. length cores.items ≡ layout.now.sites) }
    ensures each { IfOk result (λ cores. (i : ℕ) (none : SiteState) → i < layout.now.sites
        → Stands (first_account earlier.now.sites layout.now i) (slice_index_or cores.items i none)) }
{
    let mut cores = Vec::new(alloc);
    for i in 0..layout.sites() {
        cores.push(first_core(alloc, earlier, layout, i)?)?;
    }
    Ok(cores)
}

// The core of one site before any event.
fn first_core(
    alloc: Global,
    earlier: &Layout,
    layout: &Layout,
    i: u16,
) -> Result<SiteCore, AllocError>
    requires earlier { earlier.now ≡ at_sites earlier.now.sites layout.now }
    requires few { earlier.now.sites ≤ layout.now.sites }
    requires site { i < layout.now.sites }
    ensures { IfOk result (λ core. Stands (first_account earlier.now.sites layout.now i) core) }
{
    if i < earlier.sites() {
        return SiteCore::new(alloc, earlier.try_copy(alloc)?, i);
    }
    SiteCore::new(alloc, layout.try_copy(alloc)?, i)
}
