//! What a site tells when it begins with a durable part.
ghost use Rattle.std.specs.Prelude.{◌≡◌, IfOk, MatchOption};
ghost use Rattle.merge_core.specs.Layout.{at_sites};
ghost use Rattle.transcript_text.specs.Texts.{book_told, MayBegin};
ghost use Rattle.transcript_text.specs.Told.{FitsSites};

use admission_core::{Durable, RestoreError, SiteCore};
use merge_core::{Delta, Layout};
use std::alloc::{AllocError, Global};

/// The layout at so many sites, if it is one where the site is there and no site is new. Linear in the records.
pub fn layout_of_run(
    alloc: Global,
    layout: &Layout,
    site: u16,
    sites: u16,
) -> Result<Option<Layout>, AllocError>
    ensures { IfOk result (λ found. MatchOption found (¬ FitsSites layout.now site sites) (λ l. FitsSites layout.now site sites × (l ≡ at_sites sites layout.now))) }
{
    if site >= sites || sites > layout.sites() {
        return Ok(None);
    }
    layout.at_sites(alloc, sites)
}

/// What the site tells others when it begins so, if it may. Linear in the layout's slots, and in the counters and
/// sessions that it begins with.
pub fn book_told(
    alloc: Global,
    layout: &Layout,
    site: u16,
    sites: u16,
    first: &Durable,
) -> Result<Option<Delta>, AllocError>
    ensures { IfOk result (λ found. MatchOption found
        (¬ MayBegin layout.now site sites first.now)
        (λ d. MayBegin layout.now site sites first.now × (d ≡ book_told layout.now site sites first.now))) }
{
    let Some(under) = layout_of_run(alloc, layout, site, sites)? else {
        return Ok(None);
    };
    let first = first.try_copy(alloc)?;
    match SiteCore::restore(alloc, under, site, first) {
        Ok(core) => Ok(Some(core.snapshot()?)),
        Err(RestoreError::Memory) => Err(AllocError),
        Err(_) => Ok(None),
    }
}
