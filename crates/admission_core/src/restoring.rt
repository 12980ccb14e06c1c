//! A site's core from what a store kept of it.
use crate::durable::Durable;
use crate::site_core::SiteCore;
use book::restored_book;
use merge_core::Layout;
use sessions::restored_sessions;
use std::alloc::{AllocError, Global};
use thiserror::Error;

mod book;
mod cells;
mod counters;
mod rows;
mod sessions;
mod table;

ghost use Rattle.std.specs.Prelude.{◌≡◌};
ghost use Rattle.admission_core.specs.declared.restoring.RestoreError.TheVariants.{Memory};
ghost use Rattle.merge_core.specs.Layout.{IsLayout};
ghost use Rattle.admission_core.specs.Restored.{IsRestored};

/// Why a store's counters and sessions are not what a stop leaves of a site.
#[derive(Clone, Copy, Debug, PartialEq, Eq, Error)]
pub enum RestoreError {
    /// The layout has no such site.
    #[error("the layout has no such site")]
    BadSite,
    /// The counters are no site's: they do not rise by record and slot, one is of no record or slot or is at its
    /// start, a row is one that its site can not have, rights are below 0, or more than 64 writers are unfinished.
    #[error("the counters are not what a stop leaves of this site")]
    WrongCounters,
    /// The sessions are no site's with these counters.
    #[error("the sessions are not those of these counters")]
    WrongSessions,
    #[error("out of memory")]
    Memory,
}

impl From<AllocError> for RestoreError {
    ghost from_gives = { λ _ e. e ≡ Memory };

    fn from(_e: AllocError) -> RestoreError {
        RestoreError::Memory
    }
}

impl SiteCore {
    ghost use Rattle.std.specs.Prelude.{◌≡◌, ◌≤◌};
    ghost use Rattle.merge_core.specs.Layout.{at_sites};
    ghost use Rattle.admission_model.specs.Account.{Account};
    ghost use Rattle.admission_model.specs.Knowledge.{grown};
    ghost use Rattle.admission_model.specs.Reached.{IsReached};
    ghost use Rattle.admission_core.specs.Kept.{durable_of};
    ghost use Rattle.admission_core.specs.Restored.{IsRestored, IsOwn};

    /// The site that left this durable part, under its layout or a later one. Refused, in this order: `BadSite`;
    /// `WrongCounters`; `WrongSessions`. Linear in the layout's slots, the counters and the sessions.
    pub fn restore(
        alloc: Global,
        layout: Layout,
        site: u16,
        durable: Durable,
    ) -> Result<SiteCore, RestoreError>
        ensures answer { IsRestored layout site durable result }
        ensures own { (a : Account) → IsReached a → layout ≡ at_sites layout.sites a.origin.layout → a.sites ≤ layout.sites
            → site ≡ a.origin.site → durable ≡ durable_of a → IsOwn (grown layout.sites a) result }
    {
        restored(alloc, layout, site, durable)
    }
}

// The core that a durable part makes, or what is wrong with it.
fn restored(
    alloc: Global,
    layout: Layout,
    site: u16,
    durable: Durable,
) -> Result<SiteCore, RestoreError>
    ensures answer { IsRestored layout site durable result }
    ensures layout { IsLayout layout }
{
    if site >= layout.sites() {
        return Err(RestoreError::BadSite);
    }
    let (cells, sessions) = durable.into_parts();
    let book = restored_book(alloc, &layout, site, cells.as_slice())?;
    let sessions = restored_sessions(alloc, &layout, site, &book, sessions.as_slice())?;
    Ok(SiteCore::from_parts(alloc, layout, site, book, sessions))
}
