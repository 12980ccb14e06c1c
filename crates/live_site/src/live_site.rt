ghost use Rattle.std.specs.Prelude.{◌<◌};
ghost use Rattle.live_site.specs.Live.{IsBegunCore};

use crate::call_log::CallLog;
use crate::step::step;
use admission_core::{Call, SiteCore};
use desk_log::OpenError;
use durable_keeper::Keeper;
use live_keeper::LiveKeeper;
use merge_core::Layout;
use std::alloc::Global;
use std::marker::Model;

/// What became of a call.
#[derive(Clone, Copy, Debug, PartialEq, Eq)]
pub enum Outcome {
    /// It was answered, and its change is kept.
    Answered,
    /// A delta would give this site more rights to this record than it has seats. Nothing changed.
    TooManySeats(u16),
    /// No memory was found. Nothing changed.
    Memory,
    /// The store failed: it is not known whether the call was kept, or the mark that the store is outdated. The site serves
    /// no more.
    StoreFault,
    /// The site serves no more.
    Frozen,
    /// The log failed. Nothing changed.
    LogFailed,
}

/// A site at work: its core, and what keeps its durable part. It keeps no log of its own.
///
/// It serves no more once its store has failed, or once a delta has shown that its store is older than what others have
/// seen of it.
#[derive(Drop)]
pub struct LiveSite<K: LiveKeeper> {
    pub(crate) core: SiteCore,
    pub(crate) keeper: K,
    pub(crate) frozen: bool,
}

// Contracts see the core, the keeper, and whether the site serves no more.
impl<K: LiveKeeper> Model for LiveSite<K> {
    ghost use Rattle.live_site.specs.Live.{LiveState, IsLive};

    ghost Value = { LiveState K };

    ghost view = { λ s. record { core = s.core; keeper = s.keeper; frozen = s.frozen } };

    ghost invariant = { λ s. IsLive K.Keeper (record { core = s.core; keeper = s.keeper; frozen = s.frozen }) };
}

impl<K: LiveKeeper> LiveSite<K> {
    ghost use Rattle.std.specs.Prelude.{◌≡◌, ℕ, ◌<◌, length, true, false, string_bytes};
    ghost use Rattle.merge_core.specs.Seats.{inside_of};
    ghost use Rattle.merge_core.specs.Book.{seats_at};
    ghost use Rattle.admission_model.specs.Account.{Account, inside};
    ghost use Rattle.admission_core.specs.Core.{IsCore, Stands};
    ghost use Rattle.desk_log.specs.Desk.{IsMadeFor};
    ghost use Rattle.live_site.specs.declared.live_site.Outcome.TheVariants.{Frozen, StoreFault};
    ghost use Rattle.live_site.specs.Live.{IsOpenedSite, IsServingSite, StaysFrozen};

    /// Opens a site of a layout from what the keeper gives back. The caller shows, where there is such a site, that the
    /// keeper was made for it with an equal layout. Refused, in this order: `BadSite`; `StoreFault`; `WrongCounters`;
    /// `WrongSessions`; `Memory`. With each refusal the keeper is handed back. Linear in the layout's slots and in what
    /// was kept.
    pub fn open(
        alloc: Global,
        keeper: K,
        layout: Layout,
        site: u16,
    ) -> Result<LiveSite<K>, (OpenError, K)>
        requires { site < layout.sites → IsMadeFor K.Keeper keeper layout site }
        ensures { IsOpenedSite K.Keeper keeper layout site result }
    {
        if site >= layout.sites() {
            return Err((OpenError::BadSite, keeper));
        }
        let mut keeper = keeper;
        match begun(alloc, &mut keeper, layout, site) {
            Ok(core) => Ok(LiveSite {
                core,
                keeper,
                frozen: false,
            }),
            Err(error) => Err((error, keeper)),
        }
    }

    /// The core.
    pub fn core(&self) -> &SiteCore
        ensures core { result.now ≡ self.now.core }
        ensures is_core { IsCore self.now.core }
        ensures inside { (a : Account) → Stands a self.now.core → (r : ℕ) → r < length self.now.core.book.records
            → inside_of (seats_at self.now.core.book r) self.now.core.site ≡ inside a r }
    {
        &self.core
    }

    /// Whether the site serves no more.
    pub fn is_frozen(&self) -> bool
        ensures { result ≡ self.now.frozen }
    {
        self.frozen
    }

    /// Lets the site serve no more.
    pub fn freeze(&mut self)
        ensures { self.new ≡ record self.old { frozen = true } }
    {
        self.frozen = true;
    }

    /// Serves a call and writes the reply and LF behind a text. The reply is written and the log is handed call and
    /// reply before the change is kept, and the call is carried out behind that. Before a reply which shows that the store
    /// is older than what others have seen, the keeper is marked so. Where neither that is due nor the durable part changes,
    /// the keeper is not asked. After want of memory the text may have a part of the reply.
    pub fn serve<L: CallLog>(&mut self, call: &Call, text: &mut String, log: &mut L) -> Outcome
        ensures served { (a : Account) → Stands a self.old.core → self.old.frozen ≡ false → IsServingSite K.Keeper K.is_outdated L.CallLog a self.old self.new
            log.old log.new call.now (string_bytes text.old) (string_bytes text.new) result }
        ensures frozen { self.old.frozen ≡ true → StaysFrozen self.old self.new log.old log.new result }
        ensures only_frozen { result ≡ Frozen → self.old.frozen ≡ true }
        ensures told { result ≡ StoreFault → K.faults_of self.new.keeper ≡ 1 }
        ensures layout { self.new.core.layout ≡ self.old.core.layout }
        ensures site { self.new.core.site ≡ self.old.core.site }
        ensures honest { K.is_honest self.new.keeper → K.is_honest self.old.keeper }
    {
        if self.frozen {
            return Outcome::Frozen;
        }
        step(
            &mut self.core,
            &mut self.keeper,
            &mut self.frozen,
            log,
            call,
            text,
        )
    }

    /// The keeper, as it is. Takes no memory.
    pub fn into_keeper(self) -> K
        ensures keeper { result ≡ self.keeper }
        ensures made_for { IsMadeFor K.Keeper result self.core.layout self.core.site }
        ensures no_fault { self.frozen ≡ false → K.faults_of result ≡ 0 }
    {
        let LiveSite {
            core: _,
            keeper,
            frozen: _,
        } = self;
        keeper
    }
}

/// The core of a site that begins from what its keeper gives back.
pub(crate) fn begun<K: Keeper>(
    alloc: Global,
    keeper: &mut K,
    layout: Layout,
    site: u16,
) -> Result<SiteCore, OpenError>
    requires site { site < layout.sites }
    ensures { IsBegunCore K.Keeper keeper.old keeper.new layout site result }
{
    let found = keeper.load(alloc)?;
    let core = SiteCore::restore(alloc, layout, site, found)?;
    Ok(core)
}
