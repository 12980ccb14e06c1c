ghost use Rattle.std.specs.Prelude.{◌≡◌, ◌<◌};
ghost use Rattle.merge_core.specs.Layout.{LayoutState};
ghost use Rattle.desk_log.specs.Desk.{IsMadeFor, IsBegun};

use crate::entry::{Entries, Entry};
use crate::error::OpenError;
use crate::log::Log;
use crate::step::{Served, copied_call, step};
use admission_core::{Call, Durable, Refusal, Reply, SiteCore};
use durable_keeper::Keeper;
use merge_core::Layout;
use std::alloc::Global;
use std::marker::Model;
use std::snapshot::Snapshot;

/// The fewest entries that a log may have places for.
pub const LEAST_ENTRIES: usize = 16;
/// The most entries that a log may have places for.
pub const MOST_ENTRIES: usize = 65_536;

/// One site at work: its core, what keeps its durable part, and the log of this opening.
///
/// Each call is one step: it is answered, its change is kept, and only then the core changes and the log gets the entry.
/// Where the keeper tells a fault, it is not known whether the call was kept; the desk then serves no more.
#[derive(Drop)]
pub struct Desk<K: Keeper> {
    alloc: Global,
    core: SiteCore,
    keeper: K,
    // The keeper as the opening left it; only contracts read it.
    opened: Snapshot<K>,
    log: Log,
}

// Contracts see the core, the keeper now and then, and the log.
impl<K: Keeper> Model for Desk<K> {
    ghost use Rattle.desk_log.specs.Desk.{DeskState, IsDesk};

    ghost Value = { DeskState K };

    ghost view = { λ d. record { core = d.core; keeper = d.keeper; opened = d.opened.value; log = d.log } };

    ghost invariant = { λ d. IsDesk K.Keeper (record { core = d.core; keeper = d.keeper; opened = d.opened.value; log = d.log }) };
}

impl<K: Keeper> Desk<K> {
    ghost use Rattle.std.specs.Prelude.{◌≡◌, ℕ, ◌<◌, ◌≤◌, length, true, false};
    ghost use Rattle.merge_core.specs.Seats.{inside_of};
    ghost use Rattle.merge_core.specs.Book.{seats_at};
    ghost use Rattle.admission_model.specs.Account.{inside};
    ghost use Rattle.admission_core.specs.Core.{Stands};
    ghost use Rattle.desk_log.specs.Log.{IsLegal};
    ghost use Rattle.desk_log.specs.Desk.{IsMadeFor, IsOpened, IsServing, Leaves, first_account, account_of, account_if_kept, is_frozen, receipt_of};
    ghost use Rattle.desk_log.specs.Following.{CanFollow};

    /// Opens a site of a layout with a log of 16 to 65,536 entries, from what the keeper gives back. The caller shows,
    /// where there is such a site, that the keeper was made for it with an equal layout. Refused, in this order:
    /// `BadSite`; `BadLimit`; `StoreFault`; `WrongCounters`; `WrongSessions`; `Memory`. With each refusal the keeper is
    /// handed back. The log's places are made here. Linear in the layout's slots and in what was kept.
    pub fn open(
        alloc: Global,
        keeper: K,
        layout: Layout,
        site: u16,
        limit: usize,
    ) -> Result<Desk<K>, (OpenError, K)>
        requires { site < layout.sites → IsMadeFor K.Keeper keeper layout site }
        ensures { IsOpened K.Keeper keeper layout site limit result }
    {
        if site >= layout.sites() {
            return Err((OpenError::BadSite, keeper));
        }
        if limit < LEAST_ENTRIES || limit > MOST_ENTRIES {
            return Err((OpenError::BadLimit, keeper));
        }
        let mut keeper = keeper;
        match begun(alloc, &mut keeper, layout, site, limit) {
            Ok((core, log)) => {
                let opened = Snapshot::of(&keeper);
                Ok(Desk {
                    alloc,
                    core,
                    keeper,
                    opened,
                    log,
                })
            }
            Err(error) => Err((error, keeper)),
        }
    }

    /// The core.
    pub fn core(&self) -> &SiteCore
        ensures core { result.now ≡ self.now.core }
        ensures stands { Stands (account_of self.now) self.now.core }
        ensures inside { (r : ℕ) → r < length self.now.core.book.records
            → inside_of (seats_at self.now.core.book r) self.now.core.site ≡ inside (account_of self.now) r }
    {
        &self.core
    }

    /// What the opening began with.
    pub fn first(&self) -> &Durable
        ensures { result.now ≡ self.now.log.first }
    {
        self.log.first()
    }

    /// The entries of the log, oldest first.
    pub fn entries(&self) -> &[Entry]
        ensures entries { result.now ≡ self.now.log.entries }
        ensures legal { IsLegal (first_account self.now) self.now.log.entries }
    {
        self.log.entries()
    }

    /// How many entries the log may have.
    pub fn limit(&self) -> usize
        ensures limit { result ≡ self.now.log.limit }
        ensures within { length self.now.log.entries ≤ self.now.log.limit }
    {
        self.log.limit()
    }

    /// Whether the desk has stopped after a fault of its store.
    pub fn is_frozen(&self) -> bool
        ensures { result ≡ is_frozen self.now }
    {
        self.log.is_frozen()
    }

    /// Serves a call of a pass. Refused, in this order: `Frozen`, after a fault of the store; `LogFull`; `Memory`, for the
    /// log's copy of the call; what the core refuses; `Memory`; `StoreFault`, after which the desk is frozen. The change is
    /// kept before the core changes and the reply is given; where nothing changes, no store is called. Each reply but
    /// `Frozen`, `LogFull` and `Memory` is logged. The cost is the core's, and that of a copy of call and reply.
    pub fn serve(&mut self, pass: u16, call: &Call) -> Reply
        ensures served { IsServing K.Keeper self.old self.new pass call.now result }
        ensures follows { CanFollow call.now result }
    {
        let _ = &self.alloc; // tells the invariant
        let (reply, _receipt) = self.answer(pass, call, false);
        reply
    }

    /// Serves a call as [`serve`](Desk::serve) does, and gives a second copy of each reply that is logged. It is made
    /// with the log's, before the change is kept.
    pub fn serve_with_receipt(&mut self, pass: u16, call: &Call) -> (Reply, Option<Reply>)
        ensures served { IsServing K.Keeper self.old self.new pass call.now result.0 }
        ensures follows { CanFollow call.now result.0 }
        ensures receipt { result.1 ≡ receipt_of result.0 }
    {
        let _ = &self.alloc; // tells the invariant
        self.answer(pass, call, true)
    }

    // Serves a call, with a second copy of the reply where that is wanted.
    fn answer(&mut self, pass: u16, call: &Call, receipt: bool) -> (Reply, Option<Reply>)
        ensures served { IsServing K.Keeper self.old self.new pass call.now result.0 }
        ensures receipt { receipt ≡ true → result.1 ≡ receipt_of result.0 }
    {
        if self.log.is_frozen() {
            return (Reply::Refused(Refusal::Frozen), None);
        }
        if self.log.is_full() {
            return (Reply::Refused(Refusal::LogFull), None);
        }
        let Ok(copy) = copied_call(self.alloc, call) else {
            return (Reply::Refused(Refusal::Memory), None);
        };
        let Some(served) = step(self.alloc, &mut self.core, &mut self.keeper, call, receipt) else {
            return (Reply::Refused(Refusal::Memory), None);
        };
        let Served {
            reply,
            logged,
            receipt,
        } = served;
        self.log.push(Entry {
            pass,
            call: copy,
            reply: logged,
        });
        (reply, receipt)
    }

    /// The keeper, as it is. Takes no memory.
    pub fn into_keeper(self) -> K
        ensures keeper { result ≡ self.keeper }
        ensures made_for { IsMadeFor K.Keeper result self.core.layout self.core.site }
        ensures no_fault { is_frozen self ≡ false → K.faults_of result ≡ 0 }
        ensures honest { K.is_honest result → K.is_honest self.opened }
        ensures kept { K.keeps self.opened self.log.first → Leaves K.Keeper (is_frozen self) result (account_of self) (account_if_kept self) }
    {
        let Desk {
            alloc: _,
            core: _,
            keeper,
            opened: _,
            log: _,
        } = self;
        keeper
    }

    /// What the opening began with, the entries, and the keeper. Takes no memory.
    pub fn into_parts(self) -> (Durable, Entries, K)
        ensures first { result.0 ≡ self.log.first }
        ensures entries { result.1 ≡ self.log.entries }
        ensures keeper { result.2 ≡ self.keeper }
        ensures made_for { IsMadeFor K.Keeper result.2 self.core.layout self.core.site }
        ensures kept { K.keeps self.opened self.log.first → Leaves K.Keeper (is_frozen self) result.2 (account_of self) (account_if_kept self) }
        ensures honest { K.is_honest result.2 → K.is_honest self.opened }
        ensures legal { IsLegal (first_account self) self.log.entries }
        ensures within { length self.log.entries ≤ self.log.limit }
    {
        let Desk {
            alloc: _,
            core: _,
            keeper,
            opened: _,
            log,
        } = self;
        let (first, entries) = log.into_parts();
        (first, entries, keeper)
    }
}

// The core and the log of a site that begins from what its keeper gives back.
fn begun<K: Keeper>(
    alloc: Global,
    keeper: &mut K,
    layout: Layout,
    site: u16,
    limit: usize,
) -> Result<(SiteCore, Log), OpenError>
    requires site { site < layout.sites }
    ensures { IsBegun K.Keeper keeper.old keeper.new layout site limit result }
{
    let found = keeper.load(alloc)?;
    let first = found.try_copy(alloc)?;
    let core = SiteCore::restore(alloc, layout, site, found)?;
    let log = Log::new(alloc, first, limit)?;
    Ok((core, log))
}
