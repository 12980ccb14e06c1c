//! A site at work while the changes of its calls wait to be committed together.

use crate::live_site::{LiveSite, begun};
use durable_keeper::KeeperError;
use live_keeper::LiveKeeper;
use round_keeper::{Base, RoundKeeper, Staged};
use std::alloc::Global;

impl<K: RoundKeeper> LiveSite<K> {
    ghost use Rattle.std.specs.Prelude.{◌≡◌, [], false};

    /// The same site, at which the changes of calls wait from now on. Takes no memory.
    pub fn hold<B: Base>(self, alloc: Global) -> LiveSite<Staged<K, B>>
        ensures no_fault { self.frozen ≡ false → K.faults_of self.keeper ≡ 0 }
        ensures site { result ≡ record {
          core = self.core;
          keeper = record { keeper = self.keeper; changes = []; mark_due = false };
          frozen = self.frozen;
        } }
    {
        let LiveSite {
            core,
            keeper,
            frozen,
        } = self;
        LiveSite {
            core,
            keeper: Staged::new(alloc, keeper),
            frozen,
        }
    }
}

impl<K: RoundKeeper, B: Base> LiveSite<Staged<K, B>> {
    ghost use Rattle.std.specs.Prelude.{◌≡◌, [], length, true, false, Err, Ok, OnOk};
    ghost use Rattle.admission_core.specs.Kept.{DurableState};
    ghost use Rattle.durable_keeper.specs.declared.error.KeeperError.TheVariants.{Memory, StoreFault};
    ghost use Rattle.round_keeper.specs.Staged.{KeepsStaged};

    /// How many changes wait. None of them is empty.
    pub fn waiting(&self) -> usize
        ensures { result ≡ length self.now.keeper.changes }
    {
        self.keeper.waiting()
    }

    /// Whether a call was answered by want of memory since its reply shows that the store is outdated: the mark of that can't
    /// wait, and the call has to be served where no change waits.
    pub fn is_mark_due(&self) -> bool
        ensures { result ≡ self.now.keeper.mark_due }
    {
        self.keeper.is_mark_due()
    }

    /// Has all changes that wait kept together: all of them or none. Where none waits, no store is called. Where they are not
    /// kept, the site serves no more; after want of memory it may begin again.
    pub fn commit_staged(self) -> (LiveSite<K>, Result<(), KeeperError>)
        ensures core { result.0.core ≡ self.core }
        ensures ok { (d : DurableState) → KeepsStaged K.Keeper B.base self.keeper d → OnOk result.1 (K.keeps result.0.keeper d) }
        ensures memory { (d : DurableState) → KeepsStaged K.Keeper B.base self.keeper d → result.1 ≡ Err Memory → K.keeps result.0.keeper B.base }
        ensures fault { (d : DurableState) → KeepsStaged K.Keeper B.base self.keeper d → result.1 ≡ Err StoreFault → K.keeps_either result.0.keeper B.base d }
        ensures serves { OnOk result.1 (result.0.frozen ≡ self.frozen) }
        ensures stops { (e : KeeperError) → result.1 ≡ Err e → result.0.frozen ≡ true }
        ensures nothing { self.keeper.changes ≡ [] → self.frozen ≡ false → result.1 ≡ Ok tt }
        ensures honest { K.is_honest result.0.keeper → K.is_honest self.keeper.keeper }
    {
        let LiveSite {
            core,
            keeper,
            frozen,
        } = self;
        let (keeper, answer) = keeper.commit_staged();
        let frozen = frozen || answer.is_err();
        (
            LiveSite {
                core,
                keeper,
                frozen,
            },
            answer,
        )
    }

    /// Drops the changes that wait. The site serves no more, as it is ahead of its store, but it may begin again.
    pub fn drop_staged(self) -> LiveSite<K>
        ensures { result ≡ record { core = self.core; keeper = self.keeper.keeper; frozen = true } }
    {
        let LiveSite {
            core,
            keeper,
            frozen: _,
        } = self;
        LiveSite {
            core,
            keeper: keeper.drop_staged(),
            frozen: true,
        }
    }
}

impl<K: LiveKeeper> LiveSite<K> {
    ghost use Rattle.live_site.specs.Rounds.{BeginsAgain};

    /// Begins again from what the keeper gives back, and serves then. Whether that succeeded; where it did not, the site
    /// serves no more. Linear in the layout's slots and in what was kept.
    pub fn begin_again(&mut self, alloc: Global) -> bool
        ensures { BeginsAgain K.Keeper self.old self.new result }
    {
        self.frozen = true;
        let site = self.core.site();
        let Ok(layout) = self.core.layout().try_copy(alloc) else {
            return false;
        };
        let Ok(core) = begun(alloc, &mut self.keeper, layout, site) else {
            return false;
        };
        self.core = core;
        self.frozen = false;
        true
    }
}
