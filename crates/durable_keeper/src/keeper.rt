//! What keeps a site's durable part, as its users see it.
ghost use Rattle.std.specs.Prelude.{◌≡◌, ◌≢◌, ℕ, ◌≤◌, [], None, Ok, Err, OnOk, OnErr, IfOk};
ghost use Rattle.merge_core.specs.Layout.{LayoutState};
ghost use Rattle.admission_core.specs.Kept.{DurableState};
ghost use Rattle.durable_keeper.specs.Keeping.{IsChange, changed};
ghost use Rattle.durable_keeper.specs.declared.error.KeeperError.TheVariants.{Memory, StoreFault};

use crate::error::KeeperError;
use admission_core::{Change, Durable};
use std::alloc::Global;

/// It keeps the durable part of one site: its counters, its sessions, and what it knows of other sites' writers.
pub trait Keeper {
    /// The layout that it was made for, which no call changes.
    ghost layout: { Self → LayoutState };

    /// The site that it was made for, which no call changes.
    ghost site: { Self → ℕ };

    /// A crash at this moment leaves this durable part and nothing else, while the device gives back what was
    /// written.
    ghost keeps: { Self → DurableState → Type 0 };

    /// A crash at this moment leaves one of these two and nothing else.
    ghost keeps_either: { Self → DurableState → DurableState → Type 0 };

    /// The device has given back what was written so far. It may fall at any call, and no code can tell.
    ghost is_honest: { Self → Type 0 };

    /// 0, and 1 from the first refusal of the device on.
    ghost faults_of: { Self → ℕ };

    /// Makes a change of what is kept, whole or not at all. Where the change is empty, no store is called.
    fn commit(&mut self, change: &Change) -> Result<(), KeeperError>
        requires { IsChange (layout self.old) (site self.old) change.now }
        ensures ok { (d : DurableState) → keeps self.old d → OnOk result (keeps self.new (changed change.now d)) }
        ensures memory { (d : DurableState) → keeps self.old d → result ≡ Err Memory → keeps self.new d }
        ensures fault { (d : DurableState) → keeps self.old d → result ≡ Err StoreFault → keeps_either self.new d (changed change.now d) }
        ensures honest { is_honest self.new → is_honest self.old }
        ensures told { result ≡ Err StoreFault → faults_of self.new ≡ 1 }
        ensures sound { result ≢ Err StoreFault → faults_of self.new ≡ 0 }
        ensures stopped { faults_of self.old ≡ 1 → (result ≡ Err StoreFault) × (self.new ≡ self.old) }
        ensures nothing { change.now.cells ≡ [] → change.now.session ≡ None → self.new ≡ self.old }
        ensures layout { layout self.new ≡ layout self.old }
        ensures site { site self.new ≡ site self.old };

    /// What is kept.
    fn load(&mut self, alloc: Global) -> Result<Durable, KeeperError>
        ensures found { (d : DurableState) → keeps self.old d → is_honest self.new → IfOk result (λ found. found ≡ d) }
        ensures kept { (d : DurableState) → keeps self.old d → keeps self.new d }
        ensures either { (d e : DurableState) → keeps_either self.old d e → keeps_either self.new d e }
        ensures honest { is_honest self.new → is_honest self.old }
        ensures told { result ≡ Err StoreFault → faults_of self.new ≡ 1 }
        ensures sound { result ≢ Err StoreFault → faults_of self.new ≡ 0 }
        ensures stopped { faults_of self.old ≡ 1 → (result ≡ Err StoreFault) × (self.new ≡ self.old) }
        ensures layout { layout self.new ≡ layout self.old }
        ensures site { site self.new ≡ site self.old };

    /// 0, and 1 from the first refusal of the device on.
    fn faults(&self) -> u64
        ensures count { result ≡ faults_of self.now }
        ensures once { result ≤ 1 };
}
