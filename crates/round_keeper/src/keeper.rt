//! A keeper of several changes at once, as its users see it.
ghost use Rattle.std.specs.Prelude.{◌≡◌, ◌≢◌, All, Err, IsTrue, OnOk};
ghost use Rattle.admission_core.specs.Kept.{DurableState};
ghost use Rattle.durable_keeper.specs.Keeping.{IsChange};
ghost use Rattle.durable_keeper.specs.declared.error.KeeperError.TheVariants.{Memory, StoreFault};
ghost use Rattle.round_keeper.specs.Rounds.{ChangesNothing, changed_all};

use admission_core::Change;
use durable_keeper::KeeperError;
use live_keeper::LiveKeeper;

/// A keeper that makes several changes of what is kept at once.
pub trait RoundKeeper: LiveKeeper {
    /// Makes changes of what is kept, the first one first: all of them or none. Where each is empty, no store is called.
    fn commit_all(&mut self, changes: &[Change]) -> Result<(), KeeperError>
        requires { All (IsChange (Self.Keeper.layout self.old) (Self.Keeper.site self.old)) changes.now }
        ensures ok { (d : DurableState) → Self.Keeper.keeps self.old d → OnOk result (Self.Keeper.keeps self.new (changed_all changes.now d)) }
        ensures memory { (d : DurableState) → Self.Keeper.keeps self.old d → result ≡ Err Memory → Self.Keeper.keeps self.new d }
        ensures fault { (d : DurableState) → Self.Keeper.keeps self.old d → result ≡ Err StoreFault → Self.Keeper.keeps_either self.new d (changed_all changes.now d) }
        ensures honest { Self.Keeper.is_honest self.new → Self.Keeper.is_honest self.old }
        ensures told { result ≡ Err StoreFault → Self.Keeper.faults_of self.new ≡ 1 }
        ensures sound { result ≢ Err StoreFault → Self.Keeper.faults_of self.new ≡ 0 }
        ensures stopped { Self.Keeper.faults_of self.old ≡ 1 → (result ≡ Err StoreFault) × (self.new ≡ self.old) }
        ensures nothing { All ChangesNothing changes.now → self.new ≡ self.old }
        ensures layout { Self.Keeper.layout self.new ≡ Self.Keeper.layout self.old }
        ensures site { Self.Keeper.site self.new ≡ Self.Keeper.site self.old };
}

/// Whether each change is empty.
pub fn are_empty(changes: &[Change]) -> bool
    ensures empty { IsTrue result → All ChangesNothing changes.now }
    ensures each { All ChangesNothing changes.now → IsTrue result }
{
    changes.iter().all(|change| change.is_empty())
}
