//! A keeper with a mark, as its users see it.
ghost use Rattle.std.specs.Prelude.{◌≡◌, ◌≢◌, Err, OnOk};
ghost use Rattle.durable_keeper.specs.Kept.{DurableState};
ghost use Rattle.durable_keeper.specs.declared.error.KeeperError.TheVariants.{StoreFault};

use durable_keeper::{Keeper, KeeperError, MemoryKeeper};

/// A keeper that can be marked as older than what others have seen of its site, as after an old copy of its store was put
/// back. No service opens a store that is marked.
pub trait LiveKeeper: Keeper {
    /// A crash at this moment leaves the mark, while the device gives back what was written.
    ghost is_outdated: { Self → Type 0 };

    /// Sets the mark. What is kept of the site stays, whatever the answer.
    fn mark_outdated(&mut self) -> Result<(), KeeperError>
        ensures ok { (d : DurableState) → Self.Keeper.keeps self.old d → OnOk result (is_outdated self.new) }
        ensures kept { (d : DurableState) → Self.Keeper.keeps self.old d → Self.Keeper.keeps self.new d }
        ensures either { (d e : DurableState) → Self.Keeper.keeps_either self.old d e → Self.Keeper.keeps_either self.new d e }
        ensures honest { Self.Keeper.is_honest self.new → Self.Keeper.is_honest self.old }
        ensures told { result ≡ Err StoreFault → Self.Keeper.faults_of self.new ≡ 1 }
        ensures sound { result ≢ Err StoreFault → Self.Keeper.faults_of self.new ≡ 0 }
        ensures stopped { Self.Keeper.faults_of self.old ≡ 1 → (result ≡ Err StoreFault) × (self.new ≡ self.old) }
        ensures layout { Self.Keeper.layout self.new ≡ Self.Keeper.layout self.old }
        ensures site { Self.Keeper.site self.new ≡ Self.Keeper.site self.old };
}

/// A crash of it leaves nothing, and so no store without the mark.
impl LiveKeeper for MemoryKeeper {
    ghost is_outdated = { λ _. Unit {0} };

    fn mark_outdated(&mut self) -> Result<(), KeeperError> {
        Ok(())
    }
}
