//! A keeper in memory makes several changes at once.
ghost use Rattle.std.specs.Prelude.{◌≡◌, ◌≢◌, All, Err, OnOk};
ghost use Rattle.durable_keeper.specs.Keeping.{IsChange};
ghost use Rattle.durable_keeper.specs.declared.error.KeeperError.TheVariants.{StoreFault};
ghost use Rattle.round_keeper.specs.Rounds.{changed_all};

use crate::keeper::{RoundKeeper, are_empty};
use admission_core::Change;
use durable_keeper::{Keeper, KeeperError, MemoryKeeper};

// Makes changes, the first one first, until memory runs out.
fn commit_each(keeper: &mut MemoryKeeper, changes: &[Change]) -> Result<(), KeeperError>
    requires { All (IsChange keeper.old.layout keeper.old.site) changes.now }
    ensures ok { OnOk result (keeper.new.part ≡ changed_all changes.now keeper.old.part) }
    ensures no_fault { result ≢ Err StoreFault }
    ensures layout { keeper.new.layout ≡ keeper.old.layout }
    ensures site { keeper.new.site ≡ keeper.old.site }
{
    for change in changes {
        keeper.commit(change)?;
    }
    Ok(())
}

/// The changes are made in a copy, which then takes the place of what was kept. Linear in both.
impl RoundKeeper for MemoryKeeper {
    fn commit_all(&mut self, changes: &[Change]) -> Result<(), KeeperError> {
        if are_empty(changes) {
            return Ok(());
        }
        let mut after = self.try_copy()?;
        commit_each(&mut after, changes)?;
        *self = after;
        Ok(())
    }
}
