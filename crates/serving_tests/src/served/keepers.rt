//! A keeper whose faults the test chooses.
use admission_core::{Change, Durable};
use durable_keeper::{Keeper, KeeperError, MemoryKeeper};
use merge_core::Layout;
use std::alloc::{AllocError, Global};

/// A keeper in memory whose device refuses one change, and each call behind it.
#[derive(Drop)]
pub struct Failing {
    keeper: MemoryKeeper,
    left: u64,
    failed: bool,
}

impl Failing {
    ghost use Rattle.std.specs.Prelude.{◌≡◌, IfOk};

    /// So many changes are kept before the one that is refused.
    pub fn new(alloc: Global, layout: &Layout, site: u16, left: u64) -> Result<Failing, AllocError>
        ensures layout { IfOk result (λ k. k.keeper.layout ≡ layout.now) }
        ensures site { IfOk result (λ k. k.keeper.site ≡ site) }
    {
        let keeper = MemoryKeeper::new(alloc, layout, site)?;
        Ok(Failing {
            keeper,
            left,
            failed: false,
        })
    }
}

impl Keeper for Failing {
    ghost use Rattle.std.specs.Prelude.{if◌then◌else◌};

    ghost layout = { λ k. k.keeper.layout };

    ghost site = { λ k. k.keeper.site };

    // It promises to keep nothing.
    ghost keeps = { λ k d. ⊥ };

    ghost keeps_either = { λ k d e. ⊥ };

    ghost is_honest = { λ k. ⊥ };

    ghost faults_of = { λ k. if k.failed then 1 else 0 };

    fn commit(&mut self, change: &Change) -> Result<(), KeeperError> {
        if self.failed {
            return Err(KeeperError::StoreFault);
        }
        if change.is_empty() {
            return Ok(());
        }
        if self.left == 0 {
            self.failed = true;
            return Err(KeeperError::StoreFault);
        }
        self.left -= 1;
        self.keeper.commit(change)
    }

    fn load(&mut self, alloc: Global) -> Result<Durable, KeeperError> {
        if self.failed {
            return Err(KeeperError::StoreFault);
        }
        self.keeper.load(alloc)
    }

    fn faults(&self) -> u64 {
        u64::from(self.failed)
    }
}
