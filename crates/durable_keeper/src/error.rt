ghost use Rattle.std.specs.Prelude.{◌≡◌};
ghost use Rattle.durable_keeper.specs.declared.error.KeeperError.TheVariants.{Memory};

use std::alloc::AllocError;
use thiserror::Error;

/// Why a keeper did not do what it was asked.
#[derive(Clone, Copy, Debug, PartialEq, Eq, Error)]
pub enum KeeperError {
    /// What is kept has not changed.
    #[error("out of memory")]
    Memory,
    /// The device refused a call. What was asked may have happened or not, and the store has to be opened again.
    #[error("the store has failed")]
    StoreFault,
}

impl From<AllocError> for KeeperError {
    ghost from_gives = { λ _ e. e ≡ Memory };

    fn from(_e: AllocError) -> KeeperError {
        KeeperError::Memory
    }
}
