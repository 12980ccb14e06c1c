ghost use Rattle.std.specs.Prelude.{◌≡◌};
ghost use Rattle.multi_site_world.specs.declared.growth.GrowthError.TheVariants.{Memory};

use std::alloc::{AllocError, AllocFailed};
use thiserror::Error;

/// Why a world can not begin from so many sites.
#[derive(Clone, Copy, Debug, PartialEq, Eq, Error)]
pub enum GrowthError {
    /// The first sites are neither all sites nor fewer that make a layout of their own.
    #[error("the first sites are no earlier layout")]
    BadGrowth,
    #[error("out of memory")]
    Memory,
}

impl From<AllocError> for GrowthError {
    ghost from_gives = { λ _ e. e ≡ Memory };

    fn from(_e: AllocError) -> GrowthError {
        GrowthError::Memory
    }
}

impl<T: Drop> From<AllocFailed<T>> for GrowthError {
    ghost from_gives = { λ _ e. e ≡ Memory };

    fn from(_e: AllocFailed<T>) -> GrowthError {
        GrowthError::Memory
    }
}
