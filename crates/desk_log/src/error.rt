ghost use Rattle.std.specs.Prelude.{◌≡◌};
ghost use Rattle.admission_core.specs.declared.restoring.RestoreError.TheVariants.{BadSite as NoSuchSite, WrongCounters as NoCounters, WrongSessions as NoSessions, Memory as NoMemory};
ghost use Rattle.desk_log.specs.declared.error.OpenError.TheVariants.{BadSite, WrongCounters, WrongSessions, Memory};
ghost use Rattle.desk_log.specs.Desk.{load_fault, restore_fault};

use admission_core::RestoreError;
use durable_keeper::KeeperError;
use std::alloc::AllocError;
use thiserror::Error;

/// Why a site was not opened, in the order in which it is judged.
#[derive(Clone, Copy, Debug, PartialEq, Eq, Error)]
pub enum OpenError {
    /// The layout has no such site.
    #[error("the layout has no such site")]
    BadSite,
    /// A site has 1 to 64 passes.
    #[error("a site has 1 to 64 passes")]
    BadPasses,
    /// A log has 16 to 65,536 entries.
    #[error("a log has 16 to 65,536 entries")]
    BadLimit,
    /// The store did not give back what it kept.
    #[error("the store has failed")]
    StoreFault,
    /// What was kept has counters that are no site's.
    #[error("the counters are not what a stop leaves of this site")]
    WrongCounters,
    /// What was kept has sessions that are no site's with these counters.
    #[error("the sessions are not those of these counters")]
    WrongSessions,
    #[error("out of memory")]
    Memory,
}

impl From<AllocError> for OpenError {
    ghost from_gives = { λ _ e. e ≡ Memory };

    fn from(_e: AllocError) -> OpenError {
        OpenError::Memory
    }
}

impl From<KeeperError> for OpenError {
    ghost from_gives = { λ k e. e ≡ load_fault k };

    fn from(e: KeeperError) -> OpenError {
        match e {
            KeeperError::Memory => OpenError::Memory,
            KeeperError::StoreFault => OpenError::StoreFault,
        }
    }
}

impl From<RestoreError> for OpenError {
    ghost from_gives = { λ r e. e ≡ restore_fault r };

    fn from(e: RestoreError) -> OpenError {
        match e {
            RestoreError::BadSite => OpenError::BadSite,
            RestoreError::WrongCounters => OpenError::WrongCounters,
            RestoreError::WrongSessions => OpenError::WrongSessions,
            RestoreError::Memory => OpenError::Memory,
        }
    }
}
