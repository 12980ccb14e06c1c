ghost use Rattle.std.specs.Prelude.{◌≡◌};
ghost use Rattle.site_store.specs.Errors.{keeper_error, open_error, served_error};
ghost use Rattle.site_store.specs.declared.error.StoreOpenError.TheVariants as opening;
ghost use Rattle.site_store.specs.declared.error.ServedError.TheVariants as served;

use durable_keeper::KeeperError;
use std::alloc::AllocError;
use store_tables::TableError;
use thiserror::Error;

/// What a refusal of the tables is to a keeper.
pub(crate) fn keeper_error(e: TableError) -> KeeperError
    ensures { result ≡ keeper_error e }
{
    match e {
        TableError::Memory => KeeperError::Memory,
        TableError::BadStore | TableError::StoreFault => KeeperError::StoreFault,
    }
}

/// Why a store was not opened: the first of these that applies.
#[derive(Clone, Copy, Debug, PartialEq, Eq, Error)]
pub enum StoreOpenError {
    /// Some of its tables, columns or rows of `meta` are missing, its version is not known, or it holds what no store
    /// of a site holds.
    #[error("BadStore")]
    BadStore,
    /// It is the store of a site of another number, or of no number.
    #[error("WrongSite")]
    WrongSite,
    /// It is the store of the site of this number, but of another group, or of none where one is named, or of one where
    /// none is named.
    #[error("WrongGroup")]
    WrongGroup,
    /// It was made for a layout that is neither this one nor an earlier one that has the site.
    #[error("WrongLayout")]
    WrongLayout,
    /// The device refused a call.
    #[error("StoreFault")]
    StoreFault,
    /// There was no room. What the store keeps has not changed.
    #[error("Memory")]
    Memory,
}

impl From<AllocError> for StoreOpenError {
    ghost from_gives = { λ _ e. e ≡ opening.Memory };

    fn from(_e: AllocError) -> StoreOpenError {
        StoreOpenError::Memory
    }
}

impl From<TableError> for StoreOpenError {
    ghost from_gives = { λ t e. e ≡ open_error t };

    fn from(e: TableError) -> StoreOpenError {
        match e {
            TableError::BadStore => StoreOpenError::BadStore,
            TableError::Memory => StoreOpenError::Memory,
            TableError::StoreFault => StoreOpenError::StoreFault,
        }
    }
}

/// Why a database was not opened for a service: the first of these that applies.
#[derive(Clone, Copy, Debug, PartialEq, Eq, Error)]
pub enum ServedError {
    /// It holds tables, indexes or views, and is no store as this program makes one.
    #[error("NotAStore")]
    NotAStore,
    /// It holds nothing, and no store was to be made.
    #[error("NoStore")]
    NoStore,
    /// It is a store, and a new one was to be made.
    #[error("Exists")]
    Exists,
    /// Some row of `meta` is missing, or the store holds what no store of a site holds.
    #[error("BadStore")]
    BadStore,
    /// It is the store of a site of another number, or of no number.
    #[error("WrongSite")]
    WrongSite,
    /// It is the store of the site of this number, but of another group, or of none where one is named, or of one where
    /// none is named.
    #[error("WrongGroup")]
    WrongGroup,
    /// The store is marked as older than what others have seen of the site.
    #[error("Outdated")]
    Outdated,
    /// It was made for another layout: one that is neither this one nor an earlier one that has the site, or an earlier
    /// one where the store may not grow.
    #[error("WrongLayout")]
    WrongLayout,
    /// The device refused a call.
    #[error("StoreFault")]
    StoreFault,
    /// There was no room. What the store keeps has not changed.
    #[error("Memory")]
    Memory,
}

impl From<AllocError> for ServedError {
    ghost from_gives = { λ _ e. e ≡ served.Memory };

    fn from(_e: AllocError) -> ServedError {
        ServedError::Memory
    }
}

impl From<StoreOpenError> for ServedError {
    ghost from_gives = { λ o e. e ≡ served_error o };

    fn from(e: StoreOpenError) -> ServedError {
        match e {
            StoreOpenError::BadStore => ServedError::BadStore,
            StoreOpenError::WrongSite => ServedError::WrongSite,
            StoreOpenError::WrongGroup => ServedError::WrongGroup,
            StoreOpenError::WrongLayout => ServedError::WrongLayout,
            StoreOpenError::StoreFault => ServedError::StoreFault,
            StoreOpenError::Memory => ServedError::Memory,
        }
    }
}

impl From<TableError> for ServedError {
    ghost from_gives = { λ t e. e ≡ served_error (open_error t) };

    fn from(e: TableError) -> ServedError {
        ServedError::from(StoreOpenError::from(e))
    }
}
