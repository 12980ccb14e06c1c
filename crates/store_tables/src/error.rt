ghost use Rattle.std.specs.Prelude.{◌≡◌, ◌≢◌, ◌↔◌, IsTrue};
ghost use Rattle.sqlite.specs.declared.error.Error.TheVariants.{SqliteFailure};
ghost use Rattle.sqlite.specs.declared.error.ErrorCode.TheVariants.{OutOfMemory};
ghost use Rattle.store_tables.specs.declared.error.TableError.TheVariants.{BadStore, Memory};

use sqlite::{Error as SqlError, ErrorCode};
use std::alloc::AllocError;
use thiserror::Error;

// The error is want of memory.
pub(crate) fn is_memory(error: SqlError) -> bool
    ensures { IsTrue result ↔ (error ≡ SqliteFailure OutOfMemory) }
{
    error == SqlError::SqliteFailure(ErrorCode::OutOfMemory)
}

/// Why a store does not do what it is asked.
#[derive(Clone, Copy, Debug, PartialEq, Eq, Error)]
pub enum TableError {
    /// The tables are not those of a store, or hold what no store holds.
    #[error("the database is no store")]
    BadStore,
    /// Nothing has changed.
    #[error("out of memory")]
    Memory,
    /// The device, or the database above it, refused a call. What was asked may have happened or not, and the store
    /// has to be opened again.
    #[error("the store has failed")]
    StoreFault,
}

impl From<AllocError> for TableError {
    ghost from_gives = { λ _ e. e ≡ Memory };

    fn from(_e: AllocError) -> TableError {
        TableError::Memory
    }
}

impl From<SqlError> for TableError {
    ghost from_gives = { λ e u. (u ≡ Memory ↔ (e ≡ SqliteFailure OutOfMemory)) × (u ≢ BadStore) };

    fn from(error: SqlError) -> TableError {
        if is_memory(error) {
            TableError::Memory
        } else {
            TableError::StoreFault
        }
    }
}
