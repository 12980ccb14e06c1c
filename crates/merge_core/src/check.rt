use thiserror::Error;

/// Why a book does not take a delta.
#[derive(Clone, Copy, Debug, PartialEq, Eq, Error)]
pub enum CheckError {
    /// The row at this index, the least such, has a record, a site or a number of counters that the
    /// layout has not.
    #[error("row {row} is of another layout")]
    OtherLayout { row: usize },
    /// All rows are of the layout, and the row at this index, the least such, shows what no site can have
    /// done.
    #[error("row {row} is not valid")]
    BadRow { row: usize },
}
