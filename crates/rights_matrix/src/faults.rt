use thiserror::Error;

/// Why rights were not transferred.
#[derive(Clone, Copy, Debug, PartialEq, Eq, Error)]
pub enum TransferError {
    /// Giver and receiver are one site.
    #[error("a site cannot transfer rights to itself")]
    ToSelf,
    /// Nothing was to be transferred.
    #[error("a transfer of no rights")]
    ZeroSeats,
    /// The counter of all transfers between the two sites would pass its limit.
    #[error("the counter of these transfers would pass its limit")]
    CounterFull,
    /// The giver has fewer rights, namely these.
    #[error("only {rights} rights are left at this site")]
    TooFewRights { rights: u64 },
}
