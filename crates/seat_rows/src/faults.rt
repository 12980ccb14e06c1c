use thiserror::Error;

/// Why seats were not taken.
#[derive(Clone, Copy, Debug, PartialEq, Eq, Error)]
pub enum SeatError {
    /// The counter of seats taken at this site would pass its limit.
    #[error("the counter of taken seats would pass its limit")]
    CounterFull,
    /// The site has fewer rights, namely these.
    #[error("only {rights} seats are free to this site")]
    NoSeat { rights: u64 },
}
