//! The seats of one record: a rights matrix and the seats taken at each site.
#![tactic(auto)]

pub use faults::SeatError;
pub use seats::SeatRow;

mod balances;
mod faults;
mod seats;
