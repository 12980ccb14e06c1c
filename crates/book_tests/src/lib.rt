//! Tests of counters, of the rows made of them, and of books that are joined.
#![tactic(auto)]

#[cfg(test)]
mod counters;
#[cfg(test)]
mod merging;
#[cfg(test)]
mod notices;
#[cfg(test)]
mod rights;
#[cfg(test)]
mod seats;
#[cfg(test)]
mod texts;
