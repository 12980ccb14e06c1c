//! Tests of the engine of `run`: scripts that are carried out at sites that work at the same time. Each output is the same
//! whatever the schedule.
#![tactic(auto)]

#[cfg(test)]
mod faults;
#[cfg(test)]
mod limits;
#[cfg(test)]
mod logs;
#[cfg(test)]
mod refusals;
#[cfg(test)]
mod runs;
#[cfg(test)]
mod stories;
