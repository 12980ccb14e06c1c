//! Tests of the desk of a site and of sites behind their locks: their replies, openings one after another, stores that
//! fail or wait, and callers on several threads.
#![tactic(auto)]

#[cfg(test)]
mod asked;
#[cfg(test)]
mod desks;
#[cfg(test)]
mod fakes;
#[cfg(test)]
mod growths;
#[cfg(test)]
mod openings;
#[cfg(test)]
mod sites;
