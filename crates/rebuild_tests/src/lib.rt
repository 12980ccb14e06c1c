//! Tests of a site that is built again from deltas of the others.
#![tactic(auto)]

#[cfg(test)]
mod cores;
