//! Tests of one site, of several sites, and of the texts of their deltas and scripts.
#![tactic(auto)]

#[cfg(test)]
mod admission;
#[cfg(test)]
mod deltas;
#[cfg(test)]
mod layouts;
#[cfg(test)]
mod model;
#[cfg(test)]
mod scripts;
#[cfg(test)]
mod sessions;
#[cfg(test)]
mod tables;
#[cfg(test)]
mod words;
#[cfg(test)]
mod worlds;
