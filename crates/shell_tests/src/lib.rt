//! Tests of the whole program on a runtime whose arguments, files, stores and standard streams the test chooses: what it reads,
//! what it writes and where, and its exit status.
#![tactic(auto)]

#[cfg(test)]
mod helps;
#[cfg(test)]
mod move_programs;
#[cfg(test)]
mod programs;
#[cfg(test)]
mod run_programs;
#[cfg(test)]
mod runtime;
#[cfg(test)]
mod service_layouts;
#[cfg(test)]
mod service_programs;
#[cfg(test)]
mod site_programs;
