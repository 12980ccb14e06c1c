//! Tests of what serves: input, layout files, scripts of calls, and the engines of the commands.
#![tactic(auto)]

#[cfg(test)]
mod faults;
#[cfg(test)]
mod input;
#[cfg(test)]
mod joins;
#[cfg(test)]
mod judged_files;
#[cfg(test)]
mod judges;
#[cfg(test)]
mod layouts;
#[cfg(test)]
mod lines;
#[cfg(test)]
mod plays;
#[cfg(test)]
mod served;
