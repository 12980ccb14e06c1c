//! Tests of the service of one site: its lines, its store, its log, and how it ends.
#![tactic(auto)]

#[cfg(test)]
mod answers;
#[cfg(test)]
mod changed_marks;
#[cfg(test)]
mod disk;
#[cfg(test)]
mod endings;
#[cfg(test)]
mod fakes;
#[cfg(test)]
mod gone_stores;
#[cfg(test)]
mod groups;
#[cfg(test)]
mod growths;
#[cfg(test)]
mod held_lines;
#[cfg(test)]
mod log_disks;
#[cfg(test)]
mod log_files;
#[cfg(test)]
mod log_mending;
#[cfg(test)]
mod long_lines;
#[cfg(test)]
mod long_rounds;
#[cfg(test)]
mod many_sessions;
#[cfg(test)]
mod order;
#[cfg(test)]
mod outdated;
#[cfg(test)]
mod rounds;
