//! Tests of the judge: stories of several sites, sites behind their locks, closed logs as they are, changed or read
//! from text, and the verdicts at cuts.
#![tactic(auto)]

#[cfg(test)]
mod changes;
#[cfg(test)]
mod growths;
#[cfg(test)]
mod judged;
#[cfg(test)]
mod long_logs;
#[cfg(test)]
mod openings;
#[cfg(test)]
mod posts;
#[cfg(test)]
mod stories;
#[cfg(test)]
mod tables;
#[cfg(test)]
mod texts;
#[cfg(test)]
mod verdicts;
