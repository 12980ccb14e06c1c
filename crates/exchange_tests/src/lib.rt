//! Tests of the exchange: sites of one process that tell each other over links, gates that open and shut, peers that go
//! away, logs that get full and stores that fail; and the verdicts on the logs that they leave.
#![tactic(auto)]

#[cfg(test)]
mod ends;
#[cfg(test)]
mod faults;
#[cfg(test)]
mod gates;
#[cfg(test)]
mod growths;
#[cfg(test)]
mod knowledge;
#[cfg(test)]
mod lacks;
#[cfg(test)]
mod listed;
#[cfg(test)]
mod nets;
#[cfg(test)]
mod ordered;
#[cfg(test)]
mod pairs;
#[cfg(test)]
mod sites;
#[cfg(test)]
mod stops;
#[cfg(test)]
mod texts;
#[cfg(test)]
mod verdicts;
#[cfg(test)]
mod waits;
