//! Tests of transcripts as text: closed logs that are written and read again, and lines that are refused.
#![tactic(auto)]

#[cfg(test)]
mod bytes;
#[cfg(test)]
mod entries;
#[cfg(test)]
mod lines;
#[cfg(test)]
mod logs;
#[cfg(test)]
mod parts;
#[cfg(test)]
mod texts;
