use crate::counts::Refusals;

/// The most turns of a run.
pub const MOST_TURNS: u64 = 1_000_000_000;

/// What an outbox did.
#[derive(Clone, Copy, Debug, PartialEq, Eq)]
pub struct OutReport {
    /// The turns that it began.
    pub turns: u64,
    /// How often the site gave seats away as it was asked to help.
    pub helped: u64,
    /// The texts that it sent.
    pub sent: u64,
    /// The turns that met want of memory.
    pub memory: u64,
}

/// What an inbox did.
#[derive(Debug, Drop)]
pub struct InReport {
    /// The texts that it took.
    pub taken: u64,
    /// How many counters rose.
    pub raised: u64,
    /// What was refused, and how often.
    pub refused: Refusals,
    /// The turns that met want of memory.
    pub memory: u64,
}
