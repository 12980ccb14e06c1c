//! The cut that is asked for.
ghost use Rattle.std.specs.Prelude.{◌≡◌, ℕ, List, Some, None, IfOk, MatchResult, length};
ghost use Rattle.merge_core.specs.Layout.{LayoutState};
ghost use Rattle.desk_log.specs.declared.transcript.Transcript.{Transcript as TranscriptThere};
ghost use Rattle.log_judge.specs.Cut.{runs_at};
ghost use Rattle.log_judge.specs.Stream.{AreAllLogs, AreLogs, no_entries};
ghost use Rattle.judge_engine.specs.Cuts.{IsCutFault, cut_in, lengths_of};

use log_judge::{Keeping, Logs};
use merge_core::Layout;
use std::alloc::{AllocError, Global};
use std::marker::Model;
use text_parts::{Number, Unread, joined_at};
use thiserror::Error;

// How many lengths a cut has at most behind the first.
const MORE_LENGTHS: u16 = u16::MAX;

/// Why a word names no cut.
#[derive(Clone, Copy, Debug, PartialEq, Eq, Error)]
pub enum CutError {
    /// It is neither `full`, nor numbers with commas between them.
    #[error("no cut")]
    BadWord,
    #[error("out of memory")]
    Memory,
}

/// How many entries of each log are looked at: all, or these numbers, the least site's first.
#[derive(Debug, Drop)]
pub struct Cut {
    lengths: Option<Vec<u64>>,
}

// Contracts see the numbers, or none where all entries are looked at.
impl Model for Cut {
    ghost use Rattle.std.specs.Prelude.{ℕ, List, Option, option_map};

    ghost Value = { Option (List ℕ) };

    ghost view = { λ c. option_map (λ v. v.items) c.lengths };
}

impl Cut {
    /// The cut at the end of each log.
    pub fn full() -> Cut
        ensures { result ≡ None }
    {
        Cut { lengths: None }
    }

    /// The cut that a word names: `full`, or at most 65,536 numbers below 2^64 in decimal digits, with commas between
    /// them. Whether there are as many as sites is for the judge to say. Linear in the word.
    pub fn parse(alloc: Global, word: &[u8]) -> Result<Cut, CutError>
        ensures { MatchResult result (λ cut. cut_in word.now ≡ Some cut) (IsCutFault word.now) }
    {
        if word == b"full".as_slice() {
            return Ok(Cut::full());
        }
        match joined_at::<Number, u64>(alloc, MORE_LENGTHS, word) {
            Ok((lengths, [])) => Ok(Cut {
                lengths: Some(lengths),
            }),
            Ok((_, [_, ..])) => Err(CutError::BadWord),
            Err(Unread::Refused) => Err(CutError::BadWord),
            Err(Unread::Memory) => Err(CutError::Memory),
        }
    }

    // The logs before their first line, of which merges are kept so.
    pub(crate) fn fresh_logs(
        &self,
        alloc: Global,
        layout: &Layout,
        keeping: Keeping,
    ) -> Result<Logs, AllocError>
        ensures keeping { IfOk result (λ logs. logs.keeping ≡ keeping) }
        ensures logs { IfOk result (λ logs. (ts : List TranscriptThere) → length ts ≡ layout.now.sites → AreLogs layout.now ts (lengths_of self.now ts) no_entries (runs_at ts) logs) }
    {
        match &self.lengths {
            Some(lengths) => Logs::at_lengths(alloc, layout, lengths.as_slice(), keeping),
            None => Logs::at_end(alloc, layout, keeping),
        }
    }

    // The cut through these logs, as one length for each.
    pub(crate) fn lengths(&self, alloc: Global, logs: &Logs) -> Result<Vec<u64>, AllocError>
        ensures { (layout : LayoutState) (ts : List TranscriptThere) (cut : List ℕ) → AreAllLogs layout ts cut logs.now → IfOk result (λ lengths. lengths.items ≡ lengths_of self.now ts) }
    {
        match &self.lengths {
            Some(lengths) => {
                let mut copied = Vec::new(alloc);
                copied.extend_from_slice(lengths.as_slice())?;
                Ok(copied)
            }
            None => logs.full_cut(alloc),
        }
    }
}
