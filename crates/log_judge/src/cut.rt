//! Lengths that are a cut.
ghost use Rattle.std.specs.Prelude.{◌≡◌, ◌↔◌, ◌≤◌, ◌+◌, IfOk, IsTrue};
ghost use Rattle.log_judge.specs.Cut.{entries_in, full_cut};
ghost use Rattle.log_judge.specs.Verdict.{IsCut};

use desk_log::{Run, Transcript};
use std::alloc::{AllocError, Global};

/// Whether these lengths are a cut: there is one for each transcript, none of them above its number of entries. Linear
/// in the runs.
pub fn is_cut(transcripts: &[Transcript], cut: &[u64]) -> bool
    ensures { IsTrue result ↔ IsCut transcripts.now cut.now }
{
    if cut.len() != transcripts.len() {
        return false;
    }
    'sites: for i in 0..transcripts.len() {
        let transcript = &transcripts[i];
        if !has_entries(transcript.runs.as_slice(), cut[i]) {
            return false;
        }
    }
    true
}

// Whether runs have so many entries.
fn has_entries(runs: &[Run], n: u64) -> bool
    ensures { IsTrue result ↔ (n ≤ entries_in runs.now) }
{
    let mut left = n;
    let mut rest = runs;
    'runs: while let [run, later @ ..] = rest {
        let here = run.entries.len() as u64;
        if left <= here {
            return true;
        }
        left -= here;
        rest = later;
    }
    left == 0
}

/// The cut at the end of each transcript. Linear in the runs.
pub fn full_cut(alloc: Global, transcripts: &[Transcript]) -> Result<Vec<u64>, AllocError>
    ensures { IfOk result (λ cut. cut.items ≡ full_cut transcripts.now) }
{
    let mut cut = Vec::with_capacity(alloc, transcripts.len())?;
    'sites: for i in 0..transcripts.len() {
        let transcript = &transcripts[i];
        cut.push(count_entries(transcript.runs.as_slice())?)?;
    }
    Ok(cut)
}

/// How many entries runs have together. No memory holds so many that their number does not fit.
pub(crate) fn count_entries(runs: &[Run]) -> Result<u64, AllocError>
    ensures { IfOk result (λ n. n ≡ entries_in runs.now) }
{
    let mut n: u64 = 0;
    let mut rest = runs;
    'runs: while let [run, later @ ..] = rest {
        let Some(sum) = n.checked_add(run.entries.len() as u64) else {
            return Err(AllocError);
        };
        n = sum;
        rest = later;
    }
    Ok(n)
}
