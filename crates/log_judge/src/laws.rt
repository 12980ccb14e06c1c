//! Laws of the definitions in specs/: functions that do nothing, whose contracts are the laws.
ghost use Rattle.std.specs.Prelude.{◌≡◌, ℕ, List};
ghost use Rattle.merge_core.specs.Layout.{LayoutState};
ghost use Rattle.desk_log.specs.declared.transcript.Transcript.{Transcript};
ghost use Rattle.log_judge.specs.declared.verdict.Verdict.{Verdict};
ghost use Rattle.log_judge.specs.Cut.{full_cut};
ghost use Rattle.log_judge.specs.Verdict.{IsCut, IsVerdict};

/// Of the same closed logs and cut no two verdicts are right: the first one that applies is the only one.
pub fn verdict_law()
    ensures { (layout : LayoutState) → (ts : List Transcript) → (cut : List ℕ) → (v w : Verdict) → IsVerdict layout ts cut v → IsVerdict layout ts cut w → v ≡ w }
{}

/// The cut at the end of each transcript is one.
pub fn full_cut_law()
    ensures { (ts : List Transcript) → IsCut ts (full_cut ts) }
{}
