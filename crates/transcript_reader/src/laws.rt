//! Laws of the definitions in specs/: functions that do nothing, whose contracts are the laws.
ghost use Rattle.std.specs.Prelude.{◌≡◌, ℕ, List};
ghost use Rattle.merge_core.specs.Layout.{IsLayout, LayoutState};
ghost use Rattle.desk_log.specs.declared.transcript.Transcript.{Transcript};
ghost use Rattle.transcript_reader.specs.declared.runs.SiteRun.{SiteRun};
ghost use Rattle.transcript_reader.specs.Reading.{AreLines, AreTranscriptsOf, IsRefusedAt};

/// A text has one reading at most: no two lists of runs have the same lines, and so no two lists of transcripts the same
/// bytes. Lines that are those of runs are refused at none of them, and no lines are refused at two.
pub fn reading_law()
    ensures one_reading { (layout : LayoutState) → IsLayout layout → (lines : List (List ℕ)) → (rs qs : List SiteRun)
        → AreLines layout lines rs → AreLines layout lines qs → rs ≡ qs }
    ensures one_answer { (layout : LayoutState) → IsLayout layout → (bytes : List ℕ) → (ts us : List Transcript)
        → AreTranscriptsOf layout bytes ts → AreTranscriptsOf layout bytes us → ts ≡ us }
    ensures none_beside { (layout : LayoutState) → IsLayout layout → (lines : List (List ℕ)) → (rs : List SiteRun) → (number : ℕ)
        → AreLines layout lines rs → ¬ IsRefusedAt layout lines number }
    ensures one_refused { (layout : LayoutState) → IsLayout layout → (lines : List (List ℕ)) → (number other : ℕ)
        → IsRefusedAt layout lines number → IsRefusedAt layout lines other → number ≡ other }
{}
