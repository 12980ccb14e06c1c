//! What is noted of a text of one answer.
ghost use Rattle.std.specs.Prelude.{◌≡◌, ◌∷◌, ◌++◌, ◌||◌, [], ℕ, Bool, List};
ghost use Rattle.text_input.specs.Lines.{lines_of, HasNoLf};
ghost use Rattle.program_shell.specs.Notes.{ends_refused, is_refusal, some_outdated, tells_outdated};

/// A text of one answer and its LF is noted as that answer, whatever was known before.
pub fn one_answer_is_noted()
    ensures refused { (known : Bool) (answer : List ℕ) → HasNoLf answer → ends_refused known (lines_of (answer ++ 10 ∷ [])) ≡ is_refusal answer }
    ensures outdated { (known : Bool) (answer : List ℕ) → HasNoLf answer
        → some_outdated known (lines_of (answer ++ 10 ∷ [])) ≡ known || tells_outdated answer }
{}
