//! What the definitions give on small lines and scripts, and that each line says one thing: functions that do nothing,
//! whose contracts are the laws.
ghost use Rattle.std.specs.Prelude.{◌≡◌, ℕ, List, [], ◌∷◌, ◌++◌, codes, Option, Some, None};
ghost use Rattle.merge_core.specs.declared.layout.RecordSpec.{RecordSpec};
ghost use Rattle.merge_core.specs.Delta.{DeltaState, IsDelta};
ghost use Rattle.admission_model.specs.declared.ask.Ask.TheVariants.{Read, Announce, Quill, Leave, Give, Help};
ghost use Rattle.admission_model.specs.declared.ask.Call.TheVariants.{Ask, Merge, Snapshot};
ghost use Rattle.delta_codec.specs.declared.fault.DecodeError.TheVariants.{NotJson, NotCanonical};
ghost use Rattle.delta_codec.specs.DeltaText.{delta_text};
ghost use Rattle.script_text.specs.Examples.{two_records};
ghost use Rattle.site_script.specs.declared.lines.Said.{Said};
ghost use Rattle.site_script.specs.declared.lines.Said.TheVariants.{Asked, Unread};
ghost use Rattle.site_script.specs.Lines.{Says};
ghost use Rattle.site_script.specs.Served.{answers, account_after, places_after, frozen_answers};
ghost use Rattle.site_script.specs.Examples.{first_site, two_calls, two_more};

/// A line says one thing, or nothing.
pub fn line_law()
    ensures { (records : List RecordSpec) → (line : List ℕ) → (one other : Option Said) → Says records line one → Says records line other → one ≡ other }
{}

/// Lines and what they say, where `a` and `stock-2` are records 0 and 1.
pub fn line_examples()
    ensures read { Says two_records (codes "read stock-2 18446744073709551615") (Some (Asked (Ask (Read 1 18446744073709551615)))) }
    ensures announce { Says two_records (codes "announce a 5") (Some (Asked (Ask (Announce 0 5)))) }
    ensures write { Says two_records (codes "write a 5") (Some (Asked (Ask (Quill 0 5)))) }
    ensures leave { Says two_records (codes "leave a 5") (Some (Asked (Ask (Leave 0 5)))) }
    ensures give { Says two_records (codes "give a 65535 0") (Some (Asked (Ask (Give 0 65535 0)))) }
    ensures help { Says two_records (codes "help b") (Some (Asked (Ask (Help 65535)))) }
    ensures holder_too_great { Says two_records (codes "read a 18446744073709551616") None }
    ensures leading_zero { Says two_records (codes "read a 07") None }
    ensures capital { Says two_records (codes "Read a 7") None }
    ensures nothing { Says two_records [] None }
    ensures carriage_return { Says two_records (codes "help a\r") None }
    ensures send { Says two_records (codes "send") (Some (Asked Snapshot)) }
    ensures blank_behind_send { Says two_records (codes "send ") None }
    ensures capital_send { Says two_records (codes "Send") None }
    ensures restart { Says two_records (codes "restart") None }
{}

/// Lines that take a text.
pub fn take_examples()
    ensures delta { (d : DeltaState) → IsDelta d → Says two_records (codes "take " ++ delta_text d) (Some (Asked (Merge d))) }
    ensures nothing { Says two_records (codes "take ") (Some (Unread NotJson)) }
    ensures word { Says two_records (codes "take x") (Some (Unread NotJson)) }
    ensures blank_in_front { Says two_records (codes "take  []") (Some (Unread NotCanonical)) }
    ensures blank_behind { Says two_records (codes "take [] ") (Some (Unread NotCanonical)) }
    ensures no_blank { Says two_records (codes "take") None }
    ensures capital { Says two_records (codes "Take x") None }
    ensures blank_in_front_of_take { Says two_records (codes " take x") None }
    ensures no_text { Says two_records (codes "take " ++ 255 ∷ []) None }
{}

/// Answers of the first site of two, by the places that its log has left, and those of a desk that has stopped.
pub fn answer_examples()
    ensures places { answers first_site 3 two_calls ≡ codes "admitted\nrefused NotJson\nrefused NoRecord\n" }
    ensures places_left { places_after 3 two_calls ≡ 1 }
    ensures more { answers (account_after first_site 3 two_calls) 1 two_more ≡ codes "left reader\nrefused NotCanonical\nrefused LogFull\n" }
    ensures no_place { answers first_site 0 two_calls ≡ codes "refused LogFull\nrefused NotJson\nrefused LogFull\n" }
    ensures still { account_after first_site 0 two_calls ≡ first_site }
    ensures stopped { frozen_answers two_calls ≡ codes "refused Frozen\nrefused NotJson\nrefused Frozen\n" }
{}
