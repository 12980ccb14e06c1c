//! Laws of the definitions in specs/: functions that do nothing, whose contracts are the laws.
ghost use Rattle.std.specs.Prelude.{◌≡◌, ◌++◌, ◌∷◌, [], List, Some, codes};
ghost use Rattle.merge_core.specs.Layout.{Shape};
ghost use Rattle.merge_core.specs.Delta.{DeltaState};
ghost use Rattle.merge_core.specs.Book.{BookState, book_shape, counter_of};
ghost use Rattle.merge_core.specs.declared.check.CheckError.TheVariants.{OtherLayout};
ghost use Rattle.merge_core.specs.declared.layout.LayoutError.TheVariants.{TooManySites};
ghost use Rattle.merge_core.specs.Layout.{layout_fault, shape_of};
ghost use Rattle.merge_core.specs.Moved.{all_moved};
ghost use Rattle.merge_core.specs.Tests.{is_placed, first_failing};
ghost use Rattle.delta_codec.specs.DeltaText.{delta_text};
ghost use Rattle.text_input.specs.Lines.{lines_of};
ghost use Rattle.join_engine.specs.declared.fault.LineFault.TheVariants.{Unfit};
ghost use Rattle.join_engine.specs.Engine.{book_line};
ghost use Rattle.join_engine.specs.Joins.{IsJoinOf, SameDeltas};
ghost use Rattle.join_engine.specs.Texts.{refusal_text};
ghost use Rattle.join_engine.specs.Examples.{joined_rows, two_sites, seat_given, seat_given_text, writer_waits, given_and_waiting, three_sites, announced, two_sent, three_sent, three_sent_text, three_sent_book, told_alone, told_by_both, lacks_its_own, told_of_three};

/// The same deltas join to one book, in whatever order and however often they come: so a text that is
/// written is a function of the lines, and no order or repeat of the lines changes it.
pub fn joined_book_law()
    ensures { (shape : Shape) (ds es : List DeltaState) (a b : BookState) → SameDeltas ds es → IsJoinOf shape ds a → IsJoinOf shape es b → a ≡ b }
{}

/// Small inputs, by computation alone.
pub fn examples()
    ensures lines { lines_of (codes "{}\n\n{") ≡ codes "{}" ∷ ([] ∷ (codes "{" ∷ [])) }
    ensures text { delta_text seat_given ≡ seat_given_text }
    ensures greater { joined_rows two_sites (seat_given ∷ (writer_waits ∷ [])) ≡ given_and_waiting }
    ensures either_order { joined_rows two_sites (writer_waits ∷ (seat_given ∷ [])) ≡ given_and_waiting }
    ensures repeated { joined_rows (shape_of three_sites) (three_sent ∷ (two_sent ∷ (two_sent ∷ []))) ≡ three_sent.rows }
    ensures all_three { joined_rows (shape_of three_sites) (announced ∷ (two_sent ∷ (three_sent ∷ []))) ≡ three_sent.rows }
    ensures shown { all_moved (book_shape three_sent_book) (counter_of three_sent_book) ≡ three_sent.rows }
    ensures narrower { joined_rows two_sites (record { from = 0; rows = told_alone ∷ [] } ∷ []) ≡ told_by_both ∷ [] }
    ensures too_narrow { first_failing (is_placed two_sites) (told_alone ∷ (lacks_its_own ∷ [])) ≡ Some 1 }
    ensures too_wide { first_failing (is_placed two_sites) (told_of_three ∷ []) ≡ Some 0 }
    ensures written { book_line three_sent_book ≡ three_sent_text ++ codes "\n" }
    ensures refused { refusal_text 2 (Unfit (OtherLayout 1)) ≡ codes "line 2 refused OtherLayout 1\n" }
    ensures many_sites { layout_fault 17 three_sites.records ≡ Some TooManySites }
{}
