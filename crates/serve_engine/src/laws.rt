//! What marks and fencing numbers tell apart, and which word of a line is not right: functions that do nothing, whose contracts
//! are the laws.
ghost use Rattle.std.specs.Prelude.{◌≡◌, ◌≢◌, ◌↔◌, ◌<◌, ◌≤◌, ℕ, List, ◌++◌, Option, codes, Some, []};
ghost use Rattle.merge_core.specs.Layout.{LayoutState};
ghost use Rattle.merge_core.specs.Delta.{DeltaState, IsDelta};
ghost use Rattle.admission_model.specs.declared.ask.Call.TheVariants.{Merge};
ghost use Rattle.admission_model.specs.Account.{Account};
ghost use Rattle.admission_model.specs.Reached.{IsReached};
ghost use Rattle.delta_codec.specs.DeltaText.{delta_text};
ghost use Rattle.serve_engine.specs.declared.marks.Marking.TheVariants.{Marked};
ghost use Rattle.serve_engine.specs.declared.marks.MarkFault.TheVariants.{NoMark, WrongGroup, OtherRecords, Damaged};
ghost use Rattle.serve_engine.specs.declared.request.Request.{Request};
ghost use Rattle.serve_engine.specs.declared.request.Request.TheVariants.{Asked, Unmarked};
ghost use Rattle.serve_engine.specs.Marks.{IsMark, IsMarked, IsWord, Mark, group_word, mark_of, records_digest, text_digest, with_mark, IsFault, first_digits};
ghost use Rattle.serve_engine.specs.Fencing.{fence_number};
ghost use Rattle.serve_engine.specs.Requests.{Asks, terms_of};
ghost use Rattle.script_text.specs.Examples.{two_records};
ghost use Rattle.serve_engine.specs.BadWords.{wrong_word};

/// What a site sends, each site of its group takes whose records have the same digest. Any other text is refused by the
/// name of the first fault of its mark, and asks for nothing else: it has no mark, or its mark is of another group, of
/// records of another digest, or of another text. So a delta is merged from no line but one that has exactly the site's own
/// mark for it. That other records have another digest is a property of SHA-256, and is not proved here.
pub fn group_law()
    ensures own { (layout sender : LayoutState) (group : Option (List ℕ)) (d : DeltaState) → IsWord (group_word group) → records_digest sender.records ≡ records_digest layout.records → IsDelta d
        → Asks (terms_of layout group Marked) (codes "take " ++ with_mark (mark_of group (records_digest sender.records) (delta_text d)) (delta_text d)) (Some (Asked (Merge d))) }
    ensures merges { (layout : LayoutState) (group : Option (List ℕ)) (line : List ℕ) (d : DeltaState) → Asks (terms_of layout group Marked) line (Some (Asked (Merge d)))
        → line ≡ codes "take " ++ with_mark (mark_of group (records_digest layout.records) (delta_text d)) (delta_text d) }
    ensures no_mark { (layout : LayoutState) (group : Option (List ℕ)) (bytes : List ℕ) (request : Option Request) → ((mark : Mark) → (text : List ℕ) → ¬ IsMarked bytes mark text)
        → (Asks (terms_of layout group Marked) (codes "take " ++ bytes) request ↔ (request ≡ Some (Unmarked NoMark))) }
    ensures other_group { (layout : LayoutState) (group : Option (List ℕ)) (mark : Mark) (text : List ℕ) (request : Option Request) → IsMark mark
        → mark.group ≢ group_word group
        → (Asks (terms_of layout group Marked) (codes "take " ++ with_mark mark text) request ↔ (request ≡ Some (Unmarked WrongGroup))) }
    ensures other_records { (layout : LayoutState) (group : Option (List ℕ)) (mark : Mark) (text : List ℕ) (request : Option Request) → IsMark mark
        → mark.group ≡ group_word group → mark.records ≢ records_digest layout.records
        → (Asks (terms_of layout group Marked) (codes "take " ++ with_mark mark text) request ↔ (request ≡ Some (Unmarked OtherRecords))) }
    ensures other_text { (layout : LayoutState) (group : Option (List ℕ)) (mark : Mark) (text : List ℕ) (request : Option Request) → IsMark mark
        → mark.group ≡ group_word group → mark.records ≡ records_digest layout.records → mark.checksum ≢ text_digest text
        → (Asks (terms_of layout group Marked) (codes "take " ++ with_mark mark text) request ↔ (request ≡ Some (Unmarked Damaged))) }
{}

/// Bytes behind `take `, and their first fault at a site of the group `payroll` whose records' digest has these digits. The
/// digest is that of FIPS 180-4's own example.
pub fn mark_examples()
    ensures nothing { IsFault (Some (codes "payroll")) (codes "0123456789abcdef") [] NoMark }
    ensures text_alone { IsFault (Some (codes "payroll")) (codes "0123456789abcdef") (codes "{}") NoMark }
    ensures two_words { IsFault (Some (codes "payroll")) (codes "0123456789abcdef") (codes "payroll 0123456789abcdef {}") NoMark }
    ensures no_last_blank { IsFault (Some (codes "payroll")) (codes "0123456789abcdef") (codes "payroll 0123456789abcdef ba7816bf") NoMark }
    ensures no_group { IsFault (Some (codes "payroll")) (codes "0123456789abcdef") (codes " 0123456789abcdef ba7816bf abc") NoMark }
    ensures fifteen_digits { IsFault (Some (codes "payroll")) (codes "0123456789abcdef") (codes "payroll 0123456789abcde ba7816bf abc") NoMark }
    ensures nine_digits { IsFault (Some (codes "payroll")) (codes "0123456789abcdef") (codes "payroll 0123456789abcdef ba7816bf8 abc") NoMark }
    ensures capital { IsFault (Some (codes "payroll")) (codes "0123456789abcdef") (codes "payroll 0123456789abcdeF ba7816bf abc") NoMark }
    ensures other_group { IsFault (Some (codes "payroll")) (codes "0123456789abcdef") (codes "stock 0123456789abcdef ba7816bf abc") WrongGroup }
    ensures other_records { IsFault (Some (codes "payroll")) (codes "0123456789abcdef") (codes "payroll fedcba9876543210 ba7816bf abc") OtherRecords }
    ensures damaged { IsFault (Some (codes "payroll")) (codes "0123456789abcdef") (codes "payroll 0123456789abcdef ba7816be abc") Damaged }
    ensures own { IsMarked (codes "payroll 0123456789abcdef ba7816bf abc") (mark_of (Some (codes "payroll")) (codes "0123456789abcdef") (codes "abc")) (codes "abc") }
    ensures digest { first_digits 8 (codes "abc") ≡ codes "ba7816bf8f01cfea" }
{}

/// Lines that ask for nothing, and the first word of each that is not right, where there are two records, `a` and
/// `stock-2`. Words are counted from 1. The first clauses have a verb that there is not; the next ones a word that can't
/// stand at its place, one that is missing, and one too many.
pub fn bad_word_examples()
    ensures other_verb { wrong_word two_records (codes "reed a 7") ≡ 1 }
    ensures capital_verb { wrong_word two_records (codes "Read a 7") ≡ 1 }
    ensures empty_line { wrong_word two_records [] ≡ 1 }
    ensures blank_in_front { wrong_word two_records (codes " read a 7") ≡ 1 }
    ensures capital_name { wrong_word two_records (codes "help A") ≡ 2 }
    ensures two_blanks { wrong_word two_records (codes "read  a 7") ≡ 2 }
    ensures no_holder { wrong_word two_records (codes "read a x") ≡ 3 }
    ensures site_too_great { wrong_word two_records (codes "give a 70000 1") ≡ 3 }
    ensures no_seats { wrong_word two_records (codes "give a 1 x") ≡ 4 }
    ensures verb_alone { wrong_word two_records (codes "show") ≡ 2 }
    ensures missing_holder { wrong_word two_records (codes "read a") ≡ 3 }
    ensures missing_seats { wrong_word two_records (codes "give a 1") ≡ 4 }
    ensures one_word_more { wrong_word two_records (codes "read a 7 8") ≡ 4 }
    ensures seats_twice { wrong_word two_records (codes "give a 1 2 3") ≡ 5 }
    ensures name_twice { wrong_word two_records (codes "sessions a stock-2") ≡ 3 }
    ensures blank_behind { wrong_word two_records (codes "send ") ≡ 2 }
    ensures no_text { wrong_word two_records (codes "take") ≡ 2 }
{}

/// A number of one generation of a group is less than each number of a later one, whatever sites they are of and whatever
/// these have done.
pub fn generation_law()
    ensures { (a b : Account) → IsReached a → a.sites ≤ 16 → (r q earlier later : ℕ) → earlier < later → fence_number earlier a r < fence_number later b q }
{}
