//! Small lines and replies, computed by the definitions alone: functions that do nothing, whose contracts say what the
//! definitions give.
ghost use Rattle.std.specs.Prelude.{◌≡◌, [], ◌∷◌, codes, Some, None};
ghost use Rattle.merge_core.specs.declared.delta.Row.{Row};
ghost use Rattle.admission_model.specs.declared.ask.Ask.TheVariants.{Read, Announce, Quill, Leave, Give, Help};
ghost use Rattle.session_list.specs.declared.session.Phase.TheVariants.{Reader, Waiting, Writer};
ghost use Rattle.admission_model.specs.declared.reply.Refusal.TheVariants.{NoRecord, WriterAnnounced, NoSeat, MissingSeats, TooFewRights, OtherLayout, BadRow, OwnRowAhead};
ghost use Rattle.admission_model.specs.declared.reply.Reply.TheVariants.{Admitted, Announced, Left, Given, Gave, Merged, Snapshot, Refused};
ghost use Rattle.script_text.specs.Words.{words_of, number_word, short_word, record_word};
ghost use Rattle.script_text.specs.Replies.{phase_word, reply_text, unread_line};
ghost use Rattle.script_text.specs.Examples.{two_records, asked};

/// Words and the numbers in them, with the greatest numbers of their kinds and the first beyond.
pub fn word_examples()
    ensures words { words_of (codes "read a 7") ≡ codes "read" ∷ codes "a" ∷ codes "7" ∷ [] }
    ensures empty { words_of [] ≡ [] ∷ [] }
    ensures blank_in_front { words_of (codes " a") ≡ [] ∷ codes "a" ∷ [] }
    ensures blank_behind { words_of (codes "a ") ≡ codes "a" ∷ [] ∷ [] }
    ensures two_blanks { words_of (codes "a  b") ≡ codes "a" ∷ [] ∷ codes "b" ∷ [] }
    ensures number { number_word (codes "120") ≡ Some 120 }
    ensures zero { number_word (codes "0") ≡ Some 0 }
    ensures leading_zero { number_word (codes "01") ≡ None }
    ensures no_digit { number_word [] ≡ None }
    ensures sign { number_word (codes "+1") ≡ None }
    ensures letter_behind { number_word (codes "1a") ≡ None }
    ensures greatest { number_word (codes "18446744073709551615") ≡ Some 18446744073709551615 }
    ensures too_great { number_word (codes "18446744073709551616") ≡ None }
    ensures greatest_short { short_word (codes "65535") ≡ Some 65535 }
    ensures too_great_short { short_word (codes "65536") ≡ None }
{}

/// Records by their names: `a` and `stock-2` are records 0 and 1.
pub fn record_examples()
    ensures first { record_word two_records (codes "a") ≡ Some 0 }
    ensures second { record_word two_records (codes "stock-2") ≡ Some 1 }
    ensures unknown { record_word two_records (codes "b") ≡ Some 65535 }
    ensures longest { record_word two_records (codes "abcdefghijklmnop") ≡ Some 65535 }
    ensures too_long { record_word two_records (codes "abcdefghijklmnopq") ≡ None }
    ensures capital { record_word two_records (codes "aB") ≡ None }
    ensures digit_first { record_word two_records (codes "2b") ≡ None }
    ensures empty { record_word two_records [] ≡ None }
{}

/// Lines and what they ask.
pub fn ask_examples()
    ensures read { asked (codes "read a 7") ≡ Some (Read 0 7) }
    ensures announce { asked (codes "announce stock-2 5") ≡ Some (Announce 1 5) }
    ensures write { asked (codes "write a 5") ≡ Some (Quill 0 5) }
    ensures leave { asked (codes "leave stock-2 0") ≡ Some (Leave 1 0) }
    ensures give { asked (codes "give a 1 2") ≡ Some (Give 0 1 2) }
    ensures help { asked (codes "help stock-2") ≡ Some (Help 1) }
    ensures unknown_record { asked (codes "read b 7") ≡ Some (Read 65535 7) }
    ensures greatest_holder { asked (codes "read a 18446744073709551615") ≡ Some (Read 0 18446744073709551615) }
    ensures holder_too_great { asked (codes "read a 18446744073709551616") ≡ None }
    ensures greatest_site { asked (codes "give a 65535 1") ≡ Some (Give 0 65535 1) }
    ensures site_too_great { asked (codes "give a 65536 1") ≡ None }
    ensures other_verb { asked (codes "reed a 7") ≡ None }
    ensures nothing { asked [] ≡ None }
    ensures verb_alone { asked (codes "help") ≡ None }
    ensures no_holder { asked (codes "read a") ≡ None }
    ensures no_seats { asked (codes "give a 1") ≡ None }
    ensures one_word_too_many { asked (codes "help a 7") ≡ None }
    ensures holder_twice { asked (codes "read a 7 7") ≡ None }
    ensures seats_twice { asked (codes "give a 1 2 2") ≡ None }
    ensures blank_in_front { asked (codes " read a 7") ≡ None }
    ensures two_blanks { asked (codes "read  a 7") ≡ None }
    ensures blank_behind { asked (codes "read a 7 ") ≡ None }
    ensures blank_behind_a_name { asked (codes "help a ") ≡ None }
    ensures leading_zero { asked (codes "read a 07") ≡ None }
    ensures capital { asked (codes "Read a 7") ≡ None }
{}

/// Replies and their texts.
pub fn reply_examples()
    ensures reader { phase_word Reader ≡ codes "reader" }
    ensures waiting { phase_word Waiting ≡ codes "waiting" }
    ensures writer { phase_word Writer ≡ codes "writer" }
    ensures admitted { reply_text Admitted ≡ codes "admitted" }
    ensures announced { reply_text (Announced 3) ≡ codes "announced 3" }
    ensures left_reader { reply_text (Left Reader) ≡ codes "left reader" }
    ensures left_writer { reply_text (Left Writer) ≡ codes "left writer" }
    ensures withdrawn { reply_text (Left Waiting) ≡ codes "withdrawn" }
    ensures given { reply_text Given ≡ codes "given" }
    ensures gave { reply_text (Gave 1 2) ≡ codes "gave 1 2" }
    ensures merged { reply_text (Merged 0) ≡ codes "merged 0" }
    ensures snapshot { reply_text (Snapshot (record { from = 0; rows = [] })) ≡ codes "{\"from\":0,\"rows\":[],\"v\":1}" }
    ensures no_record { reply_text (Refused NoRecord) ≡ codes "refused NoRecord" }
    ensures writer_announced { reply_text (Refused (WriterAnnounced 1)) ≡ codes "refused WriterAnnounced 1" }
    ensures no_seat { reply_text (Refused (NoSeat 0)) ≡ codes "refused NoSeat 0" }
    ensures missing_seats { reply_text (Refused (MissingSeats 2 3)) ≡ codes "refused MissingSeats 2 3" }
    ensures too_few_rights { reply_text (Refused (TooFewRights 2)) ≡ codes "refused TooFewRights 2" }
    ensures other_layout { reply_text (Refused (OtherLayout 1)) ≡ codes "refused OtherLayout 1" }
    ensures bad_row { reply_text (Refused (BadRow 1)) ≡ codes "refused BadRow 1" }
    ensures own_row_ahead { reply_text (Refused (OwnRowAhead 2)) ≡ codes "refused OwnRowAhead 2" }
    ensures unread { unread_line 3 ≡ codes "line 3 refused BadWord\n" }
{}
