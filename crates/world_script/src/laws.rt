//! Small lines and replies, computed by the definitions alone: functions that do nothing, whose contracts say what
//! the definitions give.
ghost use Rattle.std.specs.Prelude.{◌≡◌, [], ◌∷◌, codes, Some, None};
ghost use Rattle.admission_model.specs.declared.ask.Ask.TheVariants.{Read, Give};
ghost use Rattle.admission_model.specs.declared.reply.Refusal.TheVariants.{NoSeat};
ghost use Rattle.admission_model.specs.declared.reply.Reply.TheVariants.{Admitted, Refused};
ghost use Rattle.script_text.specs.Examples.{two_records};
ghost use Rattle.multi_site_world.specs.declared.event.Event.TheVariants.{Call, Send, Take, Restart, Grow};
ghost use Rattle.multi_site_world.specs.declared.event.WorldReply.TheVariants.{Core, Sent, Restarted, Grown, NoSite, NoMessage, NoGrowth};
ghost use Rattle.world_script.specs.Events.{event_in};
ghost use Rattle.world_script.specs.Replies.{reply_lines};

/// Lines and what they say, where `a` and `stock-2` are records 0 and 1.
pub fn event_examples()
    ensures read { event_in two_records (codes "1 read stock-2 7") ≡ Some (Call 1 (Read 1 7)) }
    ensures give { event_in two_records (codes "0 give a 1 2") ≡ Some (Call 0 (Give 0 1 2)) }
    ensures send { event_in two_records (codes "2 send") ≡ Some (Send 2) }
    ensures take { event_in two_records (codes "2 take 30") ≡ Some (Take 2 30) }
    ensures restart { event_in two_records (codes "0 restart") ≡ Some (Restart 0) }
    ensures grow { event_in two_records (codes "0 grow") ≡ Some (Grow 0) }
    ensures greatest_site { event_in two_records (codes "65535 send") ≡ Some (Send 65535) }
    ensures site_too_great { event_in two_records (codes "65536 send") ≡ None }
    ensures greatest_message { event_in two_records (codes "0 take 18446744073709551615") ≡ Some (Take 0 18446744073709551615) }
    ensures message_too_great { event_in two_records (codes "0 take 18446744073709551616") ≡ None }
    ensures nothing { event_in two_records [] ≡ None }
    ensures site_alone { event_in two_records (codes "0") ≡ None }
    ensures site_and_blank { event_in two_records (codes "0 ") ≡ None }
    ensures no_site { event_in two_records (codes "send") ≡ None }
    ensures blank_in_front { event_in two_records (codes " 0 send") ≡ None }
    ensures blank_behind { event_in two_records (codes "0 send ") ≡ None }
    ensures two_blanks { event_in two_records (codes "0  send") ≡ None }
    ensures carriage_return { event_in two_records (codes "0 send\r") ≡ None }
    ensures leading_zero { event_in two_records (codes "00 send") ≡ None }
    ensures sign { event_in two_records (codes "+0 send") ≡ None }
    ensures word_behind_grow { event_in two_records (codes "0 grow 1") ≡ None }
    ensures word_behind_take { event_in two_records (codes "0 take 1 2") ≡ None }
    ensures take_alone { event_in two_records (codes "0 take") ≡ None }
    ensures capital { event_in two_records (codes "0 Send") ≡ None }
{}

/// Replies, one a line.
pub fn reply_examples()
    ensures lines { reply_lines (Core Admitted ∷ (Core (Refused (NoSeat 0)) ∷ (Sent 2 ∷ []))) ≡ codes "admitted\nrefused NoSeat 0\nsent 2\n" }
    ensures started { reply_lines (Restarted ∷ (Grown ∷ [])) ≡ codes "restarted\ngrown\n" }
    ensures refusals { reply_lines (NoSite ∷ (NoMessage ∷ (NoGrowth ∷ []))) ≡ codes "refused NoSite\nrefused NoMessage\nrefused NoGrowth\n" }
{}
