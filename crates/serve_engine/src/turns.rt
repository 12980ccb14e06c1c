//! One turn of the conversation.
ghost use Rattle.std.specs.Prelude.{◌≡◌, ℕ, true, false};
ghost use Rattle.admission_model.specs.Account.{Account};
ghost use Rattle.admission_core.specs.Kept.{DurableState};
ghost use Rattle.admission_core.specs.Core.{Stands};
ghost use Rattle.serve_engine.specs.Requests.{Terms};
ghost use Rattle.serve_engine.specs.Steps.{AnswersHeard, AreTerms, Tells, TurnsTo, Works};

use crate::answering::{Told, serve_line, told_text};
use crate::marks::Marker;
use line_conversation::{Conversation, Next};
use live_keeper::LiveKeeper;
use live_site::{CallLog, LiveSite, StorePlace};
use std::alloc::Global;

/// What a turn came to.
#[derive(Clone, Copy, Debug, PartialEq, Eq)]
pub(crate) enum Turned {
    /// A line was answered.
    Next,
    /// No line came any more.
    End,
    /// The conversation or the log failed.
    Failed,
}

/// Reads a line and answers it.
pub(crate) fn take_turn<K: LiveKeeper, C: Conversation, L: CallLog, P: StorePlace>(
    alloc: Global,
    live: &mut LiveSite<K>,
    marker: &Marker,
    conversation: &mut C,
    log: &mut L,
    place: &P,
    text: &mut String,
) -> Turned
    ensures turned { (terms : Terms) (a : Account) (first : DurableState) (keeper : K) (talk : C) (began : L) (n : ℕ) → AreTerms terms live.old.core.layout marker.now
        → Works K.Keeper K.is_outdated C.Conversation L.CallLog terms a first keeper live.old talk conversation.old began log.old n
        → TurnsTo K.Keeper K.is_outdated C.Conversation L.CallLog terms a first keeper live.new talk conversation.new began log.new n result }
    ensures layout { live.new.core.layout ≡ live.old.core.layout }
    ensures site { live.new.core.site ≡ live.old.core.site }
    ensures honest { K.is_honest live.new.keeper → K.is_honest live.old.keeper }
{
    match conversation.next_line() {
        Next::Line => answer_line(alloc, live, marker, conversation, log, place, text),
        Next::TooLong => tell(conversation, "refused TooLong\n"),
        Next::Memory => tell(conversation, "refused Memory\n"),
        Next::Torn => tell(conversation, "refused BadWord\n"),
        Next::End => Turned::End,
        Next::Failed => Turned::Failed,
    }
}

/// Answers the line that is kept. Where the store is no longer at its place, that is told, and the site serves no more.
pub(crate) fn answer_line<K: LiveKeeper, C: Conversation, L: CallLog, P: StorePlace>(
    alloc: Global,
    live: &mut LiveSite<K>,
    marker: &Marker,
    conversation: &mut C,
    log: &mut L,
    place: &P,
    text: &mut String,
) -> Turned
    ensures answered { (terms : Terms) (a : Account) → AreTerms terms live.old.core.layout marker.now → Stands a live.old.core
        → AnswersHeard K.Keeper K.is_outdated C.Conversation L.CallLog terms a live.old live.new conversation.old conversation.new log.old log.new (C.kept conversation.old) result }
    ensures layout { live.new.core.layout ≡ live.old.core.layout }
    ensures site { live.new.core.site ≡ live.old.core.site }
    ensures honest { K.is_honest live.new.keeper → K.is_honest live.old.keeper }
{
    if is_gone(live, place) {
        live.freeze();
        return tell(conversation, "refused StoreFault\n");
    }
    text.clear();
    let told = serve_line(alloc, live, marker, conversation.line(), text, log);
    if let Told::LogFailed = told {
        return Turned::Failed;
    }
    tell(conversation, told_text(told, text.as_str()))
}

// Whether a site that serves can't go on, as its store is no longer at its place.
fn is_gone<K: LiveKeeper, P: StorePlace>(live: &LiveSite<K>, place: &P) -> bool
    ensures { result ≡ true → live.now.frozen ≡ false }
{
    !live.is_frozen() && !place.is_there()
}

/// Tells a text.
pub(crate) fn tell<C: Conversation>(conversation: &mut C, text: &str) -> Turned
    ensures told { Tells C.Conversation conversation.old conversation.new text.now result }
    ensures line { C.kept conversation.new ≡ C.kept conversation.old }
{
    if conversation.tell(text) {
        return Turned::Next;
    }
    Turned::Failed
}
