//! Answering one line.
ghost use Rattle.std.specs.Prelude.{◌≡◌, ◌≢◌, ◌≤◌, ◌++◌, ℕ, List, [], string_bytes, IfOk, Some};
ghost use Rattle.merge_core.specs.Layout.{LayoutState};
ghost use Rattle.admission_model.specs.Account.{Account};
ghost use Rattle.admission_core.specs.Core.{Stands};
ghost use Rattle.serve_engine.specs.declared.request.Request.TheVariants.{Asked};
ghost use Rattle.serve_engine.specs.declared.answering.Told.TheVariants.{LogFailed};
ghost use Rattle.serve_engine.specs.Requests.{Asks, Terms};
ghost use Rattle.serve_engine.specs.Answers.{sessions_line, show_line, too_many_line, unmarked_line, wrong_word_line};
ghost use Rattle.group_names.specs.Names.{generation_of, most_generations};
ghost use Rattle.serve_engine.specs.Fencing.{fence_line};
ghost use Rattle.serve_engine.specs.Marks.{group_word};
ghost use Rattle.serve_engine.specs.Steps.{AreTerms, ServesLine, Shows, space_before, told_text, written};

use crate::fencing::push_fence;
use crate::listing::push_sessions;
use crate::marks::{MarkFault, Marker};
use crate::request::{Request, request_in};
use crate::sending::{finish_mark, push_space};
use crate::showing::push_counts;
use crate::wrong_words::wrong_word;
use admission_core::Call;
use group_names::generation_of;
use live_keeper::LiveKeeper;
use live_site::{CallLog, LiveSite, Outcome};
use site_script::push_no_delta_line;
use std::alloc::{AllocError, Global};
use text_parts::push_field;

/// What is told for a line.
#[derive(Clone, Copy, Debug, PartialEq, Eq)]
pub(crate) enum Told {
    /// The text that was written.
    Text,
    /// That a text is not behind the site's own mark.
    Unmarked(MarkFault),
    /// Want of memory.
    Memory,
    /// That the store failed.
    StoreFault,
    /// That the site serves no more.
    Frozen,
    /// Nothing: the log failed.
    LogFailed,
}

/// The text that is told.
pub(crate) fn told_text(told: Told, text: &str) -> &str
    requires { told ≢ LogFailed }
    ensures { result.now ≡ told_text told text.now }
{
    match told {
        Told::Text => text,
        Told::Unmarked(fault) => unmarked_line(fault),
        Told::Memory => "refused Memory\n",
        Told::StoreFault => "refused StoreFault\n",
        Told::Frozen => "refused Frozen\n",
        Told::LogFailed => "",
    }
}

// The line that tells of the first fault of a mark.
fn unmarked_line(fault: MarkFault) -> &'static str
    ensures { result.now ≡ unmarked_line fault }
{
    match fault {
        MarkFault::NoMark => "refused NoMark\n",
        MarkFault::WrongGroup => "refused WrongGroup\n",
        MarkFault::OtherRecords => "refused OtherRecords\n",
        MarkFault::Damaged => "refused Damaged\n",
    }
}

/// Answers a line: what it asks is read, and carried out at the site. The text, which is empty, gets the answer.
pub(crate) fn serve_line<K: LiveKeeper, L: CallLog>(
    alloc: Global,
    live: &mut LiveSite<K>,
    marker: &Marker,
    line: &[u8],
    text: &mut String,
    log: &mut L,
) -> Told
    requires { string_bytes text.old ≡ [] }
    ensures served { (terms : Terms) (a : Account) → AreTerms terms live.old.core.layout marker.now → Stands a live.old.core
        → ServesLine K.Keeper K.is_outdated L.CallLog terms a live.old live.new log.old log.new line.now result (string_bytes text.new) }
    ensures layout { live.new.core.layout ≡ live.old.core.layout }
    ensures site { live.new.core.site ≡ live.old.core.site }
    ensures honest { K.is_honest live.new.keeper → K.is_honest live.old.keeper }
{
    let Ok(request) = request_in(alloc, live.core().layout(), marker, line) else {
        return Told::Memory;
    };
    match request {
        Some(Request::Asked(call)) => serve_call(live, marker, &call, text, log),
        Some(Request::Unread(error)) => written(push_no_delta_line(text, error)),
        Some(Request::Show(r)) => show(live, r, text),
        Some(Request::Sessions(r)) => list(live, r, text),
        Some(Request::Fence(r, h)) => fence(live, marker, r, h, text),
        Some(Request::Unmarked(fault)) => Told::Unmarked(fault),
        None => {
            let place = wrong_word(live.core().layout(), line);
            written(push_bad_word(text, place))
        }
    }
}

// What is told where an answer was written, or found no memory.
fn written(answer: Result<(), AllocError>) -> Told
    ensures { result ≡ written answer }
{
    match answer {
        Ok(()) => Told::Text,
        Err(_) => Told::Memory,
    }
}

// Writes that a line asks for nothing, with the place of the first word that is not right, and LF.
fn push_bad_word(text: &mut String, place: u16) -> Result<(), AllocError>
    ensures { IfOk result (λ _. string_bytes text.new ≡ string_bytes text.old ++ wrong_word_line place) }
{
    push_field(text, "refused BadWord ", u64::from(place))?;
    text.push_str("\n")
}

// Writes that a delta would give more rights to a record than it has seats, and LF.
fn push_too_many(text: &mut String, r: u16) -> Result<(), AllocError>
    ensures { IfOk result (λ _. string_bytes text.new ≡ string_bytes text.old ++ too_many_line r) }
{
    push_field(text, "refused TooManySeats ", u64::from(r))?;
    text.push_str("\n")
}

// Answers a call.
fn serve_call<K: LiveKeeper, L: CallLog>(
    live: &mut LiveSite<K>,
    marker: &Marker,
    call: &Call,
    text: &mut String,
    log: &mut L,
) -> Told
    requires { string_bytes text.old ≡ [] }
    ensures served { (terms : Terms) (layout : LayoutState) (line : List ℕ) → AreTerms terms layout marker.now → Asks terms line (Some (Asked call.now)) → (a : Account) → Stands a live.old.core
        → ServesLine K.Keeper K.is_outdated L.CallLog terms a live.old live.new log.old log.new line result (string_bytes text.new) }
    ensures layout { live.new.core.layout ≡ live.old.core.layout }
    ensures site { live.new.core.site ≡ live.old.core.site }
    ensures honest { K.is_honest live.new.keeper → K.is_honest live.old.keeper }
{
    let Ok(()) = push_space(text, marker, call) else {
        return Told::Memory;
    };
    carry_out(live, marker, call, text, log)
}

// Answers a call, behind the space for the mark of the delta that it asks for.
fn carry_out<K: LiveKeeper, L: CallLog>(
    live: &mut LiveSite<K>,
    marker: &Marker,
    call: &Call,
    text: &mut String,
    log: &mut L,
) -> Told
    ensures served { (terms : Terms) (layout : LayoutState) (line : List ℕ) → AreTerms terms layout marker.now
        → string_bytes text.old ≡ space_before terms call.now → Asks terms line (Some (Asked call.now))
        → (a : Account) → Stands a live.old.core → ServesLine K.Keeper K.is_outdated L.CallLog terms a live.old live.new log.old log.new line result (string_bytes text.new) }
    ensures layout { live.new.core.layout ≡ live.old.core.layout }
    ensures site { live.new.core.site ≡ live.old.core.site }
    ensures honest { K.is_honest live.new.keeper → K.is_honest live.old.keeper }
{
    match live.serve(call, text, log) {
        Outcome::Answered => {
            finish_mark(text, marker, call);
            Told::Text
        }
        Outcome::TooManySeats(r) => written(push_too_many(text, r)),
        Outcome::Memory => Told::Memory,
        Outcome::StoreFault => Told::StoreFault,
        Outcome::Frozen => Told::Frozen,
        Outcome::LogFailed => Told::LogFailed,
    }
}

// Shows a record's counts.
fn show<K: LiveKeeper>(live: &LiveSite<K>, r: u16, text: &mut String) -> Told
    requires { string_bytes text.old ≡ [] }
    ensures { Shows live.now (λ a. show_line a r) result (string_bytes text.new) }
{
    if live.is_frozen() {
        return Told::Frozen;
    }
    written(push_counts(text, live.core(), r))
}

// Shows a record's sessions.
fn list<K: LiveKeeper>(live: &LiveSite<K>, r: u16, text: &mut String) -> Told
    requires { string_bytes text.old ≡ [] }
    ensures { Shows live.now (λ a. sessions_line a r) result (string_bytes text.new) }
{
    if live.is_frozen() {
        return Told::Frozen;
    }
    written(push_sessions(text, live.core(), r))
}

// Tells the number of a holder that is inside a record.
fn fence<K: LiveKeeper>(
    live: &LiveSite<K>,
    marker: &Marker,
    r: u16,
    h: u64,
    text: &mut String,
) -> Told
    requires { string_bytes text.old ≡ [] }
    ensures { (terms : Terms) → string_bytes marker.now.group ≡ group_word terms.group
        → Shows live.now (λ a. fence_line (generation_of terms.group) a r h) result (string_bytes text.new) }
{
    if live.is_frozen() {
        return Told::Frozen;
    }
    let generation = marked_generation(marker);
    written(push_fence(text, live.core(), generation, r, h))
}

// The generation of the site's group.
fn marked_generation(marker: &Marker) -> u64
    ensures generation { (terms : Terms) → string_bytes marker.now.group ≡ group_word terms.group → result ≡ generation_of terms.group }
    ensures most { result ≤ most_generations }
{
    generation_of(Some(marker.group.as_str()))
}
