//! The engine of `serve` where the changes of calls that wait are committed together.
ghost use Rattle.std.specs.Prelude.{◌≡◌, ◌<◌, ◌∷◌, ◌++◌, ℕ, List, MatchOption, None, [], false};
ghost use Rattle.std.specs.Option.{option_copied};
ghost use Rattle.admission_model.specs.Account.{Account};
ghost use Rattle.admission_core.specs.Core.{Stands};
ghost use Rattle.admission_core.specs.Kept.{durable_of};
ghost use Rattle.desk_log.specs.Desk.{IsMadeFor};
ghost use Rattle.line_conversation.specs.Turns.{Line, Whole};
ghost use Rattle.serve_engine.specs.Requests.{Terms};
ghost use Rattle.serve_engine.specs.Rounds.{EndsServingTogether, EndsSiteTogether};
ghost use Rattle.serve_engine.specs.Steps.{AreTerms};
ghost use Rattle.serve_engine.specs.Together.{BlockTo, HasHeard, InBlock, IsAt, HoldsRound, IsUnkept, Start, TellsOther, TellsText, TurnsTogether, failed_texts, faults, lines_behind, whole_lines};

use crate::answering::{Told, serve_line, told_text};
use crate::engine::ended;
use crate::filling::{Behind, serve_held};
use crate::marks::{Marker, Marking, marker_of};
use crate::round::Round;
use crate::turns::{Turned, answer_line, tell};
use durable_keeper::KeeperError;
use exit_status::Status;
use line_conversation::{Next, RoundConversation};
use live_site::{LiveSite, NoLog, StorePlace};
use merge_core::Layout;
use round_keeper::RoundKeeper;
use site_engine::opening_status;
use std::alloc::Global;
use std::marker::Brand;

/// Serves a site as [`serve_engine`](crate::serve_engine) does without a log, but for this: the lines that have come already
/// when one is read, at most `most` with it, make a round. They are served one after the other, their changes are committed
/// together, and only then are they answered, in their order. It never waits for a line more. It looks before each round whether the
/// store is at its place.
///
/// A fault of the store as a round is committed is told for each of its lines from the first one with a change on, whatever
/// its own reply, and the site serves no more. Where no memory is found for a round, or a delta shows that the store
/// is older than what others have seen, nothing of the round is kept: the site begins again from what its keeper gives back, and
/// the lines are served one by one. A line of which no copy can be kept is served by itself behind the round.
pub fn serve_together<K: RoundKeeper, C: RoundConversation, P: StorePlace>(
    alloc: Global,
    keeper: K,
    layout: Layout,
    site: u16,
    group: Option<&str>,
    marking: Marking,
    most: usize,
    conversation: &mut C,
    place: &P,
) -> (Status, K)
    requires { site < layout.sites → IsMadeFor K.Keeper keeper layout site }
    ensures made_for { site < layout.sites → IsMadeFor K.Keeper result.1 layout site }
    ensures ended { EndsServingTogether K.Keeper K.is_outdated C.Conversation most layout site (option_copied group.entry) marking keeper result.1
        conversation.old conversation.new result.0 }
{
    let live = match LiveSite::open(alloc, keeper, layout, site) {
        Ok(live) => live,
        Err((error, keeper)) => return (opening_status(error), keeper),
    };
    let Ok(marker) = marker_of(alloc, live.core().layout(), group, marking) else {
        return (Status::Memory, live.into_keeper());
    };
    let (live, ended) = serve_rounds(alloc, live, &marker, most, conversation, place);
    (ended, live.into_keeper())
}

// Serves the lines of a conversation.
fn serve_rounds<K: RoundKeeper, C: RoundConversation, P: StorePlace>(
    alloc: Global,
    live: LiveSite<K>,
    marker: &Marker,
    most: usize,
    conversation: &mut C,
    place: &P,
) -> (LiveSite<K>, Status)
    requires { live.frozen ≡ false }
    ensures ended { (terms : Terms) (a : Account) → AreTerms terms live.core.layout marker.now → Stands a live.core
        → EndsSiteTogether K.Keeper K.is_outdated C.Conversation most terms live.core.layout live.core.site a (durable_of a) live.keeper result.0.keeper conversation.old conversation.new result.1 }
    ensures layout { result.0.core.layout ≡ live.core.layout }
    ensures site { result.0.core.site ≡ live.core.site }
    ensures honest { K.is_honest result.0.keeper → K.is_honest live.keeper }
{
    let mut live = live;
    let mut round = Round::new(alloc);
    let mut text = String::new(alloc);
    let mut count = 0u64;
    while count < u64::MAX {
        let turned = match take_alone(
            alloc,
            &mut live,
            marker,
            most,
            conversation,
            place,
            &mut text,
        ) {
            Some(turned) => turned,
            None => {
                let (after, turned) = answer_round(
                    alloc,
                    live,
                    marker,
                    most,
                    conversation,
                    place,
                    &mut round,
                    &mut text,
                );
                live = after;
                turned
            }
        };
        match turned {
            Turned::Next => count += 1,
            Turned::End => {
                let ended = ended(&live);
                return (live, ended);
            }
            Turned::Failed => return (live, Status::Io),
        }
    }
    (live, Status::Io)
}

// Reads a line, and answers it if it is served by itself. Nothing, where it begins a round: it is not served yet.
fn take_alone<K: RoundKeeper, C: RoundConversation, P: StorePlace>(
    alloc: Global,
    live: &mut LiveSite<K>,
    marker: &Marker,
    most: usize,
    conversation: &mut C,
    place: &P,
    text: &mut String,
) -> Option<Turned>
    ensures taken { (s : Start K C) (n : ℕ) → IsAt s live.old marker.now
        → HasHeard K.Keeper K.is_outdated C.Conversation s live.old conversation.old [] n
        → MatchOption result
        (HasHeard K.Keeper K.is_outdated C.Conversation s live.new conversation.new (Whole (C.kept conversation.new) ∷ []) n)
        (TurnsTogether K.Keeper K.is_outdated C.Conversation s live.new conversation.new n) }
    ensures running { result ≡ None → live.new.frozen ≡ false }
    ensures layout { live.new.core.layout ≡ live.old.core.layout }
    ensures site { live.new.core.site ≡ live.old.core.site }
    ensures honest { K.is_honest live.new.keeper → K.is_honest live.old.keeper }
{
    match conversation.next_line() {
        Next::Line => {}
        other => return Some(answer_other(conversation, other)),
    }
    if !is_alone(live, most, conversation, place) {
        return None;
    }
    Some(answer_alone(alloc, live, marker, conversation, place, text))
}

// Whether a line is served by itself: no round has more, none has come behind it, the site serves no more, or its store is no
// longer at its place.
fn is_alone<K: RoundKeeper, C: RoundConversation, P: StorePlace>(
    live: &LiveSite<K>,
    most: usize,
    conversation: &C,
    place: &P,
) -> bool
    ensures { result ≡ false → live.now.frozen ≡ false }
{
    most < 2 || !conversation.holds_next() || live.is_frozen() || !place.is_there()
}

// Answers what is no whole line, or tells that nothing came.
fn answer_other<C: RoundConversation>(conversation: &mut C, next: Next) -> Turned
    ensures { TellsOther C.Conversation conversation.old conversation.new next result }
{
    match next {
        Next::TooLong => tell_some(conversation, "refused TooLong\n"),
        Next::Memory => tell_some(conversation, "refused Memory\n"),
        Next::Torn => tell_some(conversation, "refused BadWord\n"),
        Next::End => Turned::End,
        Next::Line | Next::Failed => Turned::Failed,
    }
}

// Answers the line that is kept where no change waits.
fn answer_alone<K: RoundKeeper, C: RoundConversation, P: StorePlace>(
    alloc: Global,
    live: &mut LiveSite<K>,
    marker: &Marker,
    conversation: &mut C,
    place: &P,
    text: &mut String,
) -> Turned
    ensures answered { (s : Start K C) (n : ℕ) → IsAt s live.old marker.now
        → InBlock K.Keeper K.is_outdated C.Conversation s live.old conversation.old (Whole (C.kept conversation.old) ∷ []) [] n
        → BlockTo K.Keeper K.is_outdated C.Conversation s live.new conversation.new [] [] n result }
    ensures layout { live.new.core.layout ≡ live.old.core.layout }
    ensures site { live.new.core.site ≡ live.old.core.site }
    ensures honest { K.is_honest live.new.keeper → K.is_honest live.old.keeper }
{
    answer_line(
        alloc,
        live,
        marker,
        conversation,
        &mut NoLog {},
        place,
        text,
    )
}

// Answers the line that is kept, those of its round, and what was heard behind them.
fn answer_round<K: RoundKeeper, C: RoundConversation, P: StorePlace>(
    alloc: Global,
    live: LiveSite<K>,
    marker: &Marker,
    most: usize,
    conversation: &mut C,
    place: &P,
    round: &mut Round,
    text: &mut String,
) -> (LiveSite<K>, Turned)
    requires { live.frozen ≡ false }
    ensures answered { (s : Start K C) (n : ℕ) → IsAt s live marker.now → s.most ≡ most
        → HasHeard K.Keeper K.is_outdated C.Conversation s live conversation.old (Whole (C.kept conversation.old) ∷ []) n
        → BlockTo K.Keeper K.is_outdated C.Conversation s result.0 conversation.new [] [] n result.1 }
    ensures layout { result.0.core.layout ≡ live.core.layout }
    ensures site { result.0.core.site ≡ live.core.site }
    ensures honest { K.is_honest result.0.keeper → K.is_honest live.keeper }
{
    round.clear();
    let (live, behind, kept) = serve_held::<K, Brand, C>(
        alloc,
        live,
        marker,
        most,
        conversation,
        round,
        text,
    );
    let (live, turned) = end_round(alloc, live, marker, kept, conversation, round, text);
    match turned {
        Turned::Next => answer_behind(alloc, live, marker, behind, conversation, place, text),
        Turned::Failed => (live, Turned::Failed),
        Turned::End => (live, Turned::End),
    }
}

// Tells what became of the lines of a round.
fn end_round<K: RoundKeeper, C: RoundConversation>(
    alloc: Global,
    live: LiveSite<K>,
    marker: &Marker,
    kept: Result<(), KeeperError>,
    conversation: &mut C,
    round: &Round,
    text: &mut String,
) -> (LiveSite<K>, Turned)
    ensures told { (s : Start K C) (behind : List Line) (n : ℕ) → IsAt s live marker.now
        → HoldsRound K.Keeper K.is_outdated C.Conversation s live conversation.old round.now behind n kept
        → BlockTo K.Keeper K.is_outdated C.Conversation s result.0 conversation.new behind [] n result.1 }
    ensures line { C.kept conversation.new ≡ C.kept conversation.old }
    ensures layout { result.0.core.layout ≡ live.core.layout }
    ensures site { result.0.core.site ≡ live.core.site }
    ensures honest { K.is_honest result.0.keeper → K.is_honest live.keeper }
{
    match kept {
        Ok(()) => (live, tell_answers(conversation, round)),
        Err(KeeperError::Memory) => serve_singly(alloc, live, marker, conversation, round, text),
        Err(KeeperError::StoreFault) => (live, tell_fault(conversation, round)),
    }
}

// Answers what was heard behind a round.
fn answer_behind<K: RoundKeeper, C: RoundConversation, P: StorePlace>(
    alloc: Global,
    live: LiveSite<K>,
    marker: &Marker,
    behind: Behind,
    conversation: &mut C,
    place: &P,
    text: &mut String,
) -> (LiveSite<K>, Turned)
    ensures answered { (s : Start K C) (n : ℕ) → IsAt s live marker.now
        → InBlock K.Keeper K.is_outdated C.Conversation s live conversation.old (lines_behind behind (C.kept conversation.old)) [] n
        → BlockTo K.Keeper K.is_outdated C.Conversation s result.0 conversation.new [] [] n result.1 }
    ensures layout { result.0.core.layout ≡ live.core.layout }
    ensures site { result.0.core.site ≡ live.core.site }
    ensures honest { K.is_honest result.0.keeper → K.is_honest live.keeper }
{
    match behind {
        Behind::Nothing => (live, Turned::Next),
        Behind::Alone => {
            let mut live = live;
            let turned = answer_alone(alloc, &mut live, marker, conversation, place, text);
            (live, turned)
        }
        Behind::TooLong => (live, answer_other(conversation, Next::TooLong)),
        Behind::Memory => (live, answer_other(conversation, Next::Memory)),
    }
}

// Tells a text, if there is one.
fn tell_some<C: RoundConversation>(conversation: &mut C, text: &str) -> Turned
    ensures told { TellsText C.Conversation conversation.old conversation.new text.now result }
    ensures line { C.kept conversation.new ≡ C.kept conversation.old }
{
    if text.is_empty() {
        return Turned::Next;
    }
    tell(conversation, text)
}

// Tells the answers of a round that is kept.
fn tell_answers<C: RoundConversation>(conversation: &mut C, round: &Round) -> Turned
    ensures told { TellsText C.Conversation conversation.old conversation.new (round.now.sure ++ round.now.waiting) result }
    ensures line { C.kept conversation.new ≡ C.kept conversation.old }
{
    match tell_some(conversation, round.sure()) {
        Turned::Next => tell_some(conversation, round.waiting()),
        Turned::Failed => Turned::Failed,
        Turned::End => Turned::End,
    }
}

// Tells that the store failed for each line from the first one with a change on, behind the answers to those before it.
fn tell_fault<C: RoundConversation>(conversation: &mut C, round: &Round) -> Turned
    ensures told { TellsText C.Conversation conversation.old conversation.new (failed_texts round.now) result }
    ensures line { C.kept conversation.new ≡ C.kept conversation.old }
{
    let count = round.len().saturating_sub(round.sure_lines());
    match tell_some(conversation, round.sure()) {
        Turned::Next => tell_faults(conversation, count),
        Turned::Failed => Turned::Failed,
        Turned::End => Turned::End,
    }
}

// Tells that the store failed, so many times.
fn tell_faults<C: RoundConversation>(conversation: &mut C, count: usize) -> Turned
    ensures told { TellsText C.Conversation conversation.old conversation.new (faults count) result }
    ensures line { C.kept conversation.new ≡ C.kept conversation.old }
{
    let mut told = 0;
    while told < count {
        match tell_some(conversation, "refused StoreFault\n") {
            Turned::Next => told += 1,
            Turned::Failed => return Turned::Failed,
            Turned::End => return Turned::End,
        }
    }
    Turned::Next
}

// Begins again from what the keeper gives back, and serves the lines of a round one by one.
fn serve_singly<K: RoundKeeper, C: RoundConversation>(
    alloc: Global,
    live: LiveSite<K>,
    marker: &Marker,
    conversation: &mut C,
    round: &Round,
    text: &mut String,
) -> (LiveSite<K>, Turned)
    ensures served { (s : Start K C) (behind : List Line) (n : ℕ) → IsAt s live marker.now
        → IsUnkept K.Keeper K.is_outdated C.Conversation s live conversation.old round.now behind n
        → BlockTo K.Keeper K.is_outdated C.Conversation s result.0 conversation.new behind [] n result.1 }
    ensures line { C.kept conversation.new ≡ C.kept conversation.old }
    ensures layout { result.0.core.layout ≡ live.core.layout }
    ensures site { result.0.core.site ≡ live.core.site }
    ensures honest { K.is_honest result.0.keeper → K.is_honest live.keeper }
{
    let mut live = live;
    if !live.begin_again(alloc) {
        let turned = tell_fault(conversation, round);
        return (live, turned);
    }
    let turned = serve_each(alloc, &mut live, marker, conversation, round, text);
    (live, turned)
}

// Serves the lines of a round one by one.
fn serve_each<K: RoundKeeper, C: RoundConversation>(
    alloc: Global,
    live: &mut LiveSite<K>,
    marker: &Marker,
    conversation: &mut C,
    round: &Round,
    text: &mut String,
) -> Turned
    ensures served { (s : Start K C) (behind : List Line) (n : ℕ) → IsAt s live.old marker.now
        → InBlock K.Keeper K.is_outdated C.Conversation s live.old conversation.old (whole_lines round.now.lines ++ behind) [] n
        → BlockTo K.Keeper K.is_outdated C.Conversation s live.new conversation.new behind [] n result }
    ensures line { C.kept conversation.new ≡ C.kept conversation.old }
    ensures layout { live.new.core.layout ≡ live.old.core.layout }
    ensures site { live.new.core.site ≡ live.old.core.site }
    ensures honest { K.is_honest live.new.keeper → K.is_honest live.old.keeper }
{
    let mut i = 0;
    while i < round.len() {
        match serve_again(alloc, live, marker, conversation, round.line(i), text) {
            Turned::Next => i += 1,
            Turned::Failed => return Turned::Failed,
            Turned::End => return Turned::End,
        }
    }
    Turned::Next
}

// Serves a line where no change waits, and tells its answer.
fn serve_again<K: RoundKeeper, C: RoundConversation>(
    alloc: Global,
    live: &mut LiveSite<K>,
    marker: &Marker,
    conversation: &mut C,
    line: &[u8],
    text: &mut String,
) -> Turned
    ensures served { (s : Start K C) (rest : List Line) (n : ℕ) → IsAt s live.old marker.now
        → InBlock K.Keeper K.is_outdated C.Conversation s live.old conversation.old (Whole line.now ∷ rest) [] n
        → BlockTo K.Keeper K.is_outdated C.Conversation s live.new conversation.new rest [] n result }
    ensures line { C.kept conversation.new ≡ C.kept conversation.old }
    ensures layout { live.new.core.layout ≡ live.old.core.layout }
    ensures site { live.new.core.site ≡ live.old.core.site }
    ensures honest { K.is_honest live.new.keeper → K.is_honest live.old.keeper }
{
    text.clear();
    let told = serve_line(alloc, live, marker, line, text, &mut NoLog {});
    if let Told::LogFailed = told {
        return Turned::Failed;
    }
    tell_some(conversation, told_text(told, text.as_str()))
}
