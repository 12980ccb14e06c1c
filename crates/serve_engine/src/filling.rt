//! Serving the lines of a round while their changes wait.
ghost use Rattle.std.specs.Prelude.{◌≡◌, ◌≢◌, ◌+◌, ◌∷◌, ℕ, List, [], false, IfSome, OnOk};
ghost use Rattle.admission_model.specs.Account.{Account};
ghost use Rattle.admission_core.specs.Core.{Stands};
ghost use Rattle.admission_core.specs.Kept.{durable_of};
ghost use Rattle.line_conversation.specs.Turns.{IsLine, Turn, Whole};
ghost use Rattle.serve_engine.specs.declared.filling.Placed.TheVariants.{Unanswered};
ghost use Rattle.serve_engine.specs.declared.filling.Taken.TheVariants.{Broken};
ghost use Rattle.serve_engine.specs.Requests.{Terms};
ghost use Rattle.serve_engine.specs.Rounds.{AreFew};
ghost use Rattle.serve_engine.specs.Steps.{AreTerms};
ghost use Rattle.serve_engine.specs.Exchanges.{Exchange};
ghost use Rattle.serve_engine.specs.Filling.{Fills, IsPlaced, empty_round};
ghost use Rattle.serve_engine.specs.Together.{FillsRound, HasHeard, HoldsRound, IsAt, IsFilling, Start, TakesLine, lines_behind, taken_by};

use crate::answering::{Told, serve_line, told_text};
use crate::marks::Marker;
use crate::round::Round;
use durable_keeper::KeeperError;
use line_conversation::{Next, RoundConversation};
use live_site::{LiveSite, NoLog};
use round_keeper::{Base, RoundKeeper, Staged};
use std::alloc::Global;

/// What was heard behind the lines of a round and is not in it.
#[derive(Clone, Copy, Debug, PartialEq, Eq)]
pub(crate) enum Behind {
    /// Nothing.
    Nothing,
    /// The line that is kept, which is served where no change waits.
    Alone,
    /// A line that is too long.
    TooLong,
    /// A line for which no memory was found.
    Memory,
}

/// What became of a line.
#[derive(Clone, Copy, Debug, PartialEq, Eq)]
pub(crate) enum Placed {
    /// It is in the round.
    In,
    /// It is not: it is served where no change waits.
    Alone,
    /// It is in the round, and has no answer.
    Unanswered,
}

/// What a line that is taken into a round leaves.
#[derive(Clone, Copy, Debug, PartialEq, Eq)]
pub(crate) enum Taken {
    /// A line more, which is kept.
    More,
    /// No line more for the round.
    Full(Behind),
    /// A line without an answer.
    Broken,
}

// A round with more bytes of answers takes no line more.
const MOST_BYTES: usize = 65_536;

/// Serves the line that is kept, and those behind it that have come already, at most so many, and has their changes kept
/// together. What was heard behind them, and whether they are kept: a round for which no memory was found is kept by none of
/// its changes, and the site serves no more until it begins again.
pub(crate) fn serve_held<K: RoundKeeper, B: Base, C: RoundConversation>(
    alloc: Global,
    live: LiveSite<K>,
    marker: &Marker,
    most: usize,
    conversation: &mut C,
    round: &mut Round,
    text: &mut String,
) -> (LiveSite<K>, Behind, Result<(), KeeperError>)
    requires running { live.frozen ≡ false }
    requires empty { round.old ≡ empty_round }
    requires base { (a : Account) → Stands a live.core → B.base ≡ durable_of a }
    ensures held { (s : Start K C) (n : ℕ) → IsAt s live marker.now → s.most ≡ most
        → HasHeard K.Keeper K.is_outdated C.Conversation s live conversation.old (Whole (C.kept conversation.old) ∷ []) n
        → HoldsRound K.Keeper K.is_outdated C.Conversation s result.0 conversation.new round.new (lines_behind result.1 (C.kept conversation.new)) n result.2 }
    ensures running { OnOk result.2 (result.0.frozen ≡ false) }
    ensures layout { result.0.core.layout ≡ live.core.layout }
    ensures site { result.0.core.site ≡ live.core.site }
    ensures honest { K.is_honest result.0.keeper → K.is_honest live.keeper }
{
    let mut held: LiveSite<Staged<K, B>> = live.hold(alloc);
    match fill_round(alloc, &mut held, marker, most, conversation, round, text) {
        Some(behind) => {
            let (live, answer) = held.commit_staged();
            (live, behind, answer)
        }
        None => (
            held.drop_staged(),
            Behind::Nothing,
            Err(KeeperError::Memory),
        ),
    }
}

// Serves the lines. What was heard behind them; none where a line has no answer.
fn fill_round<K: RoundKeeper, B: Base, C: RoundConversation>(
    alloc: Global,
    held: &mut LiveSite<Staged<K, B>>,
    marker: &Marker,
    most: usize,
    conversation: &mut C,
    round: &mut Round,
    text: &mut String,
) -> Option<Behind>
    ensures filled { (terms : Terms) (a : Account) (k : K) (talk : C) (turns : List Turn) → AreTerms terms held.old.core.layout marker.now
        → IsFilling K.Keeper B.base C.Conversation terms a k held.old round.old talk turns conversation.old (Whole (C.kept conversation.old) ∷ []) 1
        → (n : ℕ) × AreFew most n × FillsRound K.Keeper B.base C.Conversation terms a k held.new round.new talk turns conversation.new n result }
    ensures running { held.old.frozen ≡ false → IfSome result (λ _. held.new.frozen ≡ false) }
    ensures layout { held.new.core.layout ≡ held.old.core.layout }
    ensures site { held.new.core.site ≡ held.old.core.site }
    ensures honest { K.is_honest held.new.keeper.keeper → K.is_honest held.old.keeper.keeper }
{
    let mut left = most;
    while left > 1 {
        match take_line(alloc, held, marker, conversation, round, text) {
            Taken::More => left -= 1,
            Taken::Full(behind) => return Some(behind),
            Taken::Broken => return None,
        }
    }
    take_last(alloc, held, marker, conversation, round, text)
}

// Serves the line that is kept, and looks for one behind it that has come.
fn take_line<K: RoundKeeper, B: Base, C: RoundConversation>(
    alloc: Global,
    held: &mut LiveSite<Staged<K, B>>,
    marker: &Marker,
    conversation: &mut C,
    round: &mut Round,
    text: &mut String,
) -> Taken
    ensures taken { (terms : Terms) (a : Account) (k : K) (talk : C) (turns : List Turn) (n : ℕ) → AreTerms terms held.old.core.layout marker.now
        → IsFilling K.Keeper B.base C.Conversation terms a k held.old round.old talk turns conversation.old (Whole (C.kept conversation.old) ∷ []) n
        → TakesLine K.Keeper B.base C.Conversation terms a k held.new round.new talk turns conversation.new (n + 1) result }
    ensures running { held.old.frozen ≡ false → result ≢ Broken → held.new.frozen ≡ false }
    ensures layout { held.new.core.layout ≡ held.old.core.layout }
    ensures site { held.new.core.site ≡ held.old.core.site }
    ensures honest { K.is_honest held.new.keeper.keeper → K.is_honest held.old.keeper.keeper }
{
    match place_line(alloc, held, marker, conversation.line(), round, text) {
        Placed::In => {}
        Placed::Alone => return Taken::Full(Behind::Alone),
        Placed::Unanswered => return Taken::Broken,
    }
    if round.bytes() > MOST_BYTES {
        return Taken::Full(Behind::Nothing);
    }
    match conversation.next_held() {
        Some(next) => taken_by(next),
        None => Taken::Full(Behind::Nothing),
    }
}

// What a line leaves that was read behind a round. It came to its LF.
fn taken_by(next: Next) -> Taken
    requires { IsLine next }
    ensures { result ≡ taken_by next }
{
    match next {
        Next::Line => Taken::More,
        Next::TooLong => Taken::Full(Behind::TooLong),
        Next::Memory => Taken::Full(Behind::Memory),
        Next::Torn | Next::End | Next::Failed => Taken::Broken,
    }
}

// Serves the line that is kept, as the last one of its round.
fn take_last<K: RoundKeeper, B: Base, C: RoundConversation>(
    alloc: Global,
    held: &mut LiveSite<Staged<K, B>>,
    marker: &Marker,
    conversation: &C,
    round: &mut Round,
    text: &mut String,
) -> Option<Behind>
    ensures filled { (terms : Terms) (a : Account) (k : K) (talk : C) (turns : List Turn) (n : ℕ) → AreTerms terms held.old.core.layout marker.now
        → IsFilling K.Keeper B.base C.Conversation terms a k held.old round.old talk turns conversation.now (Whole (C.kept conversation.now) ∷ []) n
        → FillsRound K.Keeper B.base C.Conversation terms a k held.new round.new talk turns conversation.now n result }
    ensures running { held.old.frozen ≡ false → IfSome result (λ _. held.new.frozen ≡ false) }
    ensures layout { held.new.core.layout ≡ held.old.core.layout }
    ensures site { held.new.core.site ≡ held.old.core.site }
    ensures honest { K.is_honest held.new.keeper.keeper → K.is_honest held.old.keeper.keeper }
{
    match place_line(alloc, held, marker, conversation.line(), round, text) {
        Placed::In => Some(Behind::Nothing),
        Placed::Alone => Some(Behind::Alone),
        Placed::Unanswered => None,
    }
}

// Serves a line and adds it to the round. It has no answer where its reply shows that the store is outdated, as the mark of that
// can't wait. A line for whose copy there is no memory is not added.
fn place_line<K: RoundKeeper, B: Base>(
    alloc: Global,
    held: &mut LiveSite<Staged<K, B>>,
    marker: &Marker,
    line: &[u8],
    round: &mut Round,
    text: &mut String,
) -> Placed
    ensures placed { (terms : Terms) (a : Account) (k : K) (xs : List Exchange) → AreTerms terms held.old.core.layout marker.now
        → Fills K.Keeper B.base terms a k held.old round.old xs → IsPlaced K.Keeper B.base terms a k held.new round.new xs line.now result }
    ensures running { held.old.frozen ≡ false → result ≢ Unanswered → held.new.frozen ≡ false }
    ensures layout { held.new.core.layout ≡ held.old.core.layout }
    ensures site { held.new.core.site ≡ held.old.core.site }
    ensures honest { K.is_honest held.new.keeper.keeper → K.is_honest held.old.keeper.keeper }
{
    if round.push_line(alloc, line).is_err() {
        return Placed::Alone;
    }
    text.clear();
    let told = serve_line(alloc, held, marker, line, text, &mut NoLog {});
    if let Told::LogFailed = told {
        return Placed::Unanswered;
    }
    if held.is_mark_due() {
        return Placed::Unanswered;
    }
    if held.is_frozen() {
        return Placed::Unanswered;
    }
    let waits = held.waiting() > 0;
    if round
        .push_answer(told_text(told, text.as_str()), waits)
        .is_err()
    {
        return Placed::Unanswered;
    }
    Placed::In
}
