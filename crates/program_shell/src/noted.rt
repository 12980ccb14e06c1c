//! What is noted of the answers.
ghost use Rattle.std.specs.Prelude.{◌≡◌, ◌||◌};
ghost use Rattle.text_input.specs.Lines.{lines_of};
ghost use Rattle.program_shell.specs.Notes.{ends_refused, is_refusal, some_outdated, tells_outdated};

use line_conversation::{Conversation, Next, RoundConversation};
use std::marker::Model;
use text_input::cut_line;

/// A conversation, of which is noted whether the last answer was a refusal, and whether some answer told that the site's
/// store is older than what others have seen of it. A text has an answer in each of its lines.
#[derive(Drop)]
pub struct Noted<C: Conversation> {
    talk: C,
    refused: bool,
    outdated: bool,
}

// Contracts see the conversation and the notes.
impl<C: Conversation> Model for Noted<C> {
    ghost use Rattle.program_shell.specs.Notes.{NotedState};

    ghost Value = { NotedState C };

    ghost view = { λ s. record { talk = s.talk; refused = s.refused; outdated = s.outdated } };
}

impl<C: Conversation> Noted<C> {
    ghost use Rattle.std.specs.Prelude.{◌≡◌, false};

    /// A conversation whose answers are noted from here on.
    pub fn new(talk: C) -> Noted<C>
        ensures { result ≡ record { talk = talk; refused = false; outdated = false } }
    {
        Noted {
            talk,
            refused: false,
            outdated: false,
        }
    }

    /// Whether the last answer was a refusal.
    pub fn is_refused(&self) -> bool
        ensures { result ≡ self.now.refused }
    {
        self.refused
    }

    /// Whether some answer told that the store is older than what others have seen.
    pub fn is_outdated(&self) -> bool
        ensures { result ≡ self.now.outdated }
    {
        self.outdated
    }

    /// The conversation.
    pub fn into_inner(self) -> C
        ensures { result ≡ self.talk }
    {
        let Noted {
            talk,
            refused: _,
            outdated: _,
        } = self;
        talk
    }
}

impl<C: Conversation> Conversation for Noted<C> {
    ghost use Rattle.program_shell.specs.Notes.{TookPlace};
    ghost use Rattle.std.proofs.Common.{refl};

    ghost took_place = { λ first turns last. TookPlace C.Conversation first turns last };

    ghost kept = { λ s. C.kept s.talk };

    ghost has_ended = { λ s. C.has_ended s.talk };

    ghost has_failed = { λ s. C.has_failed s.talk };

    ghost loses = { λ s. C.loses s.talk };

    ghost begins = { λ s. record { talk = C.begins s.talk; refused = refl; outdated = refl } };

    fn next_line(&mut self) -> Next {
        self.talk.next_line()
    }

    fn line(&self) -> &[u8] {
        self.talk.line()
    }

    fn tell(&mut self, text: &str) -> bool {
        if !self.talk.tell(text) {
            return false;
        }
        let (refused, outdated) = noted_of(text, self.refused, self.outdated);
        self.refused = refused;
        self.outdated = outdated;
        true
    }
}

impl<C: RoundConversation> RoundConversation for Noted<C> {
    ghost unread = { λ before after. C.unread before.talk after.talk };

    ghost is_ready = { λ s. C.is_ready s.talk };

    fn holds_next(&self) -> bool {
        self.talk.holds_next()
    }

    fn next_held(&mut self) -> Option<Next> {
        self.talk.next_held()
    }
}

// The notes with the answers of a text, one in each line. Linear in the text.
fn noted_of(text: &str, was_refused: bool, was_outdated: bool) -> (bool, bool)
    ensures refused { result.0 ≡ ends_refused was_refused (lines_of text.now) }
    ensures outdated { result.1 ≡ some_outdated was_outdated (lines_of text.now) }
{
    let mut refused = was_refused;
    let mut outdated = was_outdated;
    let mut rest = text.as_bytes();
    while !rest.is_empty() {
        let (answer, more) = cut_line(rest);
        refused = is_refusal(answer);
        outdated = any_outdated(outdated, answer);
        rest = more;
    }
    (refused, outdated)
}

// The answer is a refusal.
fn is_refusal(answer: &[u8]) -> bool
    ensures { result ≡ is_refusal answer.now }
{
    answer.starts_with(b"refused ")
}

// Whether some answer told that the store is outdated, with this one.
fn any_outdated(known: bool, answer: &[u8]) -> bool
    ensures { result ≡ known || tells_outdated answer.now }
{
    known || answer.starts_with(b"refused OwnRowAhead ")
}
