ghost use Rattle.std.specs.Prelude.{◌≡◌, ⊤, ℕ, ◌+◌, List, [], ◌∷◌, ◌++◌, Option, Some, length, string_bytes, Err, OnOk, OnErr};
ghost use Rattle.exchange_threads.specs.declared.outlet.PutError.TheVariants.{Closed, Memory as NoRoom};
ghost use Rattle.merge_core.specs.Delta.{DeltaState};
ghost use Rattle.session_book.specs.declared.pass.Receipt.{Receipt};
ghost use Rattle.exchange_threads.specs.Outbox.{sent_text, shown_receipt};
ghost use Rattle.exchange_threads.specs.Links.{put_error, without_text};

use crossbeam_channel::{SendError, Sender};
use std::sync::Wait;
use thiserror::Error;

/// Why a text was not put.
#[derive(Clone, Copy, Debug, PartialEq, Eq, Error)]
pub enum PutError {
    #[error("out of memory")]
    Memory,
    /// Nobody will take a text any more.
    #[error("the link is closed")]
    Closed,
}

/// Where an outbox puts its texts. An outlet may keep an account of them.
pub trait Outlet {
    /// The account is right where the pass has these receipts, so many texts were put, and the last of them was that of
    /// this snapshot.
    ghost accounts: { Self → List Receipt → ℕ → Option DeltaState → Type 0 };

    /// Nobody will take a text any more.
    ghost closed: { Self → Type 0 };

    /// It is as it was, its room aside, or has met want of memory.
    ghost rests: { Self → Self → Type 0 };

    /// It is the same outlet, perhaps later.
    ghost same: { Self → Self → Type 0 };

    /// Puts the text that is due of a snapshot. The snapshot's receipt stands at that place of the pass, from 0, as its
    /// last. A text that is not put is lost. May wait.
    fn put<R: Wait>(&mut self, rt: &R, place: u64, text: String) -> Result<(), PutError>
        ensures put { (rs : List Receipt) (n : ℕ) (last : Option DeltaState) (d : DeltaState) → accounts self.old rs n last → place ≡ length rs
            → string_bytes text ≡ sent_text n last d → OnOk result (accounts self.new (rs ++ shown_receipt d ∷ []) (n + 1) (Some d)) }
        ensures closed { result ≡ Err Closed → closed self.new }
        ensures memory { result ≡ Err NoRoom → rests self.old self.new }
        ensures same { same self.old self.new }
        ensures kept { (rs : List Receipt) (n : ℕ) (last : Option DeltaState) → accounts self.old rs n last → OnErr result (accounts self.new rs n last) };

    ghost same_as_itself: { (e : Self) → same e e };

    ghost same_later: { (a b c : Self) → same a b → same b c → same a c };

    /// The account stays right as the pass gets more receipts.
    ghost grows: { (e : Self) (rs more : List Receipt) (n : ℕ) (last : Option DeltaState) → accounts e rs n last → accounts e (rs ++ more) n last };
}

// The error of a channel's send, without its text.
fn without_text(error: SendError<String>) -> SendError<()>
    ensures { result ≡ without_text error }
{
    match error {
        SendError::Disconnected(_) => SendError::Disconnected(()),
        SendError::OutOfMemory(_) => SendError::OutOfMemory(()),
    }
}

// Why a text was not put, by that error.
fn put_error(error: &SendError<()>) -> PutError
    ensures { result ≡ put_error error.now }
{
    match error {
        SendError::Disconnected(()) => PutError::Closed,
        SendError::OutOfMemory(()) => PutError::Memory,
    }
}

/// A channel's end. It keeps no account of its texts, but the last error that the channel gave, since no contract of a channel
/// tells when a text is refused.
#[derive(Drop)]
pub struct PlainOutlet {
    pub sender: Sender<String>,
    pub refused: Option<SendError<()>>,
}

impl Outlet for PlainOutlet {
    ghost use Rattle.std.specs.Prelude.{⊤};
    ghost use Rattle.exchange_threads.specs.Links.{IsDisconnected, IsLacking};

    ghost accounts = { λ _ _ _ _. ⊤ };

    ghost closed = { λ e. IsDisconnected e.refused };

    ghost rests = { λ _ e. IsLacking e.refused };

    ghost same = { λ _ _. ⊤ };

    fn put<R: Wait>(&mut self, rt: &R, _place: u64, text: String) -> Result<(), PutError> {
        match self.sender.send(rt, text) {
            Ok(()) => Ok(()),
            Err(error) => {
                let error = without_text(error);
                let told = put_error(&error);
                self.refused = Some(error);
                Err(told)
            }
        }
    }

    ghost same_as_itself = { λ _. tt };

    ghost same_later = { λ _ _ _ _ _. tt };

    ghost grows = { λ _ _ _ _ _ right. right };
}
