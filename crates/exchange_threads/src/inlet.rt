ghost use Rattle.std.specs.Prelude.{◌≡◌, ⊤, ℕ, ◌+◌, Bool, true, false, List, [], ◌∷◌, ◌++◌, length, string_bytes, Err, MatchResult};
ghost use Rattle.exchange_threads.specs.declared.inlet.TakeError.TheVariants.{Closed, Memory as NoRoom};
ghost use Rattle.session_book.specs.declared.pass.Receipt.{Receipt};
ghost use Rattle.exchange_threads.specs.Fates.{IsFateOf, fate_lacks, is_ended};

use crate::fate::Fate;
use crossbeam_channel::Receiver;
use std::sync::Wait;
use thiserror::Error;

/// Why no text was taken.
#[derive(Clone, Copy, Debug, PartialEq, Eq, Error)]
pub enum TakeError {
    #[error("out of memory")]
    Memory,
    /// No text will come any more.
    #[error("the link is closed")]
    Closed,
}

/// Where an inbox takes its texts from. An inlet may keep an account of them and of what came of each.
pub trait Inlet {
    /// The account is right where the pass has these receipts, these texts were taken, so many turns met want of memory, and
    /// a last text ended the run or not.
    ghost accounts: { Self → List Receipt → List (List ℕ) → ℕ → Bool → Type 0 };

    /// The account is right but for a text in hand.
    ghost holds: { Self → List ℕ → List Receipt → List (List ℕ) → ℕ → Type 0 };

    /// No text will come any more.
    ghost closed: { Self → Type 0 };

    /// It is as it was, its room aside.
    ghost rests: { Self → Self → Type 0 };

    /// It is the same inlet, perhaps later.
    ghost same: { Self → Self → Type 0 };

    /// Takes the next text. `Memory` leaves it where it is. May wait.
    fn take<R: Wait>(&mut self, rt: &R) -> Result<String, TakeError>
        ensures taken { (rs : List Receipt) (ts : List (List ℕ)) (m : ℕ) → accounts self.old rs ts m false
            → MatchResult result (λ text. holds self.new (string_bytes text) rs ts m) (λ _. accounts self.new rs ts m false) }
        ensures closed { result ≡ Err Closed → closed self.new }
        ensures memory { result ≡ Err NoRoom → rests self.old self.new }
        ensures same { same self.old self.new };

    /// Notes what came of the text in hand. The caller shows that it is. Takes no memory.
    fn note(&mut self, text: String, fate: Fate)
        requires in_hand { (rs : List Receipt) × (ts : List (List ℕ)) × (m : ℕ) × holds self.old (string_bytes text) rs ts m }
        ensures noted { (rs added : List Receipt) (ts : List (List ℕ)) (m : ℕ) → holds self.old (string_bytes text) rs ts m
            → IsFateOf (string_bytes text) fate (length rs) added → accounts self.new (rs ++ added) (ts ++ string_bytes text ∷ []) (m + fate_lacks fate) (is_ended fate) }
        ensures same { same self.old self.new };

    ghost same_as_itself: { (e : Self) → same e e };

    ghost same_later: { (a b c : Self) → same a b → same b c → same a c };

    /// The account stays right as more turns meet want of memory.
    ghost lacks: { (e : Self) (rs : List Receipt) (ts : List (List ℕ)) (m k : ℕ) (ended : Bool) → accounts e rs ts m ended → accounts e rs ts (m + k) ended };
}

/// A channel keeps no account.
impl Inlet for Receiver<String> {
    ghost accounts = { λ _ _ _ _ _. ⊤ };

    ghost holds = { λ _ _ _ _ _. ⊤ };

    ghost closed = { λ _. ⊤ };

    ghost rests = { λ _ _. ⊥ };

    ghost same = { λ _ _. ⊤ };

    fn take<R: Wait>(&mut self, rt: &R) -> Result<String, TakeError> {
        match self.recv(rt) {
            Ok(text) => Ok(text),
            Err(_) => Err(TakeError::Closed),
        }
    }

    fn note(&mut self, _text: String, _fate: Fate) {}

    ghost same_as_itself = { λ _. tt };

    ghost same_later = { λ _ _ _ _ _. tt };

    ghost lacks = { λ _ _ _ _ _ _ right. right };
}
