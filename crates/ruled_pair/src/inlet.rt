// The receiving end of a direction, and its report.
ghost use Rattle.std.specs.Prelude.{◌≡◌};

use exchange_threads::{Fate, Inlet, TakeError};
use ordered_link::Taker;
use std::alloc::{AllocError, Global};
use std::sync::Wait;

/// The end of a link at which texts are taken, what was taken, and what came of each text. `first` is how many receipts
/// the pass had before.
#[derive(Drop)]
pub struct RuledInlet {
    pub taker: Taker,
    pub first: u64,
    pub taken: Vec<String>,
    pub fates: Vec<Fate>,
}

impl RuledInlet {
    ghost use Rattle.std.specs.Prelude.{◌≡◌, ◌<◌, [], vec_len, vec_capacity, OnOk};

    /// Nothing was taken. Takes no memory.
    pub fn new(alloc: Global, taker: Taker, first: u64) -> RuledInlet
        ensures taker { result.taker ≡ taker }
        ensures first { result.first ≡ first }
        ensures taken { result.taken.items ≡ [] }
        ensures fates { result.fates.items ≡ [] }
    {
        RuledInlet {
            taker,
            first,
            taken: Vec::new(alloc),
            fates: Vec::new(alloc),
        }
    }

    // Makes room in the report for one text more.
    fn reserve(&mut self) -> Result<(), AllocError>
        ensures taker { self.new.taker ≡ self.old.taker }
        ensures first { self.new.first ≡ self.old.first }
        ensures taken { self.new.taken.items ≡ self.old.taken.items }
        ensures fates { self.new.fates.items ≡ self.old.fates.items }
        ensures room { OnOk result (vec_len self.new.taken < vec_capacity self.new.taken) }
        ensures places { OnOk result (vec_len self.new.fates < vec_capacity self.new.fates) }
    {
        self.taken.reserve(1)?;
        self.fates.reserve(1)
    }
}

impl Inlet for RuledInlet {
    ghost use Rattle.std.specs.Prelude.{◌≡◌, ◌⊎◌, true, false, ◌<◌, ◌∷◌, ◌++◌, [], map, string_bytes, vec_len, vec_capacity};
    ghost use Rattle.ruled_pair.specs.Heard.{AreHeard, IsOpenOrEnded};
    ghost use Rattle.std.proofs.Common.{refl, ◌∙◌};
    ghost use Rattle.ruled_pair.specs.Growing.{heard_lacks};

    ghost accounts = { λ e rs texts m ended. AreHeard rs e.first (map string_bytes e.taken.items) e.fates.items m ended × (e.taker.taken ≡ map string_bytes e.taken.items)
        × (texts ≡ map string_bytes e.taken.items) × IsOpenOrEnded e.taker };

    ghost holds = { λ e text rs texts m. AreHeard rs e.first (map string_bytes e.taken.items) e.fates.items m false
        × (e.taker.taken ≡ map string_bytes e.taken.items ++ text ∷ []) × (texts ≡ map string_bytes e.taken.items)
        × (vec_len e.taken < vec_capacity e.taken) × (vec_len e.fates < vec_capacity e.fates)
        × IsOpenOrEnded e.taker };

    ghost closed = { λ e. e.taker.finished ≡ true };

    ghost rests = { λ a b. (b.taker ≡ a.taker) ⊎ (b.taker ≡ record a.taker { ended = true; receives = false }) };

    ghost same = { λ a b. (b.first ≡ a.first) × (b.taker.link ≡ a.taker.link) };

    fn take<R: Wait>(&mut self, rt: &R) -> Result<String, TakeError> {
        if self.reserve().is_err() {
            return Err(TakeError::Memory);
        }
        match self.taker.take(rt) {
            Some(text) => Ok(text),
            None if self.taker.is_finished() => Err(TakeError::Closed),
            // This never happens, since the other end stays until this runner has ended, but no clause can say so.
            None => Err(TakeError::Memory),
        }
    }

    fn note(&mut self, text: String, fate: Fate) {
        self.taken.push_reserved(text);
        self.fates.push_reserved(fate);
    }

    ghost same_as_itself = { λ e. (refl, refl) };

    ghost same_later = { λ a b c first then. (then.0 ∙ first.0, then.1 ∙ first.1) };

    ghost lacks = { λ e rs texts m k ended right. (heard_lacks rs m k ended right.0, right.1, right.2, right.3) };
}
