use std::marker::Brand;
use std::sync::ledger::Ledger;

/// Names one opening of a site: the ledger of its passes, and what its keeper kept then. Whoever opens a site is
/// generic in it and called at [`Brand`], where the proof of the call picks both.
pub trait Opening: Ledger {
    ghost use Rattle.admission_core.specs.Kept.{DurableState};

    /// What the keeper kept when the site was opened.
    ghost kept: { DurableState → Type 0 };
}

impl Opening for Brand {
    ghost kept = { λ _. ⊥ };
}
