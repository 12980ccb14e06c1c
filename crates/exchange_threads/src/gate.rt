ghost use Rattle.std.specs.Prelude.{ℕ, Bool};

/// Decides at which turns an outbox sends.
pub trait Gate {
    /// Asked at this turn it gave this answer.
    ghost answers: { Self → ℕ → Bool → Self → Type 0 };

    /// Whether the outbox may send at this turn, from 0. It is asked once in each turn that gets so far, after the site
    /// was asked to help. A shut gate ends the turn: no snapshot is taken, nothing is sent, and the runner goes on
    /// with its next turn. The gate may wait; the runner waits with it, and holds no lock meanwhile.
    fn open(&mut self, turn: u64) -> bool
        ensures answered { answers self.old turn result self.new };
}
