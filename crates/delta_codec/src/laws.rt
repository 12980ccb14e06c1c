//! Laws of the texts alone: functions without a body, whose contracts are the laws.
ghost use Rattle.std.specs.Prelude.{◌≡◌, ◌≤◌, length};
ghost use Rattle.merge_core.specs.Delta.{DeltaState, IsDelta};
ghost use Rattle.delta_codec.specs.Decodes.{text_limit};
ghost use Rattle.delta_codec.specs.DeltaText.{delta_text};

/// No two deltas have one text, and every delta's text is within the limit.
pub fn text_laws()
    ensures one { (d e : DeltaState) → IsDelta d → IsDelta e → delta_text d ≡ delta_text e → d ≡ e }
    ensures fits { (d : DeltaState) → IsDelta d → length (delta_text d) ≤ text_limit }
{}
