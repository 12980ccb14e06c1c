//! Small texts and cuts, by computation alone: functions that do nothing, whose contracts are the laws.
ghost use Rattle.std.specs.Prelude.{◌≡◌, ◌∷◌, [], Some, None, codes};
ghost use Rattle.log_judge.specs.declared.verdict.Verdict.TheVariants.{BadCut, BadJoint, BadReply, Exceeds, Consistent};
ghost use Rattle.layout_file.specs.LayoutFile.{built_in_layout};
ghost use Rattle.judge_engine.specs.Cuts.{cut_in};
ghost use Rattle.judge_engine.specs.Engine.{refusal_line};
ghost use Rattle.judge_engine.specs.Verdicts.{verdict_line};

/// Words that name cuts, and words that name none.
pub fn cut_examples()
    ensures full { cut_in (codes "full") ≡ Some None }
    ensures one { cut_in (codes "0") ≡ Some (Some (0 ∷ [])) }
    ensures three { cut_in (codes "8,6,0") ≡ Some (Some (8 ∷ 6 ∷ 0 ∷ [])) }
    ensures greatest { cut_in (codes "18446744073709551615,1") ≡ Some (Some (18446744073709551615 ∷ 1 ∷ [])) }
    ensures too_great { cut_in (codes "1,18446744073709551616") ≡ None }
    ensures none { cut_in [] ≡ None }
    ensures letter { cut_in (codes "1,x") ≡ None }
    ensures no_last { cut_in (codes "1,") ≡ None }
    ensures no_first { cut_in (codes ",1") ≡ None }
    ensures leading_zero { cut_in (codes "01") ≡ None }
    ensures sign { cut_in (codes "+1") ≡ None }
    ensures blank { cut_in (codes "1, 2") ≡ None }
    ensures longer { cut_in (codes "fully") ≡ None }
{}

/// The line of each verdict.
pub fn verdict_examples()
    ensures bad_cut { verdict_line built_in_layout.records BadCut ≡ codes "bad cut\n" }
    ensures bad_joint { verdict_line built_in_layout.records (BadJoint 3) ≡ codes "bad joint site 3\n" }
    ensures bad_reply { verdict_line built_in_layout.records (BadReply 1 2) ≡ codes "bad reply site 1 at 2\n" }
    ensures exceeds { verdict_line built_in_layout.records (Exceeds 1 2 0 3) ≡ codes "exceeds site 1 at 2 record a origin 3\n" }
    ensures no_record { verdict_line built_in_layout.records (Exceeds 1 0 2 3) ≡ codes "exceeds site 1 at 0 record ?2 origin 3\n" }
    ensures consistent { verdict_line built_in_layout.records Consistent ≡ codes "consistent\n" }
    ensures refused { refusal_line 2 ≡ codes "line 2 refused NotTranscript\n" }
{}
