//! Answers on streams that are refused, and on others.

ghost use Rattle.std.specs.Prelude.{Ok};
ghost use Rattle.std.specs.declared.option.Option.TheVariants.{None, Some};
ghost use Rattle.hevc_walk.specs.Pictures.{Picture};
ghost use Rattle.hevc_check_laws.specs.Checks.{Yes};
ghost use Rattle.hevc_check.specs.Answers.{AnswersCheck};
ghost use Rattle.hevc_index.specs.Indexing.{Judges, Seeks};
ghost use Rattle.hevc_tools_examples.specs.Verdicts.{verdict_at, ending_at, checked, not_checked, listed, not_listed, no_point};

/// A check passes, and a stream is refused.
pub fn right_answers()
    ensures checked { AnswersCheck (checked 1 3) (Ok 3) (Yes 1 3) }
    ensures not_checked { AnswersCheck (not_checked 2) (verdict_at 2) (Yes 1 3) }
    ensures listed { Judges listed (Ok 3) }
    ensures not_listed { Judges (not_listed 2) (ending_at 2) }
    ensures no_point { Seeks no_point None }
{}

/// A refused stream passes, another answer is given than the check's, another unit is named, and a stream that isn't
/// refused is.
pub fn wrong_checks()
    ensures refused { AnswersCheck (checked 1 3) (verdict_at 2) (Yes 1 3) → ⊥ }
    ensures answer { AnswersCheck (checked 1 3) (Ok 3) (Yes 2 3) → ⊥ }
    ensures unit { AnswersCheck (not_checked 1) (verdict_at 2) (Yes 1 3) → ⊥ }
    ensures not_refused { AnswersCheck (not_checked 2) (Ok 3) (Yes 1 3) → ⊥ }
{}

/// The same of points; and no point is found where there is one, or one where there is none.
pub fn wrong_points()
    ensures refused { Judges listed (ending_at 2) → ⊥ }
    ensures no_point { Judges no_point (ending_at 2) → ⊥ }
    ensures unit { Judges (not_listed 1) (ending_at 2) → ⊥ }
    ensures not_refused { Judges (not_listed 2) (Ok 3) → ⊥ }
    ensures found { (p : Picture) → Seeks no_point (Some p) → ⊥ }
    ensures none { Seeks listed None → ⊥ }
{}
