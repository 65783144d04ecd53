//! Bumping is one output after another (C.5.2.4).
#![tactic(auto)]

ghost use Rattle.std.specs.Prelude.{◌≡◌, Bool, true, false, List, [], ◌∷◌};
ghost use Rattle.hevc_walk.specs.Buffer.{Entry, Buffer, in_output_order, bumping};
ghost use Rattle.hevc_walk_bumps.specs.Steps.{Distinct, after_one, nothing_output, output_before};

/// As long as a rule holds and an entry is needed for output, the first in output order is output,
/// and bumping goes on with what is left; once the rule doesn't hold, or nothing is needed for
/// output, nothing more is output.
pub fn one_by_one()
    ensures more { (rule : Buffer → Bool) (es : Buffer) (e : Entry) (rest : List Entry)
        → Distinct es
        → in_output_order es ≡ e ∷ rest → rule es ≡ true
        → bumping rule es ≡ output_before e (bumping rule (after_one es)) }
    ensures over { (rule : Buffer → Bool) (es : Buffer) → rule es ≡ false
        → bumping rule es ≡ nothing_output es }
    ensures none { (rule : Buffer → Bool) (es : Buffer) → in_output_order es ≡ []
        → bumping rule es ≡ nothing_output es }
    ensures order { (es : Buffer) (e : Entry) (rest : List Entry) → Distinct es
        → in_output_order es ≡ e ∷ rest → in_output_order (after_one es) ≡ rest }
    ensures distinct { (es : Buffer) → Distinct es → Distinct (after_one es) }
{}
