//! Units that mean nothing may be left out of a stream.
#![tactic(auto)]

ghost use Rattle.std.specs.Prelude.{◌≡◌, Bool, List, map};
ghost use Rattle.hevc_walk.specs.Meanings.{Meaning};
ghost use Rattle.hevc_walk.specs.Results.{calls, outputs, verdict};
ghost use Rattle.hevc_walk_drop.specs.Dropping.{with_flags, DropsOther, renumbered_call};
ghost use Rattle.hevc_walk_drop.specs.Dropping.{renumbered_output, renumbered_verdict};

/// Without some units that mean nothing a stream asks for the same, each unit number replaced by
/// how many units are kept before it.
pub fn dropped_units()
    ensures calls { (flags : List Bool) (us : List Meaning) → DropsOther flags us
        → calls (with_flags flags us) ≡ map (renumbered_call flags) (calls us) }
    ensures outputs { (flags : List Bool) (us : List Meaning) → DropsOther flags us
        → outputs (with_flags flags us) ≡ map (renumbered_output flags) (outputs us) }
    ensures verdict { (flags : List Bool) (us : List Meaning) → DropsOther flags us
        → verdict (with_flags flags us) ≡ renumbered_verdict flags (verdict us) }
{}
