//! Streams that are clean, at each bound, and ones that aren't, one beyond it.

ghost use Rattle.std.specs.Prelude.{[], ◌∷◌};
ghost use Rattle.hevc_walk.specs.Clean.{IsClean};
ghost use Rattle.hevc_walk_examples.specs.Streams.{plain};
ghost use Rattle.hevc_walk_examples.specs.Changes.{stopped_waiting};
ghost use Rattle.hevc_walk_examples.specs.CleanStreams.{narrow_sets, one_member, two_members};
ghost use Rattle.hevc_walk_examples.specs.CleanStreams.{narrow};

/// A clean stream is refused nowhere, its pictures that aren't skipped refer to at most as many as
/// they declare, and declare fewer than the buffer has places.
pub fn clean_streams()
    ensures plain { IsClean plain }
    ensures narrow { IsClean (narrow (one_member (narrow_sets 1) ∷ [])) }
    ensures refused { IsClean stopped_waiting → ⊥ }
    ensures members { IsClean (narrow (two_members (narrow_sets 1) ∷ [])) → ⊥ }
    ensures room { IsClean (narrow (one_member (narrow_sets 2) ∷ [])) → ⊥ }
{}
