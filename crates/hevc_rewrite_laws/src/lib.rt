//! Units in whose place others are that mean the same.
#![tactic(auto)]

ghost use Rattle.std.specs.Prelude.{◌≡◌, ℕ, List};
ghost use Rattle.hevc_spec.specs.Units.{NalUnit};
ghost use Rattle.hevc_stream.specs.Contents.{content};
ghost use Rattle.hevc_stream.specs.Kept.{Kept};
ghost use Rattle.hevc_stream.specs.Options.{Options, default_options};
ghost use Rattle.hevc_stream.specs.Stream.{meanings_behind};
ghost use Rattle.hevc_rewrite_laws.specs.Replaced.{StandFor, WantsAll};

/// Units in whose place others are mean the same for the pictures, under the options under which
/// they stand for one another. Where all sub-layers and layers are wanted, those that do so by default do.
#[tactic(auto, using(crate::proofs::SameMeanings::same_meanings, crate::proofs::AllWanted::same_by_default))]
pub fn replaced_units_mean_the_same()
    ensures same_options { (options : Options) (kept : Kept) (us vs : List NalUnit)
        → StandFor options kept us vs
        → meanings_behind options kept vs ≡ meanings_behind options kept us }
    ensures all_wanted { (options : Options) (kept : Kept) (us vs : List NalUnit)
        → WantsAll options → StandFor default_options kept us vs
        → meanings_behind options kept vs ≡ meanings_behind options kept us }
{}

/// Where all sub-layers and layers are wanted, no content depends on the options.
#[tactic(auto, using(crate::proofs::AllWanted::content_by_default))]
pub fn contents_are_those_by_default()
    ensures { (options : Options) (kept : Kept) (bytes : List ℕ) → WantsAll options
        → content options kept bytes ≡ content default_options kept bytes }
{}
