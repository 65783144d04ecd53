//! What is found in made streams, and how long they are.
ghost use Rattle.std.specs.Prelude.{◌≡◌, ◌≤◌, ◌+◌, ◌*◌, ℕ, length};
ghost use Rattle.hevc_spec.specs.Units.{units};
ghost use Rattle.hevc_bit_writer.specs.WrittenUnits.{placed};
ghost use Rattle.hevc_stream_maker.specs.Made.{made, made_units};

/// The units that are found in a made stream (Annex B) are those of its sets and its pictures.
#[tactic(auto, using(crate::proofs::Units::all_found))]
pub fn made_units_are_found()
    ensures { (pictures : ℕ) → units (made pictures) ≡ placed 0 (made_units pictures) }
{}

/// Each picture after the first one takes at most 64 bytes.
#[tactic(auto, using(crate::proofs::Sizes::short))]
pub fn made_streams_are_short()
    ensures { (pictures : ℕ) → length (made pictures) ≤ 46 + 64 * pictures }
{}
