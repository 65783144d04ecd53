//! Laws on what a stream means: one content a unit, what holds of the sets that are kept, and that
//! all of it meets the premises of the walk's laws.
#![tactic(auto)]

ghost use Rattle.std.specs.Prelude.{◌≡◌, ℕ, ◌<◌, false, List, Ok, All, IfSome};
ghost use Rattle.hevc_spec.specs.Units.{NalUnit};
ghost use Rattle.hevc_spec.specs.UnitHeader.{UnitHeader, unit_header};
ghost use Rattle.hevc_records.specs.Sps.{PlainSps};
ghost use Rattle.hevc_walk.specs.Premises.{AreMeanings};
ghost use Rattle.hevc_stream.specs.Options.{Options};
ghost use Rattle.hevc_stream.specs.Kept.{Kept, none_kept, with_sequence_set};
ghost use Rattle.hevc_stream.specs.Slices.{temporal_id};
ghost use Rattle.hevc_stream.specs.Contents.{Content, sequence_set, unread_picture_set, nothing};
ghost use Rattle.hevc_stream.specs.Contents.{content, wants};
ghost use Rattle.hevc_stream.specs.Stream.{kept_behind, kept_behind_all, meanings_behind, meanings};
ghost use Rattle.hevc_stream_laws.specs.UnitMeans.{Means, is_parameter_set};
ghost use Rattle.hevc_stream_laws.specs.KeptWell.{IsKeptWell, sequence_set_named};

/// What the units of any stream mean, under any options, meets the premises of the walk's laws: the
/// bounds of formats, limits, order counts, reference picture sets and lists hold, and a sequence
/// set comes before all slices and ends.
pub fn meanings_meet_premises()
    ensures stream { (options : Options) (stream : List ℕ) → AreMeanings (meanings options stream) }
    ensures units { (options : Options) (us : List NalUnit)
        → AreMeanings (meanings_behind options none_kept us) }
{}

/// Each unit has one content: what its payload spells (7.3, 7.4.2.2).
pub fn one_content()
    ensures means { (options : Options) (kept : Kept) (bytes : List ℕ)
        → Means options kept bytes (content options kept bytes) }
    ensures only { (options : Options) (kept : Kept) (bytes : List ℕ) (c : Content)
        → Means options kept bytes c
        → content options kept bytes ≡ c }
{}

/// At any place of a stream each set is kept under its own id, and with each picture set the
/// sequence set that it names (7.4.2.4.2); before the first sequence set none is kept.
pub fn sets_are_kept_well()
    ensures { (options : Options) (us : List NalUnit)
        → IsKeptWell (kept_behind_all options none_kept us) }
{}

/// What waits at any place of a stream are units of picture sets that can't be read there.
pub fn what_waits_is_unread()
    ensures { (options : Options) (us : List NalUnit)
        → All (λ bytes. content options (kept_behind_all options none_kept us) bytes
        ≡ unread_picture_set)
        (kept_behind_all options none_kept us).waiting }
{}

/// A sequence set that is kept already is kept once: its unit leaves what it would leave without
/// that.
pub fn kept_twice_is_kept_once()
    ensures { (options : Options) (kept : Kept) (bytes : List ℕ) (set : PlainSps)
        → content options kept bytes ≡ sequence_set set
        → kept_behind options (with_sequence_set set kept) bytes ≡ kept_behind options kept bytes }
{}

/// Units that ask for nothing: those of sub-layers or layers above the wanted ones, and before the first
/// sequence set all but parameter sets.
pub fn unasked_units()
    ensures above { (options : Options) (kept : Kept) (bytes : List ℕ) (h : UnitHeader)
        → unit_header bytes ≡ Ok h
        → wants options h ≡ false → content options kept bytes ≡ nothing }
    ensures first { (options : Options) (kept : Kept) (bytes : List ℕ) (h : UnitHeader)
        → unit_header bytes ≡ Ok h
        → kept.has_sequence_set ≡ false → is_parameter_set h.nal_unit_type ≡ false
        → content options kept bytes ≡ nothing }
{}

/// What a picture set's unit means depends on the sequence set that it names, and on no other.
pub fn picture_sets_need_one_sequence_set()
    ensures { (options : Options) (kept other : Kept) (bytes : List ℕ) (h : UnitHeader)
        → unit_header bytes ≡ Ok h
        → h.nal_unit_type ≡ 34
        → IfSome (sequence_set_named (temporal_id h) bytes)
        (λ id. kept.sequence_sets id ≡ other.sequence_sets id)
        → content options kept bytes ≡ content options other bytes }
{}
