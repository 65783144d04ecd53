//! Where decoding can start in a stream, its units ask for what the whole asks from there on.
#![tactic(auto)]

ghost use Rattle.std.specs.Prelude.{◌≡◌, ℕ, ◌-◌, pos, List, [], ◌∷◌, ◌++◌, length, map, All, Ok};
ghost use Rattle.std.specs.Prelude.{Err};
ghost use Rattle.hevc_walk.specs.Meanings.{Meaning};
ghost use Rattle.hevc_walk.specs.Pictures.{Picture};
ghost use Rattle.hevc_walk.specs.Premises.{AreMeanings};
ghost use Rattle.hevc_walk.specs.Refusals.{NoIndependentSlice};
ghost use Rattle.hevc_walk.specs.Results.{calls, outputs, verdict};
ghost use Rattle.hevc_walk_examples.specs.Streams.{plain_sets, plain_format, idr, t0, told_outputs};
ghost use Rattle.hevc_walk_splice.specs.Points.{two_points, its_sets, high_idr, p8};
ghost use Rattle.hevc_walk_splice.specs.Points.{dependent_first};
ghost use Rattle.hevc_walk_splice.specs.Splicing.{IsPoint, IsOfSet, spliced, without_sequences};
ghost use Rattle.hevc_walk_splice.specs.Splicing.{calls_for, outputs_for, moved_call, moved_output};
ghost use Rattle.hevc_walk_splice.specs.Splicing.{moved_back_call, moved_back_output};

/// A stream that isn't refused may be begun at any IDR or BLA picture whose temporal id is 0, after
/// any sets: what is left isn't refused, either. It asks for what the whole asks for that picture
/// and those after it, all but the negotiated formats (8.1.3, 8.3.2): pictures count from it, and
/// its first slice is the unit after the sets. What the whole asks for these pictures is told from
/// what is left, too, so none of them refers to a picture before it.
pub fn spliced_stream()
    ensures verdict { (us sets : List Meaning) (p : Picture) (m : ℕ) → AreMeanings us
        → verdict us ≡ Ok m → IsPoint us p → All IsOfSet sets
        → verdict (spliced sets p us) ≡ Ok (m - p.number) }
    ensures calls { (us sets : List Meaning) (p : Picture) (m : ℕ) → AreMeanings us
        → verdict us ≡ Ok m → IsPoint us p → All IsOfSet sets
        → without_sequences (calls (spliced sets p us))
        ≡ map (moved_call p.number p.unit (length sets)) (calls_for p.number (calls us)) }
    ensures outputs { (us sets : List Meaning) (p : Picture) (m : ℕ) → AreMeanings us
        → verdict us ≡ Ok m → IsPoint us p → All IsOfSet sets
        → outputs (spliced sets p us)
        ≡ map (moved_output p.number p.unit (length sets)) (outputs_for p.number (outputs us)) }
    ensures whole_calls { (us sets : List Meaning) (p : Picture) (m : ℕ) → AreMeanings us
        → verdict us ≡ Ok m → IsPoint us p → All IsOfSet sets
        → calls_for p.number (calls us)
        ≡ map (moved_back_call p.number p.unit (length sets))
        (without_sequences (calls (spliced sets p us))) }
    ensures whole_outputs { (us sets : List Meaning) (p : Picture) (m : ℕ) → AreMeanings us
        → verdict us ≡ Ok m → IsPoint us p → All IsOfSet sets
        → outputs_for p.number (outputs us)
        ≡ map (moved_back_output p.number p.unit (length sets)) (outputs (spliced sets p us)) }
{}

/// A stream that meets each premise, with its second IDR picture, which discards what is needed for
/// output.
pub fn second_point()
    ensures real { AreMeanings two_points }
    ensures sets { All IsOfSet its_sets }
    ensures verdict { verdict two_points ≡ Ok 4 }
    ensures point { (p : Picture) × IsPoint two_points p × (p.number ≡ 2) × (p.unit ≡ 4)
        × (told_outputs (spliced its_sets p two_points)
        ≡ (0, pos 0, 4) ∷ (1, pos 4, 4) ∷ []) }
    ensures whole { told_outputs two_points
        ≡ (0, pos 0, 4) ∷ (2, pos 0, 6) ∷ (3, pos 4, 6) ∷ [] }
{}

/// Why the temporal id is asked for: an IDR picture of temporal id 1 is no prevTid0Pic, so order
/// counts after it go on from a picture before it (8.3.1).
pub fn temporal_id_matters()
    ensures whole { told_outputs
        (its_sets ++ idr (plain_sets plain_format) ∷ p8 ∷ high_idr ∷ t0 (plain_sets plain_format)
        ∷ [])
        ≡ (0, pos 0, 4) ∷ (1, pos 8, 4) ∷ (2, pos 0, 6) ∷ (3, pos 16, 6) ∷ [] }
    ensures spliced { told_outputs (its_sets ++ high_idr ∷ t0 (plain_sets plain_format) ∷ [])
        ≡ (0, pos 0, 4) ∷ (1, pos 0, 4) ∷ [] }
{}

/// Why the meanings are to be real ones: a dependent slice that began a picture would take its
/// header from before it (7.4.7.1).
pub fn real_meanings_matter()
    ensures whole { verdict (its_sets ++ idr (plain_sets plain_format) ∷ dependent_first ∷ [])
        ≡ Ok 2 }
    ensures spliced { verdict (its_sets ++ dependent_first ∷ [])
        ≡ Err (record { unit = 2; cause = NoIndependentSlice }) }
{}
