//! Streams that each turn on what changes between pictures: limits, the format, a stop.

ghost use Rattle.std.specs.Prelude.{◌≡◌, pos, true, List, [], ◌∷◌, map, Some, Ok, Err};
ghost use Rattle.hevc_walk.specs.Meanings.{OutOfBits};
ghost use Rattle.hevc_walk.specs.Pictures.{stream, pictures};
ghost use Rattle.hevc_walk.specs.ReferenceSets.{no_references};
ghost use Rattle.hevc_walk.specs.Walk.{NewSequence, NewPicture, BeginPicture, DecodeSlice};
ghost use Rattle.hevc_walk.specs.Walk.{SubmitPicture};
ghost use Rattle.hevc_walk.specs.Refusals.{UnitRefused};
ghost use Rattle.hevc_walk.specs.Results.{calls, outputs, calls_below, calls_above, outputs_below};
ghost use Rattle.hevc_walk.specs.Results.{outputs_of_unit, outputs_above, verdict};
ghost use Rattle.hevc_walk.specs.Fates.{discarded_numbers, numbers_for_output, times};
ghost use Rattle.hevc_walk.specs.Fates.{output_numbers};
ghost use Rattle.hevc_walk_examples.specs.Streams.{plain_format, plain, encoded, idr_bytes};
ghost use Rattle.hevc_walk_examples.specs.Streams.{told_outputs};
ghost use Rattle.hevc_walk_examples.specs.Corners.{without_prior};
ghost use Rattle.hevc_walk_examples.specs.Changes.{discarded_waiting, narrowed, late_reference};
ghost use Rattle.hevc_walk_examples.specs.Changes.{wide_format, tall_format, ten_bits_format};
ghost use Rattle.hevc_walk_examples.specs.Changes.{chroma_format, full_format, small_format};
ghost use Rattle.hevc_walk_examples.specs.Changes.{reformed, negotiated, crowded_skipped};
ghost use Rattle.hevc_walk_examples.specs.Changes.{skipped_deeper, far_discard, stopped_waiting};

/// A picture is stored under its own limits, and others are bumped before it under them; one that
/// was output already is never late.
pub fn changed_limits()
    ensures discarded { told_outputs discarded_waiting ≡ (2, pos 0, 5) ∷ [] }
    ensures narrowed { told_outputs narrowed
        ≡ (0, pos 0, 4) ∷ (1, pos 4, 4) ∷ (2, pos 2, 5) ∷ [] }
    ensures late { told_outputs late_reference
        ≡ (0, pos 0, 5) ∷ (1, pos 4, 6) ∷ (2, pos 8, 6) ∷ (3, pos 12, 6) ∷ [] }
{}

/// A format is negotiated anew where one of its numbers is another, and once.
pub fn changed_formats()
    ensures { negotiated reformed
        ≡ (0, plain_format) ∷ (2, wide_format) ∷ (3, tall_format) ∷ (4, ten_bits_format) ∷
        (5, chroma_format) ∷ (6, full_format) ∷ (7, small_format) ∷ [] }
{}

/// A skipped picture finds no full buffer and keeps no format, one that isn't decoded discards
/// nothing, and a refused unit outputs nothing that waits.
pub fn stops()
    ensures skipped { verdict crowded_skipped ≡ Ok 7 }
    ensures format { verdict skipped_deeper ≡ Ok 2 }
    ensures discarded { discarded_numbers far_discard ≡ [] }
    ensures waiting { told_outputs stopped_waiting ≡ [] }
    ensures stopped { verdict stopped_waiting
        ≡ Err (record { unit = 4; cause = UnitRefused OutOfBits }) }
{}

/// What each picture of three becomes, counted: the one that is discarded is neither fated for
/// output nor output.
pub fn counted_fates()
    ensures fated { numbers_for_output (discarded_numbers without_prior) (pictures without_prior)
        ≡ 2 ∷ 0 ∷ [] }
    ensures out { output_numbers without_prior ≡ 0 ∷ 2 ∷ [] }
    ensures times { map (λ n. times n (0 ∷ 2 ∷ 0 ∷ [])) (0 ∷ 1 ∷ 2 ∷ []) ≡ 2 ∷ 0 ∷ 1 ∷ [] }
{}

/// What is asked and output before a unit, at it and after it, and the units at which pictures
/// begin.
pub fn around_a_unit()
    ensures calls { calls_below 3 (calls plain)
        ≡ (0, NewSequence plain_format) ∷ (2, NewPicture 0 19 (pos 0) true 0)
        ∷ (2, BeginPicture 0 no_references) ∷ (2, DecodeSlice 0 0 idr_bytes [] []) ∷ [] }
    ensures later_calls { calls_above 4 (calls plain) ≡ (5, SubmitPicture 2) ∷ [] }
    ensures outputs { map (λ o. o.number) (outputs_below 5 (outputs plain)) ≡ 0 ∷ [] }
    ensures outputs_at { map (λ o. o.number) (outputs_of_unit 5 (outputs plain)) ≡ 2 ∷ 1 ∷ [] }
    ensures later_outputs { map (λ o. o.number) (outputs_above 4 (outputs plain)) ≡ 2 ∷ 1 ∷ [] }
    ensures units { map (λ p. p.unit) (pictures plain) ≡ 4 ∷ 3 ∷ 2 ∷ [] }
    ensures first_set { (stream encoded).first_set ≡ Some (1, plain_format) }
{}
