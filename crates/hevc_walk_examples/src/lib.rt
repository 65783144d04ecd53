//! Small streams, computed: what the definitions of `hevc_walk` say of them.
#![tactic(auto, unfolding(crate::proofs::Computing::whole_walk))]

pub mod changes;
pub mod clean;
pub mod corners;
pub mod order;
pub mod references;

ghost use Rattle.std.specs.Prelude.{◌≡◌, ℤ, pos, negsuc, ◌-◌, true, false, ◌^◌, List, [], ◌∷◌};
ghost use Rattle.std.specs.Prelude.{Some, None, Ok, Err};
ghost use Rattle.hevc_walk.specs.OrderCounts.{nearest, is_i32};
ghost use Rattle.hevc_walk.specs.Buffer.{draining};
ghost use Rattle.hevc_walk.specs.ReferenceSets.{no_references};
ghost use Rattle.hevc_walk.specs.ReferenceLists.{DpbEntry};
ghost use Rattle.hevc_walk.specs.Walk.{NewSequence, NewPicture, BeginPicture, DecodeSlice};
ghost use Rattle.hevc_walk.specs.Walk.{SubmitPicture};
ghost use Rattle.hevc_walk.specs.Refusals.{NoIndependentSlice, ChangedMidPicture, DpbFull};
ghost use Rattle.hevc_walk.specs.Results.{calls, calls_of_unit, so_far, verdict};
ghost use Rattle.hevc_walk.specs.Meanings.{EndOfSequence, EndOfBitstream};
ghost use Rattle.hevc_walk_examples.specs.Streams.{plain_format, deep_format, plain, leading};
ghost use Rattle.hevc_walk_examples.specs.Streams.{ended_by, equal_counts, without_reference};
ghost use Rattle.hevc_walk_examples.specs.Streams.{encoded, dependent_alone, dependent_behind};
ghost use Rattle.hevc_walk_examples.specs.Streams.{crowded, crowded_refused, waiting};
ghost use Rattle.hevc_walk_examples.specs.Streams.{three_waiting, deeper, deeper_without_prior};
ghost use Rattle.hevc_walk_examples.specs.Streams.{deeper_mid_picture, told_outputs, slice_lists};
ghost use Rattle.hevc_walk_examples.specs.Streams.{new_pictures, idr_bytes, p4_bytes, p2_bytes};
ghost use Rattle.hevc_walk_examples.specs.Streams.{dependent_bytes};

/// An IDR picture and two P pictures, the second between the first two in output order.
pub fn plain_stream()
    ensures calls { calls plain ≡ (0, NewSequence plain_format)
        ∷ (2, NewPicture 0 19 (pos 0) true 0) ∷ (2, BeginPicture 0 no_references)
        ∷ (2, DecodeSlice 0 0 idr_bytes [] [])
        ∷ (3, SubmitPicture 0)
        ∷ (3, NewPicture 1 1 (pos 4) true 0)
        ∷ (3, BeginPicture 1 (record no_references { st_curr_before = Some 0 ∷ [] }))
        ∷ (3, DecodeSlice 1 0 p4_bytes (Some (DpbEntry 0) ∷ []) [])
        ∷ (4, SubmitPicture 1)
        ∷ (4, NewPicture 2 1 (pos 2) true 0)
        ∷ (
          4,
          BeginPicture 2 (record no_references {
            st_curr_before = Some 0 ∷ [];
            st_curr_after = Some 1 ∷ [];
          }),
        )
        ∷ (4, DecodeSlice 2 0 p2_bytes (Some (DpbEntry 0) ∷ []) [])
        ∷ (5, SubmitPicture 2) ∷ [] }
    ensures outputs { told_outputs plain ≡ (0, pos 0, 4) ∷ (2, pos 2, 5) ∷ (1, pos 4, 5) ∷ [] }
    ensures verdict { verdict plain ≡ Ok 3 }
{}

/// A stream that begins at a CRA picture: its RASL pictures are skipped, and take numbers.
pub fn skipped_leading()
    ensures pictures { new_pictures leading ≡ (0, 21, pos 8, true) ∷ [] }
    ensures slices { slice_lists leading ≡ (0, [], []) ∷ [] }
    ensures outputs { told_outputs leading ≡ (0, pos 8, 6) ∷ [] }
    ensures verdict { verdict leading ≡ Ok 3 }
{}

/// A CRA picture after an end of sequence discards what is needed for output; after an end of
/// bitstream it doesn't.
pub fn ends()
    ensures sequence { told_outputs (ended_by EndOfSequence) ≡ (0, pos 0, 5) ∷ (2, pos 8, 6) ∷ [] }
    ensures sequence_verdict { verdict (ended_by EndOfSequence) ≡ Ok 3 }
    ensures bitstream { told_outputs (ended_by EndOfBitstream)
        ≡ (0, pos 0, 5) ∷ (1, pos 4, 5) ∷ (2, pos 8, 6) ∷ [] }
    ensures bitstream_verdict { verdict (ended_by EndOfBitstream) ≡ Ok 3 }
{}

/// Pictures of one order count are output in the order in which they were stored.
pub fn ties()
    ensures stream { told_outputs equal_counts ≡ (0, pos 0, 4) ∷ (1, pos 0, 4) ∷ [] }
    ensures verdict { verdict equal_counts ≡ Ok 2 }
    ensures drained { draining three_waiting
        ≡ record {
          outputs = waiting 8 (pos 0) ∷ waiting 9 (pos 0) ∷ waiting 7 (pos 4) ∷ [];
          left = [];
        } }
{}

/// A P slice over an empty reference picture set has a place without a picture.
pub fn missing_reference()
    ensures pictures { new_pictures without_reference
        ≡ (0, 19, pos 0, true) ∷ (1, 1, pos 4, true) ∷ [] }
    ensures slices { slice_lists without_reference ≡ (0, [], []) ∷ (1, None ∷ [], []) ∷ [] }
    ensures verdict { verdict without_reference ≡ Ok 2 }
{}

/// The order count nearest to an earlier one, and one that is no 32-bit number.
pub fn order_counts()
    ensures up { nearest 16 (pos 14) 2 ≡ pos 18 }
    ensures down { nearest 16 (pos 18) 14 ≡ pos 14 }
    ensures half { nearest 16 (pos 0) 8 ≡ pos 8 }
    ensures outside { is_i32 (nearest 16 (pos (2 ^ 31 - 2)) 2) ≡ false }
    ensures below { is_i32 (nearest 16 (negsuc (2 ^ 31 - 1)) 15) ≡ false }
    ensures lowest { is_i32 (nearest 16 (negsuc (2 ^ 31 - 1)) 0) ≡ true }
    ensures highest { is_i32 (nearest 16 (pos (2 ^ 31 - 2)) 15) ≡ true }
{}

/// As an encoder writes it, with a B slice.
pub fn encoder_stream()
    ensures pictures { new_pictures encoded
        ≡ (0, 19, pos 0, true) ∷ (1, 1, pos 4, true) ∷ (2, 1, pos 2, true) ∷ [] }
    ensures slices { slice_lists encoded
        ≡ (0, [], []) ∷ (1, Some (DpbEntry 0) ∷ [], []) ∷
        (2, Some (DpbEntry 0) ∷ [], Some (DpbEntry 1) ∷ []) ∷ [] }
    ensures outputs { told_outputs encoded ≡ (0, pos 0, 6) ∷ (2, pos 2, 7) ∷ (1, pos 4, 7) ∷ [] }
    ensures verdict { verdict encoded ≡ Ok 3 }
{}

/// A dependent slice has the header of the independent one before it, and is refused without one.
pub fn dependent_slices()
    ensures alone { verdict dependent_alone
        ≡ Err (record { unit = 2; cause = NoIndependentSlice }) }
    ensures alone_calls { calls dependent_alone ≡ (0, NewSequence plain_format) ∷ [] }
    ensures behind { calls dependent_behind ≡ (0, NewSequence plain_format)
        ∷ (2, NewPicture 0 19 (pos 0) true 0) ∷ (2, BeginPicture 0 no_references)
        ∷ (2, DecodeSlice 0 0 idr_bytes [] [])
        ∷ (3, DecodeSlice 0 0 dependent_bytes [] []) ∷ (4, SubmitPicture 0) ∷ [] }
    ensures outputs { told_outputs dependent_behind ≡ (0, pos 0, 4) ∷ [] }
    ensures verdict { verdict dependent_behind ≡ Ok 1 }
{}

/// Seven pictures that are needed for output don't fit into a buffer of six.
pub fn full_buffer()
    ensures nothing_yet { so_far 9 crowded ≡ [] }
    ensures last_calls { calls_of_unit 9 (calls crowded) ≡ (9, SubmitPicture 6) ∷ [] }
    ensures verdict { verdict crowded ≡ Err (record { unit = 9; cause = DpbFull }) }
    ensures before_refusal { verdict crowded_refused ≡ Err (record { unit = 9; cause = DpbFull }) }
{}

/// Another bit depth is another format: it is negotiated anew, what is needed for output is output
/// before it whatever the picture's flag says, and within a picture it is refused.
pub fn changed_depth()
    ensures calls { calls deeper ≡ (0, NewSequence plain_format)
        ∷ (2, NewPicture 0 19 (pos 0) true 0) ∷ (2, BeginPicture 0 no_references)
        ∷ (2, DecodeSlice 0 0 idr_bytes [] [])
        ∷ (5, SubmitPicture 0) ∷ (5, NewSequence deep_format)
        ∷ (5, NewPicture 1 19 (pos 0) true 0) ∷ (5, BeginPicture 1 no_references)
        ∷ (5, DecodeSlice 1 0 idr_bytes [] [])
        ∷ (6, SubmitPicture 1) ∷ [] }
    ensures outputs { told_outputs deeper ≡ (0, pos 0, 5) ∷ (1, pos 0, 6) ∷ [] }
    ensures without_prior { told_outputs deeper_without_prior
        ≡ (0, pos 0, 6) ∷ (1, pos 4, 6) ∷ (2, pos 0, 7) ∷ [] }
    ensures mid_picture { verdict deeper_mid_picture
        ≡ Err (record { unit = 5; cause = ChangedMidPicture plain_format deep_format }) }
{}
