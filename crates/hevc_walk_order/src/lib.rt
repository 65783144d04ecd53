//! A coded video sequence that keeps the order that it declares is output in display order.
//!
//! A sequence begins at the first picture, and at each IRAP picture whose NoRaslOutputFlag is 1
//! (8.1.3). It declares by its sequence parameter set how many pictures may precede another in
//! decoding order and follow it in output order (sps_max_num_reorder_pics), how long a picture may
//! wait (sps_max_latency_increase_plus1), and how many pictures the buffer holds
//! (sps_max_dec_pic_buffering_minus1). The bumping process (C.5.2) takes that at its word and tests
//! none of it.
#![tactic(auto)]

ghost use Rattle.std.specs.Prelude.{◌≡◌, ℕ, List, All, flat_map, None, Ok, Decides};
ghost use Rattle.hevc_walk.specs.Meanings.{Meaning};
ghost use Rattle.hevc_walk.specs.Pictures.{pictures};
ghost use Rattle.hevc_walk.specs.Refusals.{stop};
ghost use Rattle.hevc_walk.specs.Results.{outputs, verdict};
ghost use Rattle.hevc_walk_order.specs.Sequences.{Sequence, IsSequence, sequences, pictures_of};
ghost use Rattle.hevc_walk_order.specs.Sequences.{pictures_for_output, outputs_of};
ghost use Rattle.hevc_walk_order.specs.DisplayOrder.{KeepsOrder, AreInOrder, ComeInOrder};
ghost use Rattle.hevc_walk_order.specs.DisplayOrder.{ComeInTurn};
ghost use Rattle.hevc_walk_order.specs.Bounds.{KeepsBounds};
ghost use Rattle.hevc_walk_order.specs.Tests.{keeps_order, keeps_bounds};

/// The pictures of a stream are those of its sequences, one after another.
pub fn cut_into_sequences()
    ensures each { (us : List Meaning) → All (IsSequence us) (sequences us) }
    ensures whole { (us : List Meaning) → flat_map pictures_of (sequences us) ≡ pictures us }
{}

/// Where no unit is refused, so in a stream that is decoded whole, the outputs of each sequence
/// that keeps the order that it declares are exactly its pictures that are to be output, in
/// strictly rising order count.
pub fn display_order()
    ensures goes_on { (us : List Meaning) → stop us ≡ None → ComeInOrder us (outputs us) }
    ensures verdict { (us : List Meaning) (n : ℕ) → verdict us ≡ Ok n
        → ComeInOrder us (outputs us) }
{}

/// Plainer bounds do for it: no latency is declared, no picture is output because the buffer is
/// full, and no two have one order count.
pub fn bounds_keep_order()
    ensures order { (us : List Meaning) (q : Sequence) → KeepsBounds us q → KeepsOrder us q }
    ensures outputs { (us : List Meaning) (n : ℕ) → verdict us ≡ Ok n
        → (q : Sequence) → IsSequence us q → KeepsBounds us q
        → AreInOrder (pictures_for_output q) (outputs_of q (outputs us)) }
{}

/// Where no unit is refused, sequence by sequence is output, whatever they declare.
pub fn sequences_in_turn()
    ensures { (us : List Meaning) → stop us ≡ None → ComeInTurn us (outputs us) }
{}

/// Whether a sequence keeps the order that it declares, or the plainer bounds, can be computed.
pub fn order_is_tested()
    ensures order { (us : List Meaning) (q : Sequence)
        → Decides (keeps_order us q) (KeepsOrder us q) }
    ensures bounds { (us : List Meaning) (q : Sequence)
        → Decides (keeps_bounds us q) (KeepsBounds us q) }
{}
