//! Small streams, computed: each keeps the order that it declares, or doesn't.

ghost use Rattle.std.specs.Prelude.{◌≡◌, pos, List, [], ◌∷◌, All, Some, Ok, map, take, option_map};
ghost use Rattle.std.specs.Prelude.{true, false};
ghost use Rattle.hevc_walk.specs.Pictures.{pictures};
ghost use Rattle.hevc_walk.specs.Results.{verdict};
ghost use Rattle.hevc_walk_examples.specs.Streams.{plain, told_outputs};
ghost use Rattle.hevc_walk_examples.specs.Corners.{broken_link};
ghost use Rattle.hevc_walk_order.specs.Sequences.{Sequence, sequences, earliest};
ghost use Rattle.hevc_walk_order.specs.Sequences.{pictures_for_output};
ghost use Rattle.hevc_walk_order.specs.DisplayOrder.{KeepsOrder, FewPrecede, latency_pictures};
ghost use Rattle.hevc_walk_order.specs.DisplayOrder.{decoded_between, AreInOrder, ComeInOrder};
ghost use Rattle.hevc_walk_order.specs.DisplayOrder.{ComeInTurn};
ghost use Rattle.hevc_walk_order.specs.Bounds.{KeepsBounds};
ghost use Rattle.hevc_walk_order.specs.Tests.{keeps_order, keeps_bounds};
ghost use Rattle.hevc_walk_examples.specs.OrderStreams.{sets_of, two_sequences, reordered_too_far};
ghost use Rattle.hevc_walk_examples.specs.OrderStreams.{late_stream, full_stream, overfull_stream};
ghost use Rattle.hevc_walk_examples.specs.OrderStreams.{sequence_numbers, output_counts};
ghost use Rattle.hevc_walk_examples.specs.OrderStreams.{last_first};

/// Two sequences, the first of which begins without an IRAP picture: both keep the order that they
/// declare, and the plainer bounds.
pub fn kept_order()
    ensures sequences { sequence_numbers two_sequences ≡ (4 ∷ 3 ∷ 2 ∷ []) ∷ (1 ∷ 0 ∷ []) ∷ [] }
    ensures keeps { All (KeepsOrder two_sequences) (sequences two_sequences) }
    ensures bounds { All (KeepsBounds two_sequences) (sequences two_sequences) }
    ensures tested { map (keeps_order two_sequences) (sequences two_sequences) ≡ true ∷ true ∷ [] }
    ensures outputs { told_outputs two_sequences
        ≡ (1, pos 2, 4) ∷ (0, pos 4, 4) ∷ (2, pos 0, 6) ∷ (4, pos 2, 7) ∷ (3, pos 4, 7) ∷ [] }
    ensures counts { output_counts two_sequences
        ≡ (pos 0 ∷ pos 2 ∷ pos 4 ∷ []) ∷ (pos 2 ∷ pos 4 ∷ []) ∷ [] }
    ensures verdict { verdict two_sequences ≡ Ok 5 }
{}

/// An IDR picture, a P picture of order count 4, and I pictures of 2 and 1: two pictures precede
/// the last and follow it in output order, where one is declared. It is output after a picture of a
/// greater order count.
pub fn broken_order()
    ensures breaks { All (λ q. FewPrecede q.first.limits.max_num_reorder_pics (pictures_for_output q) → ⊥)
        (sequences reordered_too_far) }
    ensures tested { map (keeps_order reordered_too_far) (sequences reordered_too_far)
        ≡ false ∷ [] }
    ensures outputs { told_outputs reordered_too_far
        ≡ (0, pos 0, 4) ∷ (2, pos 2, 5) ∷ (3, pos 1, 6) ∷ (1, pos 4, 6) ∷ [] }
    ensures verdict { verdict reordered_too_far ≡ Ok 4 }
{}

/// A latency of 4 pictures is declared, and the order is kept.
pub fn kept_latency()
    ensures keeps { All (KeepsOrder (late_stream 3)) (sequences (late_stream 3)) }
    ensures tested { map (keeps_order (late_stream 3)) (sequences (late_stream 3)) ≡ true ∷ [] }
    ensures no_bounds { map (keeps_bounds (late_stream 3)) (sequences (late_stream 3))
        ≡ false ∷ [] }
    ensures counts { output_counts (late_stream 3)
        ≡ (pos 0 ∷ pos 2 ∷ pos 3 ∷ pos 4 ∷ pos 8 ∷ []) ∷ [] }
    ensures verdict { verdict (late_stream 3) ≡ Ok 5 }
{}

/// The same under a latency of 2: every store raises a latency count, so the picture of 4 is output
/// before that of 3 comes.
pub fn broken_latency()
    ensures breaks { All (λ q. KeepsOrder (late_stream 1) q → ⊥) (sequences (late_stream 1)) }
    ensures tested { map (keeps_order (late_stream 1)) (sequences (late_stream 1)) ≡ false ∷ [] }
    ensures few_precede { All (λ q. FewPrecede q.first.limits.max_num_reorder_pics (pictures_for_output q))
        (sequences (late_stream 1)) }
    ensures counts { output_counts (late_stream 1)
        ≡ (pos 0 ∷ pos 2 ∷ pos 4 ∷ pos 3 ∷ pos 8 ∷ []) ∷ [] }
    ensures verdict { verdict (late_stream 1) ≡ Ok 5 }
{}

/// A picture is output because the buffer is full, and the order is kept.
pub fn kept_room()
    ensures keeps { All (KeepsOrder full_stream) (sequences full_stream) }
    ensures tested { map (keeps_order full_stream) (sequences full_stream) ≡ true ∷ [] }
    ensures no_bounds { map (keeps_bounds full_stream) (sequences full_stream) ≡ false ∷ [] }
    ensures outputs { told_outputs full_stream ≡ (0, pos 0, 4) ∷ (1, pos 1, 5) ∷ (2, pos 2, 5) ∷ [] }
    ensures verdict { verdict full_stream ≡ Ok 3 }
{}

/// A picture is output because the buffer is full before one of a lower order count comes.
pub fn broken_room()
    ensures breaks { All (λ q. KeepsOrder overfull_stream q → ⊥) (sequences overfull_stream) }
    ensures tested { map (keeps_order overfull_stream) (sequences overfull_stream) ≡ false ∷ [] }
    ensures few_precede { All (λ q. FewPrecede q.first.limits.max_num_reorder_pics (pictures_for_output q))
        (sequences overfull_stream) }
    ensures outputs { told_outputs overfull_stream
        ≡ (0, pos 0, 4) ∷ (2, pos 3, 5) ∷ (3, pos 1, 6) ∷ (1, pos 4, 6) ∷ [] }
    ensures verdict { verdict overfull_stream ≡ Ok 4 }
{}

/// Pictures that come in no rising order count, or not at all, and a sequence that comes before the
/// one before it.
pub fn wrong_orders()
    ensures falling { AreInOrder (pictures plain) (last_first plain) → ⊥ }
    ensures lacking { AreInOrder (pictures plain) [] → ⊥ }
    ensures nothing { ComeInOrder two_sequences [] → ⊥ }
    ensures turns { ComeInTurn two_sequences (last_first two_sequences) → ⊥ }
{}

/// A latency is kept where one picture more between two would break it; skipped pictures aren't
/// counted.
pub fn counted_latency()
    ensures between { decoded_between 0 2 (pictures broken_link) ≡ 1 }
    ensures both { decoded_between 0 3 (pictures broken_link) ≡ 2 }
    ensures skipped { decoded_between 1 4 (pictures broken_link) ≡ 1 }
    ensures allowed { latency_pictures (sets_of 3 4).limits ≡ 4 }
    ensures at_bound { map (keeps_order (late_stream 2)) (sequences (late_stream 2)) ≡ true ∷ [] }
    ensures counts { output_counts (late_stream 2)
        ≡ (pos 0 ∷ pos 2 ∷ pos 3 ∷ pos 4 ∷ pos 8 ∷ []) ∷ [] }
    ensures earliest { option_map (λ p. p.number) (earliest (take 2 (pictures plain))) ≡ Some 1 }
{}
