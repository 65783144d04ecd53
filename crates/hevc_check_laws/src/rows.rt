//! What a check answers on small streams, computed.

ghost use Rattle.std.specs.Prelude.{◌≡◌, [], ◌∷◌};
ghost use Rattle.hevc_walk.specs.Meanings.{EndOfSequence, EndOfBitstream};
ghost use Rattle.hevc_walk_examples.specs.Streams.{plain, equal_counts, ended_by, deeper, leading};
ghost use Rattle.hevc_walk_examples.specs.Corners.{limited, without_prior};
ghost use Rattle.hevc_walk_examples.specs.OrderStreams.{two_sequences, reordered_too_far, late_stream, full_stream, overfull_stream};
ghost use Rattle.hevc_check_laws.specs.Breaches.{Changed, Latency, SameCount, Full, Discards, Reorder};
ghost use Rattle.hevc_check_laws.specs.Checks.{Yes, No, checked_bounds, checked_order};
ghost use Rattle.hevc_check_laws.specs.Streams.{stream_of, late_second, deep_second, full_then_changed, full_twin, skipped_under, hidden_between, hidden_twin, cra_within, first_without_prior, full_at_start, full_before, late_twin, full_reference, full_skipped, full_hidden, late_discarding, twin_at_latency};

/// Streams that break nothing; an IRAP picture without NoRaslOutputFlag begins no sequence (8.1.3).
pub fn unbroken()
    ensures plain { checked_bounds plain ≡ Yes 1 3 }
    ensures plain_order { checked_order plain ≡ Yes 1 3 }
    ensures empty { checked_bounds [] ≡ Yes 0 0 }
    ensures within { checked_bounds cra_within ≡ Yes 1 2 }
    ensures first { checked_bounds first_without_prior ≡ Yes 1 1 }
{}

/// Streams of several sequences that break nothing: a sequence begins at each IRAP picture with
/// NoRaslOutputFlag (8.1.3).
pub fn unbroken_sequences()
    ensures two { checked_bounds two_sequences ≡ Yes 2 5 }
    ensures two_order { checked_order two_sequences ≡ Yes 2 5 }
    ensures formats { checked_bounds deeper ≡ Yes 2 2 }
    ensures bitstream_end { checked_bounds (ended_by EndOfBitstream) ≡ Yes 2 3 }
    ensures start { checked_bounds full_at_start ≡ Yes 3 4 }
    ensures start_order { checked_order full_at_start ≡ Yes 3 4 }
{}

/// One stream for each breach of the plainer bounds.
pub fn broken_bounds()
    ensures changed_format { checked_bounds deep_second
        ≡ No (record { number = 1; unit = 3; breach = Changed }) }
    ensures latency { checked_bounds (late_stream 3)
        ≡ No (record { number = 0; unit = 2; breach = Latency }) }
    ensures same_count { checked_bounds equal_counts
        ≡ No (record { number = 1; unit = 3; breach = SameCount }) }
    ensures full { checked_bounds full_stream
        ≡ No (record { number = 2; unit = 4; breach = Full }) }
    ensures discards { checked_bounds (ended_by EndOfSequence)
        ≡ No (record { number = 2; unit = 5; breach = Discards }) }
    ensures discards_by_flag { checked_bounds without_prior
        ≡ No (record { number = 2; unit = 4; breach = Discards }) }
    ensures reorder { checked_bounds reordered_too_far
        ≡ No (record { number = 3; unit = 5; breach = Reorder }) }
{}

/// One stream for each breach of display order.
pub fn broken_orders()
    ensures changed_format { checked_order deep_second
        ≡ No (record { number = 1; unit = 3; breach = Changed }) }
    ensures latency { checked_order (late_stream 1)
        ≡ No (record { number = 4; unit = 6; breach = Latency }) }
    ensures same_count { checked_order equal_counts
        ≡ No (record { number = 1; unit = 3; breach = SameCount }) }
    ensures full { checked_order overfull_stream
        ≡ No (record { number = 3; unit = 5; breach = Full }) }
    ensures full_before { checked_order full_before
        ≡ No (record { number = 4; unit = 6; breach = Full }) }
    ensures discards { checked_order (ended_by EndOfSequence)
        ≡ No (record { number = 2; unit = 5; breach = Discards }) }
    ensures reorder { checked_order reordered_too_far
        ≡ No (record { number = 3; unit = 5; breach = Reorder }) }
{}

/// A declared latency and a full buffer alone break nothing of display order.
pub fn kept_orders()
    ensures kept_latency { checked_order (late_stream 2) ≡ Yes 1 5 }
    ensures kept_room { checked_order full_stream ≡ Yes 1 3 }
{}

/// The lowest picture is named, even where a later one has an earlier breach of the table.
pub fn lowest_is_named()
    ensures lowest { checked_bounds full_then_changed
        ≡ No (record { number = 2; unit = 4; breach = Full }) }
    ensures lowest_order { checked_order full_then_changed
        ≡ No (record { number = 3; unit = 5; breach = Changed }) }
{}

/// Of one picture's breaches the first of the table is named.
pub fn first_is_named()
    ensures changed_and_latency { checked_bounds late_second
        ≡ No (record { number = 1; unit = 3; breach = Changed }) }
    ensures latency_and_count { checked_order late_twin
        ≡ No (record { number = 5; unit = 7; breach = Latency }) }
    ensures latency_and_discards { checked_bounds late_discarding
        ≡ No (record { number = 1; unit = 3; breach = Latency }) }
    ensures count_at_latency { checked_order twin_at_latency
        ≡ No (record { number = 4; unit = 6; breach = SameCount }) }
    ensures full_and_reorder { checked_bounds full_reference
        ≡ No (record { number = 1; unit = 3; breach = Full }) }
    ensures full_and_reorder_order { checked_order full_reference
        ≡ No (record { number = 1; unit = 3; breach = Full }) }
    ensures count_and_full { checked_bounds full_twin
        ≡ No (record { number = 2; unit = 4; breach = SameCount }) }
{}

/// Changed, Latency and SameCount look at skipped pictures, Full and Reorder don't.
pub fn skipped_pictures()
    ensures skipped { checked_bounds leading ≡ Yes 1 3 }
    ensures changed { checked_bounds
        (stream_of (skipped_under (limited 2 0 4) (limited 2 0 3) (6 ∷ [])))
        ≡ No (record { number = 1; unit = 3; breach = Changed }) }
    ensures changed_order { checked_order
        (stream_of (skipped_under (limited 2 0 4) (limited 2 0 3) (6 ∷ [])))
        ≡ No (record { number = 1; unit = 3; breach = Changed }) }
    ensures same_count { checked_bounds
        (stream_of (skipped_under (limited 2 0 4) (limited 2 0 4) (6 ∷ 6 ∷ [])))
        ≡ No (record { number = 2; unit = 4; breach = SameCount }) }
    ensures same_count_order { checked_order
        (stream_of (skipped_under (limited 2 0 4) (limited 2 0 4) (6 ∷ 6 ∷ [])))
        ≡ Yes 1 3 }
    ensures full_and_reorder { checked_bounds
        (stream_of (skipped_under (limited 0 0 0) (limited 0 0 0) (6 ∷ [])))
        ≡ Yes 1 2 }
    ensures full { checked_bounds full_skipped ≡ Yes 1 3 }
    ensures full_order { checked_order full_skipped ≡ Yes 1 3 }
{}

/// A picture that isn't to be output is no later one in output order.
pub fn hidden_pictures()
    ensures hidden_full { checked_order full_hidden ≡ Yes 1 3 }
    ensures hidden { checked_bounds hidden_between ≡ Yes 1 3 }
    ensures hidden_order { checked_order hidden_between ≡ Yes 1 3 }
    ensures hidden_count { checked_bounds hidden_twin
        ≡ No (record { number = 1; unit = 3; breach = SameCount }) }
    ensures hidden_count_order { checked_order hidden_twin ≡ Yes 1 2 }
{}
