//! Worked streams, computed: their points, and the bytes from a point on.
#![tactic(auto)]

ghost use Rattle.std.specs.Prelude.{◌≡◌, List, [], ◌∷◌, ◌++◌, map};
ghost use Rattle.hevc_bit_writer.specs.WrittenUnits.{stream_of};
ghost use Rattle.hevc_stream.specs.Options.{default_options};
ghost use Rattle.hevc_walk_examples.specs.Streams.{idr_bytes, p4_bytes, b2_bytes};
ghost use Rattle.hevc_stream_examples.specs.Worked.{sps_bytes, wide_sps_bytes, pps_bytes};
ghost use Rattle.hevc_stream_examples.specs.Worked.{vps_bytes, resized_stream, encoded_stream};
ghost use Rattle.hevc_stream_examples.specs.Worked.{waiting_stream, cra_within_stream};
ghost use Rattle.hevc_stream_examples.specs.Worked.{before_sets_stream};
ghost use Rattle.hevc_walk_splice.specs.Points.{two_points, its_sets, high_idr};
ghost use Rattle.hevc_index_laws.specs.Points.{points_of};
ghost use Rattle.hevc_index_laws.specs.SplicedUnits.{spliced_bytes};
ghost use Rattle.hevc_index_examples.specs.Told.{idr_at, point_units, one_of_type};

/// What is told of the points of streams of bytes. A CRA picture is none; zero bytes before a start
/// code and units before the first sequence set count where they are.
pub fn told_points()
    ensures empty { points_of default_options [] ≡ [] }
    ensures two { points_of default_options resized_stream ≡ idr_at 0 2 41 ∷ idr_at 1 5 86 ∷ [] }
    ensures zeros { points_of default_options encoded_stream ≡ idr_at 0 4 97 ∷ [] }
    ensures cra { points_of default_options cra_within_stream ≡ idr_at 0 2 41 ∷ [] }
    ensures first { points_of default_options before_sets_stream ≡ idr_at 0 4 53 ∷ [] }
{}

/// A picture is a point by its type and its temporal id.
pub fn kinds_of_points()
    ensures two { point_units two_points ≡ 2 ∷ 4 ∷ [] }
    ensures types { map (λ type. point_units (one_of_type type))
        (1 ∷ 9 ∷ 16 ∷ 17 ∷ 18 ∷ 19 ∷ 20 ∷ 21 ∷ [])
        ≡ [] ∷ [] ∷ (2 ∷ []) ∷ (2 ∷ []) ∷ (2 ∷ []) ∷ (2 ∷ []) ∷ (2 ∷ []) ∷ [] ∷ [] }
    ensures temporal_id { point_units (its_sets ++ high_idr ∷ []) ≡ [] }
{}

/// The bytes from a point on: after all sets before it in their order, also one that replaces
/// another, and without all else that comes before it; each unit after three bytes of start code.
pub fn spliced_points()
    ensures replaced { spliced_bytes 5 resized_stream
        ≡ stream_of (sps_bytes ∷ pps_bytes ∷ wide_sps_bytes ∷ pps_bytes ∷ idr_bytes ∷ []) }
    ensures later_sets { spliced_bytes 2 resized_stream ≡ resized_stream }
    ensures zeros { spliced_bytes 4 encoded_stream
        ≡ stream_of (vps_bytes ∷ sps_bytes ∷ pps_bytes ∷ idr_bytes ∷ p4_bytes ∷ b2_bytes ∷ []) }
    ensures waiting { spliced_bytes 2 waiting_stream ≡ waiting_stream }
    ensures first { spliced_bytes 4 before_sets_stream
        ≡ stream_of (sps_bytes ∷ pps_bytes ∷ idr_bytes ∷ []) }
{}
