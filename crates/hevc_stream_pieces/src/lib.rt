//! Streams that are put together of parts: the units that are found in them are those of the parts.
#![tactic(auto)]

ghost use Rattle.std.specs.Prelude.{◌≡◌, ℕ, List, ◌++◌, All, length, true};
ghost use Rattle.std.specs.declared.result.Result.TheVariants.{Ok};
ghost use Rattle.hevc_spec.specs.UnitHeader.{UnitHeader, unit_header};
ghost use Rattle.hevc_spec.specs.Units.{begins_with_start_code, kept_bytes, units, units_at};
ghost use Rattle.hevc_spec.specs.Units.{without_trailing_zeros};
ghost use Rattle.hevc_bit_writer.specs.WrittenUnits.{placed, stream_of};
ghost use Rattle.hevc_stream_pieces.specs.Pieces.{IsPiece, IsWholePiece, units_of_pieces};

/// Where the second of two parts begins with a start code, the units are those of the first part,
/// and then those of the second at their places.
#[tactic(auto, using(crate::proofs::Joined::parts_joined))]
pub fn units_of_two_parts()
    ensures { (xs ys : List ℕ) → begins_with_start_code ys ≡ true
        → units (xs ++ ys) ≡ units xs ++ units_at kept_bytes (length xs) ys }
{}

/// The units of joined pieces are the pieces, each after its start code. Of pieces that keep all of
/// their bytes they are those bytes.
#[tactic(auto, using(crate::proofs::Found::pieces_found, crate::proofs::Found::whole_pieces_found))]
pub fn joined_pieces_are_found()
    ensures kept { (pieces : List (List ℕ)) → All IsPiece pieces
        → units (stream_of pieces) ≡ units_of_pieces 0 pieces }
    ensures whole { (pieces : List (List ℕ)) → All IsWholePiece pieces
        → units (stream_of pieces) ≡ placed 0 pieces }
{}

/// A unit of a stream is such a piece, unless it ends in 00, as an end unit may whose second byte
/// is 0. The header of that one is refused.
pub fn units_are_pieces()
    ensures trimmed { (stream : List ℕ)
        → All (λ u. without_trailing_zeros u.bytes ≡ u.bytes → IsWholePiece u.bytes)
        (units stream) }
    ensures headed { (stream : List ℕ)
        → All (λ u. (h : UnitHeader) → unit_header u.bytes ≡ Ok h → IsWholePiece u.bytes)
        (units stream) }
{}
