//! The next unit, and the bytes that are its own.
ghost use Rattle.std.specs.Prelude.{◌≡◌, ◌≤◌, ◌/◌, ◌%◌, [], length, IfNone, IfSome};
ghost use Rattle.hevc_spec.specs.Units.{kept_bytes, units_from};
ghost use Rattle.hevc_spec.specs.UnitTypes.{is_end};
ghost use Rattle.hevc_bare_units.specs.Pieces.{IsNextPiece};

use crate::piece::Piece;
use hevc_bits::{Nalu, NaluType};

/// The first unit whose start code is at `position` or after it, whatever its header is, with all
/// bytes up to the next start code but the zeros at their end. Those of them that are the unit's
/// own are `own_bytes`.
pub fn next_piece(stream: &[u8], position: usize) -> Option<Nalu<'_, Piece>>
    requires { position ≤ length stream.now }
    ensures none { IfNone result (units_from kept_bytes position stream.now ≡ []) }
    ensures first { IfSome result (λ piece. IsNextPiece position stream.now piece) }
{
    let mut place = position;
    match Nalu::next(stream, &mut place) {
        Ok(piece) => Some(piece),
        Err(_none) => None,
    }
}

/// The bytes of a unit that are its own, of those up to the next start code: the two header bytes
/// of an end of sequence or of bitstream (7.3.2.6, 7.3.2.7), and all bytes of another.
pub fn own_bytes(piece: &[u8]) -> &[u8]
    ensures { result.now ≡ kept_bytes piece.now }
{
    match piece {
        &[first, _, ..] if is_end_type(first) => &piece[..2],
        _ => piece,
    }
}

/// Whether a unit with this first byte is an end of sequence or of bitstream.
fn is_end_type(first: u8) -> bool
    ensures { result ≡ is_end (first / 2 % 64) }
{
    let nal_unit_type = first / 2 % 64;
    nal_unit_type == NaluType::EosNut as u8 || nal_unit_type == NaluType::EobNut as u8
}
