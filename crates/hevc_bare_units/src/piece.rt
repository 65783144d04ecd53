//! Units whose header isn't looked at.
ghost use Rattle.std.specs.Prelude.{Ok, false};
ghost use Rattle.hevc_bare_units.specs.declared.piece.Piece.{Piece};

use hevc_bits::{Header, UnitError};

/// In the place of a header: all bytes up to the next start code are a unit's own, without the
/// zeros at their end.
#[derive(Clone, Copy)]
pub struct Piece;

impl Header for Piece {
    ghost parsed = { λ bytes. Ok (record {}) };

    ghost kept = { λ bytes. bytes };

    ghost ends = { λ piece. false };

    ghost header_len = { λ piece. 0 };

    fn parse(_bytes: &[u8]) -> Result<Piece, UnitError> {
        Ok(Piece)
    }

    fn is_end(&self) -> bool {
        false
    }

    fn len(&self) -> usize {
        0
    }
}
