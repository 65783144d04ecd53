//! The elements of a unit.
ghost use Rattle.std.specs.Prelude.{◌≡◌, ◌<◌, length, IfOk};
ghost use Rattle.hevc_bits.specs.declared.stream_limit.TheConstants.{STREAM_LIMIT};
ghost use Rattle.hevc_parser.specs.Kept.{kept_by};
ghost use Rattle.hevc_parser.specs.Telling.{told_of_unit};

use hevc_bits::{Nalu, NaluHeader};
use hevc_elements::Told;
use hevc_parser::Parser;
use std::alloc::{AllocError, Global};

/// The elements of a unit, of a stream of less than 2^60 bytes, with the sets that a parser keeps:
/// all of a parameter set or a slice segment header, of a refused one up to the element that is
/// refused, and none of another unit.
///
/// Errors: no memory.
pub fn elements_of(
    alloc: Global,
    parser: &Parser,
    nalu: &Nalu<'_, NaluHeader>,
) -> Result<Vec<Told>, AllocError>
    requires { length nalu.now.stream < STREAM_LIMIT }
    ensures { IfOk result
        (λ told. told.items ≡ told_of_unit (kept_by parser.now) nalu.now) }
{
    let mut room = 256;
    for _ in 0..28 {
        let list = Vec::with_capacity(alloc, room)?;
        let told = parser.tell(nalu, list)?;
        if told.len() < told.capacity() {
            return Ok(told);
        }
        room = room.saturating_mul(4);
    }
    Err(AllocError)
}
