//! Bits that are tried as the payload of a unit, to be read back.
ghost use Rattle.std.specs.Prelude.{◌≡◌, ◌<◌, ℕ, Bool, List, false, length, Ok, IfOk};
ghost use Rattle.hevc_spec.specs.Payload.{payload};
ghost use Rattle.hevc_spec.specs.UnitHeader.{UnitHeader, unit_header};
ghost use Rattle.hevc_spec.specs.UnitTypes.{is_end};
ghost use Rattle.hevc_bits.specs.FoundUnit.{bytes_of};
ghost use Rattle.hevc_bits.specs.declared.stream_limit.TheConstants.{STREAM_LIMIT};
ghost use Rattle.hevc_write_units.specs.Trials.{IsTrial, IsWhole};

use crate::header::header_bytes;
use hevc_bit_writer::{BitWriter, append_unit};
use hevc_bits::{Nalu, NaluHeader, STREAM_LIMIT};
use std::alloc::{AllocError, Global};

/// A stream of one unit, with this header and these payload bits.
///
/// Errors: no memory, which there isn't for 2^60 bytes either.
pub fn trial_stream(
    alloc: Global,
    header: &NaluHeader,
    w: &BitWriter,
) -> Result<Vec<u8>, AllocError>
    requires whole { IsWhole w.now }
    requires no_end { is_end header.now.nal_unit_type ≡ false }
    ensures { IfOk result (λ stream. IsTrial header.now w.now stream.items) }
{
    let mut stream = Vec::new(alloc);
    append_unit(alloc, &mut stream, header_bytes(header), w.as_bytes())?;
    if stream.len() < STREAM_LIMIT {
        Ok(stream)
    } else {
        Err(AllocError)
    }
}

/// The unit of such a stream.
pub fn trial_unit(stream: &[u8]) -> Nalu<'_, NaluHeader>
    requires { (header : UnitHeader) × ((bits : List Bool) × IsTrial header bits stream.now) }
    ensures header { (header : UnitHeader) (bits : List Bool) → IsTrial header bits stream.now
        → result.header ≡ header }
    ensures bits { (header : UnitHeader) (bits : List Bool) → IsTrial header bits stream.now
        → payload (bytes_of result) ≡ bits }
    ensures short { length result.stream < STREAM_LIMIT }
{
    Nalu::next(stream, &mut 0).unwrap()
}
