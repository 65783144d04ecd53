//! A value, written as a unit.
ghost use Rattle.std.specs.Prelude.{◌≡◌, OnOk, OnErr, IfErr};
ghost use Rattle.hevc_spec.specs.Units.{without_trailing_zeros};
ghost use Rattle.hevc_write_units.specs.Added.{AddsUnit, IsRefused};

use crate::syntax::Syntax;
use hevc_bit_writer::append_unit;
use hevc_bits::NaluHeader;
use hevc_write_units::{WriteError, header_bytes};
use std::alloc::Global;

/// Adds a unit with this header and this value to a stream (7.3.1, B.2.1): 00 00 01, the two bytes
/// of the header, and the payload, with a 03 before each byte of at most 3 that would come directly
/// after two zero bytes.
///
/// Errors: `NotFormed` where the value can't be read from such a unit, whatever its payload is;
/// then `ZeroEnd` where the bytes after a slice header aren't none and end in 00; `NoMemory`. The
/// stream is as before then.
pub fn write_unit<R: Syntax>(
    alloc: Global,
    value: &R,
    header: &NaluHeader,
    out: &mut Vec<u8>,
) -> Result<(), WriteError>
    ensures added { OnOk result (AddsUnit header.now (R.has_lines value.now header.now)
        (R.body value.now) (R.means value.now header.now) out.old.items out.new.items) }
    ensures trimmed { OnOk result (without_trailing_zeros (R.body value.now) ≡ R.body value.now) }
    ensures refused { IfErr result
        (λ e. IsRefused e (R.has_lines value.now header.now) (R.body value.now)) }
    ensures unchanged { OnErr result (out.new.items ≡ out.old.items) }
{
    let mut payload = Vec::new(alloc);
    value.write_payload(header, &mut payload)?;
    append_unit(alloc, out, header_bytes(header), &payload)?;
    Ok(())
}
