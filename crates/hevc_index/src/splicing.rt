//! A stream that begins at a point of another.
ghost use Rattle.std.specs.Prelude.{◌≡◌, ◌<◌, ◌||◌, ◌++◌, ℕ, nat_le, List, All, IfSome, OnErr, OnOk, length, map};
ghost use Rattle.hevc_bits.specs.declared.stream_limit.TheConstants.{STREAM_LIMIT};
ghost use Rattle.hevc_spec.specs.Units.{units};
ghost use Rattle.hevc_bit_writer.specs.WrittenUnits.{started};
ghost use Rattle.hevc_index_laws.specs.SplicedUnits.{spliced_bytes};
ghost use Rattle.hevc_stream_laws.specs.UnitMeans.{is_parameter_set};
ghost use Rattle.hevc_index.specs.Finding.{numbered_unit, IsHeaded};
ghost use Rattle.hevc_index.specs.Indexing.{ending, plain_point, point_at, BeginsAtPoint, Judges, Seeks};

use crate::point::{IndexError, Point};
use crate::points::index;
use hevc_bits::{Nalu, NaluHeader, NaluType};
use std::alloc::{AllocError, Global};

/// Adds to `out` the stream that begins at the point of this picture number, of a byte stream
/// (Annex B) of less than 2^60 bytes: the parameter sets that come before the point's first slice
/// segment, then all units from that one on, each after 00 00 01, byte for byte and in order. What
/// is decoded from them is what is decoded from the stream from the point on (`BeginsAt`).
///
/// `Refused` exactly where `decode_stream` refuses the stream, and as it does; `NoSuchPoint` exactly
/// where it doesn't, and no point has that number. After a refusal `out` is as before.
pub fn splice(
    alloc: Global,
    stream: &[u8],
    number: u64,
    out: &mut Vec<u8>,
) -> Result<(), IndexError>
    requires { length stream.now < STREAM_LIMIT }
    ensures bytes { OnOk result (IfSome (point_at number stream.now) (λ p.
        out.new.items ≡ out.old.items ++ spliced_bytes p.unit stream.now)) }
    ensures begins { OnOk result (IfSome (point_at number stream.now) (λ p.
        BeginsAtPoint p stream.now (spliced_bytes p.unit stream.now))) }
    ensures refused { Judges result (ending stream.now) }
    ensures seeks { Seeks result (point_at number stream.now) }
    ensures unchanged { OnErr result (out.new.items ≡ out.old.items) }
{
    let points = index(alloc, stream)?;
    let Some(first) = unit_of_point(points.as_slice(), number) else {
        return Err(IndexError::NoSuchPoint);
    };
    let before = out.len();
    if append_spliced(stream, first, out).is_err() {
        out.truncate(before);
        return Err(IndexError::NoMemory);
    }
    Ok(())
}

/// The unit of the first slice segment of the point that has a picture number, if one has.
fn unit_of_point(points: &[Point], number: u64) -> Option<u64>
    ensures { result ≡ numbered_unit number (map plain_point points.now) }
{
    for point in points {
        if point.number == number {
            return Some(point.unit);
        }
    }
    None
}

/// Adds the parameter sets that come before unit `first`, and all units from that one on, of a
/// stream none of whose units is refused by its header.
fn append_spliced(stream: &[u8], first: u64, out: &mut Vec<u8>) -> Result<(), AllocError>
    requires short { length stream.now < STREAM_LIMIT }
    requires headed { All IsHeaded (units stream.now) }
    ensures bytes { OnOk result
        (out.new.items ≡ out.old.items ++ spliced_bytes first stream.now) }
    ensures grows { (added : List ℕ) × (out.new.items ≡ out.old.items ++ added) }
{
    let mut position = 0;
    let mut unit = 0;
    while let Ok(nalu) = Nalu::<NaluHeader>::next(stream, &mut position) {
        if is_spliced(nalu.header(), unit, first) {
            append_unit(nalu.as_ref(), out)?;
        }
        position = nalu.offset() + nalu.size();
        unit += 1;
    }
    Ok(())
}

/// Adds a unit, after 00 00 01.
fn append_unit(unit: &[u8], out: &mut Vec<u8>) -> Result<(), AllocError>
    ensures bytes { OnOk result (out.new.items ≡ out.old.items ++ started unit.now) }
    ensures grows { (added : List ℕ) × (out.new.items ≡ out.old.items ++ added) }
{
    out.extend_from_slice(&[0, 0, 1])?;
    out.extend_from_slice(unit)
}

/// Whether a unit of this header is added: it doesn't come before unit `first`, or it is a parameter
/// set's.
fn is_spliced(header: &NaluHeader, unit: u64, first: u64) -> bool
    ensures { result ≡ (nat_le first unit || is_parameter_set header.now.nal_unit_type) }
{
    unit >= first || is_set(header)
}

/// Whether this is the header of a parameter set's unit.
fn is_set(header: &NaluHeader) -> bool
    ensures { result ≡ is_parameter_set header.now.nal_unit_type }
{
    matches!(
        header.nalu_type(),
        NaluType::VpsNut | NaluType::SpsNut | NaluType::PpsNut
    )
}
