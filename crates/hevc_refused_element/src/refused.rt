//! The element that is refused.
ghost use Rattle.std.specs.Prelude.{◌≡◌, ◌<◌, ◌&&◌, not, length, IfOk};
ghost use Rattle.hevc_spec.specs.Payload.{bits, payload_bits};
ghost use Rattle.hevc_spec.specs.Bits.{ue_at};
ghost use Rattle.hevc_bits.specs.declared.stream_limit.TheConstants.{STREAM_LIMIT};
ghost use Rattle.hevc_parser.specs.Kept.{kept_by};
ghost use Rattle.hevc_refused_element.specs.Refused.{comes_before_long, is_of_row};
ghost use Rattle.hevc_refused_element.specs.Refused.{is_out_of_bounds, is_refused, place_behind};
ghost use Rattle.hevc_refused_element.specs.Refused.{refused_among, refused_in};

use crate::telling::elements_of;
use hevc_bits::{BitError, Nalu, NaluHeader, NaluReader};
use hevc_element_lines::place_after;
use hevc_elements::Told;
use hevc_parser::Parser;
use hevc_spec::Row;
use std::alloc::{AllocError, Global};

/// The element at which a unit is refused, of a stream of less than 2^60 bytes, with its value. The
/// unit isn't read with the sets that a parser keeps, since an element of `row` isn't allowed
/// (docs/TABLES.md). None where the row is a condition, which has no element, and where an
/// Exp-Golomb number is above 2147483647.
///
/// Errors: no memory.
pub fn refused_element(
    alloc: Global,
    parser: &Parser,
    nalu: &Nalu<'_, NaluHeader>,
    row: Row,
) -> Result<Option<Told>, AllocError>
    requires { length nalu.now.stream < STREAM_LIMIT }
    ensures { IfOk result (λ told. told ≡ refused_in (kept_by parser.now) nalu.now row) }
{
    let told = elements_of(alloc, parser, nalu)?;
    Ok(refused_among(nalu.payload(), &told, row))
}

/// The same of a unit with this payload, of which these elements were told.
#[tactic(auto, unfolding(crate::specs::Refused::refused_among))]
pub fn refused_among(payload: &[u8], told: &[Told], row: Row) -> Option<Told>
    requires { length payload.now < STREAM_LIMIT }
    ensures { result ≡ refused_among (payload_bits 0 payload.now) told.now row }
{
    let last = told.last()?;
    if is_refused(payload, told, row, last) {
        Some(*last)
    } else {
        None
    }
}

/// Whether the last element is the one of a row that is refused.
fn is_refused(payload: &[u8], told: &[Told], row: Row, last: &Told) -> bool
    requires { length payload.now < STREAM_LIMIT }
    ensures { result ≡ is_refused (payload_bits 0 payload.now) told.now row last.now }
{
    is_of_row(row, last) && !comes_before_long(payload, told)
}

/// Whether an element is of a row.
fn is_of_row(row: Row, told: &Told) -> bool
    ensures { result ≡ is_of_row row told.now }
{
    told.row.0 == row.0 && told.row.1 == row.1
}

/// Whether an Exp-Golomb number that is too long comes after the elements of a payload.
fn comes_before_long(payload: &[u8], told: &[Told]) -> bool
    requires { length payload.now < STREAM_LIMIT }
    ensures { result ≡ comes_before_long (payload_bits 0 payload.now) told.now }
{
    let place = place_behind(told);
    let mut reader = NaluReader::new(payload);
    if reader.skip_bits(place.saturating_sub(16) as usize).is_err() {
        return false;
    }
    is_long(&mut reader)
}

/// Whether an Exp-Golomb number that is too long comes next.
fn is_long(reader: &mut NaluReader<'_>) -> bool
    ensures { result ≡ is_out_of_bounds (ue_at (bits reader.old)) }
{
    match reader.read_ue() {
        Err(BitError::OutOfRange) => true,
        _ => false,
    }
}

/// The place after elements, in bits.
fn place_behind(told: &[Told]) -> u64
    ensures { result ≡ place_behind told.now }
{
    let mut place = 16;
    for one in told {
        place = place_after(place, one);
    }
    place
}
