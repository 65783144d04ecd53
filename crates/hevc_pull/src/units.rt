//! Units of a stream, one after another.
ghost use Rattle.std.specs.Prelude.{◌≡◌, ◌≤◌, length};
ghost use Rattle.hevc_spec.specs.Units.{kept_bytes, units_from};
ghost use Rattle.hevc_bits.specs.NaluType.{nalu_type_number};
ghost use Rattle.hevc_pull.specs.Units.{FindsUnit, IsFirstFrom, lying, status_of_first, told_first};
ghost use Rattle.hevc_pull.specs.Units.{with_header};

use crate::extent::{Extent, extent_of_found};
use crate::status::{TOO_LONG, row_of, status_of, table_of};
use hevc_bits::{Nalu, NaluHeader, NaluType, UnitError};
use hevc_driver::DecodeError;

/// A unit of a stream, or why there is none.
#[repr(C)]
#[derive(Clone, Copy)]
pub struct UnitCall {
    /// The place of its first header byte in the bytes.
    pub offset: u64,
    /// How many bytes it has, its header's among them.
    pub size: u64,
    /// The place after it, from which on the next unit is sought.
    pub next: u64,
    /// `nal_unit_type` (Table 7-1).
    pub nal_unit_type: u32,
    /// `nuh_layer_id`.
    pub layer_id: u32,
    /// TemporalId.
    pub temporal_id: u32,
    /// Where its header is refused, the table of docs/TABLES.md, 0.
    pub table: u32,
    /// Where its header is refused, the row there; or the type, where that is unspecified.
    pub row: u32,
}

/// The first unit whose start code is at a place of the bytes or after it. The answer is a status.
pub fn next_unit(bytes: &[u8], from: usize, unit: &mut UnitCall) -> u32
    ensures { FindsUnit bytes.now from unit.old unit.new result }
{
    if from > bytes.len() {
        return TOO_LONG;
    }
    let mut position = from;
    let found: Result<Nalu<'_, NaluHeader>, UnitError> = Nalu::next(bytes, &mut position);
    tell_found(&found, bytes, from, unit)
}

/// Tells of the first unit from a place on, as it was found. The answer is a status.
pub(crate) fn tell_found(
    found: &Result<Nalu<'_, NaluHeader>, UnitError>,
    bytes: &[u8],
    from: usize,
    unit: &mut UnitCall,
) -> u32
    requires within { from ≤ length bytes.now }
    requires first { IsFirstFrom from bytes.now found.now }
    ensures told { unit.new ≡ told_first (units_from kept_bytes from bytes.now) }
    ensures status { result ≡ status_of_first (units_from kept_bytes from bytes.now) }
{
    *unit = unit_at(extent_of_found(found, bytes, from));
    match found {
        Ok(nalu) => {
            tell_header(nalu, unit);
            0
        }
        Err(error) => {
            let error = DecodeError::from(*error);
            unit.table = table_of(&error);
            unit.row = row_of(&error);
            status_of(&error)
        }
    }
}

/// A unit that lies here, and nothing else of it.
fn unit_at(extent: Extent) -> UnitCall
    ensures { result ≡ lying extent }
{
    UnitCall {
        offset: extent.offset,
        size: extent.size,
        next: extent.next,
        nal_unit_type: 0,
        layer_id: 0,
        temporal_id: 0,
        table: 0,
        row: 0,
    }
}

/// Tells what a unit's header says.
fn tell_header(nalu: &Nalu<'_, NaluHeader>, unit: &mut UnitCall)
    ensures { unit.new ≡ with_header nalu.now.header unit.old }
{
    let header = nalu.header();
    unit.nal_unit_type = type_number(nalu);
    unit.layer_id = u32::from(header.layer_id());
    unit.temporal_id = u32::from(header.temporal_id_plus1()) - 1;
}

/// The type of a unit.
pub(crate) fn type_number(nalu: &Nalu<'_, NaluHeader>) -> u32
    ensures { result ≡ nalu.now.header.nal_unit_type }
{
    number_of(nalu.header().nalu_type())
}

/// The number of a type.
fn number_of(nalu_type: NaluType) -> u32
    ensures { result ≡ nalu_type_number nalu_type }
{
    u32::from(nalu_type as u8)
}
