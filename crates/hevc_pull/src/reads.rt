//! Parameter sets and slice segment headers of a stream, for who analyses it.
ghost use Rattle.std.specs.Prelude.{◌≡◌, ◌<◌, length, IsTrue, IsFalse};
ghost use Rattle.hevc_spec.specs.Payload.{payload};
ghost use Rattle.hevc_spec.specs.Table.{read};
ghost use Rattle.hevc_spec.specs.UnitTypes.{is_slice};
ghost use Rattle.hevc_bits.specs.FoundUnit.{bytes_of};
ghost use Rattle.hevc_bits.specs.declared.stream_limit.TheConstants.{STREAM_LIMIT};
ghost use Rattle.hevc_parser.specs.Kept.{kept_by};
ghost use Rattle.hevc_parser.specs.Slices.{active_of};
ghost use Rattle.hevc_slice_header.specs.Answers.{slice_table};
ghost use Rattle.hevc_pull.specs.Reads.{Reads, ReadsContent, ReadsUnit, Takes, keep_nothing};
ghost use Rattle.hevc_pull.specs.Reads.{row_of_refusal, status_of_reading, status_of_refusal};
ghost use Rattle.hevc_pull.specs.Reads.{table_of_refusal, with_slice};
ghost use Rattle.hevc_pull.specs.Units.{told_unit};

use crate::fields::{
    PpsFields, SliceFields, SpsFields, VpsFields, pps_fields, slice_fields, sps_fields, vps_fields,
};
use crate::status::{MISSING_SPS, NO_MEMORY, TOO_LONG};
use crate::units::{UnitCall, tell_found, type_number};
use hevc_bits::{Nalu, NaluHeader, UnitError};
use hevc_elements::ParseError;
use hevc_parser::Parser;

/// What a unit has. Of sets and headers the one of the unit's type is written, and the others stay
/// as they were.
#[repr(C)]
#[derive(Clone, Copy)]
pub struct UnitRead {
    /// The unit itself, with table and row where it is refused.
    pub unit: UnitCall,
    /// Of type 32.
    pub vps: VpsFields,
    /// Of type 33.
    pub sps: SpsFields,
    /// Of type 34.
    pub pps: PpsFields,
    /// Of types 0 to 9 and 16 to 21.
    pub slice: SliceFields,
}

/// Reads the first unit of the bytes: a parameter set, which is kept, or a slice segment header,
/// with the sets that are kept. Of other units nothing is read. The answer is a status, 0 where
/// nothing was refused.
pub fn read_unit(sets: &mut Parser, bytes: &[u8], told: &mut UnitRead) -> u32
    ensures { Reads bytes.now sets.old sets.new told.old told.new result }
{
    if bytes.len() >= 1 << 60 {
        return TOO_LONG;
    }
    let mut position = 0;
    let found: Result<Nalu<'_, NaluHeader>, UnitError> = Nalu::next(bytes, &mut position);
    let status = tell_found(&found, bytes, 0, &mut told.unit);
    match found {
        Ok(nalu) => read_found(sets, nalu, told),
        Err(_) => status,
    }
}

/// Reads the content of a unit that was told.
fn read_found(sets: &mut Parser, nalu: Nalu<'_, NaluHeader>, told: &mut UnitRead) -> u32
    requires short { length nalu.stream < STREAM_LIMIT }
    requires told { told.old.unit ≡ told_unit nalu }
    ensures { ReadsUnit nalu.entry (kept_by sets.old) (kept_by sets.new) told.old told.new result }
{
    match read_content(sets, nalu, told) {
        Ok(()) => 0,
        Err(error) => {
            told.unit.table = table_of_refusal(&error);
            told.unit.row = row_of_refusal(&error);
            status_of_refusal(&error)
        }
    }
}

/// Reads the content of a unit by its type.
fn read_content(
    sets: &mut Parser,
    nalu: Nalu<'_, NaluHeader>,
    told: &mut UnitRead,
) -> Result<(), ParseError>
    requires { length nalu.stream < STREAM_LIMIT }
    ensures { ReadsContent nalu.entry result (kept_by sets.old) (kept_by sets.new) told.old told.new }
{
    match type_number(&nalu) {
        32 => told.vps = vps_fields(sets.parse_vps(&nalu)?),
        33 => told.sps = sps_fields(sets.parse_sps(&nalu)?),
        34 => told.pps = pps_fields(sets.parse_pps(&nalu)?),
        _ => return read_slice(sets, nalu, told),
    }
    Ok(())
}

/// Reads the header of a unit that is no set, where it is a slice segment.
fn read_slice(
    sets: &Parser,
    nalu: Nalu<'_, NaluHeader>,
    told: &mut UnitRead,
) -> Result<(), ParseError>
    requires { length nalu.stream < STREAM_LIMIT }
    ensures slice { IsTrue (is_slice nalu.entry.header.nal_unit_type)
        → Takes (read (slice_table (active_of (kept_by sets.now)) nalu.entry)
        (payload (bytes_of nalu.entry)))
        keep_nothing with_slice result (kept_by sets.now) (kept_by sets.now) told.old told.new }
    ensures other { IsFalse (is_slice nalu.entry.header.nal_unit_type)
        → (status_of_reading result ≡ 0) × (told.new ≡ told.old) }
{
    match sets.parse_slice_header(nalu) {
        Ok(slice) => {
            told.slice = slice_fields(&slice.header);
            Ok(())
        }
        Err(ParseError::WrongNaluType) => Ok(()),
        Err(error) => Err(error),
    }
}

/// The status of a refusal.
fn status_of_refusal(error: &ParseError) -> u32
    ensures { result ≡ status_of_refusal error.now }
{
    match error {
        ParseError::WrongNaluType => 6,
        ParseError::OutOfBits => 7,
        ParseError::OutOfRange { table: _, row: _ } => 8,
        ParseError::MissingSps(_) => MISSING_SPS,
        ParseError::MissingPps(_) => 9,
        ParseError::NoMemory => NO_MEMORY,
    }
}

/// Of an element that is out of range, its table in docs/TABLES.md.
fn table_of_refusal(error: &ParseError) -> u32
    ensures { result ≡ table_of_refusal error.now }
{
    match *error {
        ParseError::OutOfRange { table, row: _ } => u32::from(table),
        _ => 0,
    }
}

/// Of an element that is out of range, its row there; of a set that isn't kept, its id.
fn row_of_refusal(error: &ParseError) -> u32
    ensures { result ≡ row_of_refusal error.now }
{
    match *error {
        ParseError::OutOfRange { table: _, row } => u32::from(row),
        ParseError::MissingSps(id) | ParseError::MissingPps(id) => u32::from(id),
        _ => 0,
    }
}
