//! A stream whose parameter sets are written anew.
ghost use Rattle.std.specs.Prelude.{◌≢◌, [], ◌≡◌, ◌<◌, ◌≤◌, ◌-◌, ◌/◌, ◌%◌, ◌++◌, ◌∷◌, ℕ, List};
ghost use Rattle.std.specs.Prelude.{length, Err, IfOk, OnOk, OnErr};
ghost use Rattle.hevc_spec.specs.Lines.{Line};
ghost use Rattle.hevc_spec.specs.Payload.{payload};
ghost use Rattle.hevc_spec.specs.Table.{read};
ghost use Rattle.hevc_spec.specs.UnitTypes.{is_end};
ghost use Rattle.hevc_spec.specs.Units.{NalUnit, kept_bytes, units_from};
ghost use Rattle.hevc_bits.specs.FoundUnit.{bytes_of};
ghost use Rattle.hevc_bits.specs.ParsedHeader.{parsed_header};
ghost use Rattle.hevc_bits.specs.declared.header.UnitError.{UnitError as unit_error};
ghost use Rattle.hevc_bits.specs.declared.stream_limit.TheConstants.{STREAM_LIMIT};
ghost use Rattle.hevc_bit_writer.specs.WrittenUnits.{started};
ghost use Rattle.hevc_parser.specs.Kept.{kept_by};
ghost use Rattle.hevc_stream.specs.Slices.{temporal_id};
ghost use Rattle.hevc_tables.specs.PpsTable.{picture_parameter_set};
ghost use Rattle.hevc_picture_slice.specs.Pps.{plain_pps};
ghost use Rattle.hevc_write_units.specs.Added.{AddsUnit};
ghost use Rattle.hevc_write.specs.Rewriting.{IsRewriting, completed};
ghost use Rattle.hevc_write.specs.Steps.{TakesNextIfAny, ReadsOne, RefusedNext, Takes};

use crate::picture_unit::PictureUnit;
use crate::piece::Piece;
use crate::syntax::Syntax;
use crate::unit::write_unit;
use crate::unit_type::is_of_type;
use hevc_bits::{Nalu, NaluHeader, NaluType, UnitError};
use hevc_elements::ParseError;
use hevc_parser::Parser;
use hevc_picture_slice::Pps;
use hevc_sps::read_sps;
use hevc_vps::read_vps;
use hevc_write_units::WriteError;
use std::alloc::{AllocError, Global};

/// Adds the units of a stream of less than 2^60 bytes to `out`, each after 00 00 01: a video,
/// sequence or picture parameter set that is read where it is, is written anew, with the sets that
/// are kept there (7.4.2.4.2), and any other unit byte for byte. After an end unit whose second
/// byte is 0 there is one byte 80, since that zero would else be dropped (B.2). What is decoded
/// from them is what is decoded from the stream (`DecodesTheSame`).
///
/// After a refusal `out` is as before.
pub fn rewrite(alloc: Global, stream: &[u8], out: &mut Vec<u8>) -> Result<(), AllocError>
    requires { length stream.now < STREAM_LIMIT }
    ensures ok { OnOk result ((bytes : List ℕ) × (out.new.items ≡ out.old.items ++ bytes)
        × IsRewriting stream.now bytes) }
    ensures err { OnErr result (out.new.items ≡ out.old.items) }
{
    let before = out.len();
    let rewritten = append_rewritten(alloc, stream, out);
    if rewritten.is_err() {
        out.truncate(before);
    }
    rewritten
}

/// Adds the units. After a refusal some of them are in `out`.
fn append_rewritten(alloc: Global, stream: &[u8], out: &mut Vec<u8>) -> Result<(), AllocError>
    requires { length stream.now < STREAM_LIMIT }
    ensures ok { OnOk result ((bytes : List ℕ) × (out.new.items ≡ out.old.items ++ bytes)
        × IsRewriting stream.now bytes) }
    ensures grows { (added : List ℕ) × (out.new.items ≡ out.old.items ++ added) }
{
    let mut parser = Parser::new(alloc);
    let mut position = 0;
    while let Some(next) = append_next(alloc, stream, position, &mut parser, out)? {
        position = next;
    }
    Ok(())
}

/// Adds the first unit whose start code is at `position` or after it, if there is one, and gives
/// the place after it.
fn append_next(
    alloc: Global,
    stream: &[u8],
    position: usize,
    parser: &mut Parser,
    out: &mut Vec<u8>,
) -> Result<Option<usize>, AllocError>
    requires short { length stream.now < STREAM_LIMIT }
    requires within { position ≤ length stream.now }
    ensures next { IfOk result (λ next. TakesNextIfAny stream.now position next out.old.items
        out.new.items (kept_by parser.old).sequence_sets (kept_by parser.new).sequence_sets) }
    ensures grows { (added : List ℕ) × (out.new.items ≡ out.old.items ++ added) }
{
    let mut place = position;
    match Nalu::next(stream, &mut place) {
        Ok(nalu) => {
            append_unit(alloc, &nalu, parser, out)?;
            Ok(Some(nalu.offset() + nalu.size()))
        }
        Err(UnitError::NoNal) => Ok(None),
        Err(_) => Ok(Some(append_refused(stream, position, out)?)),
    }
}

/// Adds a unit whose header is read.
fn append_unit(
    alloc: Global,
    nalu: &Nalu<'_, NaluHeader>,
    parser: &mut Parser,
    out: &mut Vec<u8>,
) -> Result<(), AllocError>
    requires { length nalu.now.stream < STREAM_LIMIT }
    ensures takes { OnOk result (Takes (bytes_of nalu.now) out.old.items out.new.items
        (kept_by parser.old).sequence_sets (kept_by parser.new).sequence_sets) }
    ensures grows { (added : List ℕ) × (out.new.items ≡ out.old.items ++ added) }
{
    let header = nalu.header();
    if is_of_type(header, NaluType::VpsNut as u8) {
        append_video_set(alloc, nalu, parser, out)
    } else if is_of_type(header, NaluType::SpsNut as u8) {
        append_sequence_set(alloc, nalu, parser, out)
    } else if is_of_type(header, NaluType::PpsNut as u8) {
        append_picture_set(alloc, nalu, parser, out)
    } else {
        append_bytes(nalu.as_ref(), out)
    }
}

/// Adds a video set, anew if it is read.
fn append_video_set(
    alloc: Global,
    nalu: &Nalu<'_, NaluHeader>,
    parser: &mut Parser,
    out: &mut Vec<u8>,
) -> Result<(), AllocError>
    requires short { length nalu.now.stream < STREAM_LIMIT }
    requires typed { nalu.now.header.nal_unit_type ≡ 32 }
    ensures takes { OnOk result (Takes (bytes_of nalu.now) out.old.items out.new.items
        (kept_by parser.old).sequence_sets (kept_by parser.new).sequence_sets) }
    ensures grows { (added : List ℕ) × (out.new.items ≡ out.old.items ++ added) }
{
    let header = nalu.header();
    match read_vps(alloc, nalu) {
        Ok(set) => append_anew(alloc, &set, header, out),
        Err(error) => append_unread(error, nalu.as_ref(), out),
    }
}

/// Adds a sequence set, anew if it is read, and keeps it.
fn append_sequence_set(
    alloc: Global,
    nalu: &Nalu<'_, NaluHeader>,
    parser: &mut Parser,
    out: &mut Vec<u8>,
) -> Result<(), AllocError>
    requires short { length nalu.now.stream < STREAM_LIMIT }
    requires typed { nalu.now.header.nal_unit_type ≡ 33 }
    ensures takes { OnOk result (Takes (bytes_of nalu.now) out.old.items out.new.items
        (kept_by parser.old).sequence_sets (kept_by parser.new).sequence_sets) }
    ensures grows { (added : List ℕ) × (out.new.items ≡ out.old.items ++ added) }
{
    let header = nalu.header();
    match read_sps(alloc, nalu) {
        Ok(set) => {
            append_anew(alloc, set.get(), header, out)?;
            parser.keep_sequence_set(set)?;
            Ok(())
        }
        Err(error) => append_unread(error, nalu.as_ref(), out),
    }
}

/// Adds a picture set, anew if it is read.
fn append_picture_set(
    alloc: Global,
    nalu: &Nalu<'_, NaluHeader>,
    parser: &mut Parser,
    out: &mut Vec<u8>,
) -> Result<(), AllocError>
    requires short { length nalu.now.stream < STREAM_LIMIT }
    requires typed { nalu.now.header.nal_unit_type ≡ 34 }
    ensures takes { OnOk result (Takes (bytes_of nalu.now) out.old.items out.new.items
        (kept_by parser.old).sequence_sets (kept_by parser.new).sequence_sets) }
    ensures grows { (added : List ℕ) × (out.new.items ≡ out.old.items ++ added) }
{
    let header = nalu.header();
    match read_picture_set(parser, nalu)? {
        Some(pps) => {
            let sps = parser.get_sps(pps.seq_parameter_set_id).unwrap();
            append_anew(alloc, &PictureUnit { pps: &pps, sps }, header, out)
        }
        None => append_bytes(nalu.as_ref(), out),
    }
}

/// Adds a set that was read as a unit with this header.
fn append_anew<R: Syntax>(
    alloc: Global,
    set: &R,
    header: &NaluHeader,
    out: &mut Vec<u8>,
) -> Result<(), AllocError>
    requires formed { (lines : List Line) × R.has_lines set.now header.now lines }
    requires bare { R.body set.now ≡ [] }
    ensures added { OnOk result (AddsUnit header.now (R.has_lines set.now header.now)
        (R.body set.now) (R.means set.now header.now) out.old.items out.new.items) }
    ensures grows { (added : List ℕ) × (out.new.items ≡ out.old.items ++ added) }
{
    match write_unit(alloc, set, header, out) {
        Ok(()) => Ok(()),
        Err(WriteError::NoMemory) => Err(AllocError),
        Err(WriteError::NotFormed | WriteError::ZeroEnd) => unreachable!(),
    }
}

/// Adds a set that wasn't read, byte for byte, unless it was for want of memory.
fn append_unread(error: ParseError, bytes: &[u8], out: &mut Vec<u8>) -> Result<(), AllocError>
    ensures ok { OnOk result
        ((error ≢ ParseError.NoMemory) × (out.new.items ≡ out.old.items ++ started bytes.now)) }
    ensures grows { (added : List ℕ) × (out.new.items ≡ out.old.items ++ added) }
{
    match error {
        ParseError::NoMemory => Err(AllocError),
        _ => append_bytes(bytes, out),
    }
}

/// Reads a picture set with the sequence sets that are kept, if it can be read.
fn read_picture_set(
    parser: &mut Parser,
    nalu: &Nalu<'_, NaluHeader>,
) -> Result<Option<Pps>, AllocError>
    requires short { length nalu.now.stream < STREAM_LIMIT }
    requires typed { nalu.now.header.nal_unit_type ≡ 34 }
    ensures sets { (kept_by parser.new).sequence_sets ≡ (kept_by parser.old).sequence_sets }
    ensures read { IfOk result (λ set. ReadsOne plain_pps set
        (read (picture_parameter_set (temporal_id nalu.now.header)
        (kept_by parser.old).sequence_sets) (payload (bytes_of nalu.now)))) }
{
    match parser.parse_pps(nalu) {
        Ok(set) => Ok(Some(*set)),
        Err(ParseError::NoMemory) => Err(AllocError),
        Err(_) => Ok(None),
    }
}

/// Adds a unit byte for byte.
fn append_bytes(bytes: &[u8], out: &mut Vec<u8>) -> Result<(), AllocError>
    ensures ok { OnOk result (out.new.items ≡ out.old.items ++ started bytes.now) }
    ensures grows { (added : List ℕ) × (out.new.items ≡ out.old.items ++ added) }
{
    out.extend_from_slice(&[0, 0, 1])?;
    out.extend_from_slice(bytes)
}

/// Adds the first unit whose start code is at `position` or after it, whose header is refused, and
/// gives the place after it.
fn append_refused(stream: &[u8], position: usize, out: &mut Vec<u8>) -> Result<usize, AllocError>
    requires within { position ≤ length stream.now }
    requires refused { (u : NalUnit) × ((others : List NalUnit) × ((error : unit_error)
        × (units_from kept_bytes position stream.now ≡ u ∷ others)
        × (parsed_header u.bytes ≡ Err error))) }
    ensures next { IfOk result (λ next. RefusedNext stream.now position next out.old.items
        out.new.items) }
    ensures grows { (added : List ℕ) × (out.new.items ≡ out.old.items ++ added) }
{
    let mut place = position;
    let piece: Nalu<'_, Piece> = Nalu::next(stream, &mut place).unwrap();
    append_completed(piece.as_ref(), out)?;
    Ok(piece.offset() + piece.size())
}

/// Adds the unit of these bytes, up to the next start code, byte for byte, with the byte 80 after
/// an end unit whose second byte is 0.
fn append_completed(piece: &[u8], out: &mut Vec<u8>) -> Result<(), AllocError>
    ensures ok { OnOk result
        (out.new.items ≡ out.old.items ++ started (completed (kept_bytes piece.now))) }
    ensures grows { (added : List ℕ) × (out.new.items ≡ out.old.items ++ added) }
{
    match piece {
        &[first, 0, ..] if is_end_type(first) => append_bytes(&[first, 0, 0x80], out),
        &[first, second, ..] if is_end_type(first) => append_bytes(&[first, second], out),
        _ => append_bytes(piece, out),
    }
}

/// Whether a unit with this first byte is an end of sequence or of bitstream.
fn is_end_type(first: u8) -> bool
    ensures { result ≡ is_end (first / 2 % 64) }
{
    let nal_unit_type = first / 2 % 64;
    nal_unit_type == NaluType::EosNut as u8 || nal_unit_type == NaluType::EobNut as u8
}
