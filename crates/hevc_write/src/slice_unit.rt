//! Slice segments (7.3.6.1).
ghost use Rattle.std.specs.Prelude.{◌≡◌, ◌==◌, ◌&&◌, ◌++◌, ◌≢◌, [], false, true, Bool, List};
ghost use Rattle.std.specs.Prelude.{length, IfOk, IsTrue, OnOk, OnErr, ◌↔◌};
ghost use Rattle.hevc_spec.specs.Table.{read, gives};
ghost use Rattle.hevc_spec.specs.UnitTypes.{is_slice};
ghost use Rattle.hevc_spec.specs.Units.{without_trailing_zeros};
ghost use Rattle.hevc_records.specs.SliceHeader.{PlainSliceSegmentHeader};
ghost use Rattle.hevc_tables.specs.SliceHeaderTable.{elements};
ghost use Rattle.hevc_bit_writer.specs.Writing.{trailing_bits};
ghost use Rattle.hevc_slice_header.specs.Kept.{kept_active_sets};
ghost use Rattle.hevc_sequence_set.specs.Sps.{plain_sps};
ghost use Rattle.hevc_picture_slice.specs.Pps.{plain_pps};
ghost use Rattle.hevc_picture_slice.specs.SliceHeader.{plain_slice_header};
ghost use Rattle.hevc_write_units.specs.Payloads.{EndsInZero, with_trailing_bits};
ghost use Rattle.hevc_records.specs.SetsById.{sets_by_id};
ghost use Rattle.hevc_write_units.specs.Slices.{HasElements, IsSameButSizes, WritesSized};
ghost use Rattle.hevc_write_units.specs.Slices.{only_picture_set, only_sets};
ghost use Rattle.hevc_write_units.specs.Trials.{IsWhole};

use crate::picture_unit::alone;
use crate::syntax::Syntax;
use crate::unit_type::is_of_slice;
use hevc_bit_writer::BitWriter;
use hevc_bits::NaluHeader;
use hevc_elements::ParseError;
use hevc_picture_slice::comparisons::slice_header_eq;
use hevc_picture_slice::{Pps, SliceHeader};
use hevc_sequence_set::Sps;
use hevc_slice_header::read_slice_header;
use hevc_write_slice_header::write_slice_header;
use hevc_write_units::{WriteError, trial_stream, trial_unit};
use std::alloc::{AllocError, Global};
use std::collections::BTreeMap;

/// A slice segment: its header, the parameter sets that this names, and the bytes after it.
#[derive(Clone, Copy)]
pub struct SliceUnit<'a> {
    /// The header. Its three sizes (`header_bit_size`, `n_emulation_prevention_bytes` and
    /// `st_rps_bits`) aren't looked at.
    pub header: &'a SliceHeader,
    pub pps: &'a Pps,
    pub sps: &'a Sps,
    /// The bytes of the payload after the header and its alignment.
    pub body: &'a [u8],
}

impl Syntax for SliceUnit<'_> {
    ghost use Rattle.hevc_write_units.specs.Slices.{MeansSlice, SliceLines};
    ghost use Rattle.hevc_write_units.proofs.SliceHeaders.{no_end_slice, slice_meant};

    ghost has_lines = { λ unit header lines. SliceLines (plain_sps unit.sps.now)
        (plain_pps unit.pps.now) (plain_slice_header unit.header.now) header lines };

    ghost body = { λ unit. unit.body.now };

    ghost means = { λ unit header bytes. MeansSlice (plain_sps unit.sps.now)
        (plain_pps unit.pps.now) (plain_slice_header unit.header.now) header bytes };

    fn write_payload(&self, header: &NaluHeader, payload: &mut Vec<u8>) -> Result<(), WriteError> {
        if !is_of_slice(header) || !is_named(self.header, self.pps, self.sps) {
            return Err(WriteError::NotFormed);
        }
        let alloc = *payload.allocator();
        let w = written(alloc, header, self)?;
        if !is_read_back(alloc, header, &w, self)? {
            return Err(WriteError::NotFormed);
        }
        if ends_in_zero(self.body) {
            return Err(WriteError::ZeroEnd);
        }
        extend_by_both(payload, w.as_bytes(), self.body)?;
        Ok(())
    }

    ghost has_payload = { λ unit header lines has. no_end_slice (plain_sps unit.sps.now)
        (plain_pps unit.pps.now) (plain_slice_header unit.header.now) header lines has };

    ghost meant = { λ unit header bytes parsed is. slice_meant (plain_sps unit.sps.now)
        (plain_pps unit.pps.now) (plain_slice_header unit.header.now) unit.body.now header bytes
        parsed is };
}

/// Whether the header names the picture set, and this the sequence set.
fn is_named(header: &SliceHeader, pps: &Pps, sps: &Sps) -> bool
    ensures { result
        ≡ (header.now.pic_parameter_set_id == pps.now.pic_parameter_set_id
        && pps.now.seq_parameter_set_id == sps.now.seq_parameter_set_id) }
{
    header.pic_parameter_set_id == pps.pic_parameter_set_id
        && pps.seq_parameter_set_id == sps.seq_parameter_set_id
}

/// The bits of a slice's header in a unit with this header, up to a whole byte.
fn written(
    alloc: Global,
    header: &NaluHeader,
    slice: &SliceUnit<'_>,
) -> Result<BitWriter, AllocError>
    requires { slice.now.header.now.pic_parameter_set_id ≡ slice.now.pps.now.pic_parameter_set_id }
    ensures { IfOk result (λ w. (front : List Bool) × WritesSized (elements header.now.nal_unit_type
        (only_sets (plain_sps slice.now.sps.now) (plain_pps slice.now.pps.now)))
        (plain_slice_header slice.now.header.now) [] front × (w ≡ with_trailing_bits front)) }
{
    let mut w = BitWriter::new(alloc);
    write_slice_header(&mut w, header, slice.sps, slice.pps, slice.header)?;
    w.write_trailing_bits()?; // Row(14, 53)
    Ok(w)
}

/// Whether the bits are read as the header, but for its sizes.
fn is_read_back(
    alloc: Global,
    header: &NaluHeader,
    w: &BitWriter,
    slice: &SliceUnit<'_>,
) -> Result<bool, AllocError>
    requires typed { is_slice header.now.nal_unit_type ≡ true }
    requires whole { IsWhole w.now }
    requires named { slice.now.pps.now.seq_parameter_set_id ≡ slice.now.sps.now.seq_parameter_set_id }
    ensures found { IfOk result (λ same. IsTrue same
        → HasElements (elements header.now.nal_unit_type
        (only_sets (plain_sps slice.now.sps.now) (plain_pps slice.now.pps.now)))
        (plain_slice_header slice.now.header.now)) }
    ensures read { IfOk result (λ same. (own : PlainSliceSegmentHeader) (front : List Bool)
        → w.now ≡ with_trailing_bits front
        → IsSameButSizes own (plain_slice_header slice.now.header.now)
        → read (elements header.now.nal_unit_type
        (only_sets (plain_sps slice.now.sps.now) (plain_pps slice.now.pps.now))) w.now
        ≡ gives own (trailing_bits (length front)) → IsTrue same) }
{
    let spses = alone(alloc, slice.sps)?;
    let ppses = picture_set_alone(alloc, slice.pps)?;
    let stream = trial_stream(alloc, header, w)?;
    let mut read = SliceHeader::new(alloc);
    match read_slice_header(alloc, &trial_unit(&stream), &spses, &ppses, &mut read) {
        Ok(_) => Ok(is_same_but_sizes(read, slice.header)),
        Err(error) => refusal(error),
    }
}

/// That nothing is read, if it isn't for want of memory.
fn refusal(error: ParseError) -> Result<bool, AllocError>
    ensures { IfOk result (λ same. (same ≡ false) × (error ≢ ParseError.NoMemory)) }
{
    match error {
        ParseError::NoMemory => Err(AllocError),
        _ => Ok(false),
    }
}

/// A picture set alone, under its id.
fn picture_set_alone(alloc: Global, pps: &Pps) -> Result<BTreeMap<u8, Pps>, AllocError>
    ensures { IfOk result
        (λ sets. sets_by_id plain_pps sets ≡ only_picture_set (plain_pps pps.now)) }
{
    let mut sets = BTreeMap::new(alloc);
    sets.insert(pps.pic_parameter_set_id, *pps)?;
    Ok(sets)
}

/// Whether a header is another but for its sizes.
fn is_same_but_sizes(mut read: SliceHeader, header: &SliceHeader) -> bool
    ensures { IsTrue result
        ↔ IsSameButSizes (plain_slice_header read) (plain_slice_header header.now) }
{
    read.header_bit_size = header.header_bit_size;
    read.n_emulation_prevention_bytes = header.n_emulation_prevention_bytes;
    read.st_rps_bits = header.st_rps_bits;
    slice_header_eq(&read, header)
}

/// Whether bytes aren't none and end in 00.
fn ends_in_zero(bytes: &[u8]) -> bool
    ensures zero { IsTrue result → EndsInZero bytes.now }
    ensures some { result ≡ false → without_trailing_zeros bytes.now ≡ bytes.now }
{
    if bytes.is_empty() {
        return false;
    }
    bytes[bytes.len() - 1] == 0
}

/// Adds bytes, and then others. After a refusal none are added.
fn extend_by_both(bytes: &mut Vec<u8>, front: &[u8], back: &[u8]) -> Result<(), AllocError>
    ensures ok { OnOk result (bytes.new.items ≡ bytes.old.items ++ (front.now ++ back.now)) }
    ensures err { OnErr result (bytes.new.items ≡ bytes.old.items) }
{
    let before = bytes.len();
    bytes.extend_from_slice(front)?;
    let extended = bytes.extend_from_slice(back);
    if extended.is_err() {
        bytes.truncate(before);
    }
    extended
}
