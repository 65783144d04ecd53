//! Slice segment headers (7.3.6.1, table 14).
ghost use Rattle.std.specs.Prelude.{◌≡◌, ◌==◌, ◌+◌, ◌-◌, ◌<◌, ◌%◌, ◌^◌, ◌↔◌, IfErr, IfOk, OnOk};
ghost use Rattle.std.specs.Prelude.{OnErr, IsErrOf, IsFalse, IsTrue, ◌≤◌, drop, length};
ghost use Rattle.hevc_spec.specs.Payload.{payload, payload_bits, bits_left, IsAhead};
ghost use Rattle.hevc_spec.specs.UnitTypes.{is_slice as is_slice_number};
ghost use Rattle.hevc_bits.specs.FoundUnit.{bytes_of};
ghost use Rattle.hevc_bits.specs.NaluType.{nalu_type_number};
ghost use Rattle.hevc_records.specs.SliceHeader.{default_slice_header};
ghost use Rattle.hevc_elements.specs.Kept.{telling_in};
ghost use Rattle.hevc_elements.specs.Telling.{and_told, told};
ghost use Rattle.hevc_elements.specs.Words.{read, ReadsSet};
ghost use Rattle.hevc_tables.specs.SliceHeaderTable as table;
ghost use Rattle.hevc_short_term.specs.Predictions.{IsInOrder};
ghost use Rattle.hevc_sequence_set.specs.Sps.{plain_sps};
ghost use Rattle.hevc_picture_slice.specs.Pps.{plain_pps};
ghost use Rattle.hevc_picture_slice.specs.SliceHeader.{plain_slice_header};
ghost use Rattle.hevc_slice_header.specs.ActiveSets.{AreFound};
ghost use Rattle.hevc_elements.specs.Scan.{left, scanned};
ghost use Rattle.hevc_slice_header.specs.Answers.{AnswersHeader, FindsSets, ReadsSlice};
ghost use Rattle.hevc_slice_header.specs.Kept.{kept_active_sets};
ghost use Rattle.hevc_slice_header.specs.Lists.{HasLists};
ghost use Rattle.hevc_bits.specs.declared.stream_limit.TheConstants.{STREAM_LIMIT};

use crate::active_sets::ActiveSets;
use crate::beginning::read_beginning;
use crate::segment::read_behind_sets;
use hevc_bits::{Nalu, NaluHeader, NaluType};
use hevc_boxed::Boxed;
use hevc_elements::rows::skip;
use hevc_elements::{ElementReader, ParseError, Told, wants_memory};
use hevc_picture_slice::{Pps, SliceHeader};
use hevc_sequence_set::Sps;
use hevc_slice_references::bits_between;
use hevc_spec::Row;
use std::alloc::{AllocError, Global};
use std::collections::BTreeMap;

/// Reads a slice segment header out of its unit, of a stream of less than 2^60 bytes, by table 14
/// (7.3.6.1), with the parameter sets that are kept, by their ids, into a header of
/// `SliceHeader::new`. It takes memory from `alloc` for its entry points. The answer is the sets
/// that the header makes active.
///
/// An element that is absent has its value of `SliceHeader::new`, but for what its sets infer
/// (`SliceHeader::set_defaults`).
///
/// Errors: `WrongNaluType` first, where the unit is no slice (types 0 to 9 and 16 to 21);
/// `OutOfBits` where the payload ends within an element; `OutOfRange` with table and row of the
/// first element that isn't allowed; after row 3, `MissingPps` where none of the picture sets has
/// the id that it names, with a sequence set that is kept; `NoMemory`. The header is again that of
/// `SliceHeader::new` then.
#[tactic(auto, using(hevc_elements::proofs::SetMeaning::set_meanings, crate::proofs::CurrentSets::in_order))]
pub fn read_slice_header<'a>(
    alloc: Global,
    nalu: &Nalu<'_, NaluHeader>,
    spses: &'a BTreeMap<u8, Boxed<Sps>>,
    ppses: &'a BTreeMap<u8, Pps>,
    h: &mut SliceHeader,
) -> Result<ActiveSets<'a>, ParseError>
    requires short { length nalu.now.stream < STREAM_LIMIT }
    requires new { plain_slice_header h.old ≡ default_slice_header }
    ensures reads { ReadsSlice (kept_active_sets ppses.now spses.now) nalu.now result h.new }
    ensures sets { IfOk result
        (λ sets. AreFound ppses.now spses.now h.new.pic_parameter_set_id sets) }
{
    let header = nalu.header();
    if !header.nalu_type().is_slice() {
        return Err(ParseError::WrongNaluType);
    }
    match read_payload(alloc, header.nalu_type(), nalu.payload(), spses, ppses, h) {
        Ok(sets) => Ok(sets),
        Err(error) => {
            *h = SliceHeader::new(alloc);
            Err(error)
        }
    }
}

/// Reads the payload of a unit of this type.
#[tactic(auto, unfolding(hevc_spec::specs::Payload::bits_left))]
fn read_payload<'a>(
    alloc: Global,
    nalu_type: NaluType,
    payload: &[u8],
    spses: &'a BTreeMap<u8, Boxed<Sps>>,
    ppses: &'a BTreeMap<u8, Pps>,
    h: &mut SliceHeader,
) -> Result<ActiveSets<'a>, ParseError>
    requires short { length payload.now < STREAM_LIMIT }
    requires new { plain_slice_header h.old ≡ default_slice_header }
    ensures read { ReadsSet (λ _. plain_slice_header h.new) result
        (read (table.slice_segment_header (nalu_type_number nalu_type) payload.now
        (kept_active_sets ppses.now spses.now)) (payload_bits 0 payload.now)) }
    ensures sets { FindsSets ppses.now spses.now result h.new }
{
    let mut r = ElementReader::new(payload);
    let start = r.fork();
    match read_aligned(alloc, &mut r, nalu_type, spses, ppses, h) {
        Ok(sets) => {
            set_sizes(bits_between(&start, &r.fork()), r.num_epb() as u32, h);
            Ok(sets)
        }
        Err(error) => Err(error),
    }
}

/// Tells the elements of a slice segment header by table 14, in a unit of this type whose payload
/// bytes these are (7.3.1.1), those of a refused one up to the element that is refused, after what
/// is in the list and as long as it has room. `AllocError` where reading wants memory that isn't
/// there.
#[tactic(auto, using(crate::proofs::Answered::header_tells), unfolding(hevc_spec::specs::Payload::bits_left))]
#[inline(never)]
pub fn tell_slice_header(
    alloc: Global,
    nalu_type: NaluType,
    payload: &[u8],
    spses: &BTreeMap<u8, Boxed<Sps>>,
    ppses: &BTreeMap<u8, Pps>,
    list: Vec<Told>,
) -> Result<Vec<Told>, AllocError>
    requires { length payload.now < STREAM_LIMIT }
    ensures { IfOk result (λ told_list. telling_in told_list ≡ and_told
        (told (table.slice_segment_header (nalu_type_number nalu_type) payload.now
        (kept_active_sets ppses.now spses.now)) (payload_bits 0 payload.now)) (telling_in list)) }
{
    let mut header = SliceHeader::new(alloc);
    let mut r = ElementReader::telling(payload, list);
    let answer = read_aligned(alloc, &mut r, nalu_type, spses, ppses, &mut header);
    if wants_memory(&answer) {
        return Err(AllocError);
    }
    Ok(r.take_told(alloc))
}

/// The sizes of a header of so many payload bits, in which so many 03 bytes are dropped.
fn set_sizes(size: u32, dropped: u32, h: &mut SliceHeader)
    requires few { size < 2 ^ 32 - 16 }
    ensures set { plain_slice_header h.new ≡ record (plain_slice_header h.old) {
      header_bit_size = 16 + size;
      n_emulation_prevention_bytes = dropped;
    } }
    ensures lists { HasLists (plain_slice_header h.old) → HasLists (plain_slice_header h.new) }
{
    h.header_bit_size = 16 + size;
    h.n_emulation_prevention_bytes = dropped;
}

/// Rows 1 to 53 of table 14, from a whole byte on.
#[tactic(auto, unfolding(hevc_tables::specs::SliceHeaderTable::aligned))]
fn read_aligned<'a>(
    alloc: Global,
    r: &mut ElementReader<'_>,
    nalu_type: NaluType,
    spses: &'a BTreeMap<u8, Boxed<Sps>>,
    ppses: &'a BTreeMap<u8, Pps>,
    h: &mut SliceHeader,
) -> Result<ActiveSets<'a>, ParseError>
    requires whole { bits_left r.old.place % 8 ≡ 0 }
    requires new { plain_slice_header h.old ≡ default_slice_header }
    ensures read { AnswersHeader (λ _. plain_slice_header h.new) result r.new (scanned
        (table.aligned
        (table.elements (nalu_type_number nalu_type) (kept_active_sets ppses.now spses.now))) r.old) }
    ensures moves { IsAhead r.old.place r.new.place }
    ensures few { OnOk result (length (left r.old) ≤ 2 ^ 31 + 8 + length (left r.new)) }
    ensures sets { FindsSets ppses.now spses.now result h.new }
{
    let sets = read_elements(alloc, r, nalu_type, spses, ppses, h)?;
    skip(r, Row(14, 53), 1)?;
    let left_in_byte = r.num_bits_left() % 8;
    skip(r, Row(14, 53), left_in_byte)?;
    Ok(sets)
}

/// Rows 1 to 52 of table 14.
#[tactic(auto, using(crate::proofs::Answered::answered), unfolding(hevc_tables::specs::SliceHeaderTable::elements, hevc_tables::specs::PpsTable::named))]
fn read_elements<'a>(
    alloc: Global,
    r: &mut ElementReader<'_>,
    nalu_type: NaluType,
    spses: &'a BTreeMap<u8, Boxed<Sps>>,
    ppses: &'a BTreeMap<u8, Pps>,
    h: &mut SliceHeader,
) -> Result<ActiveSets<'a>, ParseError>
    requires { plain_slice_header h.old ≡ default_slice_header }
    ensures read { AnswersHeader (λ _. plain_slice_header h.new) result r.new (scanned
        (table.elements (nalu_type_number nalu_type) (kept_active_sets ppses.now spses.now)) r.old) }
    ensures moves { IsAhead r.old.place r.new.place }
    ensures few { OnOk result (length (left r.old) ≤ 2 ^ 31 + length (left r.new)) }
    ensures sets { FindsSets ppses.now spses.now result h.new }
{
    read_beginning(r, nalu_type, h)?;
    let missing = ParseError::MissingPps(h.pic_parameter_set_id);
    let Some(pps) = ppses.get(&h.pic_parameter_set_id) else {
        return Err(missing);
    };
    let Some(sps) = spses.get(&pps.seq_parameter_set_id) else {
        return Err(missing);
    };
    has_few_extra_bits(pps);
    let sps = sps.get();
    read_behind_sets(alloc, r, nalu_type, sps, pps, h)?;
    Ok(ActiveSets { sps, pps })
}

/// Says that row 6 is short, on which the size of a header rests.
fn has_few_extra_bits(pps: &Pps)
    ensures { pps.now.num_extra_slice_header_bits ≤ 255 }
{
    prove!(pps.num_extra_slice_header_bits <= 255);
}
