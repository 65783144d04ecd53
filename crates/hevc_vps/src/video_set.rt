//! Video parameter sets (7.3.2.1, table 1).
ghost use Rattle.std.specs.Prelude.{IfOk, ◌≡◌, ◌==◌, ◌<◌, ◌^◌, ◌↔◌, IfErr, IsErrOf, IsTrue, length};
ghost use Rattle.std.specs.Prelude.{drop, ◌≤◌};
ghost use Rattle.hevc_spec.specs.Payload.{payload, payload_bits};
ghost use Rattle.hevc_bits.specs.FoundUnit.{bytes_of};
ghost use Rattle.hevc_bits.specs.NaluType.{nalu_type_number};
ghost use Rattle.hevc_elements.specs.Kept.{telling_in};
ghost use Rattle.hevc_elements.specs.Telling.{and_told, told};
ghost use Rattle.hevc_elements.specs.Words.{read, ReadsGrowing, ReadsSet, NamesNoSet, ReadsSetUnit};
ghost use Rattle.hevc_tables.specs.VpsTable.{video_parameter_set};
ghost use Rattle.hevc_video_set.specs.Vps.{plain_vps};
ghost use Rattle.hevc_bits.specs.declared.stream_limit.TheConstants.{STREAM_LIMIT};

use crate::identity::{read_extension_flag, read_identity, read_layer_sets};
use crate::orderings::read_orderings;
use crate::structures::read_timing_info;
use hevc_bits::{Nalu, NaluHeader, NaluType};
use hevc_elements::{ElementReader, ParseError, Told, wants_memory};
use hevc_video_set::Vps;
use std::alloc::{AllocError, Global};

/// Reads a video parameter set out of its unit, of a stream of less than 2^60 bytes, by table 1
/// (7.3.2.1).
///
/// An element that is absent has its value of `Vps::new`. Where each sub-layer doesn't have its own
/// numbers of buffering, reordering and latency, those of the highest hold for all lower ones.
///
/// Errors: `WrongNaluType` first, where the unit is of another type; `OutOfBits` where the payload
/// ends within an element; `OutOfRange` with table and row of the first element that isn't allowed;
/// `NoMemory`.
#[tactic(auto, using(hevc_elements::proofs::SetMeaning::set_meanings))]
// Its frame has whole sets: the stack of its callers stays small without it.
#[inline(never)]
pub fn read_vps(alloc: Global, nalu: &Nalu<'_, NaluHeader>) -> Result<Vps, ParseError>
    requires { length nalu.now.stream < STREAM_LIMIT }
    ensures unit { ReadsSetUnit plain_vps video_parameter_set 32 nalu.now result }
    ensures names_no_set { IfErr result NamesNoSet }
{
    if !is_video_set(nalu.header().nalu_type()) {
        return Err(ParseError::WrongNaluType);
    }
    read_payload(alloc, nalu.payload())
}

/// Whether a unit of this type is a video parameter set.
fn is_video_set(nalu_type: NaluType) -> bool
    ensures { result ≡ (nalu_type_number nalu_type == 32) }
{
    nalu_type as u8 == NaluType::VpsNut as u8
}

/// Reads the payload of a unit.
#[tactic(auto, using(hevc_elements::proofs::SetMeaning::sets_from_growing))]
fn read_payload(alloc: Global, payload: &[u8]) -> Result<Vps, ParseError>
    requires { length payload.now < STREAM_LIMIT }
    ensures read { ReadsSet plain_vps result
        (read video_parameter_set (payload_bits 0 payload.now)) }
    ensures names_no_set { IfErr result NamesNoSet }
{
    read_rows(alloc, &mut ElementReader::new(payload))
}

/// Tells the elements of a video parameter set's payload (7.3.1.1) by table 1, those of a refused
/// one up to the element that is refused, after what is in the list and as long as it has room.
/// `AllocError` where reading wants memory that isn't there.
#[tactic(auto, using(hevc_elements::proofs::ScanLaws::tells))]
#[inline(never)]
pub fn tell_vps(alloc: Global, payload: &[u8], list: Vec<Told>) -> Result<Vec<Told>, AllocError>
    requires { length payload.now < STREAM_LIMIT }
    ensures { IfOk result (λ told_list. telling_in told_list
        ≡ and_told (told video_parameter_set (payload_bits 0 payload.now)) (telling_in list)) }
{
    let mut r = ElementReader::telling(payload, list);
    let answer = read_rows(alloc, &mut r);
    if wants_memory(&answer) {
        return Err(AllocError);
    }
    Ok(r.take_told(alloc))
}

/// Rows 1 to 25 of table 1.
#[tactic(auto, unfolding(hevc_tables::specs::VpsTable::video_parameter_set))]
fn read_rows(alloc: Global, r: &mut ElementReader<'_>) -> Result<Vps, ParseError>
    ensures read { ReadsGrowing plain_vps video_parameter_set result r.old r.new }
{
    let mut vps = Vps::new(alloc)?;
    read_identity(r, &mut vps)?;
    read_orderings(r, &mut vps)?;
    read_layer_sets(r, &mut vps)?;
    read_timing_info(r, &mut vps)?;
    read_extension_flag(r, &mut vps)?;
    Ok(vps)
}
