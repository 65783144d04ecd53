//! Sequence parameter sets (7.3.2.2.1, table 5).
ghost use Rattle.std.specs.Prelude.{◌≡◌, ◌==◌, ◌<◌, ◌≤◌, ◌^◌, ◌↔◌, IfErr, IfOk, IsErrOf, IsTrue};
ghost use Rattle.std.specs.Prelude.{length};
ghost use Rattle.hevc_spec.specs.Payload.{payload, payload_bits};
ghost use Rattle.hevc_bits.specs.FoundUnit.{bytes_of};
ghost use Rattle.hevc_bits.specs.NaluType.{nalu_type_number};
ghost use Rattle.hevc_elements.specs.Kept.{telling_in};
ghost use Rattle.hevc_elements.specs.Telling.{and_told, told};
ghost use Rattle.hevc_elements.specs.Words.{read, Fills, FillsGrowing, ReadsGrowing, ReadsSet};
ghost use Rattle.hevc_elements.specs.Words.{NamesNoSet, ReadsSetUnit};
ghost use Rattle.hevc_records.specs.Sps.{default_sps};
ghost use Rattle.hevc_tables.specs.SpsTable as table;
ghost use Rattle.hevc_sequence_set.specs.Sps.{plain_sps};
ghost use Rattle.hevc_sps.specs.Predictions.{AreInOrder};
ghost use Rattle.hevc_bits.specs.declared.stream_limit.TheConstants.{STREAM_LIMIT};

use crate::blocks::read_blocks;
use crate::extensions::read_extensions;
use crate::frame::{read_cropping, read_depths, read_samples};
use crate::identity::read_identity;
use crate::long_term::read_long_term;
use crate::orderings::read_orderings;
use crate::short_term::read_short_term;
use crate::tools::{read_scaling, read_tools};
use crate::usability::read_usability;
use hevc_bits::{Nalu, NaluHeader, NaluType};
use hevc_boxed::Boxed;
use hevc_elements::{ElementReader, ParseError, Told, wants_memory};
use hevc_sequence_set::Sps;
use std::alloc::{AllocError, Global};

/// Reads a sequence parameter set out of its unit, of a stream of less than 2^60 bytes, by table 5
/// (7.3.2.2.1), into a place of its own.
///
/// An element that is absent has its value of `Sps::new`. Where each sub-layer doesn't have its own
/// numbers of buffering, reordering and latency, those of the highest hold for all lower ones.
///
/// Errors: `WrongNaluType` first, where the unit is of another type; `OutOfBits` where the payload
/// ends within an element; `OutOfRange` with table and row of the first element that isn't allowed;
/// `NoMemory`.
#[tactic(auto, using(hevc_elements::proofs::SetMeaning::set_meanings, crate::proofs::Orders::are_in_order))]
// Its frame has whole sets: the stack of its callers stays small without it.
#[inline(never)]
pub fn read_sps(alloc: Global, nalu: &Nalu<'_, NaluHeader>) -> Result<Boxed<Sps>, ParseError>
    requires { length nalu.now.stream < STREAM_LIMIT }
    ensures unit { ReadsSetUnit plain_sps table.sequence_parameter_set 33 nalu.now result }
    ensures names_no_set { IfErr result NamesNoSet }
    // Along every chain of predictions negatives fall, positives rise, and none is 0.
    ensures predictions { IfOk result (λ sps. AreInOrder sps.short_term_ref_pic_set) }
{
    if !is_sequence_set(nalu.header().nalu_type()) {
        return Err(ParseError::WrongNaluType);
    }
    read_payload(alloc, nalu.payload())
}

/// Whether a unit of this type is a sequence parameter set.
fn is_sequence_set(nalu_type: NaluType) -> bool
    ensures { result ≡ (nalu_type_number nalu_type == 33) }
{
    nalu_type as u8 == NaluType::SpsNut as u8
}

/// Reads the payload of a unit.
#[tactic(auto, using(hevc_elements::proofs::SetMeaning::sets_from_growing))]
fn read_payload(alloc: Global, payload: &[u8]) -> Result<Boxed<Sps>, ParseError>
    requires { length payload.now < STREAM_LIMIT }
    ensures read { ReadsSet plain_sps result
        (read table.sequence_parameter_set (payload_bits 0 payload.now)) }
    ensures names_no_set { IfErr result NamesNoSet }
{
    read_rows(alloc, &mut ElementReader::new(payload))
}

/// Tells the elements of a sequence parameter set's payload (7.3.1.1) by table 5, those of a
/// refused one up to the element that is refused, after what is in the list and as long as it has
/// room. `AllocError` where reading wants memory that isn't there.
#[tactic(auto, using(hevc_elements::proofs::ScanLaws::tells))]
#[inline(never)]
pub fn tell_sps(alloc: Global, payload: &[u8], list: Vec<Told>) -> Result<Vec<Told>, AllocError>
    requires { length payload.now < STREAM_LIMIT }
    ensures { IfOk result (λ told_list. telling_in told_list
        ≡ and_told (told table.sequence_parameter_set (payload_bits 0 payload.now)) (telling_in list)) }
{
    let mut r = ElementReader::telling(payload, list);
    let answer = read_rows(alloc, &mut r);
    if wants_memory(&answer) {
        return Err(AllocError);
    }
    Ok(r.take_told(alloc))
}

/// Rows 1 to 50 of table 5.
#[tactic(auto, unfolding(hevc_tables::specs::SpsTable::sequence_parameter_set))]
fn read_rows(alloc: Global, r: &mut ElementReader<'_>) -> Result<Boxed<Sps>, ParseError>
    ensures read { ReadsGrowing plain_sps table.sequence_parameter_set result r.old r.new }
{
    let mut sps = new_set(alloc)?;
    read_format(r, &mut sps)?;
    read_coding(alloc, r, &mut sps)?;
    Ok(Boxed::of(sps))
}

/// A set of `Sps::new`, at the place where its rows are filled in.
fn new_set(alloc: Global) -> Result<Box<Sps>, AllocError>
    ensures { IfOk result (λ sps. plain_sps sps.value ≡ default_sps) }
{
    Ok(Box::new(alloc, Sps::new(alloc))?)
}

/// Rows 1 to 24 of table 5.
#[tactic(auto, unfolding(hevc_tables::specs::SpsTable::format))]
fn read_format(r: &mut ElementReader<'_>, sps: &mut Sps) -> Result<(), ParseError>
    ensures { Fills plain_sps table.format result sps.old sps.new r.old r.new }
{
    read_identity(r, sps)?;
    read_samples(r, sps)?;
    read_cropping(r, sps)?;
    read_depths(r, sps)?;
    read_orderings(r, sps)?;
    read_blocks(r, sps)
}

/// Rows 25 to 50 of table 5.
#[tactic(auto, unfolding(hevc_tables::specs::SpsTable::coding))]
fn read_coding(alloc: Global, r: &mut ElementReader<'_>, sps: &mut Sps) -> Result<(), ParseError>
    ensures { FillsGrowing plain_sps table.coding result sps.old sps.new r.old r.new }
{
    read_scaling(r, sps)?;
    read_tools(r, sps)?;
    read_short_term(alloc, r, sps)?;
    read_long_term(r, sps)?;
    read_usability(r, sps)?;
    read_extensions(r, sps)
}
