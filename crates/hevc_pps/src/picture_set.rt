//! Picture parameter sets (7.3.2.3.1, table 11).
ghost use Rattle.std.specs.Prelude.{◌≡◌, ◌==◌, ◌-◌, ◌<◌, ◌^◌, ◌↔◌, IfErr, IfOk, OnOk, IsErrOf};
ghost use Rattle.std.specs.Prelude.{length};
ghost use Rattle.hevc_spec.specs.Payload.{payload, payload_bits};
ghost use Rattle.hevc_bits.specs.FoundUnit.{bytes_of};
ghost use Rattle.hevc_bits.specs.NaluType.{nalu_type_number};
ghost use Rattle.hevc_elements.specs.Kept.{telling_in};
ghost use Rattle.hevc_elements.specs.Telling.{and_told, told};
ghost use Rattle.hevc_elements.specs.Words.{read, Fills, ReadsSet, ReadsSetUnit};
ghost use Rattle.hevc_elements.specs.Naming.{ReadsNaming};
ghost use Rattle.hevc_records.specs.SetsById.{sets_by_id};
ghost use Rattle.hevc_tables.specs.PpsTable as table;
ghost use Rattle.hevc_sequence_set.specs.Sps.{plain_sps};
ghost use Rattle.hevc_picture_slice.specs.Pps.{plain_pps};
ghost use Rattle.hevc_pps.specs.Answers.{NamesNoOtherSet};
ghost use Rattle.hevc_pps.specs.Tiling.{TilesCover, CoverKept};
ghost use Rattle.hevc_bits.specs.declared.stream_limit.TheConstants.{STREAM_LIMIT};

use crate::extensions::read_extensions;
use crate::filters::{read_filters, read_merging, read_scaling};
use crate::tiles::read_tiles;
use crate::tools::{read_presence, read_quantiser, read_tools};
use hevc_bits::{Nalu, NaluHeader, NaluType};
use hevc_boxed::Boxed;
use hevc_elements::rows::ue_u8;
use hevc_elements::{ElementReader, ParseError, Told};
use hevc_picture_slice::Pps;
use hevc_sequence_set::Sps;
use hevc_spec::Row;
use std::alloc::Global;
use std::collections::BTreeMap;

/// Reads a picture parameter set out of its unit, of a stream of less than 2^60 bytes, by table 11
/// (7.3.2.3.1), with the sequence parameter sets that are kept, by their ids. It takes no memory.
///
/// An element that is absent has its value of `Pps::new`, but for the scaling lists, which are the
/// default ones (7.4.5), and the sizes of tiles, which follow from the size of the picture (6.5.1).
///
/// Errors: `WrongNaluType` first, where the unit is of another type; `OutOfBits` where the payload
/// ends within an element; `OutOfRange` with table and row of the first element that isn't allowed;
/// after row 2, `MissingSps` where none of the sets has the id that it names.
#[tactic(auto, using(hevc_elements::proofs::SetMeaning::set_meanings))]
// Its frame has whole sets: the stack of its callers stays small without it.
#[inline(never)]
pub fn read_pps(
    _alloc: Global,
    nalu: &Nalu<'_, NaluHeader>,
    spses: &BTreeMap<u8, Boxed<Sps>>,
) -> Result<Pps, ParseError>
    requires { length nalu.now.stream < STREAM_LIMIT }
    ensures unit { ReadsSetUnit plain_pps (table.picture_parameter_set
        (nalu.now.header.nuh_temporal_id_plus1 - 1) (sets_by_id plain_sps spses.now)) 34 nalu.now
        result }
    ensures names { IfErr result NamesNoOtherSet }
    // With tiles, the columns and the rows take all blocks of the picture.
    ensures tiles { IfOk result (λ pps. CoverKept spses.now (plain_pps pps)) }
{
    let header = nalu.header();
    if !is_picture_set(header.nalu_type()) {
        return Err(ParseError::WrongNaluType);
    }
    read_payload(header.temporal_id_plus1() - 1, nalu.payload(), spses)
}

/// Whether a unit of this type is a picture parameter set.
fn is_picture_set(nalu_type: NaluType) -> bool
    ensures { result ≡ (nalu_type_number nalu_type == 34) }
{
    nalu_type as u8 == NaluType::PpsNut as u8
}

/// Reads the payload of a unit of this temporal id.
#[tactic(auto, using(hevc_elements::proofs::SetMeaning::sets_from_naming))]
fn read_payload(
    temporal_id: u8,
    payload: &[u8],
    spses: &BTreeMap<u8, Boxed<Sps>>,
) -> Result<Pps, ParseError>
    requires { length payload.now < STREAM_LIMIT }
    ensures read { ReadsSet plain_pps result
        (read (table.picture_parameter_set temporal_id (sets_by_id plain_sps spses.now))
        (payload_bits 0 payload.now)) }
    ensures names { IfErr result NamesNoOtherSet }
    ensures tiles { IfOk result (λ pps. CoverKept spses.now (plain_pps pps)) }
{
    read_rows(temporal_id, &mut ElementReader::new(payload), spses)
}

/// Tells the elements of a picture parameter set's payload (7.3.1.1) by table 11, in a unit of this
/// temporal id, those of a refused one up to the element that is refused, after what is in the list
/// and as long as it has room.
#[tactic(auto, using(hevc_elements::proofs::ScanLaws::tells))]
#[inline(never)]
pub fn tell_pps(
    alloc: Global,
    temporal_id: u8,
    payload: &[u8],
    spses: &BTreeMap<u8, Boxed<Sps>>,
    list: Vec<Told>,
) -> Vec<Told>
    requires { length payload.now < STREAM_LIMIT }
    ensures { telling_in result ≡ and_told
        (told (table.picture_parameter_set temporal_id (sets_by_id plain_sps spses.now))
        (payload_bits 0 payload.now)) (telling_in list) }
{
    let mut r = ElementReader::telling(payload, list);
    let _result = read_rows(temporal_id, &mut r, spses);
    r.take_told(alloc)
}

/// Rows 1 to 35 of table 11.
#[tactic(auto, using(crate::proofs::Names::names), unfolding(hevc_tables::specs::PpsTable::picture_parameter_set, hevc_tables::specs::PpsTable::named))]
fn read_rows(
    temporal_id: u8,
    r: &mut ElementReader<'_>,
    spses: &BTreeMap<u8, Boxed<Sps>>,
) -> Result<Pps, ParseError>
    ensures read { ReadsNaming plain_pps
        (table.picture_parameter_set temporal_id (sets_by_id plain_sps spses.now)) result r.old
        r.new }
    ensures names { IfErr result NamesNoOtherSet }
    ensures tiles { IfOk result (λ pps. CoverKept spses.now (plain_pps pps)) }
{
    let mut pps = Pps::new();
    pps.temporal_id = temporal_id;
    read_ids(r, &mut pps)?;
    match spses.get(&pps.seq_parameter_set_id) {
        Some(sps) => {
            read_behind_ids(r, sps, &mut pps)?;
            Ok(pps)
        }
        None => Err(ParseError::MissingSps(pps.seq_parameter_set_id)),
    }
}

/// Rows 1 and 2 of table 11.
#[tactic(auto, unfolding(hevc_tables::specs::PpsTable::ids))]
fn read_ids(r: &mut ElementReader<'_>, pps: &mut Pps) -> Result<(), ParseError>
    ensures { Fills plain_pps table.ids result pps.old pps.new r.old r.new }
{
    let id = ue_u8(r, Row(11, 1), 0, 63)?;
    let sequence_set_id = ue_u8(r, Row(11, 2), 0, 15)?;
    set_ids(pps, id, sequence_set_id);
    Ok(())
}

/// Fills in rows 1 and 2.
fn set_ids(pps: &mut Pps, id: u8, sequence_set_id: u8)
    ensures { plain_pps pps.new ≡ record (plain_pps pps.old) {
      pic_parameter_set_id = id;
      seq_parameter_set_id = sequence_set_id;
    } }
{
    pps.pic_parameter_set_id = id;
    pps.seq_parameter_set_id = sequence_set_id;
}

/// Rows 3 to 35 of table 11.
#[tactic(auto, unfolding(hevc_tables::specs::PpsTable::picture_set_of))]
fn read_behind_ids(r: &mut ElementReader<'_>, sps: &Sps, pps: &mut Pps) -> Result<(), ParseError>
    ensures fills { Fills plain_pps
        (table.picture_set_of (plain_sps sps.now)) result pps.old pps.new r.old r.new }
    ensures same_sps { pps.new.seq_parameter_set_id ≡ pps.old.seq_parameter_set_id }
    ensures tiles { OnOk result (TilesCover (plain_sps sps.now) (plain_pps pps.new)) }
{
    read_coding(r, sps, pps)?;
    read_filters(r, pps)?;
    read_scaling(r, pps)?;
    read_merging(r, sps, pps)?;
    read_extensions(r, sps, pps)
}

/// Rows 3 to 19 of table 11.
#[tactic(auto, unfolding(hevc_tables::specs::PpsTable::coding, hevc_spec::specs::Rows::when))]
fn read_coding(r: &mut ElementReader<'_>, sps: &Sps, pps: &mut Pps) -> Result<(), ParseError>
    ensures fills { Fills plain_pps
        (table.coding (plain_sps sps.now)) result pps.old pps.new r.old r.new }
    ensures same_sps { pps.new.seq_parameter_set_id ≡ pps.old.seq_parameter_set_id }
    ensures tiles { OnOk result (TilesCover (plain_sps sps.now) (plain_pps pps.new)) }
{
    read_presence(r, pps)?;
    read_quantiser(r, sps, pps)?;
    read_tools(r, pps)?;
    if pps.tiles_enabled_flag {
        read_tiles(r, sps, pps)
    } else {
        Ok(())
    }
}
