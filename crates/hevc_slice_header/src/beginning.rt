//! Where a segment is (7.3.6.1, rows 1 to 5 of table 14).
ghost use Rattle.std.specs.Prelude.{◌≡◌, ◌≤◌, ◌^◌};
ghost use Rattle.hevc_bits.specs.NaluType.{nalu_type_number};
ghost use Rattle.hevc_elements.specs.Words.{Fills};
ghost use Rattle.hevc_tables.specs.SliceHeaderTable as table;
ghost use Rattle.hevc_sequence_set.specs.Sps.{plain_sps};
ghost use Rattle.hevc_picture_slice.specs.Pps.{plain_pps};
ghost use Rattle.hevc_picture_slice.specs.SliceHeader.{plain_slice_header};

use hevc_bits::NaluType;
use hevc_elements::rows::{bits_u32, flag, flag_if, ue_u8};
use hevc_elements::{ElementReader, ParseError};
use hevc_picture_slice::{Pps, SliceHeader};
use hevc_sequence_set::Sps;
use hevc_slice_parts::ceil_log2;
use hevc_spec::Row;

/// Rows 1 to 3 of table 14.
#[tactic(auto, unfolding(hevc_tables::specs::SliceHeaderTable::beginning))]
pub(crate) fn read_beginning(
    r: &mut ElementReader<'_>,
    nalu_type: NaluType,
    h: &mut SliceHeader,
) -> Result<(), ParseError>
    ensures { Fills plain_slice_header
        (table.beginning (nalu_type_number nalu_type)) result h.old h.new r.old r.new }
{
    let first = flag(r, Row(14, 1))?;
    let no_output_of_prior = flag_if(r, nalu_type.is_irap(), Row(14, 2))?;
    let picture_set = ue_u8(r, Row(14, 3), 0, 63)?;
    set_beginning(h, first, no_output_of_prior, picture_set);
    Ok(())
}

/// Fills in rows 1 to 3.
fn set_beginning(h: &mut SliceHeader, first: bool, no_output_of_prior: bool, picture_set: u8)
    ensures { plain_slice_header h.new ≡ record (plain_slice_header h.old) {
      first_slice_segment_in_pic_flag = first;
      no_output_of_prior_pics_flag = no_output_of_prior;
      pic_parameter_set_id = picture_set;
    } }
{
    h.first_slice_segment_in_pic_flag = first;
    h.no_output_of_prior_pics_flag = no_output_of_prior;
    h.pic_parameter_set_id = picture_set;
}

/// Rows 4 and 5 of table 14.
#[tactic(auto, unfolding(hevc_tables::specs::SliceHeaderTable::later_segment))]
pub(crate) fn read_later_segment(
    r: &mut ElementReader<'_>,
    sps: &Sps,
    pps: &Pps,
    h: &mut SliceHeader,
) -> Result<(), ParseError>
    ensures { Fills plain_slice_header
        (table.later_segment (plain_sps sps.now)
        (plain_pps pps.now)) result h.old h.new r.old r.new }
{
    let size = size_in_blocks(sps);
    let dependent = flag_if(r, pps.dependent_slice_segments_enabled_flag, Row(14, 4))?;
    let address = bits_u32(r, Row(14, 5), ceil_log2(size), 0, size - 1)?;
    set_later_segment(h, dependent, address);
    Ok(())
}

/// Fills in rows 4 and 5.
fn set_later_segment(h: &mut SliceHeader, dependent: bool, address: u32)
    ensures { plain_slice_header h.new ≡ record (plain_slice_header h.old) {
      dependent_slice_segment_flag = dependent;
      segment_address = address;
    } }
{
    h.dependent_slice_segment_flag = dependent;
    h.segment_address = address;
}

/// PicSizeInCtbsY (7-17), at most 2^31.
fn size_in_blocks(sps: &Sps) -> u32
    ensures value { result ≡ (plain_sps sps.now).pic_size_in_ctbs_y }
    ensures range { (1 ≤ result) × (result ≤ 2 ^ 31) }
{
    sps.pic_size_in_ctbs_y
}
