//! Of which kind a slice is, and its sample adaptive offset (7.3.6.1, rows 6 to 9, 22 and 23 of
//! table 14).
ghost use Rattle.std.specs.Prelude.{◌≡◌};
ghost use Rattle.hevc_spec.specs.Rows.{row, ue_row};
ghost use Rattle.hevc_elements.specs.Words.{Reads, Fills};
ghost use Rattle.hevc_tables.specs.SliceHeaderTable as table;
ghost use Rattle.hevc_set_parts.specs.SliceType.{slice_type_number};
ghost use Rattle.hevc_sequence_set.specs.Sps.{plain_sps};
ghost use Rattle.hevc_picture_slice.specs.Pps.{plain_pps};
ghost use Rattle.hevc_picture_slice.specs.SliceHeader.{plain_slice_header};

use hevc_elements::rows::{bits_u8_if, flag_if, flag_or, skip, ue};
use hevc_elements::{ElementReader, ParseError};
use hevc_picture_slice::{Pps, SliceHeader};
use hevc_sequence_set::Sps;
use hevc_set_parts::SliceType;
use hevc_spec::Row;

/// Rows 6 to 9 of table 14.
#[tactic(auto, unfolding(hevc_tables::specs::SliceHeaderTable::kind))]
pub(crate) fn read_kind(
    r: &mut ElementReader<'_>,
    sps: &Sps,
    pps: &Pps,
    h: &mut SliceHeader,
) -> Result<(), ParseError>
    ensures { Fills plain_slice_header
        (table.kind (plain_sps sps.now) (plain_pps pps.now)) result h.old h.new r.old r.new }
{
    skip(r, Row(14, 6), usize::from(pps.num_extra_slice_header_bits))?;
    let slice_type = read_slice_type(r)?;
    let is_output = flag_or(r, pps.output_flag_present_flag, true, Row(14, 8))?;
    let colour_plane = bits_u8_if(r, sps.separate_colour_plane_flag, Row(14, 9), 2, 0, 3)?;
    set_kind(h, slice_type, is_output, colour_plane);
    Ok(())
}

/// Fills in rows 7 to 9.
fn set_kind(h: &mut SliceHeader, slice_type: SliceType, is_output: bool, colour_plane: u8)
    ensures { plain_slice_header h.new ≡ record (plain_slice_header h.old) {
      type_ = slice_type_number slice_type;
      pic_output_flag = is_output;
      colour_plane_id = colour_plane;
    } }
{
    h.type_ = slice_type;
    h.pic_output_flag = is_output;
    h.colour_plane_id = colour_plane;
}

/// Row 7 of table 14.
fn read_slice_type(r: &mut ElementReader<'_>) -> Result<SliceType, ParseError>
    ensures read { Reads slice_type_number (ue_row (row 14 7) 0 2) result r.old r.new }
{
    match ue(r, Row(14, 7), 0, 2)? {
        0 => Ok(SliceType::B),
        1 => Ok(SliceType::P),
        _ => Ok(SliceType::I),
    }
}

/// Rows 22 and 23 of table 14.
#[tactic(auto, unfolding(hevc_tables::specs::SliceHeaderTable::adaptive_offset))]
pub(crate) fn read_adaptive_offset(
    r: &mut ElementReader<'_>,
    sps: &Sps,
    h: &mut SliceHeader,
) -> Result<(), ParseError>
    ensures { Fills plain_slice_header
        (table.adaptive_offset (plain_sps sps.now)) result h.old h.new r.old r.new }
{
    let enabled = sps.sample_adaptive_offset_enabled_flag;
    let has_chroma = sps.chroma_array_type != 0;
    let luma = flag_if(r, enabled, Row(14, 22))?;
    let chroma = flag_if(r, enabled && has_chroma, Row(14, 23))?;
    set_adaptive_offset(h, luma, chroma);
    Ok(())
}

/// Fills in rows 22 and 23.
fn set_adaptive_offset(h: &mut SliceHeader, luma: bool, chroma: bool)
    ensures { plain_slice_header h.new ≡ record (plain_slice_header h.old) {
      sao_luma_flag = luma;
      sao_chroma_flag = chroma;
    } }
{
    h.sao_luma_flag = luma;
    h.sao_chroma_flag = chroma;
}
