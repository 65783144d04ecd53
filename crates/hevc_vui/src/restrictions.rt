//! Restrictions of the stream (E.2.1, rows 21 to 26 of table 8).
ghost use Rattle.hevc_elements.specs.Words.{Fills};
ghost use Rattle.hevc_tables.specs.VuiTable as table;
ghost use Rattle.hevc_video_set.specs.VuiParams.{plain_vui_params};

use hevc_elements::rows::{flag, ue};
use hevc_elements::{ElementReader, ParseError};
use hevc_spec::Row;
use hevc_video_set::VuiParams;

/// Rows 21 to 26 of table 8.
#[tactic(auto, unfolding(hevc_tables::specs::VuiTable::stream_restrictions, hevc_spec::specs::Rows::when))]
pub(crate) fn read_stream_restrictions(
    r: &mut ElementReader<'_>,
    vui: &mut VuiParams,
) -> Result<(), ParseError>
    ensures { Fills plain_vui_params table.stream_restrictions result vui.old vui.new r.old r.new }
{
    vui.bitstream_restriction_flag = flag(r, Row(8, 21))?;
    if vui.bitstream_restriction_flag {
        read_restrictions(r, vui)?;
    }
    Ok(())
}

/// Rows 22 to 26 of table 8.
#[tactic(auto, unfolding(hevc_tables::specs::VuiTable::restrictions))]
fn read_restrictions(r: &mut ElementReader<'_>, vui: &mut VuiParams) -> Result<(), ParseError>
    ensures { Fills plain_vui_params table.restrictions result vui.old vui.new r.old r.new }
{
    vui.tiles_fixed_structure_flag = flag(r, Row(8, 22))?;
    vui.motion_vectors_over_pic_boundaries_flag = flag(r, Row(8, 22))?;
    vui.restricted_ref_pic_lists_flag = flag(r, Row(8, 22))?;
    vui.min_spatial_segmentation_idc = ue(r, Row(8, 23), 0, 4095)?;
    vui.max_bytes_per_pic_denom = ue(r, Row(8, 24), 0, 2_147_483_647)?;
    vui.max_bits_per_min_cu_denom = ue(r, Row(8, 24), 0, 2_147_483_647)?;
    vui.log2_max_mv_length_horizontal = ue(r, Row(8, 25), 0, 16)?;
    vui.log2_max_mv_length_vertical = ue(r, Row(8, 26), 0, 15)?;
    Ok(())
}
