//! How pictures are shown (E.2.1, rows 1 to 14 of table 8).
ghost use Rattle.hevc_elements.specs.Words.{Fills};
ghost use Rattle.hevc_tables.specs.VuiTable as table;
ghost use Rattle.hevc_video_set.specs.VuiParams.{plain_vui_params};

use hevc_elements::rows::{bits_u32_if, flag, flag_if, ue, ue_if};
use hevc_elements::{ElementReader, ParseError};
use hevc_spec::Row;
use hevc_video_set::VuiParams;

/// Rows 1 to 3 of table 8.
#[tactic(auto, unfolding(hevc_tables::specs::VuiTable::aspect_ratio))]
pub(crate) fn read_aspect_ratio(
    r: &mut ElementReader<'_>,
    vui: &mut VuiParams,
) -> Result<(), ParseError>
    ensures { Fills plain_vui_params table.aspect_ratio result vui.old vui.new r.old r.new }
{
    let present = flag(r, Row(8, 1))?;
    vui.aspect_ratio_info_present_flag = present;
    vui.aspect_ratio_idc = bits_u32_if(r, present, Row(8, 2), 8, 0, 255)?;
    let extended = vui.aspect_ratio_idc == 255;
    vui.sar_width = bits_u32_if(r, extended, Row(8, 3), 16, 0, 65_535)?;
    vui.sar_height = bits_u32_if(r, extended, Row(8, 3), 16, 0, 65_535)?;
    Ok(())
}

/// Rows 4 and 5 of table 8.
#[tactic(auto, unfolding(hevc_tables::specs::VuiTable::overscan))]
pub(crate) fn read_overscan(
    r: &mut ElementReader<'_>,
    vui: &mut VuiParams,
) -> Result<(), ParseError>
    ensures { Fills plain_vui_params table.overscan result vui.old vui.new r.old r.new }
{
    vui.overscan_info_present_flag = flag(r, Row(8, 4))?;
    vui.overscan_appropriate_flag = flag_if(r, vui.overscan_info_present_flag, Row(8, 5))?;
    Ok(())
}

/// Rows 10 to 12 of table 8.
#[tactic(auto, unfolding(hevc_tables::specs::VuiTable::chroma_places))]
pub(crate) fn read_chroma_places(
    r: &mut ElementReader<'_>,
    vui: &mut VuiParams,
) -> Result<(), ParseError>
    ensures { Fills plain_vui_params table.chroma_places result vui.old vui.new r.old r.new }
{
    let present = flag(r, Row(8, 10))?;
    vui.chroma_loc_info_present_flag = present;
    vui.chroma_sample_loc_type_top_field = ue_if(r, present, Row(8, 11), 0, 5)?;
    vui.chroma_sample_loc_type_bottom_field = ue_if(r, present, Row(8, 12), 0, 5)?;
    Ok(())
}

/// Rows 13 and 14 of table 8.
#[tactic(auto, unfolding(hevc_tables::specs::VuiTable::display, hevc_spec::specs::Rows::when))]
pub(crate) fn read_display(r: &mut ElementReader<'_>, vui: &mut VuiParams) -> Result<(), ParseError>
    ensures { Fills plain_vui_params table.display result vui.old vui.new r.old r.new }
{
    vui.neutral_chroma_indication_flag = flag(r, Row(8, 13))?;
    vui.field_seq_flag = flag(r, Row(8, 13))?;
    vui.frame_field_info_present_flag = flag(r, Row(8, 13))?;
    vui.default_display_window_flag = flag(r, Row(8, 13))?;
    if vui.default_display_window_flag {
        read_window(r, vui)?;
    }
    Ok(())
}

/// Row 14 of table 8.
#[tactic(auto, unfolding(hevc_tables::specs::VuiTable::display_window))]
fn read_window(r: &mut ElementReader<'_>, vui: &mut VuiParams) -> Result<(), ParseError>
    ensures { Fills plain_vui_params table.display_window result vui.old vui.new r.old r.new }
{
    vui.def_disp_win_left_offset = ue(r, Row(8, 14), 0, 2_147_483_647)?;
    vui.def_disp_win_right_offset = ue(r, Row(8, 14), 0, 2_147_483_647)?;
    vui.def_disp_win_top_offset = ue(r, Row(8, 14), 0, 2_147_483_647)?;
    vui.def_disp_win_bottom_offset = ue(r, Row(8, 14), 0, 2_147_483_647)?;
    Ok(())
}
