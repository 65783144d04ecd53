//! The clock, and the hypothetical reference decoder (E.2.1, rows 15 to 20 of table 8).
ghost use Rattle.std.specs.Prelude.{◌≤◌};
ghost use Rattle.hevc_elements.specs.Words.{Fills};
ghost use Rattle.hevc_tables.specs.VuiTable as table;
ghost use Rattle.hevc_video_set.specs.VuiParams.{plain_vui_params};

use hevc_elements::rows::{bits_32, flag, ue_if};
use hevc_elements::{ElementReader, ParseError};
use hevc_hrd::read_hrd_parameters;
use hevc_spec::Row;
use hevc_video_set::VuiParams;

/// Rows 15 to 20 of table 8.
#[tactic(auto, unfolding(hevc_tables::specs::VuiTable::timing_info, hevc_spec::specs::Rows::when))]
pub(crate) fn read_timing_info(
    r: &mut ElementReader<'_>,
    max_sub_layers_minus1: u8,
    vui: &mut VuiParams,
) -> Result<(), ParseError>
    requires { max_sub_layers_minus1 ≤ 6 }
    ensures { Fills plain_vui_params
        (table.timing_info max_sub_layers_minus1) result vui.old vui.new r.old r.new }
{
    vui.timing_info_present_flag = flag(r, Row(8, 15))?;
    if vui.timing_info_present_flag {
        read_timing(r, max_sub_layers_minus1, vui)?;
    }
    Ok(())
}

/// Rows 16 to 20 of table 8.
#[tactic(auto, unfolding(hevc_tables::specs::VuiTable::timing, hevc_spec::specs::Rows::when))]
fn read_timing(
    r: &mut ElementReader<'_>,
    max_sub_layers_minus1: u8,
    vui: &mut VuiParams,
) -> Result<(), ParseError>
    requires { max_sub_layers_minus1 ≤ 6 }
    ensures { Fills plain_vui_params
        (table.timing max_sub_layers_minus1) result vui.old vui.new r.old r.new }
{
    vui.num_units_in_tick = bits_32(r, Row(8, 16))?;
    vui.time_scale = bits_32(r, Row(8, 16))?;
    let poc = flag(r, Row(8, 17))?;
    vui.poc_proportional_to_timing_flag = poc;
    vui.num_ticks_poc_diff_one_minus1 = ue_if(r, poc, Row(8, 18), 0, 2_147_483_647)?;
    vui.hrd_parameters_present_flag = flag(r, Row(8, 19))?;
    if vui.hrd_parameters_present_flag {
        read_hrd(r, max_sub_layers_minus1, vui)?;
    }
    Ok(())
}

/// Row 20 of table 8.
#[tactic(auto, unfolding(hevc_tables::specs::VuiTable::hrd, hevc_tables::specs::HrdTable::hrd_parameters, hevc_spec::specs::Rows::when))]
fn read_hrd(
    r: &mut ElementReader<'_>,
    max_sub_layers_minus1: u8,
    vui: &mut VuiParams,
) -> Result<(), ParseError>
    requires { max_sub_layers_minus1 ≤ 6 }
    ensures { Fills plain_vui_params
        (table.hrd max_sub_layers_minus1) result vui.old vui.new r.old r.new }
{
    read_hrd_parameters(r, true, max_sub_layers_minus1, &mut vui.hrd)
}
