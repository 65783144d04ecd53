//! The type of the video signal (E.2.1, rows 6 to 9 of table 8).
ghost use Rattle.hevc_elements.specs.Words.{Fills};
ghost use Rattle.hevc_tables.specs.VuiTable as table;
ghost use Rattle.hevc_video_set.specs.VuiParams.{plain_vui_params};

use hevc_elements::rows::{bits_u8, bits_u32, flag};
use hevc_elements::{ElementReader, ParseError};
use hevc_spec::Row;
use hevc_video_set::VuiParams;

/// Rows 6 to 9 of table 8.
#[tactic(auto, unfolding(hevc_tables::specs::VuiTable::signal_type, hevc_spec::specs::Rows::when))]
pub(crate) fn read_signal_type(
    r: &mut ElementReader<'_>,
    vui: &mut VuiParams,
) -> Result<(), ParseError>
    ensures { Fills plain_vui_params table.signal_type result vui.old vui.new r.old r.new }
{
    vui.video_signal_type_present_flag = flag(r, Row(8, 6))?;
    if vui.video_signal_type_present_flag {
        read_signal(r, vui)?;
    }
    Ok(())
}

/// Rows 7 to 9 of table 8.
#[tactic(auto, unfolding(hevc_tables::specs::VuiTable::signal, hevc_spec::specs::Rows::when))]
fn read_signal(r: &mut ElementReader<'_>, vui: &mut VuiParams) -> Result<(), ParseError>
    ensures { Fills plain_vui_params table.signal result vui.old vui.new r.old r.new }
{
    vui.video_format = bits_u8(r, Row(8, 7), 3, 0, 7)?;
    vui.video_full_range_flag = flag(r, Row(8, 8))?;
    vui.colour_description_present_flag = flag(r, Row(8, 8))?;
    if vui.colour_description_present_flag {
        read_colours(r, vui)?;
    }
    Ok(())
}

/// Row 9 of table 8.
#[tactic(auto, unfolding(hevc_tables::specs::VuiTable::colours))]
fn read_colours(r: &mut ElementReader<'_>, vui: &mut VuiParams) -> Result<(), ParseError>
    ensures { Fills plain_vui_params table.colours result vui.old vui.new r.old r.new }
{
    vui.colour_primaries = bits_u32(r, Row(8, 9), 8, 0, 255)?;
    vui.transfer_characteristics = bits_u32(r, Row(8, 9), 8, 0, 255)?;
    vui.matrix_coeffs = bits_u32(r, Row(8, 9), 8, 0, 255)?;
    Ok(())
}
