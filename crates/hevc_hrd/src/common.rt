//! What all sub-layers have in common (E.2.2, rows 1 to 9 of table 3).
ghost use Rattle.std.specs.Prelude.{◌≡◌};
ghost use Rattle.hevc_elements.specs.Words.{Fills};
ghost use Rattle.hevc_tables.specs.HrdTable as table;
ghost use Rattle.hevc_video_set.specs.HrdParams.{plain_hrd_params};

use hevc_elements::rows::{bits_u8, bits_u8_if, flag};
use hevc_elements::{ElementReader, ParseError};
use hevc_spec::Row;
use hevc_video_set::{HrdParams, SublayerHrdParameters};

/// Rows 1 to 9 of table 3.
#[tactic(auto, unfolding(hevc_tables::specs::HrdTable::common_parameters, hevc_spec::specs::Rows::when))]
pub(crate) fn read_common(r: &mut ElementReader<'_>, hrd: &mut HrdParams) -> Result<(), ParseError>
    ensures { Fills plain_hrd_params table.common_parameters result hrd.old hrd.new r.old r.new }
{
    hrd.nal_hrd_parameters_present_flag = flag(r, Row(3, 1))?;
    hrd.vcl_hrd_parameters_present_flag = flag(r, Row(3, 1))?;
    if hrd.nal_hrd_parameters_present_flag || hrd.vcl_hrd_parameters_present_flag {
        read_buffering(r, hrd)?;
    }
    Ok(())
}

/// Rows 2 to 9 of table 3.
#[tactic(auto, unfolding(hevc_tables::specs::HrdTable::buffering, hevc_spec::specs::Rows::when))]
fn read_buffering(r: &mut ElementReader<'_>, hrd: &mut HrdParams) -> Result<(), ParseError>
    ensures { Fills plain_hrd_params table.buffering result hrd.old hrd.new r.old r.new }
{
    hrd.sub_pic_hrd_params_present_flag = flag(r, Row(3, 2))?;
    if hrd.sub_pic_hrd_params_present_flag {
        read_units(r, hrd)?;
    }
    read_scales(r, hrd)
}

/// Rows 3 to 6 of table 3.
#[tactic(auto, unfolding(hevc_tables::specs::HrdTable::decoding_units))]
fn read_units(r: &mut ElementReader<'_>, hrd: &mut HrdParams) -> Result<(), ParseError>
    ensures { Fills plain_hrd_params table.decoding_units result hrd.old hrd.new r.old r.new }
{
    hrd.tick_divisor_minus2 = bits_u8(r, Row(3, 3), 8, 0, 255)?;
    hrd.du_cpb_removal_delay_increment_length_minus1 = bits_u8(r, Row(3, 4), 5, 0, 31)?;
    hrd.sub_pic_cpb_params_in_pic_timing_sei_flag = flag(r, Row(3, 5))?;
    hrd.dpb_output_delay_du_length_minus1 = bits_u8(r, Row(3, 6), 5, 0, 31)?;
    Ok(())
}

/// Rows 7 to 9 of table 3.
#[tactic(auto, unfolding(hevc_tables::specs::HrdTable::scales))]
fn read_scales(r: &mut ElementReader<'_>, hrd: &mut HrdParams) -> Result<(), ParseError>
    ensures { Fills plain_hrd_params table.scales result hrd.old hrd.new r.old r.new }
{
    let by_units = hrd.sub_pic_hrd_params_present_flag;
    hrd.bit_rate_scale = bits_u8(r, Row(3, 7), 4, 0, 15)?;
    hrd.cpb_size_scale = bits_u8(r, Row(3, 7), 4, 0, 15)?;
    hrd.cpb_size_du_scale = bits_u8_if(r, by_units, Row(3, 8), 4, 0, 15)?;
    hrd.initial_cpb_removal_delay_length_minus1 = bits_u8(r, Row(3, 9), 5, 0, 31)?;
    hrd.au_cpb_removal_delay_length_minus1 = bits_u8(r, Row(3, 9), 5, 0, 31)?;
    hrd.dpb_output_delay_length_minus1 = bits_u8(r, Row(3, 9), 5, 0, 31)?;
    Ok(())
}

/// What a structure has in common for its sub-layers stays, with nothing said of them.
#[tactic(auto, unfolding(hevc_tables::specs::HrdTable::common_of))]
pub(crate) fn forget_sub_layers(hrd: &mut HrdParams)
    ensures { plain_hrd_params hrd.new ≡ table.common_of (plain_hrd_params hrd.old) }
{
    hrd.fixed_pic_rate_general_flag = [false; 7];
    hrd.fixed_pic_rate_within_cvs_flag = [false; 7];
    hrd.elemental_duration_in_tc_minus1 = [0; 7];
    hrd.low_delay_hrd_flag = [false; 7];
    hrd.cpb_cnt_minus1 = [0; 7];
    hrd.nal_hrd = [SublayerHrdParameters::new(); 7];
    hrd.vcl_hrd = [SublayerHrdParameters::new(); 7];
}
