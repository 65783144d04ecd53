//! What is said of each sub-layer (E.2.2, rows 10 to 16 of table 3).
ghost use Rattle.std.specs.Prelude.{◌≡◌, ◌≤◌, ◌<◌};
ghost use Rattle.hevc_elements.specs.Words.{when, Reads, Fills};
ghost use Rattle.hevc_records.specs.SublayerHrdParameters.{default_sublayer_hrd_parameters};
ghost use Rattle.hevc_tables.specs.HrdTable as table;
ghost use Rattle.hevc_video_set.specs.SublayerHrdParameters.{plain_sublayer_hrd_parameters};
ghost use Rattle.hevc_video_set.specs.HrdParams.{plain_hrd_params};

use crate::schedules::read_schedules;
use hevc_elements::rows::{flag, flag_if, flag_or, ue_if};
use hevc_elements::{ElementReader, ParseError};
use hevc_spec::Row;
use hevc_video_set::{HrdParams, SublayerHrdParameters};

/// Reads each sub-layer up to the highest into a structure, by rows 10 to 16 of table 3.
#[tactic(auto, using(hevc_elements::proofs::Loops::loops), unfolding(hevc_tables::specs::HrdTable::sub_layers))]
pub(crate) fn read_sub_layers(
    r: &mut ElementReader<'_>,
    max_sub_layers_minus1: u8,
    hrd: &mut HrdParams,
) -> Result<(), ParseError>
    requires { max_sub_layers_minus1 ≤ 6 }
    ensures { Fills plain_hrd_params
        (table.sub_layers max_sub_layers_minus1) result hrd.old hrd.new r.old r.new }
{
    let count = usize::from(max_sub_layers_minus1) + 1;
    for i in 0..count {
        read_sub_layer(r, i, hrd)?;
    }
    Ok(())
}

/// Rows 10 to 16 of table 3, for one sub-layer of a structure.
#[tactic(auto, using(crate::proofs::Places::places), unfolding(hevc_tables::specs::HrdTable::sub_layer))]
fn read_sub_layer(
    r: &mut ElementReader<'_>,
    i: usize,
    hrd: &mut HrdParams,
) -> Result<(), ParseError>
    requires { i < 7 }
    ensures { Fills plain_hrd_params (table.sub_layer i) result hrd.old hrd.new r.old r.new }
{
    let by_units = hrd.sub_pic_hrd_params_present_flag;
    let fixed = flag(r, Row(3, 10))?;
    let within = flag_or(r, !fixed, true, Row(3, 11))?;
    let duration = ue_if(r, within, Row(3, 12), 0, 2047)?;
    let low_delay = flag_if(r, !within, Row(3, 13))?;
    let count = ue_if(r, !low_delay, Row(3, 14), 0, 31)?;
    let nal_hrd = schedules_if(r, hrd.nal_hrd_parameters_present_flag, by_units, count)?;
    let vcl_hrd = schedules_if(r, hrd.vcl_hrd_parameters_present_flag, by_units, count)?;
    hrd.fixed_pic_rate_general_flag[i] = fixed;
    hrd.fixed_pic_rate_within_cvs_flag[i] = within;
    hrd.elemental_duration_in_tc_minus1[i] = duration;
    hrd.low_delay_hrd_flag[i] = low_delay;
    hrd.cpb_cnt_minus1[i] = count;
    hrd.nal_hrd[i] = nal_hrd;
    hrd.vcl_hrd[i] = vcl_hrd;
    Ok(())
}

/// Table 4, where it is present.
#[tactic(auto, unfolding(hevc_spec::specs::Rows::when))]
fn schedules_if(
    r: &mut ElementReader<'_>,
    present: bool,
    by_units: bool,
    cpb_cnt_minus1: u32,
) -> Result<SublayerHrdParameters, ParseError>
    requires { cpb_cnt_minus1 ≤ 31 }
    ensures read { Reads plain_sublayer_hrd_parameters (when present default_sublayer_hrd_parameters
        (table.sub_layer_hrd_parameters by_units cpb_cnt_minus1)) result r.old r.new }
{
    if present {
        read_schedules(r, by_units, cpb_cnt_minus1)
    } else {
        Ok(SublayerHrdParameters::new())
    }
}
