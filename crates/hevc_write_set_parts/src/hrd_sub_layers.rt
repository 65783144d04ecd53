//! What is said of each sub-layer (E.2.2, rows 10 to 16 of table 3).
ghost use Rattle.std.specs.Prelude.{◌≤◌, ◌<◌, OnOk};
ghost use Rattle.hevc_tables.specs.HrdTable as table;
ghost use Rattle.hevc_video_set.specs.HrdParams.{plain_hrd_params};
ghost use Rattle.hevc_write_set_parts.specs.HrdParts as own;
ghost use Rattle.hevc_write_elements.specs.Filling.{Writes, WritesTurn};

use crate::hrd_schedules::write_schedules_if;
use hevc_bit_writer::BitWriter;
use hevc_video_set::HrdParams;
use hevc_write_elements::rows::{flag, flag_if, ue_if};
use std::alloc::AllocError;

/// Rows 10 to 16 of table 3, for each sub-layer up to the highest.
#[tactic(auto, using(hevc_write_elements::proofs::Loops::turns, crate::proofs::HrdKeeps::sub_layers_written))]
pub(crate) fn write_sub_layers(
    w: &mut BitWriter,
    max_sub_layers_minus1: u8,
    x: &HrdParams,
) -> Result<(), AllocError>
    requires { max_sub_layers_minus1 ≤ 6 }
    ensures { OnOk result (Writes (table.sub_layers max_sub_layers_minus1)
        own.sub_layers_with_inputs_of (plain_hrd_params x.now) w.old w.new) }
{
    let count = usize::from(max_sub_layers_minus1) + 1;
    for i in 0..count {
        write_sub_layer(w, i, x)?;
    }
    Ok(())
}

/// Rows 10 to 16 of table 3, for one sub-layer.
#[tactic(auto, using(crate::proofs::HrdKeeps::bounds))]
fn write_sub_layer(w: &mut BitWriter, i: usize, x: &HrdParams) -> Result<(), AllocError>
    requires { i < 7 }
    ensures { OnOk result (WritesTurn table.sub_layer
        (own.same_sub_layers (plain_hrd_params x.now)) i w.old w.new) }
{
    let within = x.fixed_pic_rate_within_cvs_flag[i];
    let low_delay = x.low_delay_hrd_flag[i];
    let by_units = x.sub_pic_hrd_params_present_flag;
    let count = x.cpb_cnt_minus1[i];
    flag(w, x.fixed_pic_rate_general_flag[i])?; // Row(3, 10)
    flag_if(w, !x.fixed_pic_rate_general_flag[i], within)?; // Row(3, 11)
    ue_if(w, within, x.elemental_duration_in_tc_minus1[i])?; // Row(3, 12)
    flag_if(w, !within, low_delay)?; // Row(3, 13)
    ue_if(w, !low_delay, count)?; // Row(3, 14)
    write_schedules_if(
        w,
        x.nal_hrd_parameters_present_flag,
        by_units,
        count,
        &x.nal_hrd[i],
    )?; // Row(3, 15)
    write_schedules_if(
        w,
        x.vcl_hrd_parameters_present_flag,
        by_units,
        count,
        &x.vcl_hrd[i],
    )?; // Row(3, 16)
    Ok(())
}
