//! The schedules of delivery of a sub-layer (E.2.3, table 4).
ghost use Rattle.std.specs.Prelude.{◌≤◌, ◌<◌, OnOk};
ghost use Rattle.hevc_tables.specs.HrdTable as table;
ghost use Rattle.hevc_video_set.specs.SublayerHrdParameters.{plain_sublayer_hrd_parameters};
ghost use Rattle.hevc_write_set_parts.specs.HrdParts.{same_schedules};
ghost use Rattle.hevc_write_elements.specs.Filling.{WritesIf, WritesTable, WritesTurn};

use hevc_bit_writer::BitWriter;
use hevc_video_set::SublayerHrdParameters;
use hevc_write_elements::rows::{flag, ue, ue_if};
use std::alloc::AllocError;

/// Table 4, where it is present.
pub(crate) fn write_schedules_if(
    w: &mut BitWriter,
    present: bool,
    by_units: bool,
    cpb_cnt_minus1: u32,
    x: &SublayerHrdParameters,
) -> Result<(), AllocError>
    requires { cpb_cnt_minus1 ≤ 31 }
    ensures { OnOk result (WritesIf present
        (WritesTable (table.sub_layer_hrd_parameters by_units cpb_cnt_minus1)
        (plain_sublayer_hrd_parameters x.now)) w.old w.new) }
{
    if present {
        write_schedules(w, by_units, cpb_cnt_minus1, x)
    } else {
        Ok(())
    }
}

/// Table 4: the schedules of decoding units are there where `by_units`.
#[tactic(auto, using(hevc_write_elements::proofs::Loops::turns, crate::proofs::HrdKeeps::schedules_written))]
fn write_schedules(
    w: &mut BitWriter,
    by_units: bool,
    cpb_cnt_minus1: u32,
    x: &SublayerHrdParameters,
) -> Result<(), AllocError>
    requires { cpb_cnt_minus1 ≤ 31 }
    ensures { OnOk result (WritesTable (table.sub_layer_hrd_parameters by_units cpb_cnt_minus1)
        (plain_sublayer_hrd_parameters x.now) w.old w.new) }
{
    let count = cpb_cnt_minus1 as usize + 1;
    for i in 0..count {
        write_schedule(w, by_units, i, x)?;
    }
    Ok(())
}

/// Rows 1 to 3 of table 4, for one schedule.
fn write_schedule(
    w: &mut BitWriter,
    by_units: bool,
    i: usize,
    x: &SublayerHrdParameters,
) -> Result<(), AllocError>
    requires { i < 32 }
    ensures { OnOk result (WritesTurn (table.schedule by_units)
        (same_schedules (plain_sublayer_hrd_parameters x.now)) i w.old w.new) }
{
    ue(w, x.bit_rate_value_minus1[i])?; // Row(4, 1)
    ue(w, x.cpb_size_value_minus1[i])?; // Row(4, 1)
    ue_if(w, by_units, x.cpb_size_du_value_minus1[i])?; // Row(4, 2)
    ue_if(w, by_units, x.bit_rate_du_value_minus1[i])?; // Row(4, 2)
    flag(w, x.cbr_flag[i])?; // Row(4, 3)
    Ok(())
}
