//! The numbers of buffering, reordering and latency (7.3.2.1, rows 8 to 13 of table 1).
ghost use Rattle.std.specs.Prelude.{◌<◌, length, slice_index, OnOk};
ghost use Rattle.hevc_tables.specs.VpsTable as table;
ghost use Rattle.hevc_video_set.specs.Vps.{plain_vps};
ghost use Rattle.hevc_write_vps.specs.VpsParts as own;
ghost use Rattle.hevc_write_elements.specs.Filling.{Writes, WritesEither, WritesTurn, WritesUe};

use hevc_bit_writer::BitWriter;
use hevc_video_set::Vps;
use hevc_write_elements::rows::{flag, ue};
use std::alloc::AllocError;

/// Rows 8 to 13 of table 1.
pub(crate) fn write_orderings(w: &mut BitWriter, x: &Vps) -> Result<(), AllocError>
    ensures { OnOk result (Writes table.orderings
        own.orderings_with_inputs_of (plain_vps x.now) w.old w.new) }
{
    flag(w, x.sub_layer_ordering_info_present_flag)?; // Row(1, 8)
    write_own_orderings_or_common_ordering(w, x)?;
    Ok(())
}

/// Rows 9 to 13 of table 1, of each sub-layer or of the highest.
fn write_own_orderings_or_common_ordering(w: &mut BitWriter, x: &Vps) -> Result<(), AllocError>
    ensures { OnOk result (WritesEither x.now.sub_layer_ordering_info_present_flag
        (Writes table.own_orderings own.own_orderings_with_inputs_of (plain_vps x.now))
        (Writes table.common_ordering own.own_orderings_with_inputs_of (plain_vps x.now))
        w.old w.new) }
{
    if x.sub_layer_ordering_info_present_flag {
        write_own_orderings(w, x)
    } else {
        write_common_ordering(w, x)
    }
}

/// Rows 9 to 13 of table 1, for each sub-layer.
#[tactic(auto, using(hevc_write_elements::proofs::Loops::turns, crate::proofs::VpsKeeps::orderings_written))]
fn write_own_orderings(w: &mut BitWriter, x: &Vps) -> Result<(), AllocError>
    ensures { OnOk result (Writes table.own_orderings
        own.own_orderings_with_inputs_of (plain_vps x.now) w.old w.new) }
{
    for i in 0..usize::from(x.max_sub_layers_minus1) + 1 {
        write_own_ordering(w, i, x)?;
    }
    Ok(())
}

/// Rows 9 to 13 of table 1, for one sub-layer.
fn write_own_ordering(w: &mut BitWriter, i: usize, x: &Vps) -> Result<(), AllocError>
    requires { i < 7 }
    ensures { OnOk result (WritesTurn table.own_ordering
        (own.same_orderings (plain_vps x.now)) i w.old w.new) }
{
    write_number(w, i, &x.max_dec_pic_buffering_minus1)?; // Row(1, 9)
    write_number(w, i, &x.max_num_reorder_pics)?; // Row(1, 10)
    write_number(w, i, &x.max_latency_increase_plus1)?; // Row(1, 11)
    Ok(())
}

/// The number of one sub-layer.
fn write_number(w: &mut BitWriter, i: usize, numbers: &[u32; 7]) -> Result<(), AllocError>
    requires { i < 7 }
    ensures { OnOk result ((i < length numbers.now)
        × WritesUe (slice_index numbers.now i) w.old w.new) }
{
    ue(w, numbers[i])
}

/// Rows 9 to 13 of table 1, for the highest sub-layer, which hold for all.
fn write_common_ordering(w: &mut BitWriter, x: &Vps) -> Result<(), AllocError>
    ensures { OnOk result (Writes table.common_ordering
        own.own_orderings_with_inputs_of (plain_vps x.now) w.old w.new) }
{
    let highest = usize::from(x.max_sub_layers_minus1);
    write_number(w, highest, &x.max_dec_pic_buffering_minus1)?; // Row(1, 9)
    write_number(w, highest, &x.max_num_reorder_pics)?; // Row(1, 10)
    write_number(w, highest, &x.max_latency_increase_plus1)?; // Row(1, 11)
    Ok(())
}
