//! The numbers of buffering, reordering and latency (7.3.2.2.1, rows 16 to 19 of table 5).
ghost use Rattle.std.specs.Prelude.{◌<◌, length, slice_index, OnOk};
ghost use Rattle.hevc_tables.specs.SpsTable as table;
ghost use Rattle.hevc_sequence_set.specs.Sps.{plain_sps};
ghost use Rattle.hevc_write_sps.specs.SpsParts as own;
ghost use Rattle.hevc_write_elements.specs.Filling.{Writes, WritesEither, WritesTurn, WritesUe};

use hevc_bit_writer::BitWriter;
use hevc_sequence_set::Sps;
use hevc_write_elements::rows::{flag, ue_u8};
use std::alloc::AllocError;

/// Rows 16 to 19 of table 5.
pub(crate) fn write_orderings(w: &mut BitWriter, x: &Sps) -> Result<(), AllocError>
    ensures { OnOk result (Writes table.orderings
        own.orderings_with_inputs_of (plain_sps x.now) w.old w.new) }
{
    flag(w, x.sub_layer_ordering_info_present_flag)?; // Row(5, 16)
    write_own_orderings_or_common_ordering(w, x)?;
    Ok(())
}

/// Rows 17 to 19 of table 5, of each sub-layer or of the highest.
fn write_own_orderings_or_common_ordering(w: &mut BitWriter, x: &Sps) -> Result<(), AllocError>
    ensures { OnOk result (WritesEither x.now.sub_layer_ordering_info_present_flag
        (Writes table.own_orderings own.own_orderings_with_inputs_of (plain_sps x.now))
        (Writes table.common_ordering own.own_orderings_with_inputs_of (plain_sps x.now))
        w.old w.new) }
{
    if x.sub_layer_ordering_info_present_flag {
        write_own_orderings(w, x)
    } else {
        write_common_ordering(w, x)
    }
}

/// Rows 17 to 19 of table 5, for each sub-layer.
#[tactic(auto, using(hevc_write_elements::proofs::Loops::turns, crate::proofs::SpsKeeps::orderings_written))]
fn write_own_orderings(w: &mut BitWriter, x: &Sps) -> Result<(), AllocError>
    ensures { OnOk result (Writes table.own_orderings
        own.own_orderings_with_inputs_of (plain_sps x.now) w.old w.new) }
{
    for i in 0..usize::from(x.max_sub_layers_minus1) + 1 {
        write_own_ordering(w, i, x)?;
    }
    Ok(())
}

/// Rows 17 to 19 of table 5, for one sub-layer.
fn write_own_ordering(w: &mut BitWriter, i: usize, x: &Sps) -> Result<(), AllocError>
    requires { i < 7 }
    ensures { OnOk result (WritesTurn table.own_ordering
        (own.same_orderings (plain_sps x.now)) i w.old w.new) }
{
    write_number(w, i, &x.max_dec_pic_buffering_minus1)?; // Row(5, 17)
    write_number(w, i, &x.max_num_reorder_pics)?; // Row(5, 18)
    write_number(w, i, &x.max_latency_increase_plus1)?; // Row(5, 19)
    Ok(())
}

/// The number of one sub-layer.
fn write_number(w: &mut BitWriter, i: usize, numbers: &[u8; 7]) -> Result<(), AllocError>
    requires { i < 7 }
    ensures { OnOk result ((i < length numbers.now)
        × WritesUe (slice_index numbers.now i) w.old w.new) }
{
    ue_u8(w, numbers[i])
}

/// Rows 17 to 19 of table 5, for the highest sub-layer, which hold for all.
fn write_common_ordering(w: &mut BitWriter, x: &Sps) -> Result<(), AllocError>
    ensures { OnOk result (Writes table.common_ordering
        own.own_orderings_with_inputs_of (plain_sps x.now) w.old w.new) }
{
    let highest = usize::from(x.max_sub_layers_minus1);
    write_number(w, highest, &x.max_dec_pic_buffering_minus1)?; // Row(5, 17)
    write_number(w, highest, &x.max_num_reorder_pics)?; // Row(5, 18)
    write_number(w, highest, &x.max_latency_increase_plus1)?; // Row(5, 19)
    Ok(())
}
