//! The clock, and the parameters of hypothetical reference decoders (7.3.2.1, rows 17 to 24 of
//! table 1).
ghost use Rattle.std.specs.Prelude.{◌≡◌, ◌<◌, false, true, ◌==◌, if◌then◌else◌, length};
ghost use Rattle.std.specs.Prelude.{slice_index_or, OnOk};
ghost use Rattle.hevc_tables.specs.VpsTable as table;
ghost use Rattle.hevc_video_set.specs.Vps.{plain_vps};
ghost use Rattle.hevc_write_vps.specs.VpsParts as own;
ghost use Rattle.hevc_write_elements.specs.Filling.{Writes, WritesIf, WritesTurn};

use hevc_bit_writer::BitWriter;
use hevc_video_set::Vps;
use hevc_write_elements::rows::{bits, flag, flag_if, ue, ue_if, ue_u16};
use hevc_write_set_parts::write_hrd_parameters;
use std::alloc::AllocError;

/// Rows 17 to 24 of table 1.
pub(crate) fn write_timing_info(w: &mut BitWriter, x: &Vps) -> Result<(), AllocError>
    ensures { OnOk result (Writes own.timing_info_rows
        own.timing_info_with_inputs_of (plain_vps x.now) w.old w.new) }
{
    flag(w, x.timing_info_present_flag)?; // Row(1, 17)
    write_timing_if(w, x.timing_info_present_flag, x)?;
    Ok(())
}

/// Rows 18 to 24 of table 1, where they are present.
fn write_timing_if(w: &mut BitWriter, present: bool, x: &Vps) -> Result<(), AllocError>
    ensures { OnOk result (WritesIf present
        (Writes own.timing_rows own.timing_with_inputs_of (plain_vps x.now)) w.old w.new) }
{
    if !present {
        return Ok(());
    }
    bits(w, 32, x.num_units_in_tick)?; // Row(1, 18)
    bits(w, 32, x.time_scale)?; // Row(1, 18)
    flag(w, x.poc_proportional_to_timing_flag)?; // Row(1, 19)
    ue_if(
        w,
        x.poc_proportional_to_timing_flag,
        x.num_ticks_poc_diff_one_minus1,
    )?; // Row(1, 20)
    ue(w, x.num_hrd_parameters)?; // Row(1, 21)
    write_structures(w, x)?;
    Ok(())
}

/// Rows 22 to 24 of table 1, for each structure.
fn write_structures(w: &mut BitWriter, x: &Vps) -> Result<(), AllocError>
    ensures { OnOk result (Writes own.structures_rows
        own.structures_with_inputs_of (plain_vps x.now) w.old w.new) }
{
    for i in 0..x.hrd_parameters.as_slice().len() {
        write_structure(w, i, x)?;
    }
    Ok(())
}

/// Rows 22 to 24 of table 1, for one structure.
fn write_structure(w: &mut BitWriter, i: usize, x: &Vps) -> Result<(), AllocError>
    requires { i < length x.now.hrd_parameters }
    ensures { OnOk result (WritesTurn table.structure
        (own.SameStructures (plain_vps x.now)) i w.old w.new) }
{
    let common = has_common(i, x.cprms_present_flag.as_slice());
    ue_u16(w, layer_set(i, x.hrd_layer_set_idx.as_slice()))?; // Row(1, 22)
    flag_if(w, i != 0, common)?; // Row(1, 23)
    write_hrd_parameters(
        w,
        common,
        x.max_sub_layers_minus1,
        &x.hrd_parameters.as_slice()[i],
    )?; // Row(1, 24)
    Ok(())
}

/// Whether a structure has the elements that all sub-layers have in common, as the first one does.
fn has_common(i: usize, flags: &[bool]) -> bool
    ensures { result ≡ (if i == 0 then true else slice_index_or flags.now i false) }
{
    i == 0 || flags.get(i).copied().unwrap_or(false)
}

/// The layer set of a structure, if there is one.
fn layer_set(i: usize, layer_sets: &[u16]) -> u16
    ensures { result ≡ slice_index_or layer_sets.now i 0 }
{
    layer_sets.get(i).copied().unwrap_or(0)
}
