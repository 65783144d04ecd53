//! The screen content coding extension (7.3.2.2.3, table 10).
ghost use Rattle.std.specs.Prelude.{◌≡◌, ◌≤◌, ◌<◌, length, slice_index, OnOk};
ghost use Rattle.hevc_tables.specs.SpsSccExtensionTable as table;
ghost use Rattle.hevc_tables.specs.SpsTable.{sample_format};
ghost use Rattle.hevc_sequence_set.specs.Sps.{plain_sps};
ghost use Rattle.hevc_sequence_set.specs.SpsSccExtension.{plain_sps_scc_extension};
ghost use Rattle.hevc_write_extensions.specs.SpsSccExtensionParts as own;
ghost use Rattle.hevc_write_elements.specs.Filling.{Writes, WritesBits, WritesIf, WritesTable};

use crate::bit_depth::bit_depth;
use hevc_bit_writer::BitWriter;
use hevc_sequence_set::{Sps, SpsSccExtension};
use hevc_write_elements::rows::{bits, bits_u8, flag, ue_u8};
use std::alloc::AllocError;

/// Table 10, of a sequence set.
pub fn write_sps_scc_extension(w: &mut BitWriter, sps: &Sps) -> Result<(), AllocError>
    ensures { OnOk result (WritesTable
        (table.sps_scc_extension (sample_format (plain_sps sps.now)))
        (plain_sps_scc_extension sps.now.scc_extension) w.old w.new) }
{
    let x = &sps.scc_extension;
    flag(w, x.curr_pic_ref_enabled_flag)?; // Row(10, 1)
    flag(w, x.palette_mode_enabled_flag)?; // Row(10, 1)
    write_palettes_if(w, x.palette_mode_enabled_flag, sps)?;
    bits_u8(w, 2, x.motion_vector_resolution_control_idc)?; // Row(10, 7)
    flag(w, x.intra_boundary_filtering_disabled_flag)?; // Row(10, 8)
    Ok(())
}

/// Rows 2 to 6 of table 10, where they are present.
fn write_palettes_if(w: &mut BitWriter, present: bool, sps: &Sps) -> Result<(), AllocError>
    ensures { OnOk result (WritesIf present
        (Writes (table.palettes (sample_format (plain_sps sps.now))) own.palettes_of
        (plain_sps_scc_extension sps.now.scc_extension)) w.old w.new) }
{
    if present {
        write_palettes(w, sps)
    } else {
        Ok(())
    }
}

/// Rows 2 to 6 of table 10.
fn write_palettes(w: &mut BitWriter, sps: &Sps) -> Result<(), AllocError>
    ensures { OnOk result
        (Writes (table.palettes (sample_format (plain_sps sps.now))) own.palettes_of
        (plain_sps_scc_extension sps.now.scc_extension) w.old w.new) }
{
    let x = &sps.scc_extension;
    ue_u8(w, x.palette_max_size)?; // Row(10, 2)
    ue_u8(w, x.delta_palette_max_predictor_size)?; // Row(10, 3)
    flag(w, x.palette_predictor_initializers_present_flag)?; // Row(10, 4)
    write_initializers_if(w, x.palette_predictor_initializers_present_flag, sps)?;
    Ok(())
}

/// Rows 5 and 6 of table 10, where they are present.
fn write_initializers_if(w: &mut BitWriter, present: bool, sps: &Sps) -> Result<(), AllocError>
    ensures { OnOk result (WritesIf present
        (Writes (table.initializers (sample_format (plain_sps sps.now))) own.palettes_of
        (plain_sps_scc_extension sps.now.scc_extension)) w.old w.new) }
{
    if present {
        write_initializers(w, sps)
    } else {
        Ok(())
    }
}

/// Rows 5 and 6 of table 10. No table has more than 128 predictors.
fn write_initializers(w: &mut BitWriter, sps: &Sps) -> Result<(), AllocError>
    ensures { OnOk result
        (Writes (table.initializers (sample_format (plain_sps sps.now))) own.palettes_of
        (plain_sps_scc_extension sps.now.scc_extension) w.old w.new) }
{
    let last = sps.scc_extension.num_palette_predictor_initializer_minus1;
    ue_u8(w, last)?; // Row(10, 5)
    write_predictors(w, usize::from(last.min(127)) + 1, sps, &sps.scc_extension)?;
    Ok(())
}

/// Row 6 of table 10.
fn write_predictors(
    w: &mut BitWriter,
    count: usize,
    sps: &Sps,
    x: &SpsSccExtension,
) -> Result<(), AllocError>
    requires { count ≤ 128 }
    ensures { OnOk result
        (Writes (table.predictors (sample_format (plain_sps sps.now)) count) own.all_predictors_of
        (plain_sps_scc_extension x.now) w.old w.new) }
{
    for component in 0..num_components(sps) {
        write_component(w, sps, count, component, x)?;
    }
    Ok(())
}

/// The components that have predictors.
fn num_components(sps: &Sps) -> usize
    ensures value { result ≡ table.num_components (sample_format (plain_sps sps.now)) }
    ensures small { result ≤ 3 }
{
    if sps.chroma_format_idc == 0 { 1 } else { 3 }
}

/// Row 6 of table 10, for one component.
fn write_component(
    w: &mut BitWriter,
    sps: &Sps,
    count: usize,
    component: usize,
    x: &SpsSccExtension,
) -> Result<(), AllocError>
    requires many { count ≤ 128 }
    requires there { component < 3 }
    ensures there { component < length x.now.palette_predictor_initializer }
    ensures written { OnOk result (Writes
        (table.component_predictors (sample_format (plain_sps sps.now)) count component)
        (own.component_predictors_of component)
        (plain_sps_scc_extension x.now) w.old w.new) }
{
    let depth = bit_depth(sps, component);
    let list = &x.palette_predictor_initializer[component];
    for i in 0..count {
        write_predictor(w, depth, i, list)?;
    }
    Ok(())
}

/// Row 6 of table 10, for one predictor of a component's list.
fn write_predictor(
    w: &mut BitWriter,
    depth: u32,
    i: usize,
    list: &[u32; 128],
) -> Result<(), AllocError>
    requires depth { depth ≤ 14 }
    requires there { i < 128 }
    ensures { OnOk result ((i < length list.now)
        × WritesBits depth (slice_index list.now i) w.old w.new) }
{
    bits(w, depth, list[i]) // Row(10, 6)
}
