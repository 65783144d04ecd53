//! The screen content coding extension (7.3.2.3.3, table 13).
ghost use Rattle.std.specs.Prelude.{◌≡◌, ◌≤◌, ◌<◌, ◌&&◌, ◌==◌, not, nat_le, length, slice_index};
ghost use Rattle.std.specs.Prelude.{IsTrue, OnOk};
ghost use Rattle.hevc_tables.specs.PpsSccExtensionTable as table;
ghost use Rattle.hevc_tables.specs.PpsTable.{max_palette_predictors as most_predictors};
ghost use Rattle.hevc_tables.specs.SpsTable.{sample_format};
ghost use Rattle.hevc_set_parts.specs.PpsSccExtension.{plain_pps_scc_extension};
ghost use Rattle.hevc_sequence_set.specs.Sps.{plain_sps};
ghost use Rattle.hevc_write_extensions.specs.PpsSccExtensionParts as own;
ghost use Rattle.hevc_write_elements.specs.Filling.{Writes, WritesBits, WritesIf, WritesTable};

use crate::bit_depth::bit_depth;
use hevc_bit_writer::BitWriter;
use hevc_sequence_set::Sps;
use hevc_set_parts::PpsSccExtension;
use hevc_write_elements::rows::{bits, flag, se_i8, ue_u8, ue_u8_if};
use std::alloc::AllocError;

/// Table 13, for a set that names this sequence set.
pub fn write_pps_scc_extension(
    w: &mut BitWriter,
    sps: &Sps,
    x: &PpsSccExtension,
) -> Result<(), AllocError>
    ensures { OnOk result (WritesTable
        (table.pps_scc_extension (sample_format (plain_sps sps.now))
        (most_predictors (plain_sps sps.now))) (plain_pps_scc_extension x.now) w.old w.new) }
{
    flag(w, x.curr_pic_ref_enabled_flag)?; // Row(13, 1)
    flag(w, x.residual_adaptive_colour_transform_enabled_flag)?; // Row(13, 1)
    write_colour_transform_if(w, x.residual_adaptive_colour_transform_enabled_flag, x)?;
    flag(w, x.palette_predictor_initializers_present_flag)?; // Row(13, 6)
    write_palettes_if(w, x.palette_predictor_initializers_present_flag, sps, x)?;
    Ok(())
}

/// Rows 2 to 5 of table 13, where they are present.
fn write_colour_transform_if(
    w: &mut BitWriter,
    present: bool,
    x: &PpsSccExtension,
) -> Result<(), AllocError>
    ensures { OnOk result (WritesIf present
        (Writes table.colour_transform own.colour_transform_of (plain_pps_scc_extension x.now))
        w.old w.new) }
{
    if !present {
        return Ok(());
    }
    flag(w, x.slice_act_qp_offsets_present_flag)?; // Row(13, 2)
    se_i8(w, x.act_y_qp_offset_plus5)?; // Row(13, 3)
    se_i8(w, x.act_cb_qp_offset_plus5)?; // Row(13, 4)
    se_i8(w, x.act_cr_qp_offset_plus3)?; // Row(13, 5)
    Ok(())
}

/// Rows 7 to 11 of table 13, where they are present.
fn write_palettes_if(
    w: &mut BitWriter,
    present: bool,
    sps: &Sps,
    x: &PpsSccExtension,
) -> Result<(), AllocError>
    ensures { OnOk result (WritesIf present
        (Writes (table.palettes (sample_format (plain_sps sps.now))
        (most_predictors (plain_sps sps.now))) own.palettes_of (plain_pps_scc_extension x.now))
        w.old w.new) }
{
    if present {
        write_palettes(w, sps, x)
    } else {
        Ok(())
    }
}

/// Rows 7 to 11 of table 13. Of more than 128 predictors none are written: no table has so many.
fn write_palettes(w: &mut BitWriter, sps: &Sps, x: &PpsSccExtension) -> Result<(), AllocError>
    ensures { OnOk result
        (Writes (table.palettes (sample_format (plain_sps sps.now))
        (most_predictors (plain_sps sps.now))) own.palettes_of
        (plain_pps_scc_extension x.now) w.old w.new) }
{
    ue_u8(w, x.num_palette_predictor_initializers)?; // Row(13, 7)
    write_initializers_if(w, are_some(x.num_palette_predictor_initializers), sps, x)?;
    Ok(())
}

/// There are so many predictors, and some.
fn are_some(count: u8) -> bool
    ensures value { result ≡ (not (count == 0) && nat_le count 128) }
    ensures small { IsTrue result → count ≤ 128 }
{
    count != 0 && count <= 128
}

/// Rows 8 to 11 of table 13, where they are present.
fn write_initializers_if(
    w: &mut BitWriter,
    present: bool,
    sps: &Sps,
    x: &PpsSccExtension,
) -> Result<(), AllocError>
    requires { IsTrue present → x.now.num_palette_predictor_initializers ≤ 128 }
    ensures { OnOk result (WritesIf present
        (Writes (table.initializers (sample_format (plain_sps sps.now))) own.palettes_of
        (plain_pps_scc_extension x.now)) w.old w.new) }
{
    if present {
        write_initializers(w, sps, x)
    } else {
        Ok(())
    }
}

/// Rows 8 to 11 of table 13.
fn write_initializers(w: &mut BitWriter, sps: &Sps, x: &PpsSccExtension) -> Result<(), AllocError>
    requires { x.now.num_palette_predictor_initializers ≤ 128 }
    ensures { OnOk result
        (Writes (table.initializers (sample_format (plain_sps sps.now))) own.palettes_of
        (plain_pps_scc_extension x.now) w.old w.new) }
{
    flag(w, x.monochrome_palette_flag)?; // Row(13, 8)
    ue_u8(w, x.luma_bit_depth_entry_minus8)?; // Row(13, 9)
    ue_u8_if(
        w,
        !x.monochrome_palette_flag,
        x.chroma_bit_depth_entry_minus8,
    )?; // Row(13, 10)
    write_predictors(w, sps, x)?;
    Ok(())
}

/// Row 11 of table 13.
fn write_predictors(w: &mut BitWriter, sps: &Sps, x: &PpsSccExtension) -> Result<(), AllocError>
    requires { x.now.num_palette_predictor_initializers ≤ 128 }
    ensures { OnOk result
        (Writes (table.predictors (sample_format (plain_sps sps.now)))
        own.all_predictors_with_inputs_of (plain_pps_scc_extension x.now) w.old w.new) }
{
    let count = usize::from(x.num_palette_predictor_initializers);
    for component in 0..num_components(x) {
        write_component(w, sps, count, component, x)?;
    }
    Ok(())
}

/// The components that have predictors.
fn num_components(x: &PpsSccExtension) -> usize
    ensures value { result ≡ table.num_components (plain_pps_scc_extension x.now) }
    ensures small { result ≤ 3 }
{
    if x.monochrome_palette_flag { 1 } else { 3 }
}

/// Row 11 of table 13, for one component.
fn write_component(
    w: &mut BitWriter,
    sps: &Sps,
    count: usize,
    component: usize,
    x: &PpsSccExtension,
) -> Result<(), AllocError>
    requires many { count ≤ 128 }
    requires there { component < 3 }
    ensures { OnOk result (Writes
        (table.component_predictors (sample_format (plain_sps sps.now)) count component)
        (own.component_predictors_of component) (plain_pps_scc_extension x.now) w.old w.new) }
{
    let depth = bit_depth(sps, component);
    let list = &x.palette_predictor_initializer[component];
    for i in 0..count {
        write_predictor(w, depth, i, list)?;
    }
    Ok(())
}

/// Row 11 of table 13, for one predictor of a component's list.
fn write_predictor(
    w: &mut BitWriter,
    depth: u32,
    i: usize,
    list: &[u16; 128],
) -> Result<(), AllocError>
    requires depth { depth ≤ 14 }
    requires there { i < 128 }
    ensures { OnOk result ((i < length list.now)
        × WritesBits depth (slice_index list.now i) w.old w.new) }
{
    bits(w, depth, u32::from(list[i])) // Row(13, 11)
}
