//! How pictures are coded (7.3.2.2.1, rows 25 to 34, 41 and 42 of table 5).
ghost use Rattle.std.specs.Prelude.{OnOk};
ghost use Rattle.hevc_tables.specs.SpsTable as table;
ghost use Rattle.hevc_sequence_set.specs.Sps.{plain_sps};
ghost use Rattle.hevc_write_sps.specs.SpsParts as own;
ghost use Rattle.hevc_write_elements.specs.Filling.{Writes, WritesIf};

use hevc_bit_writer::BitWriter;
use hevc_sequence_set::Sps;
use hevc_write_elements::rows::{bits_u8, flag, flag_if, ue_u8};
use hevc_write_scaling::write_scaling_list_data;
use hevc_write_set_parts::write_vui_parameters;
use std::alloc::AllocError;

/// Rows 25 to 29 of table 5.
pub(crate) fn write_scaling(w: &mut BitWriter, x: &Sps) -> Result<(), AllocError>
    ensures { OnOk result (Writes table.scaling
        own.scaling_of (plain_sps x.now) w.old w.new) }
{
    ue_u8(w, x.max_transform_hierarchy_depth_inter)?; // Row(5, 25)
    ue_u8(w, x.max_transform_hierarchy_depth_intra)?; // Row(5, 26)
    flag(w, x.scaling_list_enabled_flag)?; // Row(5, 27)
    flag_if(
        w,
        x.scaling_list_enabled_flag,
        x.scaling_list_data_present_flag,
    )?; // Row(5, 28)
    write_scaling_lists_if(w, x.scaling_list_data_present_flag, x)?;
    Ok(())
}

/// Row 29 of table 5, where it is present.
fn write_scaling_lists_if(w: &mut BitWriter, present: bool, x: &Sps) -> Result<(), AllocError>
    ensures { OnOk result (WritesIf present
        (Writes table.scaling_lists own.scaling_lists_of (plain_sps x.now)) w.old w.new) }
{
    if !present {
        return Ok(());
    }
    write_scaling_list_data(w, &x.scaling_list)?; // Row(5, 29)
    Ok(())
}

/// Rows 30 to 34 of table 5.
pub(crate) fn write_tools(w: &mut BitWriter, x: &Sps) -> Result<(), AllocError>
    ensures { OnOk result (Writes table.tools
        own.tools_of (plain_sps x.now) w.old w.new) }
{
    flag(w, x.amp_enabled_flag)?; // Row(5, 30)
    flag(w, x.sample_adaptive_offset_enabled_flag)?; // Row(5, 30)
    flag(w, x.pcm_enabled_flag)?; // Row(5, 30)
    write_pulse_code_modulation_if(w, x.pcm_enabled_flag, x)?;
    Ok(())
}

/// Rows 31 to 34 of table 5, where they are present.
fn write_pulse_code_modulation_if(
    w: &mut BitWriter,
    present: bool,
    x: &Sps,
) -> Result<(), AllocError>
    ensures { OnOk result (WritesIf present
        (Writes table.pulse_code_modulation own.pulse_code_modulation_of (plain_sps x.now))
        w.old w.new) }
{
    if !present {
        return Ok(());
    }
    bits_u8(w, 4, x.pcm_sample_bit_depth_luma_minus1)?; // Row(5, 31)
    bits_u8(w, 4, x.pcm_sample_bit_depth_chroma_minus1)?; // Row(5, 31)
    ue_u8(w, x.log2_min_pcm_luma_coding_block_size_minus3)?; // Row(5, 32)
    ue_u8(w, x.log2_diff_max_min_pcm_luma_coding_block_size)?; // Row(5, 33)
    flag(w, x.pcm_loop_filter_disabled_flag)?; // Row(5, 34)
    Ok(())
}

/// Rows 41 and 42 of table 5.
pub(crate) fn write_usability(w: &mut BitWriter, x: &Sps) -> Result<(), AllocError>
    ensures { OnOk result (Writes table.usability
        own.usability_with_inputs_of (plain_sps x.now) w.old w.new) }
{
    flag(w, x.temporal_mvp_enabled_flag)?; // Row(5, 41)
    flag(w, x.strong_intra_smoothing_enabled_flag)?; // Row(5, 41)
    flag(w, x.vui_parameters_present_flag)?; // Row(5, 41)
    write_usability_information_if(w, x.vui_parameters_present_flag, x)?;
    Ok(())
}

/// Row 42 of table 5, where it is present.
fn write_usability_information_if(
    w: &mut BitWriter,
    present: bool,
    x: &Sps,
) -> Result<(), AllocError>
    ensures { OnOk result (WritesIf present
        (Writes table.usability_information own.usability_information_with_inputs_of
        (plain_sps x.now)) w.old w.new) }
{
    if !present {
        return Ok(());
    }
    write_vui_parameters(w, x.max_sub_layers_minus1, &x.vui_parameters)?; // Row(5, 42)
    Ok(())
}
