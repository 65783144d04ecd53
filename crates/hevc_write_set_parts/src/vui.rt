//! Video usability information (E.2.1, table 8).
ghost use Rattle.std.specs.Prelude.{◌≤◌, OnOk};
ghost use Rattle.hevc_tables.specs.VuiTable as table;
ghost use Rattle.hevc_video_set.specs.VuiParams.{plain_vui_params};
ghost use Rattle.hevc_write_set_parts.specs.VuiParts as own;
ghost use Rattle.hevc_write_elements.specs.Filling.{Writes, WritesIf, WritesTable};

use crate::hrd::write_hrd_parameters;
use hevc_bit_writer::BitWriter;
use hevc_video_set::VuiParams;
use hevc_write_elements::rows::{bits, bits_if, bits_u8, flag, flag_if, ue, ue_if};
use std::alloc::AllocError;

/// Table 8, of a set of so many sub-layers.
pub fn write_vui_parameters(
    w: &mut BitWriter,
    max_sub_layers_minus1: u8,
    x: &VuiParams,
) -> Result<(), AllocError>
    requires { max_sub_layers_minus1 ≤ 6 }
    ensures { OnOk result (WritesTable (table.vui_parameters max_sub_layers_minus1)
        (plain_vui_params x.now) w.old w.new) }
{
    write_aspect_ratio(w, x)?;
    write_overscan(w, x)?;
    write_signal_type(w, x)?;
    write_chroma_places(w, x)?;
    write_display(w, x)?;
    write_timing_info(w, max_sub_layers_minus1, x)?;
    write_stream_restrictions(w, x)?;
    Ok(())
}

/// Rows 1 to 3 of table 8.
fn write_aspect_ratio(w: &mut BitWriter, x: &VuiParams) -> Result<(), AllocError>
    ensures { OnOk result
        (Writes table.aspect_ratio own.aspect_ratio_of (plain_vui_params x.now) w.old w.new) }
{
    flag(w, x.aspect_ratio_info_present_flag)?; // Row(8, 1)
    bits_if(w, x.aspect_ratio_info_present_flag, 8, x.aspect_ratio_idc)?; // Row(8, 2)
    bits_if(w, x.aspect_ratio_idc == 255, 16, x.sar_width)?; // Row(8, 3)
    bits_if(w, x.aspect_ratio_idc == 255, 16, x.sar_height)?; // Row(8, 3)
    Ok(())
}

/// Rows 4 and 5 of table 8.
fn write_overscan(w: &mut BitWriter, x: &VuiParams) -> Result<(), AllocError>
    ensures { OnOk result
        (Writes table.overscan own.overscan_of (plain_vui_params x.now) w.old w.new) }
{
    flag(w, x.overscan_info_present_flag)?; // Row(8, 4)
    flag_if(w, x.overscan_info_present_flag, x.overscan_appropriate_flag)?; // Row(8, 5)
    Ok(())
}

/// Row 9 of table 8, where it is present.
fn write_colours_if(w: &mut BitWriter, present: bool, x: &VuiParams) -> Result<(), AllocError>
    ensures { OnOk result (WritesIf present
        (Writes table.colours own.colours_of (plain_vui_params x.now)) w.old w.new) }
{
    if !present {
        return Ok(());
    }
    bits(w, 8, x.colour_primaries)?; // Row(8, 9)
    bits(w, 8, x.transfer_characteristics)?; // Row(8, 9)
    bits(w, 8, x.matrix_coeffs)?; // Row(8, 9)
    Ok(())
}

/// Rows 7 to 9 of table 8, where they are present.
fn write_signal_if(w: &mut BitWriter, present: bool, x: &VuiParams) -> Result<(), AllocError>
    ensures { OnOk result (WritesIf present
        (Writes table.signal own.signal_of (plain_vui_params x.now)) w.old w.new) }
{
    if !present {
        return Ok(());
    }
    bits_u8(w, 3, x.video_format)?; // Row(8, 7)
    flag(w, x.video_full_range_flag)?; // Row(8, 8)
    flag(w, x.colour_description_present_flag)?; // Row(8, 8)
    write_colours_if(w, x.colour_description_present_flag, x)?;
    Ok(())
}

/// Rows 6 to 9 of table 8.
fn write_signal_type(w: &mut BitWriter, x: &VuiParams) -> Result<(), AllocError>
    ensures { OnOk result
        (Writes table.signal_type own.signal_type_of (plain_vui_params x.now) w.old w.new) }
{
    flag(w, x.video_signal_type_present_flag)?; // Row(8, 6)
    write_signal_if(w, x.video_signal_type_present_flag, x)?;
    Ok(())
}

/// Rows 10 to 12 of table 8.
fn write_chroma_places(w: &mut BitWriter, x: &VuiParams) -> Result<(), AllocError>
    ensures { OnOk result
        (Writes table.chroma_places own.chroma_places_of (plain_vui_params x.now) w.old w.new) }
{
    flag(w, x.chroma_loc_info_present_flag)?; // Row(8, 10)
    ue_if(
        w,
        x.chroma_loc_info_present_flag,
        x.chroma_sample_loc_type_top_field,
    )?; // Row(8, 11)
    ue_if(
        w,
        x.chroma_loc_info_present_flag,
        x.chroma_sample_loc_type_bottom_field,
    )?; // Row(8, 12)
    Ok(())
}

/// Row 14 of table 8, where it is present.
fn write_display_window_if(
    w: &mut BitWriter,
    present: bool,
    x: &VuiParams,
) -> Result<(), AllocError>
    ensures { OnOk result (WritesIf present
        (Writes table.display_window own.display_window_of (plain_vui_params x.now)) w.old w.new) }
{
    if !present {
        return Ok(());
    }
    ue(w, x.def_disp_win_left_offset)?; // Row(8, 14)
    ue(w, x.def_disp_win_right_offset)?; // Row(8, 14)
    ue(w, x.def_disp_win_top_offset)?; // Row(8, 14)
    ue(w, x.def_disp_win_bottom_offset)?; // Row(8, 14)
    Ok(())
}

/// Rows 13 and 14 of table 8.
fn write_display(w: &mut BitWriter, x: &VuiParams) -> Result<(), AllocError>
    ensures { OnOk result
        (Writes table.display own.display_of (plain_vui_params x.now) w.old w.new) }
{
    flag(w, x.neutral_chroma_indication_flag)?; // Row(8, 13)
    flag(w, x.field_seq_flag)?; // Row(8, 13)
    flag(w, x.frame_field_info_present_flag)?; // Row(8, 13)
    flag(w, x.default_display_window_flag)?; // Row(8, 13)
    write_display_window_if(w, x.default_display_window_flag, x)?;
    Ok(())
}

/// Row 20 of table 8, where it is present.
fn write_hrd_if(
    w: &mut BitWriter,
    present: bool,
    max_sub_layers_minus1: u8,
    x: &VuiParams,
) -> Result<(), AllocError>
    requires { max_sub_layers_minus1 ≤ 6 }
    ensures { OnOk result (WritesIf present
        (Writes (table.hrd max_sub_layers_minus1) own.hrd_of (plain_vui_params x.now))
        w.old w.new) }
{
    if !present {
        return Ok(());
    }
    write_hrd_parameters(w, true, max_sub_layers_minus1, &x.hrd)?; // Row(8, 20)
    Ok(())
}

/// Rows 16 to 20 of table 8, where they are present.
fn write_timing_if(
    w: &mut BitWriter,
    present: bool,
    max_sub_layers_minus1: u8,
    x: &VuiParams,
) -> Result<(), AllocError>
    requires { max_sub_layers_minus1 ≤ 6 }
    ensures { OnOk result (WritesIf present
        (Writes (table.timing max_sub_layers_minus1) own.timing_of (plain_vui_params x.now))
        w.old w.new) }
{
    if !present {
        return Ok(());
    }
    bits(w, 32, x.num_units_in_tick)?; // Row(8, 16)
    bits(w, 32, x.time_scale)?; // Row(8, 16)
    flag(w, x.poc_proportional_to_timing_flag)?; // Row(8, 17)
    ue_if(
        w,
        x.poc_proportional_to_timing_flag,
        x.num_ticks_poc_diff_one_minus1,
    )?; // Row(8, 18)
    flag(w, x.hrd_parameters_present_flag)?; // Row(8, 19)
    write_hrd_if(w, x.hrd_parameters_present_flag, max_sub_layers_minus1, x)?;
    Ok(())
}

/// Rows 15 to 20 of table 8.
fn write_timing_info(
    w: &mut BitWriter,
    max_sub_layers_minus1: u8,
    x: &VuiParams,
) -> Result<(), AllocError>
    requires { max_sub_layers_minus1 ≤ 6 }
    ensures { OnOk result
        (Writes (table.timing_info max_sub_layers_minus1) own.timing_info_of
        (plain_vui_params x.now) w.old w.new) }
{
    flag(w, x.timing_info_present_flag)?; // Row(8, 15)
    write_timing_if(w, x.timing_info_present_flag, max_sub_layers_minus1, x)?;
    Ok(())
}

/// Rows 22 to 26 of table 8, where they are present.
fn write_restrictions_if(w: &mut BitWriter, present: bool, x: &VuiParams) -> Result<(), AllocError>
    ensures { OnOk result (WritesIf present
        (Writes table.restrictions own.restrictions_of (plain_vui_params x.now)) w.old w.new) }
{
    if !present {
        return Ok(());
    }
    flag(w, x.tiles_fixed_structure_flag)?; // Row(8, 22)
    flag(w, x.motion_vectors_over_pic_boundaries_flag)?; // Row(8, 22)
    flag(w, x.restricted_ref_pic_lists_flag)?; // Row(8, 22)
    ue(w, x.min_spatial_segmentation_idc)?; // Row(8, 23)
    ue(w, x.max_bytes_per_pic_denom)?; // Row(8, 24)
    ue(w, x.max_bits_per_min_cu_denom)?; // Row(8, 24)
    ue(w, x.log2_max_mv_length_horizontal)?; // Row(8, 25)
    ue(w, x.log2_max_mv_length_vertical)?; // Row(8, 26)
    Ok(())
}

/// Rows 21 to 26 of table 8.
fn write_stream_restrictions(w: &mut BitWriter, x: &VuiParams) -> Result<(), AllocError>
    ensures { OnOk result
        (Writes table.stream_restrictions own.stream_restrictions_of (plain_vui_params x.now)
        w.old w.new) }
{
    flag(w, x.bitstream_restriction_flag)?; // Row(8, 21)
    write_restrictions_if(w, x.bitstream_restriction_flag, x)?;
    Ok(())
}
