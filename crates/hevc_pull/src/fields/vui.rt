//! Video usability information.
ghost use Rattle.std.specs.Prelude.{◌≡◌};
ghost use Rattle.hevc_video_set.specs.VuiParams.{plain_vui_params};
ghost use Rattle.hevc_pull.specs.Fields.Vui.{fields_of_vui, vui_flags};

use hevc_events::flag_bits;
use hevc_video_set::VuiParams;

/// Video usability information (E.2.1), by the names of H.265. What is absent has the value that
/// H.265 infers, or 0.
#[repr(C)]
#[derive(Clone, Copy)]
pub struct VuiFields {
    pub aspect_ratio_idc: u32,
    pub sar_width: u32,
    pub sar_height: u32,
    pub video_format: u32,
    pub colour_primaries: u32,
    pub transfer_characteristics: u32,
    pub matrix_coeffs: u32,
    pub chroma_sample_loc_type_top_field: u32,
    pub chroma_sample_loc_type_bottom_field: u32,
    pub def_disp_win_left_offset: u32,
    pub def_disp_win_right_offset: u32,
    pub def_disp_win_top_offset: u32,
    pub def_disp_win_bottom_offset: u32,
    pub vui_num_units_in_tick: u32,
    pub vui_time_scale: u32,
    pub vui_num_ticks_poc_diff_one_minus1: u32,
    pub min_spatial_segmentation_idc: u32,
    pub max_bytes_per_pic_denom: u32,
    pub max_bits_per_min_cu_denom: u32,
    pub log2_max_mv_length_horizontal: u32,
    pub log2_max_mv_length_vertical: u32,
    /// Flags, from bit 0 on.
    pub flags: u32,
}

/// The fields of video usability information.
pub fn vui_fields(vui: &VuiParams) -> VuiFields
    ensures { result ≡ fields_of_vui (plain_vui_params vui.now) }
{
    VuiFields {
        aspect_ratio_idc: vui.aspect_ratio_idc,
        sar_width: vui.sar_width,
        sar_height: vui.sar_height,
        video_format: u32::from(vui.video_format),
        colour_primaries: vui.colour_primaries,
        transfer_characteristics: vui.transfer_characteristics,
        matrix_coeffs: vui.matrix_coeffs,
        chroma_sample_loc_type_top_field: vui.chroma_sample_loc_type_top_field,
        chroma_sample_loc_type_bottom_field: vui.chroma_sample_loc_type_bottom_field,
        def_disp_win_left_offset: vui.def_disp_win_left_offset,
        def_disp_win_right_offset: vui.def_disp_win_right_offset,
        def_disp_win_top_offset: vui.def_disp_win_top_offset,
        def_disp_win_bottom_offset: vui.def_disp_win_bottom_offset,
        vui_num_units_in_tick: vui.num_units_in_tick,
        vui_time_scale: vui.time_scale,
        vui_num_ticks_poc_diff_one_minus1: vui.num_ticks_poc_diff_one_minus1,
        min_spatial_segmentation_idc: vui.min_spatial_segmentation_idc,
        max_bytes_per_pic_denom: vui.max_bytes_per_pic_denom,
        max_bits_per_min_cu_denom: vui.max_bits_per_min_cu_denom,
        log2_max_mv_length_horizontal: vui.log2_max_mv_length_horizontal,
        log2_max_mv_length_vertical: vui.log2_max_mv_length_vertical,
        flags: vui_flags(vui),
    }
}

/// The flags, in the order of their bits.
fn vui_flags(vui: &VuiParams) -> u32
    ensures { result ≡ vui_flags (plain_vui_params vui.now) }
{
    flag_bits(&[
        vui.aspect_ratio_info_present_flag,
        vui.overscan_info_present_flag,
        vui.overscan_appropriate_flag,
        vui.video_signal_type_present_flag,
        vui.video_full_range_flag,
        vui.colour_description_present_flag,
        vui.chroma_loc_info_present_flag,
        vui.neutral_chroma_indication_flag,
        vui.field_seq_flag,
        vui.frame_field_info_present_flag,
        vui.default_display_window_flag,
        vui.timing_info_present_flag,
        vui.poc_proportional_to_timing_flag,
        vui.hrd_parameters_present_flag,
        vui.bitstream_restriction_flag,
        vui.tiles_fixed_structure_flag,
        vui.motion_vectors_over_pic_boundaries_flag,
        vui.restricted_ref_pic_lists_flag,
    ]) as u32
}
