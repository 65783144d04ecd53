//! Video usability information.
ghost use Rattle.std.specs.Prelude.{◌≡◌};

use crate::hrd_params::HrdParams;

/// Video usability information of a sequence parameter set (H.265 E.2.1, E.3.1).
#[derive(Clone, Copy, PartialEq, Eq)]
pub struct VuiParams {
    /// Whether the sample aspect ratio is present.
    pub aspect_ratio_info_present_flag: bool,
    /// The number of the sample aspect ratio: 0 to 255, 255 for one given by `sar_width` and
    /// `sar_height`.
    pub aspect_ratio_idc: u32,
    /// The width of a sample in any unit: 0 to 65535.
    pub sar_width: u32,
    /// The height of a sample in the same unit: 0 to 65535.
    pub sar_height: u32,
    /// Whether `overscan_appropriate_flag` is present.
    pub overscan_info_present_flag: bool,
    /// Whether the pictures are suitable for display with overscan.
    pub overscan_appropriate_flag: bool,
    /// Whether the type of the signal is present.
    pub video_signal_type_present_flag: bool,
    /// The format of the video before it was coded: 0 to 7, 5 for none said.
    pub video_format: u8,
    /// Whether samples use the full range.
    pub video_full_range_flag: bool,
    /// Whether the description of colours is present.
    pub colour_description_present_flag: bool,
    /// The number of the colour primaries: 0 to 255, 2 for none said.
    pub colour_primaries: u32,
    /// The number of the transfer function: 0 to 255, 2 for none said.
    pub transfer_characteristics: u32,
    /// The number of the matrix that gives luma and chroma: 0 to 255, 2 for none said.
    pub matrix_coeffs: u32,
    /// Whether the places of chroma samples are there.
    pub chroma_loc_info_present_flag: bool,
    /// The place of chroma samples in a top field: 0 to 5.
    pub chroma_sample_loc_type_top_field: u32,
    /// The place of chroma samples in a bottom field: 0 to 5.
    pub chroma_sample_loc_type_bottom_field: u32,
    /// Whether all chroma samples have the middle value.
    pub neutral_chroma_indication_flag: bool,
    /// Whether pictures are fields.
    pub field_seq_flag: bool,
    /// Whether picture timing messages say how pictures are shown.
    pub frame_field_info_present_flag: bool,
    /// Whether the default display window is present.
    pub default_display_window_flag: bool,
    /// The left offset of the default display window in chroma samples.
    pub def_disp_win_left_offset: u32,
    /// The right offset of the default display window in chroma samples.
    pub def_disp_win_right_offset: u32,
    /// The top offset of the default display window in chroma samples.
    pub def_disp_win_top_offset: u32,
    /// The bottom offset of the default display window in chroma samples.
    pub def_disp_win_bottom_offset: u32,
    /// Whether the length of a tick is present.
    pub timing_info_present_flag: bool,
    /// The length of a tick in units of the clock.
    pub num_units_in_tick: u32,
    /// The number of units of the clock in a second.
    pub time_scale: u32,
    /// Whether order counts are proportional to output times.
    pub poc_proportional_to_timing_flag: bool,
    /// The number of ticks for a difference of 1 in order counts, less 1.
    pub num_ticks_poc_diff_one_minus1: u32,
    /// Whether `hrd` is present.
    pub hrd_parameters_present_flag: bool,
    /// The parameters of the hypothetical reference decoder.
    pub hrd: HrdParams,
    /// Whether the restrictions that follow are there.
    pub bitstream_restriction_flag: bool,
    /// Whether all pictures have the same tiles.
    pub tiles_fixed_structure_flag: bool,
    /// Whether motion vectors may point outside the picture.
    pub motion_vectors_over_pic_boundaries_flag: bool,
    /// Whether all slices of a picture have the same reference lists.
    pub restricted_ref_pic_lists_flag: bool,
    /// How finely each picture is cut into parts that decode independently: 0 to 4095, 0 for none
    /// said.
    pub min_spatial_segmentation_idc: u32,
    /// The denominator of a bound on the bytes of a picture: 0 for none said.
    pub max_bytes_per_pic_denom: u32,
    /// The denominator of a bound on the bits of a coding unit: 0 for none said.
    pub max_bits_per_min_cu_denom: u32,
    /// The logarithm of the longest horizontal motion in quarters of a luma sample: 0 to 16.
    pub log2_max_mv_length_horizontal: u32,
    /// The logarithm of the longest vertical motion in quarters of a luma sample: 0 to 15.
    pub log2_max_mv_length_vertical: u32,
}

impl VuiParams {
    ghost use Rattle.hevc_records.specs.VuiParams.{default_vui_params};
    ghost use Rattle.hevc_video_set.specs.VuiParams.{plain_vui_params};

    /// What holds where nothing is said (E.3.1).
    pub fn new() -> VuiParams
        ensures { plain_vui_params result ≡ default_vui_params }
    {
        VuiParams {
            aspect_ratio_info_present_flag: false,
            aspect_ratio_idc: 0,
            sar_width: 0,
            sar_height: 0,
            overscan_info_present_flag: false,
            overscan_appropriate_flag: false,
            video_signal_type_present_flag: false,
            video_format: 5,
            video_full_range_flag: false,
            colour_description_present_flag: false,
            colour_primaries: 2,
            transfer_characteristics: 2,
            matrix_coeffs: 2,
            chroma_loc_info_present_flag: false,
            chroma_sample_loc_type_top_field: 0,
            chroma_sample_loc_type_bottom_field: 0,
            neutral_chroma_indication_flag: false,
            field_seq_flag: false,
            frame_field_info_present_flag: false,
            default_display_window_flag: false,
            def_disp_win_left_offset: 0,
            def_disp_win_right_offset: 0,
            def_disp_win_top_offset: 0,
            def_disp_win_bottom_offset: 0,
            timing_info_present_flag: false,
            num_units_in_tick: 0,
            time_scale: 0,
            poc_proportional_to_timing_flag: false,
            num_ticks_poc_diff_one_minus1: 0,
            hrd_parameters_present_flag: false,
            hrd: HrdParams::new(),
            bitstream_restriction_flag: false,
            tiles_fixed_structure_flag: false,
            motion_vectors_over_pic_boundaries_flag: true,
            restricted_ref_pic_lists_flag: false,
            min_spatial_segmentation_idc: 0,
            max_bytes_per_pic_denom: 2,
            max_bits_per_min_cu_denom: 1,
            log2_max_mv_length_horizontal: 15,
            log2_max_mv_length_vertical: 15,
        }
    }

    /// Whether the sample aspect ratio is present.
    pub fn aspect_ratio_info_present_flag(&self) -> bool
        ensures { result ≡ self.now.aspect_ratio_info_present_flag }
    {
        self.aspect_ratio_info_present_flag
    }

    /// The number of the sample aspect ratio.
    pub fn aspect_ratio_idc(&self) -> u32
        ensures { result ≡ self.now.aspect_ratio_idc }
    {
        self.aspect_ratio_idc
    }

    /// The width of a sample in any unit.
    pub fn sar_width(&self) -> u32
        ensures { result ≡ self.now.sar_width }
    {
        self.sar_width
    }

    /// The height of a sample in the same unit.
    pub fn sar_height(&self) -> u32
        ensures { result ≡ self.now.sar_height }
    {
        self.sar_height
    }

    /// Whether `overscan_appropriate_flag` is present.
    pub fn overscan_info_present_flag(&self) -> bool
        ensures { result ≡ self.now.overscan_info_present_flag }
    {
        self.overscan_info_present_flag
    }

    /// Whether the pictures are suitable for display with overscan.
    pub fn overscan_appropriate_flag(&self) -> bool
        ensures { result ≡ self.now.overscan_appropriate_flag }
    {
        self.overscan_appropriate_flag
    }

    /// Whether the type of the signal is present.
    pub fn video_signal_type_present_flag(&self) -> bool
        ensures { result ≡ self.now.video_signal_type_present_flag }
    {
        self.video_signal_type_present_flag
    }

    /// The format of the video before it was coded.
    pub fn video_format(&self) -> u8
        ensures { result ≡ self.now.video_format }
    {
        self.video_format
    }

    /// Whether samples use the full range.
    pub fn video_full_range_flag(&self) -> bool
        ensures { result ≡ self.now.video_full_range_flag }
    {
        self.video_full_range_flag
    }

    /// Whether the description of colours is present.
    pub fn colour_description_present_flag(&self) -> bool
        ensures { result ≡ self.now.colour_description_present_flag }
    {
        self.colour_description_present_flag
    }

    /// The number of the colour primaries.
    pub fn colour_primaries(&self) -> u32
        ensures { result ≡ self.now.colour_primaries }
    {
        self.colour_primaries
    }

    /// The number of the transfer function.
    pub fn transfer_characteristics(&self) -> u32
        ensures { result ≡ self.now.transfer_characteristics }
    {
        self.transfer_characteristics
    }

    /// The number of the matrix that gives luma and chroma.
    pub fn matrix_coeffs(&self) -> u32
        ensures { result ≡ self.now.matrix_coeffs }
    {
        self.matrix_coeffs
    }

    /// Whether the places of chroma samples are there.
    pub fn chroma_loc_info_present_flag(&self) -> bool
        ensures { result ≡ self.now.chroma_loc_info_present_flag }
    {
        self.chroma_loc_info_present_flag
    }

    /// The place of chroma samples in a top field.
    pub fn chroma_sample_loc_type_top_field(&self) -> u32
        ensures { result ≡ self.now.chroma_sample_loc_type_top_field }
    {
        self.chroma_sample_loc_type_top_field
    }

    /// The place of chroma samples in a bottom field.
    pub fn chroma_sample_loc_type_bottom_field(&self) -> u32
        ensures { result ≡ self.now.chroma_sample_loc_type_bottom_field }
    {
        self.chroma_sample_loc_type_bottom_field
    }

    /// Whether all chroma samples have the middle value.
    pub fn neutral_chroma_indication_flag(&self) -> bool
        ensures { result ≡ self.now.neutral_chroma_indication_flag }
    {
        self.neutral_chroma_indication_flag
    }

    /// Whether pictures are fields.
    pub fn field_seq_flag(&self) -> bool
        ensures { result ≡ self.now.field_seq_flag }
    {
        self.field_seq_flag
    }

    /// Whether picture timing messages say how pictures are shown.
    pub fn frame_field_info_present_flag(&self) -> bool
        ensures { result ≡ self.now.frame_field_info_present_flag }
    {
        self.frame_field_info_present_flag
    }

    /// Whether the default display window is present.
    pub fn default_display_window_flag(&self) -> bool
        ensures { result ≡ self.now.default_display_window_flag }
    {
        self.default_display_window_flag
    }

    /// The left offset of the default display window in chroma samples.
    pub fn def_disp_win_left_offset(&self) -> u32
        ensures { result ≡ self.now.def_disp_win_left_offset }
    {
        self.def_disp_win_left_offset
    }

    /// The right offset of the default display window in chroma samples.
    pub fn def_disp_win_right_offset(&self) -> u32
        ensures { result ≡ self.now.def_disp_win_right_offset }
    {
        self.def_disp_win_right_offset
    }

    /// The top offset of the default display window in chroma samples.
    pub fn def_disp_win_top_offset(&self) -> u32
        ensures { result ≡ self.now.def_disp_win_top_offset }
    {
        self.def_disp_win_top_offset
    }

    /// The bottom offset of the default display window in chroma samples.
    pub fn def_disp_win_bottom_offset(&self) -> u32
        ensures { result ≡ self.now.def_disp_win_bottom_offset }
    {
        self.def_disp_win_bottom_offset
    }

    /// Whether the length of a tick is present.
    pub fn timing_info_present_flag(&self) -> bool
        ensures { result ≡ self.now.timing_info_present_flag }
    {
        self.timing_info_present_flag
    }

    /// The length of a tick in units of the clock.
    pub fn num_units_in_tick(&self) -> u32
        ensures { result ≡ self.now.num_units_in_tick }
    {
        self.num_units_in_tick
    }

    /// The number of units of the clock in a second.
    pub fn time_scale(&self) -> u32
        ensures { result ≡ self.now.time_scale }
    {
        self.time_scale
    }

    /// Whether order counts are proportional to output times.
    pub fn poc_proportional_to_timing_flag(&self) -> bool
        ensures { result ≡ self.now.poc_proportional_to_timing_flag }
    {
        self.poc_proportional_to_timing_flag
    }

    /// The number of ticks for a difference of 1 in order counts, less 1.
    pub fn num_ticks_poc_diff_one_minus1(&self) -> u32
        ensures { result ≡ self.now.num_ticks_poc_diff_one_minus1 }
    {
        self.num_ticks_poc_diff_one_minus1
    }

    /// Whether `hrd` is present.
    pub fn hrd_parameters_present_flag(&self) -> bool
        ensures { result ≡ self.now.hrd_parameters_present_flag }
    {
        self.hrd_parameters_present_flag
    }

    /// The parameters of the hypothetical reference decoder.
    pub fn hrd(&self) -> &HrdParams
        ensures { result.now ≡ self.now.hrd }
    {
        &self.hrd
    }

    /// Whether the restrictions that follow are there.
    pub fn bitstream_restriction_flag(&self) -> bool
        ensures { result ≡ self.now.bitstream_restriction_flag }
    {
        self.bitstream_restriction_flag
    }

    /// Whether all pictures have the same tiles.
    pub fn tiles_fixed_structure_flag(&self) -> bool
        ensures { result ≡ self.now.tiles_fixed_structure_flag }
    {
        self.tiles_fixed_structure_flag
    }

    /// Whether motion vectors may point outside the picture.
    pub fn motion_vectors_over_pic_boundaries_flag(&self) -> bool
        ensures { result ≡ self.now.motion_vectors_over_pic_boundaries_flag }
    {
        self.motion_vectors_over_pic_boundaries_flag
    }

    /// Whether all slices of a picture have the same reference lists.
    pub fn restricted_ref_pic_lists_flag(&self) -> bool
        ensures { result ≡ self.now.restricted_ref_pic_lists_flag }
    {
        self.restricted_ref_pic_lists_flag
    }

    /// How finely each picture is cut into parts that decode independently.
    pub fn min_spatial_segmentation_idc(&self) -> u32
        ensures { result ≡ self.now.min_spatial_segmentation_idc }
    {
        self.min_spatial_segmentation_idc
    }

    /// The denominator of a bound on the bytes of a picture.
    pub fn max_bytes_per_pic_denom(&self) -> u32
        ensures { result ≡ self.now.max_bytes_per_pic_denom }
    {
        self.max_bytes_per_pic_denom
    }

    /// The denominator of a bound on the bits of a coding unit.
    pub fn max_bits_per_min_cu_denom(&self) -> u32
        ensures { result ≡ self.now.max_bits_per_min_cu_denom }
    {
        self.max_bits_per_min_cu_denom
    }

    /// The logarithm of the longest horizontal motion in quarters of a luma sample.
    pub fn log2_max_mv_length_horizontal(&self) -> u32
        ensures { result ≡ self.now.log2_max_mv_length_horizontal }
    {
        self.log2_max_mv_length_horizontal
    }

    /// The logarithm of the longest vertical motion in quarters of a luma sample.
    pub fn log2_max_mv_length_vertical(&self) -> u32
        ensures { result ≡ self.now.log2_max_mv_length_vertical }
    {
        self.log2_max_mv_length_vertical
    }
}
