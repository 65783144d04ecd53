//! The elements of the rows of the tables. `docs/pages.py` makes this file from docs/TABLES.md.
use crate::rule::Rule;

/// The place of each table's row 1 among the rows.
pub static STARTS: [u16; 17] = [
    0, 1, 26, 57, 73, 76, 126, 130, 142, 168, 169, 177, 212, 219, 230, 283, 287,
];

/// The place of each row's first element, and after the last row the number of elements.
pub static FIRSTS: [u16; 302] = [
    0, 1, 2, 4, 5, 6, 7, 8, 9, 10, 11, 12, 13, 14, 15, 16, 17, 18, 19, 21, 22, 23, 24, 25, 26, 27,
    28, 29, 30, 31, 32, 36, 45, 46, 47, 48, 49, 50, 51, 52, 53, 54, 54, 54, 54, 54, 54, 54, 54, 54,
    54, 54, 54, 55, 57, 58, 83, 84, 86, 87, 88, 89, 90, 91, 93, 94, 97, 98, 99, 100, 101, 102, 103,
    104, 106, 108, 109, 110, 111, 112, 113, 114, 115, 116, 117, 118, 119, 123, 127, 128, 129, 130,
    131, 132, 133, 134, 135, 136, 137, 138, 140, 141, 142, 143, 144, 145, 148, 150, 151, 152, 153,
    154, 155, 156, 157, 158, 159, 162, 163, 164, 165, 166, 167, 168, 169, 170, 171, 172, 173, 174,
    175, 176, 177, 178, 179, 181, 184, 185, 186, 187, 188, 189, 190, 191, 192, 194, 195, 196, 197,
    198, 200, 203, 204, 205, 206, 210, 214, 215, 217, 218, 219, 220, 221, 222, 225, 226, 228, 229,
    230, 239, 241, 242, 243, 244, 245, 246, 247, 248, 249, 250, 252, 253, 255, 256, 257, 258, 261,
    262, 263, 264, 270, 271, 272, 273, 274, 275, 276, 278, 280, 281, 282, 283, 284, 285, 286, 288,
    289, 290, 291, 292, 293, 294, 295, 296, 298, 299, 300, 302, 303, 304, 306, 307, 308, 309, 310,
    311, 312, 313, 314, 315, 316, 317, 318, 319, 320, 321, 322, 323, 324, 325, 326, 327, 328, 329,
    330, 331, 332, 333, 334, 335, 336, 337, 338, 339, 340, 341, 342, 343, 344, 345, 346, 347, 348,
    349, 350, 351, 352, 353, 354, 355, 356, 359, 360, 361, 362, 363, 364, 365, 366, 367, 368, 369,
    370, 372, 373, 374, 375, 376, 377, 378, 379, 380, 381, 382, 383, 384, 385, 386, 387, 388, 389,
    390,
];

/// How the indices of each row's elements are told.
pub static RULES: [Rule; 301] = [
    Rule::Absent,
    Rule::Absent,
    Rule::Absent,
    Rule::Absent,
    Rule::Absent,
    Rule::Absent,
    Rule::Absent,
    Rule::Absent,
    Rule::Absent,
    Rule::SubLayers { flag: 8, top: 4 },
    Rule::SubLayers { flag: 8, top: 4 },
    Rule::SubLayers { flag: 8, top: 4 },
    Rule::Each,
    Rule::Each,
    Rule::Absent,
    Rule::Absent,
    Rule::Pairs {
        first: 1,
        of: 14,
        more: 1,
    },
    Rule::Absent,
    Rule::Absent,
    Rule::Absent,
    Rule::Absent,
    Rule::Absent,
    Rule::Each,
    Rule::AfterFirst,
    Rule::Each,
    Rule::Absent,
    Rule::Absent,
    Rule::Absent,
    Rule::Absent,
    Rule::Each,
    Rule::Absent,
    Rule::Absent,
    Rule::Absent,
    Rule::Absent,
    Rule::Absent,
    Rule::Absent,
    Rule::Absent,
    Rule::Absent,
    Rule::Absent,
    Rule::Absent,
    Rule::Absent,
    Rule::Absent,
    Rule::Absent,
    Rule::Absent,
    Rule::Absent,
    Rule::Absent,
    Rule::Absent,
    Rule::Absent,
    Rule::Absent,
    Rule::Absent,
    Rule::Absent,
    Rule::Absent,
    Rule::Absent,
    Rule::Each,
    Rule::AboveTop,
    Rule::SubLayerProfile,
    Rule::Second,
    Rule::Absent,
    Rule::Absent,
    Rule::Absent,
    Rule::Absent,
    Rule::Absent,
    Rule::Absent,
    Rule::Absent,
    Rule::Absent,
    Rule::Absent,
    Rule::Each,
    Rule::Last { of: 10 },
    Rule::Last { of: 10 },
    Rule::Last { of: 10 },
    Rule::Last { of: 10 },
    Rule::Absent,
    Rule::Absent,
    Rule::Schedules,
    Rule::Schedules,
    Rule::Schedules,
    Rule::Absent,
    Rule::Absent,
    Rule::Absent,
    Rule::Absent,
    Rule::Absent,
    Rule::Absent,
    Rule::Absent,
    Rule::Absent,
    Rule::Absent,
    Rule::Absent,
    Rule::Absent,
    Rule::Absent,
    Rule::Absent,
    Rule::Absent,
    Rule::Absent,
    Rule::Absent,
    Rule::SubLayers { flag: 16, top: 2 },
    Rule::SubLayers { flag: 16, top: 2 },
    Rule::SubLayers { flag: 16, top: 2 },
    Rule::Absent,
    Rule::Absent,
    Rule::Absent,
    Rule::Absent,
    Rule::Absent,
    Rule::Absent,
    Rule::Absent,
    Rule::Absent,
    Rule::Absent,
    Rule::Absent,
    Rule::Absent,
    Rule::Absent,
    Rule::Absent,
    Rule::Absent,
    Rule::Absent,
    Rule::Absent,
    Rule::Absent,
    Rule::Absent,
    Rule::Absent,
    Rule::Each,
    Rule::Each,
    Rule::Absent,
    Rule::Absent,
    Rule::Absent,
    Rule::Absent,
    Rule::Absent,
    Rule::Absent,
    Rule::Absent,
    Rule::Absent,
    Rule::Absent,
    Rule::Absent,
    Rule::Matrices { less: 0 },
    Rule::Matrices { less: 0 },
    Rule::Matrices { less: 2 },
    Rule::Absent,
    Rule::Absent,
    Rule::Absent,
    Rule::Absent,
    Rule::Absent,
    Rule::Members,
    Rule::Absent,
    Rule::Absent,
    Rule::Absent,
    Rule::Each,
    Rule::Each,
    Rule::Each,
    Rule::Each,
    Rule::Absent,
    Rule::Absent,
    Rule::Absent,
    Rule::Absent,
    Rule::Absent,
    Rule::Absent,
    Rule::Absent,
    Rule::Absent,
    Rule::Absent,
    Rule::Absent,
    Rule::Absent,
    Rule::Absent,
    Rule::Absent,
    Rule::Absent,
    Rule::Absent,
    Rule::Absent,
    Rule::Absent,
    Rule::Absent,
    Rule::Absent,
    Rule::Absent,
    Rule::Absent,
    Rule::Absent,
    Rule::Absent,
    Rule::Absent,
    Rule::Absent,
    Rule::Absent,
    Rule::Absent,
    Rule::Absent,
    Rule::Absent,
    Rule::Absent,
    Rule::Absent,
    Rule::Absent,
    Rule::Pairs {
        first: 0,
        of: 5,
        more: 1,
    },
    Rule::Absent,
    Rule::Absent,
    Rule::Absent,
    Rule::Absent,
    Rule::Absent,
    Rule::Absent,
    Rule::Absent,
    Rule::Absent,
    Rule::Absent,
    Rule::Absent,
    Rule::Absent,
    Rule::Absent,
    Rule::Absent,
    Rule::Absent,
    Rule::Absent,
    Rule::Absent,
    Rule::Absent,
    Rule::Absent,
    Rule::Each,
    Rule::Each,
    Rule::Absent,
    Rule::Absent,
    Rule::Absent,
    Rule::Absent,
    Rule::Absent,
    Rule::Absent,
    Rule::Absent,
    Rule::Absent,
    Rule::Absent,
    Rule::Absent,
    Rule::Absent,
    Rule::Absent,
    Rule::Absent,
    Rule::Absent,
    Rule::Absent,
    Rule::Absent,
    Rule::Absent,
    Rule::Absent,
    Rule::Absent,
    Rule::Absent,
    Rule::Absent,
    Rule::Each,
    Rule::Absent,
    Rule::Absent,
    Rule::Absent,
    Rule::Absent,
    Rule::Absent,
    Rule::Absent,
    Rule::Absent,
    Rule::Absent,
    Rule::Absent,
    Rule::Absent,
    Rule::Absent,
    Rule::Absent,
    Rule::Pairs {
        first: 0,
        of: 7,
        more: 0,
    },
    Rule::Absent,
    Rule::Absent,
    Rule::Absent,
    Rule::Absent,
    Rule::Absent,
    Rule::Each,
    Rule::Absent,
    Rule::Absent,
    Rule::Absent,
    Rule::Absent,
    Rule::Absent,
    Rule::Absent,
    Rule::Absent,
    Rule::Absent,
    Rule::Absent,
    Rule::Next { of: 19 },
    Rule::Next { of: 19 },
    Rule::Next { of: 19 },
    Rule::Next { of: 19 },
    Rule::Last { of: 19 },
    Rule::Absent,
    Rule::Absent,
    Rule::Absent,
    Rule::Absent,
    Rule::Absent,
    Rule::Absent,
    Rule::Absent,
    Rule::Absent,
    Rule::Absent,
    Rule::Absent,
    Rule::Absent,
    Rule::Absent,
    Rule::Absent,
    Rule::Absent,
    Rule::Absent,
    Rule::Absent,
    Rule::Absent,
    Rule::Absent,
    Rule::Absent,
    Rule::Absent,
    Rule::Absent,
    Rule::Absent,
    Rule::Absent,
    Rule::Absent,
    Rule::Absent,
    Rule::Absent,
    Rule::Absent,
    Rule::Absent,
    Rule::Absent,
    Rule::Each,
    Rule::Absent,
    Rule::Bytes,
    Rule::Alignment,
    Rule::Absent,
    Rule::Each,
    Rule::Absent,
    Rule::Each,
    Rule::Absent,
    Rule::Absent,
    Rule::Each,
    Rule::Each,
    Rule::First,
    Rule::First,
    Rule::SecondTwice,
    Rule::SecondTwice,
    Rule::Each,
    Rule::Each,
    Rule::First,
    Rule::First,
    Rule::SecondTwice,
    Rule::SecondTwice,
];

/// The place of each element's name in the names, and at last their length.
pub static SPANS: [u16; 391] = [
    0, 21, 47, 75, 104, 125, 150, 178, 204, 222, 262, 294, 318, 348, 380, 404, 420, 445, 467, 495,
    516, 530, 565, 598, 620, 637, 655, 669, 687, 708, 725, 744, 778, 809, 839, 873, 907, 940, 973,
    1005, 1042, 1079, 1117, 1146, 1186, 1224, 1257, 1285, 1313, 1340, 1380, 1408, 1436, 1454, 1479,
    1496, 1526, 1554, 1573, 1596, 1615, 1636, 1672, 1705, 1737, 1773, 1809, 1844, 1879, 1913, 1952,
    1991, 2031, 2062, 2104, 2144, 2179, 2209, 2239, 2268, 2298, 2328, 2348, 2375, 2394, 2425, 2456,
    2487, 2506, 2550, 2591, 2624, 2638, 2652, 2669, 2708, 2742, 2772, 2799, 2829, 2860, 2878, 2892,
    2916, 2940, 2961, 2982, 3006, 3030, 3038, 3064, 3089, 3117, 3135, 3159, 3176, 3202, 3227, 3253,
    3276, 3296, 3317, 3336, 3358, 3378, 3399, 3418, 3440, 3461, 3484, 3517, 3557, 3589, 3613, 3643,
    3681, 3721, 3762, 3805, 3846, 3889, 3924, 3959, 3984, 4018, 4035, 4051, 4086, 4102, 4134, 4168,
    4210, 4254, 4283, 4310, 4324, 4355, 4381, 4403, 4431, 4460, 4495, 4522, 4536, 4562, 4586, 4615,
    4636, 4658, 4677, 4696, 4713, 4740, 4773, 4800, 4823, 4856, 4872, 4886, 4906, 4927, 4941, 4957,
    4971, 4991, 5008, 5025, 5044, 5068, 5087, 5111, 5141, 5157, 5166, 5176, 5202, 5227, 5257, 5269,
    5290, 5321, 5337, 5361, 5374, 5402, 5434, 5469, 5499, 5513, 5542, 5569, 5593, 5618, 5641, 5667,
    5695, 5716, 5730, 5765, 5798, 5829, 5843, 5869, 5895, 5934, 5963, 5991, 6014, 6039, 6068, 6095,
    6131, 6166, 6193, 6220, 6254, 6283, 6318, 6357, 6392, 6421, 6446, 6462, 6494, 6541, 6586, 6619,
    6655, 6693, 6717, 6741, 6778, 6802, 6829, 6858, 6881, 6917, 6953, 6968, 6995, 7022, 7046, 7068,
    7084, 7100, 7140, 7158, 7178, 7208, 7226, 7258, 7281, 7301, 7321, 7340, 7357, 7394, 7436, 7474,
    7513, 7548, 7568, 7586, 7620, 7637, 7668, 7700, 7743, 7769, 7793, 7822, 7843, 7865, 7884, 7903,
    7920, 7961, 8000, 8034, 8064, 8096, 8113, 8130, 8156, 8184, 8213, 8260, 8297, 8322, 8348, 8374,
    8421, 8459, 8482, 8509, 8538, 8571, 8602, 8630, 8656, 8684, 8705, 8724, 8734, 8749, 8764, 8787,
    8818, 8832, 8858, 8875, 8893, 8903, 8913, 8937, 8963, 8985, 9016, 9035, 9056, 9088, 9116, 9144,
    9170, 9186, 9201, 9224, 9242, 9259, 9288, 9307, 9321, 9335, 9353, 9371, 9389, 9407, 9428, 9450,
    9472, 9504, 9535, 9572, 9594, 9614, 9658, 9681, 9698, 9723, 9760, 9800, 9826, 9853, 9886, 9899,
    9932, 9945, 9967, 9997, 10016, 10037, 10057, 10071, 10093, 10115, 10134, 10155, 10175, 10189,
    10211, 10233,
];

/// The names of the elements.
pub static NAMES: [u8; 10233] = *b"\
    nuh_temporal_id_plus1\
    vps_video_parameter_set_id\
    vps_base_layer_internal_flag\
    vps_base_layer_available_flag\
    vps_max_layers_minus1\
    vps_max_sub_layers_minus1\
    vps_temporal_id_nesting_flag\
    vps_reserved_0xffff_16bits\
    profile_tier_level\
    vps_sub_layer_ordering_info_present_flag\
    vps_max_dec_pic_buffering_minus1\
    vps_max_num_reorder_pics\
    vps_max_latency_increase_plus1\
    vps_max_dec_pic_buffering_minus1\
    vps_max_num_reorder_pics\
    vps_max_layer_id\
    vps_num_layer_sets_minus1\
    layer_id_included_flag\
    vps_timing_info_present_flag\
    vps_num_units_in_tick\
    vps_time_scale\
    vps_poc_proportional_to_timing_flag\
    vps_num_ticks_poc_diff_one_minus1\
    vps_num_hrd_parameters\
    hrd_layer_set_idx\
    cprms_present_flag\
    hrd_parameters\
    vps_extension_flag\
    general_profile_space\
    general_tier_flag\
    general_profile_idc\
    general_profile_compatibility_flag\
    general_progressive_source_flag\
    general_interlaced_source_flag\
    general_non_packed_constraint_flag\
    general_frame_only_constraint_flag\
    general_max_12bit_constraint_flag\
    general_max_10bit_constraint_flag\
    general_max_8bit_constraint_flag\
    general_max_422chroma_constraint_flag\
    general_max_420chroma_constraint_flag\
    general_max_monochrome_constraint_flag\
    general_intra_constraint_flag\
    general_one_picture_only_constraint_flag\
    general_lower_bit_rate_constraint_flag\
    general_max_14bit_constraint_flag\
    general_reserved_zero_33bits\
    general_reserved_zero_34bits\
    general_reserved_zero_7bits\
    general_one_picture_only_constraint_flag\
    general_reserved_zero_35bits\
    general_reserved_zero_43bits\
    general_inbld_flag\
    general_reserved_zero_bit\
    general_level_idc\
    sub_layer_profile_present_flag\
    sub_layer_level_present_flag\
    reserved_zero_2bits\
    sub_layer_profile_space\
    sub_layer_tier_flag\
    sub_layer_profile_idc\
    sub_layer_profile_compatibility_flag\
    sub_layer_progressive_source_flag\
    sub_layer_interlaced_source_flag\
    sub_layer_non_packed_constraint_flag\
    sub_layer_frame_only_constraint_flag\
    sub_layer_max_12bit_constraint_flag\
    sub_layer_max_10bit_constraint_flag\
    sub_layer_max_8bit_constraint_flag\
    sub_layer_max_422chroma_constraint_flag\
    sub_layer_max_420chroma_constraint_flag\
    sub_layer_max_monochrome_constraint_flag\
    sub_layer_intra_constraint_flag\
    sub_layer_one_picture_only_constraint_flag\
    sub_layer_lower_bit_rate_constraint_flag\
    sub_layer_max_14bit_constraint_flag\
    sub_layer_reserved_zero_33bits\
    sub_layer_reserved_zero_34bits\
    sub_layer_reserved_zero_7bits\
    sub_layer_reserved_zero_35bits\
    sub_layer_reserved_zero_43bits\
    sub_layer_inbld_flag\
    sub_layer_reserved_zero_bit\
    sub_layer_level_idc\
    nal_hrd_parameters_present_flag\
    vcl_hrd_parameters_present_flag\
    sub_pic_hrd_params_present_flag\
    tick_divisor_minus2\
    du_cpb_removal_delay_increment_length_minus1\
    sub_pic_cpb_params_in_pic_timing_sei_flag\
    dpb_output_delay_du_length_minus1\
    bit_rate_scale\
    cpb_size_scale\
    cpb_size_du_scale\
    initial_cpb_removal_delay_length_minus1\
    au_cpb_removal_delay_length_minus1\
    dpb_output_delay_length_minus1\
    fixed_pic_rate_general_flag\
    fixed_pic_rate_within_cvs_flag\
    elemental_duration_in_tc_minus1\
    low_delay_hrd_flag\
    cpb_cnt_minus1\
    sub_layer_hrd_parameters\
    sub_layer_hrd_parameters\
    bit_rate_value_minus1\
    cpb_size_value_minus1\
    cpb_size_du_value_minus1\
    bit_rate_du_value_minus1\
    cbr_flag\
    sps_video_parameter_set_id\
    sps_max_sub_layers_minus1\
    sps_temporal_id_nesting_flag\
    profile_tier_level\
    sps_seq_parameter_set_id\
    chroma_format_idc\
    separate_colour_plane_flag\
    pic_width_in_luma_samples\
    pic_height_in_luma_samples\
    conformance_window_flag\
    conf_win_left_offset\
    conf_win_right_offset\
    conf_win_top_offset\
    conf_win_bottom_offset\
    conf_win_left_offset\
    conf_win_right_offset\
    conf_win_top_offset\
    conf_win_bottom_offset\
    bit_depth_luma_minus8\
    bit_depth_chroma_minus8\
    log2_max_pic_order_cnt_lsb_minus4\
    sps_sub_layer_ordering_info_present_flag\
    sps_max_dec_pic_buffering_minus1\
    sps_max_num_reorder_pics\
    sps_max_latency_increase_plus1\
    log2_min_luma_coding_block_size_minus3\
    log2_diff_max_min_luma_coding_block_size\
    log2_min_luma_transform_block_size_minus2\
    log2_diff_max_min_luma_transform_block_size\
    log2_min_luma_transform_block_size_minus2\
    log2_diff_max_min_luma_transform_block_size\
    max_transform_hierarchy_depth_inter\
    max_transform_hierarchy_depth_intra\
    scaling_list_enabled_flag\
    sps_scaling_list_data_present_flag\
    scaling_list_data\
    amp_enabled_flag\
    sample_adaptive_offset_enabled_flag\
    pcm_enabled_flag\
    pcm_sample_bit_depth_luma_minus1\
    pcm_sample_bit_depth_chroma_minus1\
    log2_min_pcm_luma_coding_block_size_minus3\
    log2_diff_max_min_pcm_luma_coding_block_size\
    pcm_loop_filter_disabled_flag\
    num_short_term_ref_pic_sets\
    st_ref_pic_set\
    long_term_ref_pics_present_flag\
    num_long_term_ref_pics_sps\
    lt_ref_pic_poc_lsb_sps\
    used_by_curr_pic_lt_sps_flag\
    sps_temporal_mvp_enabled_flag\
    strong_intra_smoothing_enabled_flag\
    vui_parameters_present_flag\
    vui_parameters\
    sps_extension_present_flag\
    sps_range_extension_flag\
    sps_multilayer_extension_flag\
    sps_3d_extension_flag\
    sps_scc_extension_flag\
    sps_extension_4bits\
    sps_range_extension\
    sps_scc_extension\
    scaling_list_pred_mode_flag\
    scaling_list_pred_matrix_id_delta\
    scaling_list_dc_coef_minus8\
    scaling_list_delta_coef\
    inter_ref_pic_set_prediction_flag\
    delta_idx_minus1\
    delta_rps_sign\
    abs_delta_rps_minus1\
    used_by_curr_pic_flag\
    use_delta_flag\
    delta_idx_minus1\
    delta_rps_sign\
    abs_delta_rps_minus1\
    num_negative_pics\
    num_positive_pics\
    delta_poc_s0_minus1\
    used_by_curr_pic_s0_flag\
    delta_poc_s1_minus1\
    used_by_curr_pic_s1_flag\
    aspect_ratio_info_present_flag\
    aspect_ratio_idc\
    sar_width\
    sar_height\
    overscan_info_present_flag\
    overscan_appropriate_flag\
    video_signal_type_present_flag\
    video_format\
    video_full_range_flag\
    colour_description_present_flag\
    colour_primaries\
    transfer_characteristics\
    matrix_coeffs\
    chroma_loc_info_present_flag\
    chroma_sample_loc_type_top_field\
    chroma_sample_loc_type_bottom_field\
    neutral_chroma_indication_flag\
    field_seq_flag\
    frame_field_info_present_flag\
    default_display_window_flag\
    def_disp_win_left_offset\
    def_disp_win_right_offset\
    def_disp_win_top_offset\
    def_disp_win_bottom_offset\
    vui_timing_info_present_flag\
    vui_num_units_in_tick\
    vui_time_scale\
    vui_poc_proportional_to_timing_flag\
    vui_num_ticks_poc_diff_one_minus1\
    vui_hrd_parameters_present_flag\
    hrd_parameters\
    bitstream_restriction_flag\
    tiles_fixed_structure_flag\
    motion_vectors_over_pic_boundaries_flag\
    restricted_ref_pic_lists_flag\
    min_spatial_segmentation_idc\
    max_bytes_per_pic_denom\
    max_bits_per_min_cu_denom\
    log2_max_mv_length_horizontal\
    log2_max_mv_length_vertical\
    transform_skip_rotation_enabled_flag\
    transform_skip_context_enabled_flag\
    implicit_rdpcm_enabled_flag\
    explicit_rdpcm_enabled_flag\
    extended_precision_processing_flag\
    intra_smoothing_disabled_flag\
    high_precision_offsets_enabled_flag\
    persistent_rice_adaptation_enabled_flag\
    cabac_bypass_alignment_enabled_flag\
    sps_curr_pic_ref_enabled_flag\
    palette_mode_enabled_flag\
    palette_max_size\
    delta_palette_max_predictor_size\
    sps_palette_predictor_initializers_present_flag\
    sps_num_palette_predictor_initializers_minus1\
    sps_palette_predictor_initializer\
    motion_vector_resolution_control_idc\
    intra_boundary_filtering_disabled_flag\
    pps_pic_parameter_set_id\
    pps_seq_parameter_set_id\
    dependent_slice_segments_enabled_flag\
    output_flag_present_flag\
    num_extra_slice_header_bits\
    sign_data_hiding_enabled_flag\
    cabac_init_present_flag\
    num_ref_idx_l0_default_active_minus1\
    num_ref_idx_l1_default_active_minus1\
    init_qp_minus26\
    constrained_intra_pred_flag\
    transform_skip_enabled_flag\
    cu_qp_delta_enabled_flag\
    diff_cu_qp_delta_depth\
    pps_cb_qp_offset\
    pps_cr_qp_offset\
    pps_slice_chroma_qp_offsets_present_flag\
    weighted_pred_flag\
    weighted_bipred_flag\
    transquant_bypass_enabled_flag\
    tiles_enabled_flag\
    entropy_coding_sync_enabled_flag\
    num_tile_columns_minus1\
    num_tile_rows_minus1\
    uniform_spacing_flag\
    column_width_minus1\
    row_height_minus1\
    loop_filter_across_tiles_enabled_flag\
    pps_loop_filter_across_slices_enabled_flag\
    deblocking_filter_control_present_flag\
    deblocking_filter_override_enabled_flag\
    pps_deblocking_filter_disabled_flag\
    pps_beta_offset_div2\
    pps_tc_offset_div2\
    pps_scaling_list_data_present_flag\
    scaling_list_data\
    lists_modification_present_flag\
    log2_parallel_merge_level_minus2\
    slice_segment_header_extension_present_flag\
    pps_extension_present_flag\
    pps_range_extension_flag\
    pps_multilayer_extension_flag\
    pps_3d_extension_flag\
    pps_scc_extension_flag\
    pps_extension_4bits\
    pps_range_extension\
    pps_scc_extension\
    log2_max_transform_skip_block_size_minus2\
    cross_component_prediction_enabled_flag\
    chroma_qp_offset_list_enabled_flag\
    diff_cu_chroma_qp_offset_depth\
    chroma_qp_offset_list_len_minus1\
    cb_qp_offset_list\
    cr_qp_offset_list\
    log2_sao_offset_scale_luma\
    log2_sao_offset_scale_chroma\
    pps_curr_pic_ref_enabled_flag\
    residual_adaptive_colour_transform_enabled_flag\
    pps_slice_act_qp_offsets_present_flag\
    pps_act_y_qp_offset_plus5\
    pps_act_cb_qp_offset_plus5\
    pps_act_cr_qp_offset_plus3\
    pps_palette_predictor_initializers_present_flag\
    pps_num_palette_predictor_initializers\
    monochrome_palette_flag\
    luma_bit_depth_entry_minus8\
    chroma_bit_depth_entry_minus8\
    pps_palette_predictor_initializer\
    first_slice_segment_in_pic_flag\
    no_output_of_prior_pics_flag\
    slice_pic_parameter_set_id\
    dependent_slice_segment_flag\
    slice_segment_address\
    slice_reserved_flag\
    slice_type\
    pic_output_flag\
    colour_plane_id\
    slice_pic_order_cnt_lsb\
    short_term_ref_pic_set_sps_flag\
    st_ref_pic_set\
    short_term_ref_pic_set_idx\
    num_long_term_sps\
    num_long_term_pics\
    lt_idx_sps\
    poc_lsb_lt\
    used_by_curr_pic_lt_flag\
    delta_poc_msb_present_flag\
    delta_poc_msb_cycle_lt\
    slice_temporal_mvp_enabled_flag\
    slice_sao_luma_flag\
    slice_sao_chroma_flag\
    num_ref_idx_active_override_flag\
    num_ref_idx_l0_active_minus1\
    num_ref_idx_l1_active_minus1\
    ref_pic_lists_modification\
    mvd_l1_zero_flag\
    cabac_init_flag\
    collocated_from_l0_flag\
    collocated_ref_idx\
    pred_weight_table\
    five_minus_max_num_merge_cand\
    use_integer_mv_flag\
    slice_qp_delta\
    slice_qp_delta\
    slice_cb_qp_offset\
    slice_cb_qp_offset\
    slice_cr_qp_offset\
    slice_cr_qp_offset\
    slice_act_y_qp_offset\
    slice_act_cb_qp_offset\
    slice_act_cr_qp_offset\
    cu_chroma_qp_offset_enabled_flag\
    deblocking_filter_override_flag\
    slice_deblocking_filter_disabled_flag\
    slice_beta_offset_div2\
    slice_tc_offset_div2\
    slice_loop_filter_across_slices_enabled_flag\
    num_entry_point_offsets\
    offset_len_minus1\
    entry_point_offset_minus1\
    slice_segment_header_extension_length\
    slice_segment_header_extension_data_byte\
    alignment_bit_equal_to_one\
    alignment_bit_equal_to_zero\
    ref_pic_list_modification_flag_l0\
    list_entry_l0\
    ref_pic_list_modification_flag_l1\
    list_entry_l1\
    luma_log2_weight_denom\
    delta_chroma_log2_weight_denom\
    luma_weight_l0_flag\
    chroma_weight_l0_flag\
    delta_luma_weight_l0\
    luma_offset_l0\
    delta_chroma_weight_l0\
    delta_chroma_offset_l0\
    luma_weight_l1_flag\
    chroma_weight_l1_flag\
    delta_luma_weight_l1\
    luma_offset_l1\
    delta_chroma_weight_l1\
    delta_chroma_offset_l1\
    ";
