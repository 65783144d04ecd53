//! Worked structures, and the values that E.2.1 gives for their bits.
use crate::tests::expect::{expect, expect_eq, ok};
use hevc_elements::ElementReader;
use hevc_readers::{ParseError, read_vui_parameters};
use hevc_video_set::{HrdParams, VuiParams};

/// A structure with every group of elements, a 03 that is dropped in num_units_in_tick, and both
/// kinds of schedules:
///
/// - rows 1 to 3: 1 11111111 0001000000000001 0000000100000010; rows 4 and 5: 1 1
/// - rows 6 to 9: 1 | 010 1 1 | 00001001 00010000 00001010; rows 10 to 12: 1 011 00100
/// - rows 13 and 14: 0 1 0 1 | 010 011 00100 00101
/// - rows 15 to 19: 1 | 10000000000000000000000000000001 00000000000000001110101001100000 | 1 0001000 | 1
/// - table 3: 1 1 | 1 | 01100100 01011 1 00111 | 0011 0100 0101 10110 10101 10100; 1 00110 1
/// - table 4: 0000000001111101001 000000000011111010001 00000000100101101 00000000110010001 1, and
///   010 011 00100 00101 0
/// - rows 21 to 26: 1 | 1 0 1 | 0000000000001000000000000 | 00100 00101 | 000010001 | 0001111
const EVERY_GROUP: &[u8] = &[
    0xff, 0x88, 0x00, 0x80, 0x81, 0x75, 0x84, 0x88, 0x05, 0x59, 0x15, 0x32, 0x17, 0x00, 0x00, 0x03,
    0x00, 0x02, 0x00, 0x01, 0xd4, 0xc1, 0x11, 0xec, 0x8b, 0x9c, 0xd1, 0x6d, 0x5a, 0x4d, 0x00, 0x7d,
    0x20, 0x07, 0xd1, 0x00, 0x96, 0x80, 0x64, 0x69, 0x90, 0xad, 0x00, 0x08, 0x00, 0x10, 0xa1, 0x11,
    0xe0,
];

/// What `EVERY_GROUP` has at rows 1 to 14.
fn put_appearance(vui: &mut VuiParams) {
    vui.aspect_ratio_info_present_flag = true;
    vui.aspect_ratio_idc = 255;
    vui.sar_width = 4097;
    vui.sar_height = 258;
    vui.overscan_info_present_flag = true;
    vui.overscan_appropriate_flag = true;
    vui.video_signal_type_present_flag = true;
    vui.video_format = 2;
    vui.video_full_range_flag = true;
    vui.colour_description_present_flag = true;
    vui.colour_primaries = 9;
    vui.transfer_characteristics = 16;
    vui.matrix_coeffs = 10;
    vui.chroma_loc_info_present_flag = true;
    vui.chroma_sample_loc_type_top_field = 2;
    vui.chroma_sample_loc_type_bottom_field = 3;
    vui.field_seq_flag = true;
    vui.default_display_window_flag = true;
    vui.def_disp_win_left_offset = 1;
    vui.def_disp_win_right_offset = 2;
    vui.def_disp_win_top_offset = 3;
    vui.def_disp_win_bottom_offset = 4;
}

/// What `EVERY_GROUP` has at rows 15 to 26, but for row 20.
fn put_timing(vui: &mut VuiParams) {
    vui.timing_info_present_flag = true;
    vui.num_units_in_tick = 0x8000_0001;
    vui.time_scale = 60_000;
    vui.poc_proportional_to_timing_flag = true;
    vui.num_ticks_poc_diff_one_minus1 = 7;
    vui.hrd_parameters_present_flag = true;
    vui.bitstream_restriction_flag = true;
    vui.tiles_fixed_structure_flag = true;
    vui.motion_vectors_over_pic_boundaries_flag = false;
    vui.restricted_ref_pic_lists_flag = true;
    vui.min_spatial_segmentation_idc = 4095;
    vui.max_bytes_per_pic_denom = 3;
    vui.max_bits_per_min_cu_denom = 4;
    vui.log2_max_mv_length_horizontal = 16;
    vui.log2_max_mv_length_vertical = 14;
}

/// What `EVERY_GROUP` has of tables 3 and 4.
#[tactic(auto, using(hevc_hrd::proofs::Places::places))]
fn put_hrd(hrd: &mut HrdParams) {
    hrd.nal_hrd_parameters_present_flag = true;
    hrd.vcl_hrd_parameters_present_flag = true;
    hrd.sub_pic_hrd_params_present_flag = true;
    hrd.tick_divisor_minus2 = 100;
    hrd.du_cpb_removal_delay_increment_length_minus1 = 11;
    hrd.sub_pic_cpb_params_in_pic_timing_sei_flag = true;
    hrd.dpb_output_delay_du_length_minus1 = 7;
    hrd.bit_rate_scale = 3;
    hrd.cpb_size_scale = 4;
    hrd.cpb_size_du_scale = 5;
    hrd.initial_cpb_removal_delay_length_minus1 = 22;
    hrd.au_cpb_removal_delay_length_minus1 = 21;
    hrd.dpb_output_delay_length_minus1 = 20;
    hrd.fixed_pic_rate_general_flag[0] = true;
    hrd.fixed_pic_rate_within_cvs_flag[0] = true;
    hrd.elemental_duration_in_tc_minus1[0] = 5;
    hrd.nal_hrd[0].bit_rate_value_minus1[0] = 1000;
    hrd.nal_hrd[0].cpb_size_value_minus1[0] = 2000;
    hrd.nal_hrd[0].cpb_size_du_value_minus1[0] = 300;
    hrd.nal_hrd[0].bit_rate_du_value_minus1[0] = 400;
    hrd.nal_hrd[0].cbr_flag[0] = true;
    hrd.vcl_hrd[0].bit_rate_value_minus1[0] = 1;
    hrd.vcl_hrd[0].cpb_size_value_minus1[0] = 2;
    hrd.vcl_hrd[0].cpb_size_du_value_minus1[0] = 3;
    hrd.vcl_hrd[0].bit_rate_du_value_minus1[0] = 4;
}

#[test]
fn every_group_with_both_kinds_of_schedules(rt: HostRuntime) {
    let rt = &rt;
    let mut want = VuiParams::new();
    put_appearance(&mut want);
    put_timing(&mut want);
    put_hrd(&mut want.hrd);
    let mut r = ElementReader::new(EVERY_GROUP);
    let mut read = VuiParams::new();
    ok(rt, read_vui_parameters(&mut r, 0, &mut read));
    expect(rt, read == want);
    expect_eq(rt, r.num_bits_left(), 5);
}

#[test]
fn no_flag_is_set(rt: HostRuntime) {
    let rt = &rt;
    let mut r = ElementReader::new(&[0x00, 0x20]);
    let mut read = VuiParams::new();
    read.video_format = 5;
    ok(rt, read_vui_parameters(&mut r, 6, &mut read));
    expect(rt, read == VuiParams::new());
    expect_eq(rt, r.num_bits_left(), 6);
}

#[test]
fn a_refusal_stands_before_its_element(rt: HostRuntime) {
    let rt = &rt;
    // 0 | 0 | 0 | 1 00111: a place of chroma samples of 6
    let mut r = ElementReader::new(&[0x13, 0x80]);
    let mut vui = VuiParams::new();
    let read = read_vui_parameters(&mut r, 0, &mut vui);
    expect(
        rt,
        read == Err(ParseError::OutOfRange { table: 8, row: 11 }),
    );
    expect_eq(rt, r.num_bits_left(), 12);
    let mut r = ElementReader::new(&[0xff]);
    expect(
        rt,
        read_vui_parameters(&mut r, 0, &mut vui) == Err(ParseError::OutOfBits),
    );
    expect_eq(rt, r.num_bits_left(), 7);
}
