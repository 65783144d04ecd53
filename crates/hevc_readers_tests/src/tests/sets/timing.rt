//! Worked structures, and the values that E.2.2 and E.2.3 give for their bits.
use crate::tests::expect::{expect, expect_eq, ok};
use hevc_elements::ElementReader;
use hevc_readers::{ParseError, read_hrd_parameters};
use hevc_video_set::HrdParams;

/// Both kinds of schedules, decoding units, and two sub-layers:
///
/// - rows 1 to 9: 1 1 | 1 | 01100100 | 01011 | 1 | 00111 | 0011 0100 | 0101 | 10110 10101 10100
/// - sub-layer 0: 1 | 00110 | 010; two schedules for NAL units:
///   0000000001111101001 000000000011111010001 | 00000000100101101 00000000110010001 | 1,   0001000
/// 0001001 | 0001010 0001011 | 0; and for VCL units: 010 011 | 00100 00101 | 0, 00110 00111 |
/// 0001000 0001001 | 1
/// - sub-layer 1: 0 | 0 | 1; one schedule for NAL units: 0001100 0001101 | 0001110 0001111 | 1; and for VCL units:
///   000010000 000010001 | 000010010 000010011 | 0
const BOTH_KINDS: &[u8] = &[
    0xec, 0x8b, 0x9c, 0xd1, 0x6d, 0x5a, 0x4c, 0x80, 0x1f, 0x48, 0x01, 0xf4, 0x40, 0x25, 0xa0, 0x19,
    0x18, 0x81, 0x22, 0x85, 0x93, 0x21, 0x46, 0x38, 0x81, 0x32, 0x30, 0x68, 0xe1, 0xf0, 0x80, 0x44,
    0x24, 0x13, 0x00,
];

/// What `BOTH_KINDS` has for its sub-layer 0.
#[tactic(auto, using(hevc_hrd::proofs::Places::places))]
fn put_first_sub_layer(hrd: &mut HrdParams) {
    hrd.fixed_pic_rate_general_flag[0] = true;
    hrd.fixed_pic_rate_within_cvs_flag[0] = true;
    hrd.elemental_duration_in_tc_minus1[0] = 5;
    hrd.cpb_cnt_minus1[0] = 1;
    hrd.nal_hrd[0].bit_rate_value_minus1[0] = 1000;
    hrd.nal_hrd[0].cpb_size_value_minus1[0] = 2000;
    hrd.nal_hrd[0].cpb_size_du_value_minus1[0] = 300;
    hrd.nal_hrd[0].bit_rate_du_value_minus1[0] = 400;
    hrd.nal_hrd[0].cbr_flag[0] = true;
    hrd.nal_hrd[0].bit_rate_value_minus1[1] = 7;
    hrd.nal_hrd[0].cpb_size_value_minus1[1] = 8;
    hrd.nal_hrd[0].cpb_size_du_value_minus1[1] = 9;
    hrd.nal_hrd[0].bit_rate_du_value_minus1[1] = 10;
    hrd.vcl_hrd[0].bit_rate_value_minus1[0] = 1;
    hrd.vcl_hrd[0].cpb_size_value_minus1[0] = 2;
    hrd.vcl_hrd[0].cpb_size_du_value_minus1[0] = 3;
    hrd.vcl_hrd[0].bit_rate_du_value_minus1[0] = 4;
    hrd.vcl_hrd[0].bit_rate_value_minus1[1] = 5;
    hrd.vcl_hrd[0].cpb_size_value_minus1[1] = 6;
    hrd.vcl_hrd[0].cpb_size_du_value_minus1[1] = 7;
    hrd.vcl_hrd[0].bit_rate_du_value_minus1[1] = 8;
    hrd.vcl_hrd[0].cbr_flag[1] = true;
}

/// What `BOTH_KINDS` has for its sub-layer 1.
fn put_second_sub_layer(hrd: &mut HrdParams) {
    hrd.low_delay_hrd_flag[1] = true;
    hrd.nal_hrd[1].bit_rate_value_minus1[0] = 11;
    hrd.nal_hrd[1].cpb_size_value_minus1[0] = 12;
    hrd.nal_hrd[1].cpb_size_du_value_minus1[0] = 13;
    hrd.nal_hrd[1].bit_rate_du_value_minus1[0] = 14;
    hrd.nal_hrd[1].cbr_flag[0] = true;
    hrd.vcl_hrd[1].bit_rate_value_minus1[0] = 15;
    hrd.vcl_hrd[1].cpb_size_value_minus1[0] = 16;
    hrd.vcl_hrd[1].cpb_size_du_value_minus1[0] = 17;
    hrd.vcl_hrd[1].bit_rate_du_value_minus1[0] = 18;
}

#[test]
fn both_kinds_with_decoding_units(rt: HostRuntime) {
    let rt = &rt;
    let mut want = HrdParams::new();
    want.nal_hrd_parameters_present_flag = true;
    want.vcl_hrd_parameters_present_flag = true;
    want.sub_pic_hrd_params_present_flag = true;
    want.tick_divisor_minus2 = 100;
    want.du_cpb_removal_delay_increment_length_minus1 = 11;
    want.sub_pic_cpb_params_in_pic_timing_sei_flag = true;
    want.dpb_output_delay_du_length_minus1 = 7;
    want.bit_rate_scale = 3;
    want.cpb_size_scale = 4;
    want.cpb_size_du_scale = 5;
    want.initial_cpb_removal_delay_length_minus1 = 22;
    want.au_cpb_removal_delay_length_minus1 = 21;
    want.dpb_output_delay_length_minus1 = 20;
    put_first_sub_layer(&mut want);
    put_second_sub_layer(&mut want);
    let mut r = ElementReader::new(BOTH_KINDS);
    let mut read = HrdParams::new();
    ok(rt, read_hrd_parameters(&mut r, true, 1, &mut read));
    expect(rt, read == want);
    expect_eq(rt, r.num_bits_left(), 7);
}

#[test]
fn a_structure_without_common_elements(rt: HostRuntime) {
    let rt = &rt;
    // 0 | 1 | 1 | 1 | 00100 00101 | 1
    let mut r = ElementReader::new(&[0x72, 0x16]);
    let mut before = HrdParams::new();
    before.vcl_hrd_parameters_present_flag = true;
    before.bit_rate_scale = 9;
    before.dpb_output_delay_length_minus1 = 30;
    let mut want = before;
    before.low_delay_hrd_flag[0] = true;
    before.vcl_hrd[0].cbr_flag[1] = true;
    want.fixed_pic_rate_within_cvs_flag[0] = true;
    want.vcl_hrd[0].bit_rate_value_minus1[0] = 3;
    want.vcl_hrd[0].cpb_size_value_minus1[0] = 4;
    want.vcl_hrd[0].cbr_flag[0] = true;
    ok(rt, read_hrd_parameters(&mut r, false, 0, &mut before));
    expect(rt, before == want);
    expect_eq(rt, r.num_bits_left(), 1);
}

#[test]
fn refusals_stand_before_their_element(rt: HostRuntime) {
    let rt = &rt;
    // 0 0 | 1 | 1 | 00000100001: 33 schedules
    let mut r = ElementReader::new(&[0x30, 0x42]);
    let mut hrd = HrdParams::new();
    let read = read_hrd_parameters(&mut r, true, 0, &mut hrd);
    expect(
        rt,
        read == Err(ParseError::OutOfRange { table: 3, row: 14 }),
    );
    expect_eq(rt, r.num_bits_left(), 12);
    // 1 0 | 0 | 0000, and one bit of the second row 7
    let mut r = ElementReader::new(&[0x80]);
    let read = read_hrd_parameters(&mut r, true, 0, &mut hrd);
    expect(rt, read == Err(ParseError::OutOfBits));
    expect_eq(rt, r.num_bits_left(), 1);
}
