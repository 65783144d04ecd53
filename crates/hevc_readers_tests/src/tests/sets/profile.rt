//! Worked structures, and the values that 7.3.3 gives for their bits.
use crate::tests::expect::{expect, expect_eq};
use hevc_elements::ElementReader;
use hevc_readers::{ParseError, read_profile_tier_level};
use hevc_set_parts::{Level, ProfileTierLevel};

/// A stream of the range extensions' profile with a sub-layer of the Main 10 profile below its
/// highest; a byte more comes after it:
///
/// - rows 1 to 5: 00 1 00100 00001000000000000000000000000000 1011
/// - rows 6 to 15: 110100101, 34 ones, 1; row 27: 01111011; row 28: 1 1; row 29: 14 ones
/// - row 30: 10 0 00010 01100000000000000000000000000000 0101, 7 ones, 1, 35 ones, 1; row 31: 01011101
const RANGE_EXTENSIONS: &[u8] = &[
    0x24, 0x08, 0x00, 0x00, 0x03, 0x00, 0xbd, 0x2f, 0xff, 0xff, 0xff, 0xff, 0x7b, 0xff, 0xff, 0x82,
    0x60, 0x00, 0x00, 0x03, 0x00, 0x5f, 0xff, 0xff, 0xff, 0xff, 0xff, 0x5d, 0x80,
];

/// A stream with two sub-layers below its highest, of which one has a level alone and one a profile
/// alone:
///
/// - rows 1 to 5: 11 0 00110, 32 zeros, 0010; rows 6 to 15: 000000010, 34 zeros, 1; row 27: 10111010
/// - row 28: 0 1 and 1 0; row 29: 12 zeros; row 31 of sub-layer 0: 00011110
/// - row 30 of sub-layer 1: 01 1 00000 00000000000100000000000000000000 0100 001000000 1, 33 ones, 1
const LEVEL_OR_PROFILE: &[u8] = &[
    0xc6, 0x00, 0x00, 0x03, 0x00, 0x00, 0x20, 0x10, 0x00, 0x00, 0x03, 0x00, 0x01, 0xba, 0x60, 0x00,
    0x1e, 0x60, 0x00, 0x10, 0x00, 0x00, 0x42, 0x07, 0xff, 0xff, 0xff, 0xff,
];

#[test]
fn range_extensions_with_a_sub_layer(rt: HostRuntime) {
    let rt = &rt;
    let mut want = ProfileTierLevel::new();
    want.general_tier_flag = true;
    want.general_profile_idc = 4;
    want.general_profile_compatibility_flag[4] = true;
    want.general_progressive_source_flag = true;
    want.general_non_packed_constraint_flag = true;
    want.general_frame_only_constraint_flag = true;
    want.general_max_12bit_constraint_flag = true;
    want.general_max_10bit_constraint_flag = true;
    want.general_max_422chroma_constraint_flag = true;
    want.general_intra_constraint_flag = true;
    want.general_lower_bit_rate_constraint_flag = true;
    want.general_inbld_flag = true;
    want.general_level_idc = Level::L4_1;
    want.sub_layer_profile_present_flag[0] = true;
    want.sub_layer_level_present_flag[0] = true;
    want.sub_layer_profile_space[0] = 2;
    want.sub_layer_profile_idc[0] = 2;
    want.sub_layer_profile_compatibility_flag[0][1] = true;
    want.sub_layer_profile_compatibility_flag[0][2] = true;
    want.sub_layer_interlaced_source_flag[0] = true;
    want.sub_layer_frame_only_constraint_flag[0] = true;
    want.sub_layer_one_picture_only_constraint_flag[0] = true;
    want.sub_layer_inbld_flag[0] = true;
    want.sub_layer_level_idc[0] = Level::L3_1;
    let mut r = ElementReader::new(RANGE_EXTENSIONS);
    expect(rt, read_profile_tier_level(&mut r, 1) == Ok(want));
    expect_eq(rt, r.num_bits_left(), 8);
}

#[test]
fn a_level_or_a_profile_alone(rt: HostRuntime) {
    let rt = &rt;
    let mut want = ProfileTierLevel::new();
    want.general_profile_space = 3;
    want.general_profile_idc = 6;
    want.general_non_packed_constraint_flag = true;
    want.general_one_picture_only_constraint_flag = true;
    want.general_level_idc = Level::L6_2;
    want.sub_layer_level_present_flag[0] = true;
    want.sub_layer_level_idc[0] = Level::L1;
    want.sub_layer_profile_present_flag[1] = true;
    want.sub_layer_profile_space[1] = 1;
    want.sub_layer_tier_flag[1] = true;
    want.sub_layer_profile_compatibility_flag[1][11] = true;
    want.sub_layer_interlaced_source_flag[1] = true;
    want.sub_layer_max_8bit_constraint_flag[1] = true;
    want.sub_layer_max_14bit_constraint_flag[1] = true;
    want.sub_layer_inbld_flag[1] = true;
    let mut r = ElementReader::new(LEVEL_OR_PROFILE);
    expect(rt, read_profile_tier_level(&mut r, 2) == Ok(want));
    expect_eq(rt, r.num_bits_left(), 0);
}

#[test]
fn a_refusal_stands_before_its_element(rt: HostRuntime) {
    let rt = &rt;
    // 00 0 00001, the flag of profile 1 of 32, 1001, 43 zeros, 0, and level 0
    let mut r = ElementReader::new(&[
        0x01, 0x40, 0x00, 0x00, 0x03, 0x00, 0x90, 0x00, 0x00, 0x03, 0x00, 0x00, 0x03, 0x00, 0x00,
    ]);
    let read = read_profile_tier_level(&mut r, 0);
    expect(
        rt,
        read == Err(ParseError::OutOfRange { table: 2, row: 27 }),
    );
    expect_eq(rt, r.num_bits_left(), 8);
    let mut r = ElementReader::new(&[0xc6]);
    expect(
        rt,
        read_profile_tier_level(&mut r, 0) == Err(ParseError::OutOfBits),
    );
    expect_eq(rt, r.num_bits_left(), 0);
}
