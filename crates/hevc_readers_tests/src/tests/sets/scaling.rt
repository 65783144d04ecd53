//! Worked scaling lists, and the values that 7.3.4 and 7.4.5 give for their bits.
use crate::tests::expect::{expect, expect_eq};
use hevc_elements::ElementReader;
use hevc_readers::{ParseError, default_scaling_lists, read_scaling_list_data};
use hevc_set_parts::ScalingLists;

/// Each kind of matrix at each size. `1 x y ..` is a matrix with coded entries and its differences,
/// `0 d` one that is copied:
///
/// - 4x4: 0 1 (d = 0) | 1, 000010011 (-9), 00100 (2), 14 times 1 (0) | 0 010 (d = 1) | 0 00100 (d = 3) | 0 1 | 0 00101 (d = 4)
/// - 8x8: 0 1 | 1, twice 000000011111110 (127), 61 times 1 (0), 0001101 (-6) | 0 011 (d = 2) | 0 1 | 0 010 (d = 1) | 0 00110 (d = 5)
/// - 16x16: 1, 00000000111101110 (247), 010 (1), 011 (-1), 62 times 1 (0) | 0 010 (d = 1) | 0 1
///   | 1, 0001111 (-7), 00000000100000001 (-128), 62 times 1 (0), 000000011111110 (127) | 0 010 (d
/// = 1) | 0 1
/// - 32x32: 1, 000011000 (12), 00000101001 (-20), 011 (-1), 00100 (2), 61 times 1 (0) | 0 010 (d = 1)
const EACH_KIND: &[u8] = &[
    0x61, 0x32, 0x7f, 0xfe, 0x42, 0x22, 0xb0, 0x1f, 0xc0, 0x3f, 0xbf, 0xff, 0xff, 0xff, 0xff, 0xff,
    0xff, 0xfe, 0x34, 0xd2, 0x1a, 0x01, 0xee, 0x4f, 0xff, 0xff, 0xff, 0xff, 0xff, 0xff, 0xff, 0xf2,
    0x63, 0xc0, 0x20, 0x3f, 0xff, 0xff, 0xff, 0xff, 0xff, 0xff, 0xff, 0x80, 0xfe, 0x26, 0x18, 0x05,
    0x2c, 0x9f, 0xff, 0xff, 0xff, 0xff, 0xff, 0xff, 0xff, 0x20,
];

/// A list with these first entries and this last one, and the same entry between them.
fn list(first: u8, second: u8, between: u8, last: u8) -> [u8; 64] {
    let mut entries = [between; 64];
    entries[0] = first;
    entries[1] = second;
    entries[63] = last;
    entries
}

#[test]
fn each_kind_of_matrix(rt: HostRuntime) {
    let rt = &rt;
    let defaults = default_scaling_lists();
    let intra = defaults.scaling_list_8x8[0];
    let inter = defaults.scaling_list_8x8[3];
    let flat = [16; 16];
    let mut of_4x4 = [1; 16];
    of_4x4[0] = 255;
    let of_8x8 = list(135, 6, 6, 0);
    let intra_16x16 = list(0, 255, 255, 255);
    let inter_16x16 = list(129, 129, 129, 0);
    let of_32x32 = list(0, 255, 1, 1);
    let mut want = ScalingLists::new();
    want.scaling_list_dc_coef_minus8_16x16 = [247, 247, 8, -7, -7, 8];
    want.scaling_list_dc_coef_minus8_32x32 = [12, 0, 0, 12, 0, 0];
    want.scaling_list_4x4 = [flat, of_4x4, of_4x4, flat, flat, of_4x4];
    want.scaling_list_8x8 = [intra, of_8x8, intra, inter, inter, intra];
    want.scaling_list_16x16 = [
        intra_16x16,
        intra_16x16,
        intra,
        inter_16x16,
        inter_16x16,
        inter,
    ];
    want.scaling_list_32x32[0] = of_32x32;
    want.scaling_list_32x32[3] = of_32x32;
    let mut r = ElementReader::new(EACH_KIND);
    let read = read_scaling_list_data(&mut r);
    expect(rt, read == Ok(want));
    expect_eq(rt, r.num_bits_left(), 4);
}

#[test]
fn default_lists_are_read_and_given(rt: HostRuntime) {
    let rt = &rt;
    // 20 times 0 1
    let mut r = ElementReader::new(&[0x55, 0x55, 0x55, 0x55, 0x55]);
    let read = read_scaling_list_data(&mut r);
    expect(rt, read == Ok(default_scaling_lists()));
    expect_eq(rt, r.num_bits_left(), 0);
}

#[test]
fn a_difference_above_its_matrix(rt: HostRuntime) {
    let rt = &rt;
    // 0 | 010: matrix 0 as the one before it
    let mut r = ElementReader::new(&[0x20]);
    let read = read_scaling_list_data(&mut r);
    expect(rt, read == Err(ParseError::OutOfRange { table: 6, row: 2 }));
    expect_eq(rt, r.num_bits_left(), 7);
    // 19 times 0 1, then 0 | 011: at 32x32 matrix 3 as the second one before it
    let mut r = ElementReader::new(&[0x55, 0x55, 0x55, 0x55, 0x54, 0xc0]);
    let read = read_scaling_list_data(&mut r);
    expect(rt, read == Err(ParseError::OutOfRange { table: 6, row: 2 }));
    expect_eq(rt, r.num_bits_left(), 9);
}

#[test]
fn refusals_stand_before_their_element(rt: HostRuntime) {
    let rt = &rt;
    // 12 times 0 1, then 1 | 000010001: -8
    let mut r = ElementReader::new(&[0x55, 0x55, 0x55, 0x84, 0x40]);
    let read = read_scaling_list_data(&mut r);
    expect(rt, read == Err(ParseError::OutOfRange { table: 6, row: 3 }));
    expect_eq(rt, r.num_bits_left(), 15);
    // 1 | 00000000100000000: 128
    let mut r = ElementReader::new(&[0x80, 0x40, 0x00]);
    let read = read_scaling_list_data(&mut r);
    expect(rt, read == Err(ParseError::OutOfRange { table: 6, row: 4 }));
    expect_eq(rt, r.num_bits_left(), 23);
    let mut r = ElementReader::new(&[]);
    let read = read_scaling_list_data(&mut r);
    expect(rt, read == Err(ParseError::OutOfBits));
    expect_eq(rt, r.num_bits_left(), 0);
}
