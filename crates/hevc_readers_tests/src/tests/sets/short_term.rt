//! Worked sets, and the values that 7.3.7 and 7.4.8 give for their bits.
use crate::tests::expect::{expect, expect_eq};
use hevc_elements::ElementReader;
use hevc_elements::rows::skip;
use hevc_readers::{ParseError, read_short_term_set};
use hevc_set_parts::ShortTermRefPicSet;
use hevc_spec::Row;
use hevc_worked_units::sets::neighbours;

/// Sixteen members before the picture: 000010001 | 1 | sixteen times 1 1.
const SIXTEEN_BEFORE: &[u8] = &[0x08, 0xff, 0xff, 0xff, 0xff, 0xc0];

/// The set of one member 2 before the picture and one 3 after it, both used.
fn two_before_three_after() -> ShortTermRefPicSet {
    let mut set = ShortTermRefPicSet::new();
    set.num_negative_pics = 1;
    set.num_positive_pics = 1;
    set.num_delta_pocs = 2;
    set.delta_poc_s0[0] = -2;
    set.delta_poc_s1[0] = 3;
    set.used_by_curr_pic_s0[0] = true;
    set.used_by_curr_pic_s1[0] = true;
    set
}

#[test]
fn members_that_are_written_out(rt: HostRuntime) {
    let rt = &rt;
    // 011 | 010 | 1 1 | 00100 0 | 010 1
    let mut r = ElementReader::new(&[0x6b, 0x21, 0x40]);
    let mut want = ShortTermRefPicSet::new();
    want.num_negative_pics = 2;
    want.num_positive_pics = 1;
    want.num_delta_pocs = 3;
    want.delta_poc_s0[0] = -1;
    want.delta_poc_s0[1] = -5;
    want.delta_poc_s1[0] = 2;
    want.used_by_curr_pic_s0[0] = true;
    want.used_by_curr_pic_s1[0] = true;
    let read = read_short_term_set(&mut r, &[], 0, 3, 0);
    expect(rt, read == Ok(want));
    expect_eq(rt, r.num_bits_left(), 6);
}

#[test]
fn a_shift_backwards(rt: HostRuntime) {
    let rt = &rt;
    // 1 | 1 | 1 | 1 1 1
    let mut r = ElementReader::new(&[0xfc]);
    let mut want = ShortTermRefPicSet::new();
    want.inter_ref_pic_set_prediction_flag = true;
    want.delta_rps_sign = true;
    want.num_negative_pics = 2;
    want.num_positive_pics = 1;
    want.num_delta_pocs = 3;
    want.delta_poc_s0[0] = -1;
    want.delta_poc_s0[1] = -3;
    want.delta_poc_s1[0] = 2;
    want.used_by_curr_pic_s0[0] = true;
    want.used_by_curr_pic_s0[1] = true;
    want.used_by_curr_pic_s1[0] = true;
    let read = read_short_term_set(&mut r, &[two_before_three_after()], 2, 16, 1);
    expect(rt, read == Ok(want));
    expect_eq(rt, r.num_bits_left(), 2);
}

#[test]
fn a_shift_forwards_onto_the_picture(rt: HostRuntime) {
    let rt = &rt;
    // 1 | 0 | 1 | 1 1 1
    let mut r = ElementReader::new(&[0xbc]);
    let mut want = ShortTermRefPicSet::new();
    want.inter_ref_pic_set_prediction_flag = true;
    want.num_positive_pics = 2;
    want.num_delta_pocs = 2;
    want.delta_poc_s1[0] = 1;
    want.delta_poc_s1[1] = 2;
    want.used_by_curr_pic_s1[0] = true;
    want.used_by_curr_pic_s1[1] = true;
    let read = read_short_term_set(&mut r, &[neighbours()], 2, 16, 1);
    expect(rt, read == Ok(want));
    expect_eq(rt, r.num_bits_left(), 2);
}

#[test]
fn a_slice_header_names_the_first_of_two_sets(rt: HostRuntime) {
    let rt = &rt;
    // 1 | 010 | 0 | 1 | 0 1, 0 0, 1
    let mut r = ElementReader::new(&[0xa5, 0x20]);
    let mut want = ShortTermRefPicSet::new();
    want.inter_ref_pic_set_prediction_flag = true;
    want.delta_idx_minus1 = 1;
    want.num_negative_pics = 1;
    want.num_positive_pics = 1;
    want.num_delta_pocs = 2;
    want.delta_poc_s0[0] = -1;
    want.delta_poc_s1[0] = 1;
    want.used_by_curr_pic_s1[0] = true;
    let sets = [two_before_three_after(), neighbours()];
    expect(rt, read_short_term_set(&mut r, &sets, 2, 16, 2) == Ok(want));
    expect_eq(rt, r.num_bits_left(), 5);
}

#[test]
fn a_predicted_set_of_seventeen(rt: HostRuntime) {
    let rt = &rt;
    let mut r = ElementReader::new(SIXTEEN_BEFORE);
    let mut other = ShortTermRefPicSet::new();
    if let Ok(set) = read_short_term_set(&mut r, &[], 1, 16, 0) {
        other = set;
    }
    let differences = other.delta_poc_s0();
    expect(rt, differences[15] == -16);
    // 1 | 1 | 1 | seventeen times 1
    let mut r = ElementReader::new(&[0xff, 0xff, 0xf0]);
    let read = read_short_term_set(&mut r, &[other], 2, 16, 1);
    expect(rt, read == Err(ParseError::OutOfRange { table: 7, row: 6 }));
    expect_eq(rt, r.num_bits_left(), 4);
}

#[test]
fn a_difference_of_more_than_32_bits(rt: HostRuntime) {
    let rt = &rt;
    let mut other = ShortTermRefPicSet::new();
    other.num_positive_pics = 1;
    other.num_delta_pocs = 1;
    other.delta_poc_s1[0] = i32::MAX;
    // 1 | 0 | 1 | 1 1
    let mut r = ElementReader::new(&[0xb8]);
    let read = read_short_term_set(&mut r, &[other], 2, 16, 1);
    expect(rt, read == Err(ParseError::OutOfRange { table: 7, row: 6 }));
    expect_eq(rt, r.num_bits_left(), 3);
}

#[test]
fn a_refusal_stands_before_its_element(rt: HostRuntime) {
    let rt = &rt;
    // 000010010: 17 members before the picture
    let mut r = ElementReader::new(&[0x09, 0x40]);
    let read = read_short_term_set(&mut r, &[], 0, 16, 0);
    expect(rt, read == Err(ParseError::OutOfRange { table: 7, row: 7 }));
    expect_eq(rt, r.num_bits_left(), 16);
    let mut r = ElementReader::new(&[]);
    expect(
        rt,
        read_short_term_set(&mut r, &[], 0, 16, 0) == Err(ParseError::OutOfBits),
    );
    // three bits before the set, 010 | 1 | 1, and no row 10
    let mut r = ElementReader::new(&[0x0b]);
    let _ = skip(&mut r, Row(7, 1), 3);
    expect(
        rt,
        read_short_term_set(&mut r, &[], 0, 16, 0) == Err(ParseError::OutOfBits),
    );
    expect_eq(rt, r.num_bits_left(), 0);
}
