//! The readers over spelled elements (9.2).
use crate::tests::expect::{expect, expect_eq, ok};
use hevc_bits::BitError;
use hevc_elements::rows::{
    bits_32, bits_u8, bits_u8_if, bits_u32, bits_u32_if, check, flag, flag_if, flag_or,
    out_of_range, refusal, se, se_i8, skip, ue, ue_if, ue_u8, ue_u8_if, ue_u16, zero, zero_if,
};
use hevc_elements::{Descriptor, ElementReader, ParseError, Told};
use hevc_spec::Row;
use std::process::Abort;

const ROW: Row = Row(5, 8);

/// Reads 1 | 1 | 0 | 10110 | 101 | 10.
fn reads_flags_and_bits(rt: &impl Abort, r: &mut ElementReader<'_>) {
    expect_eq(rt, flag(r, ROW), Ok(true));
    expect_eq(rt, flag_if(r, true, ROW), Ok(true));
    expect_eq(rt, flag_if(r, false, ROW), Ok(false));
    expect_eq(rt, flag_or(r, true, true, ROW), Ok(false));
    expect_eq(rt, flag_or(r, false, true, ROW), Ok(true));
    expect_eq(rt, bits_u32(r, ROW, 5, 0, 31), Ok(22));
    expect_eq(rt, bits_u8(r, ROW, 3, 0, 7), Ok(5));
    expect_eq(rt, bits_u8_if(r, true, ROW, 2, 0, 3), Ok(2));
    expect_eq(rt, bits_u8_if(r, false, ROW, 2, 0, 3), Ok(0));
}

/// Reads 00101 | 011 | 0001000 | 010 | 00101 | 00110.
fn reads_numbers(rt: &impl Abort, r: &mut ElementReader<'_>) {
    expect_eq(rt, ue(r, ROW, 0, 4), Ok(4));
    expect_eq(rt, ue_u8(r, ROW, 0, 2), Ok(2));
    expect_eq(rt, ue_u16(r, ROW, 1, 16_888), Ok(7));
    expect_eq(rt, ue_u8_if(r, true, ROW, 0, 3), Ok(1));
    expect_eq(rt, ue_u8_if(r, false, ROW, 0, 3), Ok(0));
    expect_eq(rt, se(r, ROW, -2, 2), Ok(-2));
    expect_eq(rt, se_i8(r, ROW, -6, 6), Ok(3));
}

/// Reads 0 | 0 | 111 | 1.
fn reads_what_has_no_value(rt: &impl Abort, r: &mut ElementReader<'_>) {
    expect_eq(rt, zero(r, ROW), Ok(()));
    expect_eq(rt, zero_if(r, true, ROW), Ok(()));
    expect_eq(rt, zero_if(r, false, ROW), Ok(()));
    expect_eq(rt, skip(r, ROW, 3), Ok(()));
    expect_eq(rt, check(r, ROW, true), Ok(()));
    expect_eq(rt, flag(r, ROW), Ok(true));
}

#[test]
fn elements_are_read_where_they_stand(rt: HostRuntime) {
    let rt = &rt;
    let mut r = ElementReader::new(&[0xd6, 0xb1, 0x58, 0x84, 0x53, 0x1e]);
    reads_flags_and_bits(rt, &mut r);
    reads_numbers(rt, &mut r);
    reads_what_has_no_value(rt, &mut r);
}

#[test]
fn refusals_name_the_row(rt: HostRuntime) {
    let rt = &rt;
    let refused = Err(ParseError::OutOfRange { table: 5, row: 8 });
    let mut r = ElementReader::new(&[0x28]);
    expect_eq(rt, ue(&mut r, ROW, 0, 3), refused);
    expect_eq(rt, bits_u32(&mut r, ROW, 3, 0, 0), refused);
    expect_eq(
        rt,
        bits_u32(&mut r, ROW, 9, 0, 511),
        Err(ParseError::OutOfBits),
    );
    expect_eq(rt, out_of_range(ROW), refusal(BitError::OutOfRange, ROW));
}

#[test]
fn long_numbers_and_absent_ones(rt: HostRuntime) {
    let rt = &rt;
    // 10000000000000000000000000000001 | 101 | 00110
    let mut r = ElementReader::new(&[0x80, 0x00, 0x00, 0x01, 0xa6]);
    let r = &mut r;
    expect_eq(rt, bits_32(r, ROW), Ok(2_147_483_649));
    expect_eq(rt, bits_u32_if(r, true, ROW, 3, 0, 7), Ok(5));
    expect_eq(rt, bits_u32_if(r, false, ROW, 3, 0, 7), Ok(0));
    expect_eq(rt, ue_if(r, true, ROW, 0, 9), Ok(5));
    expect_eq(rt, ue_if(r, false, ROW, 0, 9), Ok(0));
    let mut r = ElementReader::new(&[0x12, 0x34, 0x56]);
    expect_eq(rt, bits_32(&mut r, ROW), Err(ParseError::OutOfBits));
    expect_eq(rt, r.num_bits_left(), 24);
}

/// An element of the row.
fn told(descriptor: Descriptor, value: i64) -> Told {
    Told {
        row: ROW,
        descriptor,
        value,
    }
}

#[test]
fn elements_are_told_as_they_are_read(rt: HostRuntime) {
    let alloc = rt.alloc();
    let rt = &rt;
    let list = ok(rt, Vec::with_capacity(alloc, 9));
    // 1 | 10110 | 00101 | 00101 | 0 | 101
    let mut r = ElementReader::telling(&[0xd8, 0xa5, 0x50], list);
    expect_eq(rt, flag(&mut r, ROW), Ok(true));
    expect_eq(rt, bits_u32(&mut r, ROW, 5, 0, 31), Ok(22));
    expect_eq(rt, flag_if(&mut r, false, ROW), Ok(false));
    expect_eq(rt, ue(&mut r, ROW, 0, 4), Ok(4));
    expect_eq(rt, se(&mut r, ROW, -2, 2), Ok(-2));
    expect_eq(rt, zero(&mut r, ROW), Ok(()));
    expect_eq(rt, skip(&mut r, ROW, 3), Ok(()));
    expect_eq(rt, check(&mut r, ROW, true), Ok(()));
    let elements = r.take_told(alloc);
    assert!(rt; elements.len() == 8);
    expect(rt, elements[0] == told(Descriptor::U(1), 1));
    expect(rt, elements[1] == told(Descriptor::U(5), 22));
    expect(rt, elements[2] == told(Descriptor::Ue, 4));
    expect(rt, elements[3] == told(Descriptor::Se, -2));
    expect(rt, elements[4] == told(Descriptor::U(1), 0));
    // What isn't kept is told bit by bit.
    expect(rt, elements[5] == told(Descriptor::U(1), 1));
    expect(rt, elements[6] == told(Descriptor::U(1), 0));
    expect(rt, elements[7] == told(Descriptor::U(1), 1));
}

#[test]
fn a_refused_element_is_told_and_then_the_list_is_full(rt: HostRuntime) {
    let alloc = rt.alloc();
    let rt = &rt;
    let list = ok(rt, Vec::with_capacity(alloc, 2));
    // 00101 | 011 | 1
    let mut r = ElementReader::telling(&[0x2b, 0x80], list);
    expect_eq(
        rt,
        ue(&mut r, ROW, 0, 3),
        Err(ParseError::OutOfRange { table: 5, row: 8 }),
    );
    expect_eq(rt, r.num_bits_left(), 16);
    expect_eq(rt, ue(&mut r, ROW, 0, 4), Ok(4));
    expect_eq(rt, ue(&mut r, ROW, 0, 4), Ok(2));
    let elements = r.take_told(alloc);
    assert!(rt; elements.len() == 2);
    expect(rt, elements[0] == told(Descriptor::Ue, 4));
    expect(rt, elements[1] == told(Descriptor::Ue, 4));
    // After that nothing is told.
    expect_eq(rt, flag(&mut r, ROW), Ok(true));
    expect_eq(rt, r.take_told(alloc).len(), 0);
}
