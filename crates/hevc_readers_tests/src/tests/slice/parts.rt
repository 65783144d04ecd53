//! Worked parts.
ghost use Rattle.std.specs.Prelude.{◌<◌, length};

use crate::tests::expect::{expect, expect_eq};
use hevc_elements::ElementReader;
use hevc_parser::ParseError;
use hevc_sequence_set::Sps;
use hevc_slice_parts::{ceil_log2, read_pred_weight_table, read_ref_pic_list_modification};
use std::alloc::Global;

/// A sequence set of 8 bits with chroma.
fn with_chroma(alloc: Global) -> Sps {
    let mut sps = Sps::new(alloc);
    sps.chroma_format_idc = 1;
    sps.chroma_array_type = 1;
    sps
}

/// The refusal of a weight table of a B slice of one place in each list, and the bits that are
/// left.
fn refusal(alloc: Global, bytes: &[u8]) -> (Option<ParseError>, usize)
    requires { length bytes.now < 1000 }
{
    let mut r = ElementReader::new(bytes);
    let result = read_pred_weight_table(&mut r, &Sps::new(alloc), true, 0, 0);
    (result.err(), r.num_bits_left())
}

#[test]
fn an_index_takes_the_bits_of_the_greatest_one(rt: HostRuntime) {
    for (count, bits) in [(1, 0), (2, 1), (3, 2), (4, 2), (5, 3), (510, 9)] {
        assert_eq!(rt; ceil_log2(count), bits, "of {count}");
    }
}

#[test]
fn both_lists_are_ordered(rt: HostRuntime) {
    let rt = &rt;
    // 1 | 10 | 00 | 1 | 01
    let mut r = ElementReader::new(&[0xc5]);
    match read_ref_pic_list_modification(&mut r, true, 3, 1, 0) {
        Ok(m) => {
            expect(
                rt,
                m.ref_pic_list_modification_flag_l0() && m.ref_pic_list_modification_flag_l1(),
            );
            expect_eq(rt, m.list_entry_l0(), [2, 0].as_slice());
            expect_eq(rt, m.list_entry_l1(), [1].as_slice());
        }
        Err(_) => expect(rt, false),
    }
    expect_eq(rt, r.num_bits_left(), 0);
}

#[test]
fn a_p_slice_has_no_list_1(rt: HostRuntime) {
    let rt = &rt;
    let mut r = ElementReader::new(&[0x40]);
    match read_ref_pic_list_modification(&mut r, false, 2, 0, 0) {
        Ok(m) => expect(
            rt,
            !m.ref_pic_list_modification_flag_l0() && !m.ref_pic_list_modification_flag_l1(),
        ),
        Err(_) => expect(rt, false),
    }
    expect_eq(rt, r.num_bits_left(), 7);
}

#[test]
fn an_entry_is_one_of_the_pictures(rt: HostRuntime) {
    let rt = &rt;
    // 1 | 11
    let mut r = ElementReader::new(&[0xe0]);
    let refused = read_ref_pic_list_modification(&mut r, false, 3, 0, 0).err();
    expect_eq(
        rt,
        refused,
        Some(ParseError::OutOfRange { table: 15, row: 2 }),
    );
    expect_eq(rt, r.num_bits_left(), 7);
}

#[test]
fn a_p_slice_weighs_luma_and_chroma(rt: HostRuntime) {
    let rt = &rt;
    // 00100 | 011 | 1 0 | 0 1 | -5 | 7 | 2 | -3 | 0 | 511
    let mut r = ElementReader::new(&[0x23, 0x91, 0x63, 0x88, 0x78, 0x03, 0xfe]);
    match read_pred_weight_table(&mut r, &with_chroma(rt.alloc()), false, 1, 14) {
        Ok(t) => {
            expect_eq(rt, t.luma_log2_weight_denom(), 3);
            expect_eq(rt, t.delta_chroma_log2_weight_denom(), -1);
            expect_eq(rt, t.chroma_log2_weight_denom(), 2);
            let flags = t.luma_weight_l0_flag();
            expect(rt, flags[0] && !flags[1]);
            let chroma_flags = t.chroma_weight_l0_flag();
            expect(rt, !chroma_flags[0] && chroma_flags[1]);
            let weights = t.delta_luma_weight_l0();
            expect_eq(rt, weights[0], -5);
            let offsets = t.luma_offset_l0();
            expect_eq(rt, offsets[0], 7);
            let chroma_weights = t.delta_chroma_weight_l0();
            expect_eq(rt, chroma_weights[1], [2, 0]);
            let chroma_offsets = t.delta_chroma_offset_l0();
            expect_eq(rt, chroma_offsets[1], [-3, 511]);
            expect_eq(rt, t.luma_weight_l1_flag(), [false; 15]);
        }
        Err(_) => expect(rt, false),
    }
    expect_eq(rt, r.num_bits_left(), 0);
}

#[test]
fn a_b_slice_weighs_both_lists(rt: HostRuntime) {
    let rt = &rt;
    // 0001000 | 0 | 0 1 | 127 | -128, without chroma
    let mut r = ElementReader::new(&[0x10, 0x40, 0x7f, 0x00, 0x40, 0x40]);
    match read_pred_weight_table(&mut r, &Sps::new(rt.alloc()), true, 0, 1) {
        Ok(t) => {
            expect_eq(rt, t.luma_log2_weight_denom(), 7);
            expect_eq(rt, t.chroma_log2_weight_denom(), 0);
            expect_eq(rt, t.luma_weight_l0_flag(), [false; 15]);
            let flags = t.luma_weight_l1_flag();
            expect(rt, !flags[0] && flags[1]);
            let weights = t.delta_luma_weight_l1();
            expect_eq(rt, weights[1], 127);
            let offsets = t.luma_offset_l1();
            expect_eq(rt, offsets[1], -128);
        }
        Err(_) => expect(rt, false),
    }
    expect_eq(rt, r.num_bits_left(), 6);
}

#[test]
fn refusals_name_the_row_of_the_list(rt: HostRuntime) {
    let rt = &rt;
    let alloc = rt.alloc();
    expect_eq(rt, refusal(alloc, &[]), (Some(ParseError::OutOfBits), 0));
    expect_eq(
        rt,
        refusal(alloc, &[0xe0, 0x10, 0x00]),
        (Some(ParseError::OutOfRange { table: 16, row: 6 }), 21),
    );
    expect_eq(
        rt,
        refusal(alloc, &[0xa0, 0x10, 0x00]),
        (Some(ParseError::OutOfRange { table: 16, row: 11 }), 21),
    );
}

#[test]
fn chroma_is_bounded_by_its_own_range(rt: HostRuntime) {
    let rt = &rt;
    let sps = with_chroma(rt.alloc());
    // 1 | 1 | 0 | 1 | 1 | 512
    let mut r = ElementReader::new(&[0xd8, 0x01, 0x00, 0x00]);
    let refused = read_pred_weight_table(&mut r, &sps, false, 0, 0).err();
    expect_eq(
        rt,
        refused,
        Some(ParseError::OutOfRange { table: 16, row: 8 }),
    );
    // 011 | 00111
    let mut r = ElementReader::new(&[0x67]);
    let refused = read_pred_weight_table(&mut r, &sps, false, 0, 0).err();
    expect_eq(
        rt,
        refused,
        Some(ParseError::OutOfRange { table: 16, row: 2 }),
    );
    expect_eq(rt, r.num_bits_left(), 5);
}
