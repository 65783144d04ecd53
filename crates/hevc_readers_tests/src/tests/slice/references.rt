//! Worked rows.
ghost use Rattle.std.specs.Prelude.{◌<◌, length};

use crate::tests::expect::{expect_eq, ok};
use hevc_elements::ElementReader;
use hevc_elements::rows::skip;
use hevc_parser::ParseError;
use hevc_picture_slice::{Pps, SliceHeader};
use hevc_sequence_set::Sps;
use hevc_set_parts::{Items, ShortTermRefPicSet};
use hevc_slice_references::{bits_between, read_reference_lists, read_reference_pictures};
use hevc_spec::Row;
use std::alloc::{AllocError, Global};

/// A set of the picture before, which the current one refers to.
fn one_before() -> ShortTermRefPicSet {
    let mut set = ShortTermRefPicSet::new();
    let mut deltas = [0; 16];
    deltas[0] = -1;
    let mut used = [false; 16];
    used[0] = true;
    set.num_negative_pics = 1;
    set.num_delta_pocs = 1;
    set.delta_poc_s0 = deltas;
    set.used_by_curr_pic_s0 = used;
    set
}

/// A sequence set with two short-term sets: the empty one, and the picture before.
fn two_sets(alloc: Global) -> Result<Sps, AllocError> {
    let sets = Items::from_slice(alloc, &[ShortTermRefPicSet::new(), one_before()])?;
    let mut sps = Sps::new(alloc);
    sps.num_short_term_ref_pic_sets = 2;
    sps.short_term_ref_pic_set = sets;
    Ok(sps)
}

/// A sequence set with long-term pictures, three of its own.
fn long_term(alloc: Global) -> Sps {
    let mut sps = Sps::new(alloc);
    sps.long_term_ref_pics_present_flag = true;
    sps.num_long_term_ref_pics_sps = 3;
    let mut lsbs = [0; 32];
    lsbs[2] = 11;
    sps.lt_ref_pic_poc_lsb_sps = lsbs;
    let mut used = [false; 32];
    used[2] = true;
    sps.used_by_curr_pic_lt_sps_flag = used;
    sps
}

/// The refusal of the reference pictures of a slice, and the bits that are left.
fn refusal(alloc: Global, sps: &Sps, bytes: &[u8]) -> (Option<ParseError>, usize)
    requires { length bytes.now < 1000 }
{
    let mut r = ElementReader::new(bytes);
    let mut header = SliceHeader::new(alloc);
    let result = read_reference_pictures(&mut r, sps, &mut header);
    (result.err(), r.num_bits_left())
}

#[test]
fn a_set_of_the_sequence_set_is_the_current_one(rt: HostRuntime) {
    let rt = &rt;
    let sps = ok(rt, two_sets(rt.alloc()));
    let mut header = SliceHeader::new(rt.alloc());
    // 0101 | 1 | 1
    let mut r = ElementReader::new(&[0x5c]);
    ok(rt, read_reference_pictures(&mut r, &sps, &mut header));
    expect_eq(rt, r.num_bits_left(), 2);
    expect_eq(rt, header.pic_order_cnt_lsb, 5);
    expect_eq(
        rt,
        (header.short_term_ref_pic_set_idx, header.curr_rps_idx),
        (1, 1),
    );
    // 0, of a picture set with two places in list 0
    let mut pps = Pps::new();
    pps.num_ref_idx_l0_default_active_minus1 = 1;
    pps.scc_extension.curr_pic_ref_enabled_flag = true;
    ok(rt, read_reference_lists(&mut r, &sps, &pps, &mut header));
    expect_eq(rt, header.num_pic_total_curr, 2);
    expect_eq(rt, header.num_ref_idx_l0_active_minus1, 1);
    expect_eq(rt, r.num_bits_left(), 1);
}

#[test]
fn cycles_add_up_in_each_kind(rt: HostRuntime) {
    let rt = &rt;
    let sps = long_term(rt.alloc());
    let mut header = SliceHeader::new(rt.alloc());
    // 0000 | 0 | 1 | 1 | 011 | 011 | 10 1 010 | 10 1 011 | 0001 1 1 1 | 0010 0 1 1
    let mut r = ElementReader::new(&[0x06, 0xdd, 0x55, 0x8f, 0x26]);
    ok(rt, read_reference_pictures(&mut r, &sps, &mut header));
    expect_eq(
        rt,
        (header.num_long_term_sps, header.num_long_term_pics),
        (2, 2),
    );
    let lsbs = header.poc_lsb_lt;
    expect_eq(rt, (lsbs[0], lsbs[1], lsbs[2], lsbs[3]), (11, 11, 1, 2));
    let cycles = header.delta_poc_msb_cycle_lt;
    expect_eq(
        rt,
        (cycles[0], cycles[1], cycles[2], cycles[3]),
        (1, 3, 0, 0),
    );
    expect_eq(rt, header.st_rps_bits, 2);
}

#[test]
fn refusals_name_the_row(rt: HostRuntime) {
    let rt = &rt;
    let alloc = rt.alloc();
    let plain = Sps::new(alloc);
    // 0000 | 1, without sets
    expect_eq(
        rt,
        refusal(alloc, &plain, &[0x08]),
        (Some(ParseError::OutOfRange { table: 14, row: 11 }), 4),
    );
    // 0000 | 0 | 1 | 1 | 00101, four of three and more
    let many = long_term(alloc);
    expect_eq(
        rt,
        refusal(alloc, &many, &[0x06, 0x50]),
        (Some(ParseError::OutOfRange { table: 14, row: 14 }), 9),
    );
    // 0000 | 0 | 1 | 1 | 1 | 000010010, seventeen
    expect_eq(
        rt,
        refusal(alloc, &many, &[0x07, 0x09, 0x00]),
        (Some(ParseError::OutOfRange { table: 14, row: 15 }), 16),
    );
    // 0000 | 0 | 1 | 1 | 010 | 1 | 11, picture 3 of three
    expect_eq(
        rt,
        refusal(alloc, &many, &[0x06, 0xb8]),
        (Some(ParseError::OutOfRange { table: 14, row: 16 }), 5),
    );
}

#[test]
fn bits_between_two_places(rt: HostRuntime) {
    let mut r = ElementReader::new(&[0x00, 0x00, 0x03, 0x01, 0x02]);
    let before = r.fork();
    ok(&rt, skip(&mut r, Row(14, 53), 20));
    expect_eq(&rt, bits_between(&before, &r.fork()), 20);
}
