//! Worked headers, each in a stream of its own.
ghost use Rattle.std.specs.Prelude.{◌<◌, length};

use crate::tests::expect::{expect, expect_eq, ok};
use crate::tests::streams::{NO_SET, P_SLICE, PICTURE_SET};
use hevc_bits::{Nalu, NaluHeader};
use hevc_boxed::Boxed;
use hevc_elements::ElementReader;
use hevc_parser::{ParseError, parse_pred_weight_table};
use hevc_picture_slice::{Pps, SliceHeader};
use hevc_sequence_set::Sps;
use hevc_slice_header::read_slice_header;
use hevc_worked_units::sets::{column, referring_column, tall_column};
use hevc_worked_units::streams::{
    FAR_ENTRY_POINT, HEADER_EXTENSION, LATER_SEGMENT, MANY_ENTRY_POINTS, ONE_LIST, TWO_LISTS,
};
use std::alloc::Global;
use std::collections::BTreeMap;
use std::process::Abort;

/// An I slice of an IDR picture that names picture set 5.
const OTHER_SET: &[u8] = &[0x00, 0x00, 0x01, 0x26, 0x01, 0x8d, 0x80];

/// An I slice with 439 entry points.
const WAVEFRONTS: &[u8] = &[
    0x00, 0x00, 0x01, 0x26, 0x01, 0xae, 0x01, 0xb8, 0x10, 0xaa, 0xaa, 0xaa, 0xaa, 0xaa, 0xaa, 0xaa,
    0xaa, 0xaa, 0xaa, 0xaa, 0xaa, 0xaa, 0xaa, 0xaa, 0xaa, 0xaa, 0xaa, 0xaa, 0xaa, 0xaa, 0xaa, 0xaa,
    0xaa, 0xaa, 0xaa, 0xaa, 0xaa, 0xaa, 0xaa, 0xaa, 0xaa, 0xaa, 0xaa, 0xaa, 0xaa, 0xaa, 0xaa, 0xaa,
    0xaa, 0xaa, 0xaa, 0xaa, 0xaa, 0xaa, 0xaa, 0xaa, 0xaa, 0xaa, 0xaa, 0xaa, 0xaa, 0xaa, 0xaa, 0xaa,
    0xaa, 0xaa, 0xaa, 0xaa, 0xaa, 0xaa, 0xaa, 0xaa, 0xaa, 0xaa, 0xaa, 0xaa, 0xaa, 0xaa, 0xaa, 0xaa,
    0xaa, 0xaa, 0xaa, 0xaa, 0xaa, 0xaa, 0xaa, 0xaa, 0xaa, 0xaa, 0xaa, 0xaa, 0xaa, 0xaa, 0xaa, 0xaa,
    0xaa, 0xaa, 0xaa, 0xaa, 0xaa, 0xaa, 0xaa, 0xaa, 0xaa, 0xaa, 0xaa, 0xaa, 0xaa, 0xaa, 0xaa, 0xaa,
    0xaa, 0xaa, 0xaa, 0xaa, 0xaa, 0xaa, 0xaa, 0xaa, 0xaa, 0xaa, 0xaa, 0xaa, 0xaa, 0xaa, 0xaa, 0xaa,
    0xaa, 0xaa, 0xaa, 0xaa, 0xaa, 0xaa, 0xaa, 0xaa, 0xaa, 0xaa, 0xaa, 0xaa, 0xaa, 0xaa, 0xaa, 0xaa,
    0xaa, 0xaa, 0xaa, 0xaa, 0xaa, 0xaa, 0xaa, 0xaa, 0xaa, 0xaa, 0xaa, 0xaa, 0xaa, 0xaa, 0xaa, 0xaa,
    0xaa, 0xaa, 0xaa, 0xaa, 0xaa, 0xaa, 0xaa, 0xaa, 0xaa, 0xaa, 0xaa, 0xaa, 0xaa, 0xaa, 0xaa, 0xaa,
    0xaa, 0xaa, 0xaa, 0xaa, 0xaa, 0xaa, 0xaa, 0xaa, 0xaa, 0xaa, 0xaa, 0xaa, 0xaa, 0xaa, 0xaa, 0xaa,
    0xaa, 0xaa, 0xaa, 0xaa, 0xaa, 0xaa, 0xaa, 0xaa, 0xaa, 0xaa, 0xaa, 0xaa, 0xaa, 0xaa, 0xaa, 0xaa,
    0xaa, 0xaa, 0xaa, 0xaa, 0xaa, 0xaa, 0xaa, 0xaa, 0xaa, 0xaa, 0xaa, 0xaa, 0xaa, 0xaa, 0xaa, 0xaa,
    0xaa, 0xaa, 0xaa, 0xaa, 0xaa, 0xaa, 0xaa, 0xaa, 0xaa, 0xaa, 0xaa, 0xaa, 0xaa, 0xaa, 0xaa, 0xaa,
    0xaa, 0xaa, 0xaa, 0xaa, 0xaa, 0xaa, 0xaa, 0xaa, 0xaa, 0xaa, 0xaa, 0xaa, 0xaa, 0xaa, 0xaa, 0xaa,
    0xaa, 0xaa, 0xaa, 0xaa, 0xaa, 0xaa, 0xaa, 0xaa, 0xaa, 0xaa, 0xaa, 0xaa, 0xaa, 0xaa, 0xaa, 0xaa,
    0xaa, 0xaa, 0xaa, 0xaa, 0xaa, 0xaa, 0xaa, 0xaa, 0xaa, 0xaa, 0xaa, 0xaa, 0xaa, 0xaa, 0xaa, 0xaa,
    0xaa, 0xaa, 0xaa, 0xaa, 0xaa, 0xaa, 0xaa, 0xaa, 0xaa, 0xaa, 0xaa, 0xaa, 0xaa, 0xaa, 0xaa, 0xaa,
    0xaa, 0xaa, 0xaa, 0xaa, 0xaa, 0xaa, 0xaa, 0xaa, 0xaa, 0xaa, 0xaa, 0xaa, 0xaa, 0xaa, 0xaa, 0xaa,
    0xaa, 0xaa, 0xaa, 0xaa, 0xaa, 0xaa, 0xaa, 0xaa, 0xaa, 0xaa, 0xaa, 0xaa, 0xaa, 0xaa, 0xaa, 0xaa,
    0xaa, 0xaa, 0xaa, 0xaa, 0xaa, 0xaa, 0xaa, 0xaa, 0xaa, 0xaa, 0xaa, 0xaa, 0xaa, 0xaa, 0xaa, 0xaa,
    0xaa, 0xaa, 0xaa, 0xaa, 0xaa, 0xaa, 0xaa, 0xaa, 0xaa, 0xaa, 0xaa, 0xaa, 0xaa, 0xaa, 0xaa, 0xaa,
    0xaa, 0xaa, 0xaa, 0xaa, 0xaa, 0xaa, 0xaa, 0xaa, 0xaa, 0xaa, 0xaa, 0xaa, 0xaa, 0xaa, 0xaa, 0xaa,
    0xaa, 0xaa, 0xaa, 0xaa, 0xaa, 0xaa, 0xaa, 0xaa, 0xaa, 0xaa, 0xaa, 0xaa, 0xaa, 0xaa, 0xaa, 0xaa,
    0xaa, 0xaa, 0xaa, 0xaa, 0xaa, 0xaa, 0xaa, 0xaa, 0xaa, 0xaa, 0xaa, 0xaa, 0xaa, 0xaa, 0xaa, 0xaa,
    0xaa, 0xaa, 0xaa, 0xaa, 0xaa, 0xaa, 0xaa, 0xaa, 0xaa, 0xaa, 0xaa, 0xaa, 0xaa, 0xaa, 0xaa, 0xaa,
    0xaa, 0xaa, 0xaa, 0xaa, 0xaa, 0xaa, 0xaa, 0xaa, 0xaa, 0xaa, 0xaa, 0xaa, 0xaa, 0xaa, 0xab, 0x4d,
    0x80,
];

/// A picture set whose slices have ordered lists and weights.
fn weighted_set() -> Pps {
    let mut pps = Pps::new();
    pps.lists_modification_present_flag = true;
    pps.weighted_bipred_flag = true;
    pps.cabac_init_present_flag = true;
    pps
}

/// One whose P slices have weights in place of its B slices.
fn weighted_p_set() -> Pps {
    let mut pps = weighted_set();
    pps.weighted_bipred_flag = false;
    pps.weighted_pred_flag = true;
    pps
}

/// A picture set whose slices have an entry point for each row of blocks.
fn wavefront_set() -> Pps {
    let mut pps = Pps::new();
    pps.entropy_coding_sync_enabled_flag = true;
    pps
}

/// The first unit of a stream as a header, with these sets.
fn read(alloc: Global, sps: Sps, pps: Pps, stream: &[u8]) -> Result<SliceHeader, ParseError>
    requires { length stream.now < 1000 }
{
    let mut spses = BTreeMap::new(alloc);
    let sps = Boxed::new(alloc, sps)?;
    spses.insert(0, sps).map_err(|_| ParseError::NoMemory)?;
    let mut ppses = BTreeMap::new(alloc);
    ppses.insert(0, pps).map_err(|_| ParseError::NoMemory)?;
    let mut position = 0;
    match Nalu::<NaluHeader>::next(stream, &mut position) {
        Ok(unit) => {
            let mut header = SliceHeader::new(alloc);
            read_slice_header(alloc, &unit, &spses, &ppses, &mut header)?;
            Ok(header)
        }
        Err(_) => Err(ParseError::NoMemory),
    }
}

#[test]
fn a_p_slice_has_its_own_set(rt: HostRuntime) {
    let rt = &rt;
    let h = ok(
        rt,
        read(rt.alloc(), column(rt.alloc()), Pps::new(), P_SLICE),
    );
    expect(rt, h.first_slice_segment_in_pic_flag && h.type_.is_p());
    expect_eq(rt, h.pic_order_cnt_lsb, 4);
    expect_eq(rt, h.num_pic_total_curr, 1);
    expect_eq(rt, h.st_rps_bits, 10);
    expect_eq(rt, h.curr_rps_idx, 0);
    expect_eq(rt, h.header_bit_size, 40);
    expect_eq(rt, h.n_emulation_prevention_bytes, 0);
    let deltas = h.short_term_ref_pic_set.delta_poc_s0;
    expect_eq(rt, deltas[0], -4);
}

#[test]
fn refusals_name_the_row_or_the_set(rt: HostRuntime) {
    let rt = &rt;
    let alloc = rt.alloc();
    expect_eq(
        rt,
        read(alloc, column(alloc), Pps::new(), NO_SET).err(),
        Some(ParseError::OutOfRange { table: 14, row: 11 }),
    );
    expect_eq(
        rt,
        read(alloc, column(alloc), Pps::new(), OTHER_SET).err(),
        Some(ParseError::MissingPps(5)),
    );
    expect_eq(
        rt,
        read(alloc, column(alloc), Pps::new(), PICTURE_SET).err(),
        Some(ParseError::WrongNaluType),
    );
    let mut pps = Pps::new();
    pps.seq_parameter_set_id = 3;
    expect_eq(
        rt,
        read(alloc, column(alloc), pps, P_SLICE).err(),
        Some(ParseError::MissingPps(0)),
    );
}

/// The header of the first unit, with a sequence set of long-term pictures.
fn referring(rt: &impl Abort, alloc: Global, pps: Pps, stream: &[u8]) -> SliceHeader
    requires { length stream.now < 1000 }
{
    let sps = referring_column(alloc);
    ok(rt, read(alloc, sps, pps, stream))
}

#[test]
fn a_b_slice_has_pictures_lists_and_weights(rt: HostRuntime) {
    let rt = &rt;
    let h = referring(rt, rt.alloc(), weighted_set(), TWO_LISTS);
    expect(rt, h.type_.is_b() && h.temporal_mvp_enabled_flag);
    expect_eq(rt, h.st_rps_bits, 12);
    let lsbs = h.poc_lsb_lt;
    expect_eq(rt, (lsbs[0], lsbs[1], lsbs[2]), (3, 7, 1));
    let used = h.used_by_curr_pic_lt;
    expect(rt, used[0] && used[1] && !used[2]);
    let cycles = h.delta_poc_msb_cycle_lt;
    expect_eq(rt, (cycles[0], cycles[1], cycles[2]), (5, 2, 2));
    expect_eq(rt, h.num_pic_total_curr, 4);
    expect_eq(
        rt,
        h.ref_pic_list_modification.list_entry_l0(),
        [3, 0, 1].as_slice(),
    );
    expect(
        rt,
        !h.ref_pic_list_modification
            .ref_pic_list_modification_flag_l1,
    );
    expect(
        rt,
        h.mvd_l1_zero_flag && h.cabac_init_flag && !h.collocated_from_l0_flag,
    );
    expect_eq(rt, h.collocated_ref_idx, 1);
    let weights = h.pred_weight_table.delta_luma_weight_l1();
    expect_eq(rt, (weights[0], weights[1]), (-1, 0));
    expect_eq(rt, h.five_minus_max_num_merge_cand, 2);
    expect_eq(rt, h.qp_delta, -3);
    expect_eq(rt, h.header_bit_size, 120);
}

#[test]
fn a_p_slice_has_pictures_a_list_and_weights(rt: HostRuntime) {
    let rt = &rt;
    let h = referring(rt, rt.alloc(), weighted_p_set(), ONE_LIST);
    expect(rt, h.type_.is_p() && h.temporal_mvp_enabled_flag);
    has_pictures(rt, &h);
    has_list(rt, &h);
    has_weights(rt, &h);
    expect_eq(rt, h.five_minus_max_num_merge_cand, 1);
    expect_eq(rt, h.qp_delta, 2);
    expect_eq(rt, h.header_bit_size, 160);
    expect_eq(rt, h.n_emulation_prevention_bytes, 0);
}

/// The order count and the pictures of `ONE_LIST`.
fn has_pictures(rt: &impl Abort, h: &SliceHeader) {
    expect_eq(rt, h.pic_order_cnt_lsb, 9);
    let set = &h.short_term_ref_pic_set;
    expect_eq(rt, (set.num_negative_pics, set.num_positive_pics), (2, 1));
    let before = set.delta_poc_s0;
    let after = set.delta_poc_s1;
    expect_eq(rt, (before[0], before[1], after[0]), (-1, -4, 2));
    let used = set.used_by_curr_pic_s0;
    expect(rt, used[0] && !used[1] && set.used_by_curr_pic_s1[0]);
    expect_eq(rt, h.st_rps_bits, 16);
    expect_eq(rt, (h.num_long_term_sps, h.num_long_term_pics), (1, 2));
    let lsbs = h.poc_lsb_lt;
    expect_eq(rt, (lsbs[0], lsbs[1], lsbs[2]), (3, 7, 12));
    let used = h.used_by_curr_pic_lt;
    expect(rt, used[0] && used[1] && !used[2]);
    let cycles = h.delta_poc_msb_cycle_lt;
    expect_eq(rt, (cycles[0], cycles[1], cycles[2]), (5, 1, 4));
    expect_eq(rt, h.num_pic_total_curr, 4);
}

/// Its one list, of four places.
fn has_list(rt: &impl Abort, h: &SliceHeader) {
    expect_eq(
        rt,
        (
            h.num_ref_idx_l0_active_minus1,
            h.num_ref_idx_l1_active_minus1,
        ),
        (3, 0),
    );
    let m = &h.ref_pic_list_modification;
    expect_eq(rt, m.list_entry_l0(), [2, 0, 3, 1].as_slice());
    expect(rt, !m.ref_pic_list_modification_flag_l1);
    expect(
        rt,
        h.cabac_init_flag && !h.mvd_l1_zero_flag && h.collocated_from_l0_flag,
    );
    expect_eq(rt, h.collocated_ref_idx, 2);
}

/// Its weights.
fn has_weights(rt: &impl Abort, h: &SliceHeader) {
    let t = &h.pred_weight_table;
    expect_eq(
        rt,
        (t.luma_log2_weight_denom(), t.chroma_log2_weight_denom()),
        (2, 1),
    );
    let luma = t.luma_weight_l0_flag();
    expect(rt, !luma[0] && luma[1] && !luma[2] && luma[3]);
    let weights = t.delta_luma_weight_l0();
    expect_eq(rt, (weights[1], weights[3]), (-2, 0));
    let offsets = t.luma_offset_l0();
    expect_eq(rt, (offsets[1], offsets[3]), (3, -3));
    let chroma = t.chroma_weight_l0_flag();
    expect(rt, chroma[0] && !chroma[1] && !chroma[2] && chroma[3]);
    let weights = t.delta_chroma_weight_l0();
    expect(rt, weights[0] == [1, 0] && weights[3] == [-1, 2]);
    let offsets = t.delta_chroma_offset_l0();
    expect(rt, offsets[0] == [-1, 2] && offsets[3] == [0, -2]);
    expect_eq(rt, t.luma_weight_l1_flag(), [false; 15]);
}

#[test]
fn a_dependent_segment_has_a_place_alone(rt: HostRuntime) {
    let rt = &rt;
    let mut pps = Pps::new();
    pps.dependent_slice_segments_enabled_flag = true;
    let h = ok(rt, read(rt.alloc(), column(rt.alloc()), pps, LATER_SEGMENT));
    expect(
        rt,
        h.dependent_slice_segment_flag && !h.first_slice_segment_in_pic_flag,
    );
    expect_eq(rt, h.segment_address, 9);
    expect_eq(rt, h.header_bit_size, 24);
}

#[test]
fn a_03_behind_the_header_does_not_count(rt: HostRuntime) {
    let rt = &rt;
    let mut pps = Pps::new();
    pps.slice_segment_header_extension_present_flag = true;
    let h = ok(
        rt,
        read(rt.alloc(), column(rt.alloc()), pps, HEADER_EXTENSION),
    );
    expect(rt, h.type_.is_i());
    expect_eq(rt, h.header_bit_size, 64);
    expect_eq(rt, h.n_emulation_prevention_bytes, 1);
}

/// The first unit of a stream as a header, with sets of wavefronts over 440 blocks.
fn read_wavefronts(alloc: Global, stream: &[u8]) -> Result<SliceHeader, ParseError>
    requires { length stream.now < 1000 }
{
    read(alloc, tall_column(alloc), wavefront_set(), stream)
}

#[test]
fn entry_points_are_a_list_of_any_length(rt: HostRuntime) {
    let rt = &rt;
    let h = ok(rt, read_wavefronts(rt.alloc(), WAVEFRONTS));
    expect_eq(rt, h.num_entry_point_offsets, 439);
    let offsets = h.entry_point_offset_minus1.as_slice();
    expect_eq(rt, offsets.len(), 439);
    expect_eq(rt, offsets.last(), Some(&0xa6));
    expect_eq(rt, h.header_bit_size, 3560);
    let few = ok(rt, read_wavefronts(rt.alloc(), MANY_ENTRY_POINTS));
    expect_eq(rt, few.entry_point_offset_minus1.as_slice().len(), 33);
}

#[test]
fn an_entry_point_may_take_32_bits(rt: HostRuntime) {
    let rt = &rt;
    let long = ok(rt, read_wavefronts(rt.alloc(), FAR_ENTRY_POINT));
    expect_eq(rt, long.offset_len_minus1, 31);
    expect_eq(
        rt,
        long.entry_point_offset_minus1.as_slice().first(),
        Some(&2_147_483_649),
    );
    expect_eq(rt, long.n_emulation_prevention_bytes, 1);
}

#[test]
fn a_refused_weight_table_leaves_the_header(rt: HostRuntime) {
    let rt = &rt;
    let sps = column(rt.alloc());
    let mut header = SliceHeader::new(rt.alloc());
    let before = SliceHeader::new(rt.alloc());
    let refused = parse_pred_weight_table(&mut header, &mut ElementReader::new(&[]), &sps);
    expect_eq(rt, refused.err(), Some(ParseError::OutOfBits));
    expect(rt, header == before);
    // 00100 | 1 | 0 | 0
    let mut r = ElementReader::new(&[0x24]);
    ok(rt, parse_pred_weight_table(&mut header, &mut r, &sps));
    expect_eq(rt, header.pred_weight_table.chroma_log2_weight_denom(), 3);
}
