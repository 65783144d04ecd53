//! Values from outside, and each call once.
use crate::tests::expect::{expect, expect_eq, ok};
use hevc_bits::{Nalu, NaluHeader, NaluType};
use hevc_picture_slice::{NotDependent, Pps, Slice, SliceHeader, comparisons};
use hevc_set_parts::{
    Items, PpsRangeExtension, PpsSccExtension, RefPicListModification, ScalingLists,
    ShortTermRefPicSet, SliceType,
};
use hevc_video_set::PredWeightTable;
use std::alloc::Global;
use std::process::Abort;

/// A unit of type 1 with four bytes, after its start code.
const STREAM: [u8; 7] = [0, 0, 1, 2, 1, 0xD2, 0x14];

#[test]
fn a_new_picture_set(rt: HostRuntime) {
    let rt = &rt;
    let set = Pps::new();
    expect(
        rt,
        set.uniform_spacing_flag() && set.loop_filter_across_tiles_enabled_flag(),
    );
    expect(rt, !set.loop_filter_across_slices_enabled_flag());
    expect_eq(rt, set.pic_parameter_set_id(), 0);
    expect_eq(rt, set.init_qp_minus26(), 0);
    expect_eq(rt, set.qp_bd_offset_y(), 0);
    expect(rt, set.column_width_minus1() == [0; 20]);
    expect(rt, set.row_height_minus1() == [0; 22]);
    expect(rt, *set.scaling_list() == ScalingLists::new());
    expect(rt, *set.range_extension() == PpsRangeExtension::new());
    expect(rt, *set.scc_extension() == PpsSccExtension::new());
    expect(rt, comparisons::pps_eq(&set, &Pps::new()));
}

#[test]
fn a_picture_set_of_60_tiles(rt: HostRuntime) {
    let rt = &rt;
    let mut set = Pps::new();
    set.qp_bd_offset_y = 36;
    set.init_qp_minus26 = -62;
    set.num_tile_columns_minus1 = 19;
    set.num_tile_rows_minus1 = 2;
    set.column_width_minus1[19] = 4;
    let copy = set;
    expect(rt, copy == set && copy != Pps::new());
    expect_eq(rt, copy.init_qp_minus26(), -62);
    expect_eq(rt, copy.num_tile_columns_minus1(), 19);
    expect_eq(rt, copy.num_tile_rows_minus1(), 2);
    expect_eq(rt, copy.column_width_minus1()[19], 4);
}

#[test]
fn a_new_header(rt: HostRuntime) {
    let rt = &rt;
    let header = SliceHeader::new(rt.alloc());
    expect(rt, header.type_() == SliceType::P);
    expect(
        rt,
        header.pic_output_flag() && header.collocated_from_l0_flag(),
    );
    expect(rt, !header.dependent_slice_segment_flag());
    expect_eq(rt, header.segment_address(), 0);
    expect(
        rt,
        *header.short_term_ref_pic_set() == ShortTermRefPicSet::new(),
    );
    expect(
        rt,
        *header.short_term_ref_pic_sets() == ShortTermRefPicSet::new(),
    );
    expect(rt, header.lt_idx_sps() == [0; 16]);
    expect(rt, header.poc_lsb_lt() == [0; 16]);
    expect(rt, header.used_by_curr_pic_lt() == [false; 16]);
    expect(rt, header.delta_poc_msb_present_flag() == [false; 16]);
    expect(rt, header.delta_poc_msb_cycle_lt() == [0; 16]);
    expect(
        rt,
        *header.ref_pic_list_modification() == RefPicListModification::new(),
    );
    expect(rt, *header.pred_weight_table() == PredWeightTable::new());
    expect_eq(rt, header.qp_delta(), 0);
    expect(rt, header.entry_point_offset_minus1().is_empty());
    expect_eq(rt, header.num_pic_total_curr(), 0);
    expect_eq(rt, header.st_rps_bits(), 0);
}

#[test]
fn a_changed_header_and_its_clone(rt: HostRuntime) {
    let rt = &rt;
    let entry_points = ok(rt, Items::from_slice(rt.alloc(), &[700, 9]));
    let mut header = SliceHeader::new(rt.alloc());
    header.type_ = SliceType::B;
    header.num_long_term_sps = 15;
    header.num_long_term_pics = 1;
    header.delta_poc_msb_cycle_lt[15] = 4_294_967_296;
    header.num_ref_idx_l0_active_minus1 = 1;
    header.ref_pic_list_modification.list_entry_l0.push(1);
    header.ref_pic_list_modification.list_entry_l0.push(0);
    header
        .ref_pic_list_modification
        .ref_pic_list_modification_flag_l0 = true;
    header.entry_point_offset_minus1 = entry_points;
    let copy = ok(rt, header.try_clone());
    expect(rt, copy == header);
    expect(rt, comparisons::slice_header_eq(&copy, &header));
    expect_eq(rt, copy.entry_point_offset_minus1(), [700, 9].as_slice());
    expect_eq(
        rt,
        copy.ref_pic_list_modification().list_entry_l0(),
        [1, 0].as_slice(),
    );
    ok(rt, header.entry_point_offset_minus1.push(8));
    expect(rt, copy != header);
}

#[test]
fn what_the_sets_infer(rt: HostRuntime) {
    let rt = &rt;
    let mut set = Pps::new();
    set.deblocking_filter_disabled_flag = true;
    set.beta_offset_div2 = -3;
    set.tc_offset_div2 = 2;
    set.loop_filter_across_slices_enabled_flag = true;
    let mut header = SliceHeader::new(rt.alloc());
    header.segment_address = 5;
    let mut expected = ok(rt, header.try_clone());
    expected.deblocking_filter_disabled_flag = true;
    expected.beta_offset_div2 = -3;
    expected.tc_offset_div2 = 2;
    expected.loop_filter_across_slices_enabled_flag = true;
    expected.curr_rps_idx = 64;
    expected.use_integer_mv_flag = true;
    header.set_defaults(&set, 64, 2);
    expect(rt, header == expected);
    header.set_defaults(&set, 64, 0);
    expect(rt, !header.use_integer_mv_flag());
}

#[test]
fn an_independent_slice_keeps_its_header(rt: HostRuntime) {
    let rt = &rt;
    let mut position = 0;
    let nalu: Nalu<NaluHeader> = ok(rt, Nalu::next(STREAM.as_slice(), &mut position));
    let mut own = SliceHeader::new(rt.alloc());
    own.segment_address = 7;
    let expected = ok(rt, own.try_clone());
    let mut slice = Slice::new(own, nalu);
    expect(
        rt,
        slice.replace_header(SliceHeader::new(rt.alloc())) == Err(NotDependent),
    );
    expect(rt, *slice.header() == expected);
    expect(rt, slice.nalu().header().nalu_type() == NaluType::TrailR);
    expect_eq(rt, slice.nalu().as_ref(), [2, 1, 0xD2, 0x14].as_slice());
}

/// The header of a dependent segment, whose own elements are set.
fn dependent_header(rt: &impl Abort, alloc: Global) -> SliceHeader {
    let entry_points = ok(rt, Items::from_slice(alloc, &[700]));
    let mut header = SliceHeader::new(alloc);
    header.first_slice_segment_in_pic_flag = true;
    header.no_output_of_prior_pics_flag = true;
    header.pic_parameter_set_id = 3;
    header.dependent_slice_segment_flag = true;
    header.segment_address = 7;
    header.num_entry_point_offsets = 1;
    header.offset_len_minus1 = 9;
    header.entry_point_offset_minus1 = entry_points;
    header.header_bit_size = 40;
    header.n_emulation_prevention_bytes = 2;
    header
}

#[test]
fn a_dependent_slice_takes_a_header(rt: HostRuntime) {
    let rt = &rt;
    let mut position = 0;
    let nalu: Nalu<NaluHeader> = ok(rt, Nalu::next(STREAM.as_slice(), &mut position));
    let entry_points = ok(rt, Items::from_slice(rt.alloc(), &[1]));
    let mut independent = SliceHeader::new(rt.alloc());
    independent.type_ = SliceType::B;
    independent.segment_address = 2;
    independent.entry_point_offset_minus1 = entry_points;
    independent.curr_rps_idx = 5;
    independent.num_pic_total_curr = 3;
    independent.st_rps_bits = 11;
    independent.header_bit_size = 99;
    let mut expected = dependent_header(rt, rt.alloc());
    expected.type_ = SliceType::B;
    expected.curr_rps_idx = 5;
    expected.num_pic_total_curr = 3;
    expected.st_rps_bits = 11;
    let mut slice = Slice::new(dependent_header(rt, rt.alloc()), nalu);
    expect(rt, slice.replace_header(independent) == Ok(()));
    expect(rt, *slice.header() == expected);
    expect_eq(rt, slice.nalu().as_ref(), [2, 1, 0xD2, 0x14].as_slice());
}
