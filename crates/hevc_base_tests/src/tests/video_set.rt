//! Values from outside, and each call once.
use crate::tests::expect::{expect, expect_eq, ok};
use hevc_set_parts::Items;
use hevc_video_set::{
    HrdParams, PredWeightTable, SublayerHrdParameters, Vps, VuiParams, comparisons,
};
use std::alloc::Global;
use std::process::Abort;

#[test]
fn a_new_video_set(rt: HostRuntime) {
    let rt = &rt;
    let set = ok(rt, Vps::new(rt.alloc()));
    expect(rt, set.max_dec_pic_buffering_minus1() == [0; 7]);
    expect(rt, set.max_num_reorder_pics() == [0; 7]);
    expect(rt, set.max_latency_increase_plus1() == [0; 7]);
    expect(rt, set.hrd_layer_set_idx().is_empty());
    expect_eq(rt, set.cprms_present_flag(), [true].as_slice());
    expect(rt, set.hrd_parameters().is_empty());
}

/// A set of 7 sub-layers, with one structure of the hypothetical reference decoder.
fn timed_set(rt: &impl Abort, alloc: Global) -> Vps {
    let layer_sets = ok(rt, Items::from_slice(alloc, &[1]));
    let structures = ok(rt, Items::from_slice(alloc, &[HrdParams::new()]));
    let mut set = ok(rt, Vps::new(alloc));
    set.video_parameter_set_id = 3;
    set.max_sub_layers_minus1 = 6;
    set.max_num_reorder_pics[6] = 2;
    set.hrd_layer_set_idx = layer_sets;
    set.hrd_parameters = structures;
    set
}

#[test]
fn a_video_set_and_its_clone(rt: HostRuntime) {
    let rt = &rt;
    let mut set = timed_set(rt, rt.alloc());
    let copy = ok(rt, set.try_clone());
    expect(rt, copy == set);
    expect(rt, comparisons::vps_eq(&copy, &set));
    expect(rt, copy.max_num_reorder_pics() == [0, 0, 0, 0, 0, 0, 2]);
    expect_eq(rt, copy.hrd_layer_set_idx(), [1].as_slice());
    ok(rt, set.hrd_layer_set_idx.push(2));
    expect(rt, copy != set);
}

#[test]
fn lengths_of_23_and_24_bits(rt: HostRuntime) {
    let rt = &rt;
    let mut timing = HrdParams::new();
    expect_eq(rt, timing.initial_cpb_removal_delay_length_minus1(), 23);
    expect_eq(rt, timing.au_cpb_removal_delay_length_minus1(), 23);
    expect_eq(rt, timing.dpb_output_delay_du_length_minus1(), 23);
    expect(rt, comparisons::hrd_params_eq(&timing, &HrdParams::new()));
    timing.cpb_cnt_minus1[2] = 31;
    timing.nal_hrd[2].bit_rate_value_minus1[31] = 99;
    expect(rt, timing.fixed_pic_rate_general_flag() == [false; 7]);
    expect(rt, timing.fixed_pic_rate_within_cvs_flag() == [false; 7]);
    expect(rt, timing.elemental_duration_in_tc_minus1() == [0; 7]);
    expect(rt, timing.low_delay_hrd_flag() == [false; 7]);
    expect(rt, timing.cpb_cnt_minus1() == [0, 0, 31, 0, 0, 0, 0]);
    expect_eq(rt, timing.nal_hrd()[2].bit_rate_value_minus1()[31], 99);
    expect(rt, timing.vcl_hrd()[2] == SublayerHrdParameters::new());
    expect(rt, timing != HrdParams::new());
}

#[test]
fn rates_begin_at_0(rt: HostRuntime) {
    let rt = &rt;
    let rates = SublayerHrdParameters::new();
    expect(rt, rates.bit_rate_value_minus1() == [0; 32]);
    expect(rt, rates.cpb_size_value_minus1() == [0; 32]);
    expect(rt, rates.cpb_size_du_value_minus1() == [0; 32]);
    expect(rt, rates.bit_rate_du_value_minus1() == [0; 32]);
    expect(rt, rates.cbr_flag() == [false; 32]);
    expect(
        rt,
        comparisons::sublayer_hrd_parameters_eq(&rates, &SublayerHrdParameters::new()),
    );
}

#[test]
fn usability_where_nothing_is_said(rt: HostRuntime) {
    let rt = &rt;
    let usability = VuiParams::new();
    expect_eq(rt, usability.video_format(), 5);
    expect_eq(rt, usability.matrix_coeffs(), 2);
    expect(rt, usability.motion_vectors_over_pic_boundaries_flag());
    expect_eq(rt, usability.max_bytes_per_pic_denom(), 2);
    expect_eq(rt, usability.max_bits_per_min_cu_denom(), 1);
    expect_eq(rt, usability.log2_max_mv_length_vertical(), 15);
    expect(rt, *usability.hrd() == HrdParams::new());
    expect(
        rt,
        comparisons::vui_params_eq(&usability, &VuiParams::new()),
    );
}

#[test]
fn a_weight_for_one_entry(rt: HostRuntime) {
    let rt = &rt;
    let mut weights = PredWeightTable::new();
    expect(
        rt,
        comparisons::pred_weight_table_eq(&weights, &PredWeightTable::new()),
    );
    weights.luma_log2_weight_denom = 7;
    weights.delta_chroma_log2_weight_denom = -7;
    weights.delta_luma_weight_l1[14] = -128;
    weights.delta_chroma_offset_l1[14][1] = 32767;
    expect(rt, weights.luma_weight_l0_flag() == [false; 15]);
    expect(rt, weights.chroma_weight_l0_flag() == [false; 15]);
    expect(rt, weights.delta_luma_weight_l0() == [0; 15]);
    expect(rt, weights.luma_offset_l0() == [0; 15]);
    expect(rt, weights.delta_chroma_weight_l0() == [[0; 2]; 15]);
    expect(rt, weights.delta_chroma_offset_l0() == [[0; 2]; 15]);
    expect(rt, weights.luma_weight_l1_flag() == [false; 15]);
    expect(rt, weights.chroma_weight_l1_flag() == [false; 15]);
    expect_eq(rt, weights.delta_luma_weight_l1()[14], -128);
    expect(rt, weights.luma_offset_l1() == [0; 15]);
    expect(rt, weights.delta_chroma_weight_l1() == [[0; 2]; 15]);
    expect_eq(rt, weights.delta_chroma_offset_l1()[14][1], 32767);
}
