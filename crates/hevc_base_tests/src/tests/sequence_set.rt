//! Values from outside, and each call once.
use crate::tests::expect::{expect, expect_eq, ok};
use hevc_sequence_set::{Point, Rect, Sps, SpsRangeExtension, SpsSccExtension, comparisons};
use hevc_set_parts::{Items, Level, ProfileTierLevel, ScalingLists, ShortTermRefPicSet};
use hevc_video_set::VuiParams;
use std::alloc::{AllocError, Global};

/// A set of 320 by 180 samples, coded as 320 by 184, of the Main profile at level 2.
#[tactic(auto, unfolding(hevc_records::specs::SpsSizes::leaves_some))]
fn small_set(alloc: Global) -> Sps {
    let mut set = Sps::new(alloc);
    set.chroma_format_idc = 1;
    set.chroma_array_type = 1;
    set.pic_width_in_luma_samples = 320;
    set.pic_height_in_luma_samples = 184;
    set.conformance_window_flag = true;
    set.conf_win_bottom_offset = 2;
    set.log2_diff_max_min_luma_coding_block_size = 3;
    set.ctb_log2_size_y = 6;
    set.ctb_size_y = 64;
    set.pic_width_in_ctbs_y = 5;
    set.pic_height_in_ctbs_y = 3;
    set.pic_size_in_ctbs_y = 15;
    set.pic_size_in_samples_y = 58_880;
    set.profile_tier_level.general_level_idc = Level::L2;
    set.profile_tier_level.general_profile_idc = 1;
    set
}

/// A set of 10 bits of luma, whose offsets of weighted prediction have the precision of samples.
fn precise_set(alloc: Global) -> Sps {
    let mut set = Sps::new(alloc);
    set.range_extension.high_precision_offsets_enabled_flag = true;
    set.bit_depth_luma_minus8 = 2;
    set.wp_offset_half_range_y = 512;
    set
}

/// A set with one short-term reference picture set, the empty one.
fn referring_set(alloc: Global) -> Result<Sps, AllocError> {
    let sets = Items::from_slice(alloc, &[ShortTermRefPicSet::new()])?;
    let mut set = Sps::new(alloc);
    set.short_term_ref_pic_set = sets;
    set.num_short_term_ref_pic_sets = 1;
    Ok(set)
}

#[test]
fn the_size_of_a_small_set(rt: HostRuntime) {
    let rt = &rt;
    let set = small_set(rt.alloc());
    expect_eq(rt, set.max_dpb_size(), 12);
    expect_eq(rt, set.width(), 320);
    expect_eq(rt, set.height(), 184);
    let shown = Rect {
        min: Point { x: 0, y: 0 },
        max: Point { x: 320, y: 180 },
    };
    expect(rt, set.visible_rectangle() == shown);
    expect(rt, comparisons::rect_eq(&set.visible_rectangle(), &shown));
    expect(rt, comparisons::point_eq(&shown.min, &Point { x: 0, y: 0 }));
    expect(rt, shown.min != shown.max);
}

#[test]
fn a_new_set_and_its_clone(rt: HostRuntime) {
    let rt = &rt;
    let set = Sps::new(rt.alloc());
    let copy = ok(rt, set.try_clone());
    expect(rt, copy == set);
    expect(rt, comparisons::sps_eq(&copy, &set));
    expect_eq(rt, set.max_dpb_size(), 16);
}

#[test]
fn a_clone_has_its_short_term_sets(rt: HostRuntime) {
    let rt = &rt;
    let set = ok(rt, referring_set(rt.alloc()));
    let copy = ok(rt, set.try_clone());
    expect(rt, copy == set);
    expect_eq(rt, copy.short_term_ref_pic_set().len(), 1);
    expect(rt, copy != Sps::new(rt.alloc()));
}

#[test]
fn the_parts_of_a_new_set(rt: HostRuntime) {
    let rt = &rt;
    let set = Sps::new(rt.alloc());
    expect(rt, *set.profile_tier_level() == ProfileTierLevel::new());
    expect(rt, *set.scaling_list() == ScalingLists::new());
    expect(rt, set.short_term_ref_pic_set().is_empty());
    expect_eq(rt, set.lt_ref_pic_poc_lsb_sps(), [0; 32].as_slice());
    expect_eq(
        rt,
        set.used_by_curr_pic_lt_sps_flag(),
        [false; 32].as_slice(),
    );
    expect(rt, *set.vui_parameters() == VuiParams::new());
    expect(rt, *set.range_extension() == SpsRangeExtension::new());
    expect(rt, *set.scc_extension() == SpsSccExtension::new());
    expect(rt, set.max_dec_pic_buffering_minus1() == [0; 7]);
    expect(rt, set.max_num_reorder_pics() == [0; 7]);
    expect(rt, set.max_latency_increase_plus1() == [0; 7]);
}

#[test]
fn offsets_of_high_precision(rt: HostRuntime) {
    let rt = &rt;
    let set = precise_set(rt.alloc());
    expect_eq(rt, Sps::new(rt.alloc()).wp_offset_half_range_y(), 128);
    expect_eq(rt, set.wp_offset_half_range_y(), 512);
    expect_eq(rt, set.wp_offset_half_range_c(), 128);
    expect(
        rt,
        set.range_extension().high_precision_offsets_enabled_flag(),
    );
    let none = SpsRangeExtension::new();
    expect(
        rt,
        !comparisons::sps_range_extension_eq(set.range_extension(), &none),
    );
}

#[test]
fn palettes_begin_at_0(rt: HostRuntime) {
    let rt = &rt;
    let mut extension = SpsSccExtension::new();
    expect(
        rt,
        comparisons::sps_scc_extension_eq(&extension, &SpsSccExtension::new()),
    );
    extension.palette_max_size = 64;
    extension.delta_palette_max_predictor_size = 64;
    extension.palette_predictor_initializer[2][127] = 99;
    expect_eq(rt, extension.palette_max_size(), 64);
    expect_eq(rt, extension.palette_predictor_initializer()[2][127], 99);
    expect(rt, extension != SpsSccExtension::new());
}
