//! Values from outside, and each call once.
use crate::tests::expect::{expect, expect_eq, ok};
use hevc_set_parts::{
    Items, Level, PpsRangeExtension, PpsSccExtension, Profile, ProfileTierLevel,
    RefPicListModification, ScalingLists, ShortTermRefPicSet, SliceType, comparisons,
};
use std::cmp::Ordering;

#[test]
fn a_list_keeps_its_order(rt: HostRuntime) {
    let rt = &rt;
    let mut items: Items<u16> = Items::new(rt.alloc());
    expect(rt, items.as_slice().is_empty());
    ok(rt, items.push(7));
    ok(rt, items.push(5));
    expect_eq(rt, items.as_slice(), [7, 5].as_slice());
    let copy = ok(rt, items.try_copy());
    expect(rt, copy == items);
    let same = ok(rt, Items::from_slice(rt.alloc(), &[7, 5]));
    expect(rt, copy == same);
    ok(rt, items.push(5));
    expect(rt, copy != items);
}

#[test]
fn numbers_name_variants(rt: HostRuntime) {
    let rt = &rt;
    expect(rt, Level::n(61).is_none());
    expect(rt, Profile::n(0).is_none());
    expect(rt, SliceType::n(3).is_none());
    expect(rt, Level::n(153) == Some(Level::L5_1));
    expect(rt, Profile::n(2) == Some(Profile::Main10));
    expect(rt, SliceType::n(0) == Some(SliceType::B));
    expect_eq(rt, Level::L6_2.number(), 186);
    expect_eq(rt, Profile::ScreenContentCoding.number(), 9);
    expect_eq(rt, SliceType::I.number(), 2);
    expect(
        rt,
        SliceType::P.is_p() && SliceType::B.is_b() && SliceType::I.is_i(),
    );
}

#[test]
fn variants_are_ordered_by_number(rt: HostRuntime) {
    let rt = &rt;
    expect(&rt, Level::L2 < Level::L2_1);
    expect(rt, comparisons::level_lt(Level::L2_1, Level::L3));
    expect(
        rt,
        comparisons::level_cmp(Level::L3, Level::L3) == Ordering::Equal,
    );
    expect(rt, comparisons::level_eq(Level::L1, Level::default()));
    expect(
        rt,
        comparisons::profile_lt(Profile::Main, Profile::HighThroughput),
    );
    expect(
        rt,
        comparisons::profile_cmp(Profile::MainStill, Profile::Main10) == Ordering::Greater,
    );
    expect(
        rt,
        comparisons::profile_eq(Profile::Main, Profile::default()),
    );
    expect(
        rt,
        comparisons::slice_type_eq(SliceType::P, SliceType::default()),
    );
}

#[test]
fn the_main_profile_at_level_3_1(rt: HostRuntime) {
    let rt = &rt;
    let general = ProfileTierLevel::new();
    expect_eq(rt, general.max_luma_ps(), 36_864);
    expect_eq(rt, general.max_dpb_pic_buf(), 7);
    let mut main = general;
    main.general_profile_idc = 1;
    main.general_profile_compatibility_flag[1] = true;
    main.general_level_idc = Level::L3_1;
    expect_eq(rt, main.max_luma_ps(), 983_040);
    expect_eq(rt, main.max_dpb_pic_buf(), 6);
    expect(rt, main.general_profile_compatibility_flag()[1]);
    expect(rt, !main.general_profile_compatibility_flag()[2]);
    expect(
        rt,
        comparisons::profile_tier_level_eq(&general, &ProfileTierLevel::new()),
    );
    expect(rt, main != general);
}

#[test]
fn sub_layers_begin_at_0(rt: HostRuntime) {
    let rt = &rt;
    let general = ProfileTierLevel::new();
    expect(rt, general.sub_layer_profile_present_flag() == [false; 6]);
    expect(rt, general.sub_layer_level_present_flag() == [false; 6]);
    expect(rt, general.sub_layer_profile_space() == [0; 6]);
    expect(rt, general.sub_layer_tier_flag() == [false; 6]);
    expect(rt, general.sub_layer_profile_idc() == [0; 6]);
    expect(
        rt,
        general.sub_layer_profile_compatibility_flag() == [[false; 32]; 6],
    );
    expect(
        rt,
        general.sub_layer_progressive_source_flag() == [false; 6],
    );
    expect(rt, general.sub_layer_interlaced_source_flag() == [false; 6]);
    expect(
        rt,
        general.sub_layer_non_packed_constraint_flag() == [false; 6],
    );
    expect(
        rt,
        general.sub_layer_frame_only_constraint_flag() == [false; 6],
    );
    expect(
        rt,
        general.sub_layer_max_12bit_constraint_flag() == [false; 6],
    );
    expect(
        rt,
        general.sub_layer_max_10bit_constraint_flag() == [false; 6],
    );
    expect(
        rt,
        general.sub_layer_max_8bit_constraint_flag() == [false; 6],
    );
    expect(
        rt,
        general.sub_layer_max_422chroma_constraint_flag() == [false; 6],
    );
    expect(
        rt,
        general.sub_layer_max_420chroma_constraint_flag() == [false; 6],
    );
    expect(
        rt,
        general.sub_layer_max_monochrome_constraint_flag() == [false; 6],
    );
    expect(rt, general.sub_layer_intra_constraint_flag() == [false; 6]);
    expect(
        rt,
        general.sub_layer_one_picture_only_constraint_flag() == [false; 6],
    );
    expect(
        rt,
        general.sub_layer_lower_bit_rate_constraint_flag() == [false; 6],
    );
    expect(
        rt,
        general.sub_layer_max_14bit_constraint_flag() == [false; 6],
    );
    expect(rt, general.sub_layer_inbld_flag() == [false; 6]);
    expect(rt, general.sub_layer_level_idc() == [Level::L1; 6]);
}

#[test]
fn scaling_lists_begin_at_0(rt: HostRuntime) {
    let rt = &rt;
    let mut lists = ScalingLists::new();
    expect(
        rt,
        comparisons::scaling_lists_eq(&lists, &ScalingLists::new()),
    );
    lists.scaling_list_dc_coef_minus8_32x32[3] = 247;
    lists.scaling_list_32x32[3] = [115; 64];
    expect(rt, lists.scaling_list_dc_coef_minus8_16x16() == [0; 6]);
    expect(
        rt,
        lists.scaling_list_dc_coef_minus8_32x32() == [0, 0, 0, 247, 0, 0],
    );
    expect(rt, lists.scaling_list_4x4() == [[0; 16]; 6]);
    expect(rt, lists.scaling_list_8x8() == [[0; 64]; 6]);
    expect(rt, lists.scaling_list_16x16() == [[0; 64]; 6]);
    expect_eq(rt, lists.scaling_list_32x32()[3][63], 115);
    expect(rt, lists != ScalingLists::new());
}

#[test]
fn two_pictures_before_and_one_after(rt: HostRuntime) {
    let rt = &rt;
    let empty = ShortTermRefPicSet::new();
    expect_eq(rt, empty.num_delta_pocs(), 0);
    expect(
        rt,
        comparisons::short_term_ref_pic_set_eq(&empty, &ShortTermRefPicSet::new()),
    );
    let mut set = empty;
    set.num_negative_pics = 2;
    set.num_positive_pics = 1;
    set.num_delta_pocs = 3;
    set.delta_poc_s0[0] = -1;
    set.delta_poc_s0[1] = -3;
    set.delta_poc_s1[0] = 2;
    set.used_by_curr_pic_s0[1] = true;
    expect(rt, set.delta_poc_s0()[..3] == [-1, -3, 0]);
    expect(rt, set.delta_poc_s1()[..2] == [2, 0]);
    expect(rt, set.used_by_curr_pic_s0()[..3] == [false, true, false]);
    expect(rt, set.used_by_curr_pic_s1() == [false; 16]);
    expect(rt, set != empty);
}

#[test]
fn extensions_begin_at_0(rt: HostRuntime) {
    let rt = &rt;
    let range = PpsRangeExtension::new();
    expect(rt, range.cb_qp_offset_list() == [0; 6]);
    expect(rt, range.cr_qp_offset_list() == [0; 6]);
    expect(
        rt,
        comparisons::pps_range_extension_eq(&range, &PpsRangeExtension::new()),
    );
    let screen_content = PpsSccExtension::new();
    expect_eq(
        rt,
        screen_content.palette_predictor_initializer()[2][127],
        0,
    );
    expect(
        rt,
        comparisons::pps_scc_extension_eq(&screen_content, &PpsSccExtension::new()),
    );
}

#[test]
fn entries_of_list_0_alone(rt: HostRuntime) {
    let rt = &rt;
    let mut modification = RefPicListModification::new();
    modification.ref_pic_list_modification_flag_l0 = true;
    modification.list_entry_l0.push(1);
    modification.list_entry_l0.push(0);
    expect_eq(rt, modification.list_entry_l0(), [1, 0].as_slice());
    expect(rt, modification.list_entry_l1().is_empty());
    let none = RefPicListModification::new();
    expect(
        rt,
        !comparisons::ref_pic_list_modification_eq(&modification, &none),
    );
}
