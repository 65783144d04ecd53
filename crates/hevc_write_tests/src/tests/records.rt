//! The parameter sets and slice headers of two streams, built, written as units, and read back.
//!
//! Both streams have pictures of 320 luma samples across, in coding tree blocks of 64x64, with
//! 4:2:0 chroma and a substream for each row of blocks. Those of the cropped one have 184 rows of
//! samples, of which 180 are shown, and those of the full one have 240. What a builder here doesn't
//! set is as in a new record.
use crate::tests::expect::{expect, expect_eq, expect_fewer, ok};
use hevc_bits::{Nalu, NaluHeader, NaluType};
use hevc_boxed::Boxed;
use hevc_picture_slice::{Pps, SliceHeader};
use hevc_readers::{default_scaling_lists, read_pps, read_sps, read_vps};
use hevc_sequence_set::Sps;
use hevc_set_parts::{Items, Level, ProfileTierLevel, ShortTermRefPicSet, SliceType};
use hevc_slice_header::read_slice_header;
use hevc_video_set::{PredWeightTable, Vps, VuiParams};
use hevc_write::{PictureUnit, SliceUnit, Syntax, WriteError, write_unit};
use std::alloc::Global;
use std::collections::BTreeMap;
use std::process::Abort;

/// The bytes after a slice header.
const BODY: &[u8] = &[0xb5, 0x80];

/// The Main profile at level 2, of progressive frames.
fn main_profile() -> ProfileTierLevel {
    let mut profile = ProfileTierLevel::new();
    profile.general_profile_idc = 1;
    profile.general_profile_compatibility_flag[1] = true;
    profile.general_profile_compatibility_flag[2] = true;
    profile.general_progressive_source_flag = true;
    profile.general_frame_only_constraint_flag = true;
    profile.general_level_idc = Level::L2;
    profile
}

/// The video set of the cropped stream: one layer of one sub-layer, with no bound on latency.
fn cropped_video_set(rt: &impl Abort, alloc: Global) -> Vps {
    let mut vps = ok(rt, Vps::new(alloc));
    vps.base_layer_internal_flag = true;
    vps.base_layer_available_flag = true;
    vps.temporal_id_nesting_flag = true;
    vps.profile_tier_level = main_profile();
    vps.sub_layer_ordering_info_present_flag = true;
    vps.max_dec_pic_buffering_minus1 = [4, 0, 0, 0, 0, 0, 0];
    vps.max_num_reorder_pics = [2, 0, 0, 0, 0, 0, 0];
    vps
}

/// The video set of the full stream, which bounds the latency.
fn full_video_set(rt: &impl Abort, alloc: Global) -> Vps {
    let mut vps = cropped_video_set(rt, alloc);
    vps.max_latency_increase_plus1 = [5, 0, 0, 0, 0, 0, 0];
    vps
}

/// A sequence set of 5x3 blocks, with the last rows cropped.
#[tactic(auto, unfolding(hevc_records::specs::SpsSizes::leaves_some))]
fn cropped_pictures(alloc: Global) -> Sps {
    let mut sps = Sps::new(alloc);
    sps.chroma_format_idc = 1;
    sps.chroma_array_type = 1;
    sps.pic_width_in_luma_samples = 320;
    sps.pic_height_in_luma_samples = 184;
    sps.pic_size_in_samples_y = 58_880;
    sps.conformance_window_flag = true;
    sps.conf_win_bottom_offset = 2;
    sps.log2_diff_max_min_luma_coding_block_size = 3;
    sps.ctb_log2_size_y = 6;
    sps.ctb_size_y = 64;
    sps.pic_width_in_ctbs_y = 5;
    sps.pic_height_in_ctbs_y = 3;
    sps.pic_size_in_ctbs_y = 15;
    sps.log2_diff_max_min_luma_transform_block_size = 3;
    sps.max_tb_log2_size_y = 5;
    sps
}

/// A sequence set of 5x4 blocks, with nothing cropped.
fn full_pictures(alloc: Global) -> Sps {
    let mut sps = Sps::new(alloc);
    sps.chroma_format_idc = 1;
    sps.chroma_array_type = 1;
    sps.pic_width_in_luma_samples = 320;
    sps.pic_height_in_luma_samples = 240;
    sps.pic_size_in_samples_y = 76_800;
    sps.log2_diff_max_min_luma_coding_block_size = 3;
    sps.ctb_log2_size_y = 6;
    sps.ctb_size_y = 64;
    sps.pic_width_in_ctbs_y = 5;
    sps.pic_height_in_ctbs_y = 4;
    sps.pic_size_in_ctbs_y = 20;
    sps.log2_diff_max_min_luma_transform_block_size = 3;
    sps.max_tb_log2_size_y = 5;
    sps
}

/// Gives a sequence set what both streams have beside their sizes.
fn set_coding(sps: &mut Sps) {
    sps.temporal_id_nesting_flag = true;
    sps.profile_tier_level = main_profile();
    sps.log2_max_pic_order_cnt_lsb_minus4 = 4;
    sps.sub_layer_ordering_info_present_flag = true;
    sps.max_dec_pic_buffering_minus1 = [4, 0, 0, 0, 0, 0, 0];
    sps.max_num_reorder_pics = [2, 0, 0, 0, 0, 0, 0];
    sps.sample_adaptive_offset_enabled_flag = true;
    sps.temporal_mvp_enabled_flag = true;
    sps.strong_intra_smoothing_enabled_flag = true;
}

/// The sequence set of the cropped stream.
fn cropped_sequence_set(alloc: Global) -> Sps {
    let mut sps = cropped_pictures(alloc);
    set_coding(&mut sps);
    sps
}

/// The sequence set of the full stream, of 25 pictures a second.
fn full_sequence_set(alloc: Global) -> Sps {
    let mut sps = full_pictures(alloc);
    set_coding(&mut sps);
    sps.max_latency_increase_plus1 = [5, 0, 0, 0, 0, 0, 0];
    sps.vui_parameters_present_flag = true;
    sps.vui_parameters = clock();
    sps
}

/// Usability information with a clock, and with a signal type that tells no colours.
fn clock() -> VuiParams {
    let mut vui = VuiParams::new();
    vui.video_signal_type_present_flag = true;
    vui.timing_info_present_flag = true;
    vui.num_units_in_tick = 1;
    vui.time_scale = 25;
    vui
}

/// The picture set of the cropped stream.
fn cropped_picture_set() -> Pps {
    let mut pps = Pps::new();
    pps.sign_data_hiding_enabled_flag = true;
    pps.cu_qp_delta_enabled_flag = true;
    pps.weighted_pred_flag = true;
    pps.entropy_coding_sync_enabled_flag = true;
    pps.loop_filter_across_slices_enabled_flag = true;
    pps.scaling_list = default_scaling_lists();
    pps
}

/// The picture set of the full stream, whose blocks may differ in quantiser after one split.
fn full_picture_set() -> Pps {
    let mut pps = cropped_picture_set();
    pps.diff_cu_qp_delta_depth = 1;
    pps
}

/// The header of an I slice, the first one of an IDR picture of the cropped stream.
fn cropped_intra_slice(alloc: Global) -> SliceHeader {
    let mut header = SliceHeader::new(alloc);
    header.first_slice_segment_in_pic_flag = true;
    header.type_ = SliceType::I;
    header.sao_luma_flag = true;
    header.sao_chroma_flag = true;
    header.qp_delta = 8;
    header.loop_filter_across_slices_enabled_flag = true;
    header.header_bit_size = 40;
    header
}

/// The header of a P slice of the cropped stream, which refers to the picture of order count 0.
fn cropped_predicted_slice(alloc: Global) -> SliceHeader {
    let mut header = cropped_intra_slice(alloc);
    header.type_ = SliceType::P;
    header.pic_order_cnt_lsb = 4;
    header.short_term_ref_pic_set = picture_4_before();
    header.num_pic_total_curr = 1;
    header.temporal_mvp_enabled_flag = true;
    header.pred_weight_table = weights();
    header.five_minus_max_num_merge_cand = 3;
    header.header_bit_size = 104;
    header.st_rps_bits = 10;
    header
}

/// The header of an I slice, the first one of an IDR picture of the full stream.
fn full_intra_slice(rt: &impl Abort, alloc: Global) -> SliceHeader {
    let mut header = cropped_intra_slice(alloc);
    header.qp_delta = 7;
    header.num_entry_point_offsets = 3;
    header.offset_len_minus1 = 11;
    header.entry_point_offset_minus1 = ok(rt, Items::from_slice(alloc, &[999, 799, 599]));
    header.header_bit_size = 88;
    header
}

/// The header of a P slice of the full stream, which refers to the picture of order count 0.
fn full_predicted_slice(rt: &impl Abort, alloc: Global) -> SliceHeader {
    let mut header = full_intra_slice(rt, alloc);
    header.type_ = SliceType::P;
    header.pic_order_cnt_lsb = 3;
    header.short_term_ref_pic_set = picture_3_before();
    header.num_pic_total_curr = 1;
    header.temporal_mvp_enabled_flag = true;
    header.pred_weight_table = no_weights();
    header.five_minus_max_num_merge_cand = 2;
    header.loop_filter_across_slices_enabled_flag = false;
    header.offset_len_minus1 = 10;
    header.header_bit_size = 112;
    header.st_rps_bits = 8;
    header
}

/// The picture whose order count is lower by 4.
fn picture_4_before() -> ShortTermRefPicSet {
    let mut set = ShortTermRefPicSet::new();
    set.num_negative_pics = 1;
    set.num_delta_pocs = 1;
    set.delta_poc_s0[0] = -4;
    set.used_by_curr_pic_s0[0] = true;
    set
}

/// The picture whose order count is lower by 3.
fn picture_3_before() -> ShortTermRefPicSet {
    let mut set = ShortTermRefPicSet::new();
    set.num_negative_pics = 1;
    set.num_delta_pocs = 1;
    set.delta_poc_s0[0] = -3;
    set.used_by_curr_pic_s0[0] = true;
    set
}

/// An offset of luma and weights of chroma, for the one picture that is referred to.
fn weights() -> PredWeightTable {
    let mut table = PredWeightTable::new();
    table.delta_chroma_log2_weight_denom = 7;
    table.chroma_log2_weight_denom = 7;
    table.luma_weight_l0_flag[0] = true;
    table.luma_offset_l0[0] = -2;
    table.chroma_weight_l0_flag[0] = true;
    table.delta_chroma_weight_l0[0] = [-9, -9];
    table
}

/// Denominators alone.
fn no_weights() -> PredWeightTable {
    let mut table = PredWeightTable::new();
    table.luma_log2_weight_denom = 7;
    table.chroma_log2_weight_denom = 7;
    table
}

/// A stream of one unit of this type, with this value.
fn written<R: Syntax>(
    alloc: Global,
    value: &R,
    nalu_type: NaluType,
) -> Result<Vec<u8>, WriteError> {
    let Some(header) = NaluHeader::new(nalu_type, 0, 1) else {
        return Err(WriteError::NotFormed);
    };
    let mut stream = Vec::new(alloc);
    write_unit(alloc, value, &header, &mut stream)?;
    Ok(stream)
}

/// A video set, written and read back.
fn video_set_again(rt: &impl Abort, alloc: Global, vps: &Vps) -> Vps {
    let stream = ok(rt, written(alloc, vps, NaluType::VpsNut));
    expect_fewer(rt, &stream, 1000);
    let mut position = 0;
    let nalu = ok(rt, Nalu::<NaluHeader>::next(&stream, &mut position));
    ok(rt, read_vps(alloc, &nalu))
}

/// A sequence set, written and read back.
fn sequence_set_again(rt: &impl Abort, alloc: Global, sps: &Sps) -> Sps {
    let stream = ok(rt, written(alloc, sps, NaluType::SpsNut));
    expect_fewer(rt, &stream, 1000);
    let mut position = 0;
    let nalu = ok(rt, Nalu::<NaluHeader>::next(&stream, &mut position));
    ok(rt, read_sps(alloc, &nalu)).into_inner()
}

/// A picture set that names this sequence set, written and read back.
fn picture_set_again(rt: &impl Abort, alloc: Global, sps: &Sps, pps: &Pps) -> Pps {
    let stream = ok(
        rt,
        written(alloc, &PictureUnit { pps, sps }, NaluType::PpsNut),
    );
    expect_fewer(rt, &stream, 1000);
    let mut spses = BTreeMap::new(alloc);
    let kept = ok(rt, Boxed::new(alloc, ok(rt, sps.try_clone())));
    ok(rt, spses.insert(sps.seq_parameter_set_id, kept));
    let mut position = 0;
    let nalu = ok(rt, Nalu::<NaluHeader>::next(&stream, &mut position));
    ok(rt, read_pps(alloc, &nalu, &spses))
}

/// The header of a slice in a unit of this type, written and read back.
fn header_again(
    rt: &impl Abort,
    alloc: Global,
    slice: &SliceUnit<'_>,
    nalu_type: NaluType,
) -> SliceHeader {
    let stream = ok(rt, written(alloc, slice, nalu_type));
    expect_fewer(rt, &stream, 1000);
    let mut spses = BTreeMap::new(alloc);
    let kept = ok(rt, Boxed::new(alloc, ok(rt, slice.sps.try_clone())));
    ok(rt, spses.insert(slice.sps.seq_parameter_set_id, kept));
    let mut ppses = BTreeMap::new(alloc);
    ok(rt, ppses.insert(slice.pps.pic_parameter_set_id, *slice.pps));
    let mut position = 0;
    let nalu = ok(rt, Nalu::<NaluHeader>::next(&stream, &mut position));
    let mut header = SliceHeader::new(alloc);
    ok(
        rt,
        read_slice_header(alloc, &nalu, &spses, &ppses, &mut header),
    );
    header
}

/// A slice header of these sets is read back as it was, with its sizes.
fn assert_header(rt: &impl Abort, alloc: Global, slice: &SliceUnit<'_>, nalu_type: NaluType) {
    let read = header_again(rt, alloc, slice, nalu_type);
    expect(rt, read == *slice.header);
}

#[test]
fn video_sets_are_read_as_they_were_built(rt: HostRuntime) {
    let rt = &rt;
    let vps = cropped_video_set(rt, rt.alloc());
    expect(rt, video_set_again(rt, rt.alloc(), &vps) == vps);
    let vps = full_video_set(rt, rt.alloc());
    expect(rt, video_set_again(rt, rt.alloc(), &vps) == vps);
}

#[test]
fn sequence_sets_are_read_as_they_were_built(rt: HostRuntime) {
    let rt = &rt;
    let sps = cropped_sequence_set(rt.alloc());
    expect(rt, sequence_set_again(rt, rt.alloc(), &sps) == sps);
    let sps = full_sequence_set(rt.alloc());
    expect(rt, sequence_set_again(rt, rt.alloc(), &sps) == sps);
}

#[test]
fn picture_sets_are_read_as_they_were_built(rt: HostRuntime) {
    let rt = &rt;
    let sps = cropped_sequence_set(rt.alloc());
    let pps = cropped_picture_set();
    expect(rt, picture_set_again(rt, rt.alloc(), &sps, &pps) == pps);
    let sps = full_sequence_set(rt.alloc());
    let pps = full_picture_set();
    expect(rt, picture_set_again(rt, rt.alloc(), &sps, &pps) == pps);
}

#[test]
fn headers_of_the_cropped_stream_are_read_as_they_were_built(rt: HostRuntime) {
    let rt = &rt;
    let sps = cropped_sequence_set(rt.alloc());
    let pps = cropped_picture_set();
    let intra = cropped_intra_slice(rt.alloc());
    let predicted = cropped_predicted_slice(rt.alloc());
    let mut slice = SliceUnit {
        header: &intra,
        pps: &pps,
        sps: &sps,
        body: BODY,
    };
    assert_header(rt, rt.alloc(), &slice, NaluType::IdrWRadl);
    slice.header = &predicted;
    assert_header(rt, rt.alloc(), &slice, NaluType::TrailR);
}

#[test]
fn headers_of_the_full_stream_are_read_as_they_were_built(rt: HostRuntime) {
    let rt = &rt;
    let sps = full_sequence_set(rt.alloc());
    let pps = full_picture_set();
    let intra = full_intra_slice(rt, rt.alloc());
    let predicted = full_predicted_slice(rt, rt.alloc());
    let mut slice = SliceUnit {
        header: &intra,
        pps: &pps,
        sps: &sps,
        body: BODY,
    };
    assert_header(rt, rt.alloc(), &slice, NaluType::IdrNLp);
    slice.header = &predicted;
    assert_header(rt, rt.alloc(), &slice, NaluType::TrailR);
}

#[test]
fn a_video_set_has_another_id_up_to_15(rt: HostRuntime) {
    let rt = &rt;
    let alloc = rt.alloc();
    let mut vps = video_set_again(rt, alloc, &full_video_set(rt, alloc));
    vps.video_parameter_set_id = 3;
    expect(rt, video_set_again(rt, alloc, &vps) == vps);
    vps.video_parameter_set_id = 16;
    let refused = written(alloc, &vps, NaluType::VpsNut).err();
    expect_eq(rt, refused, Some(WriteError::NotFormed));
}

#[test]
fn a_sequence_set_has_another_id_up_to_15(rt: HostRuntime) {
    let rt = &rt;
    let alloc = rt.alloc();
    let mut sps = sequence_set_again(rt, alloc, &full_sequence_set(alloc));
    sps.seq_parameter_set_id = 7;
    expect(rt, sequence_set_again(rt, alloc, &sps) == sps);
    sps.seq_parameter_set_id = 16;
    let refused = written(alloc, &sps, NaluType::SpsNut).err();
    expect_eq(rt, refused, Some(WriteError::NotFormed));
}

#[test]
fn a_picture_set_has_another_id_up_to_63(rt: HostRuntime) {
    let rt = &rt;
    let alloc = rt.alloc();
    let sps = full_sequence_set(alloc);
    let mut pps = picture_set_again(rt, alloc, &sps, &full_picture_set());
    pps.pic_parameter_set_id = 63;
    expect(rt, picture_set_again(rt, alloc, &sps, &pps) == pps);
    pps.pic_parameter_set_id = 64;
    let unit = PictureUnit {
        pps: &pps,
        sps: &sps,
    };
    let refused = written(alloc, &unit, NaluType::PpsNut).err();
    expect_eq(rt, refused, Some(WriteError::NotFormed));
}

#[test]
fn a_slice_has_another_quantiser_within_its_range(rt: HostRuntime) {
    let rt = &rt;
    let alloc = rt.alloc();
    let sps = full_sequence_set(alloc);
    let pps = full_picture_set();
    let built = full_predicted_slice(rt, alloc);
    let mut slice = SliceUnit {
        header: &built,
        pps: &pps,
        sps: &sps,
        body: BODY,
    };
    let mut header = header_again(rt, alloc, &slice, NaluType::TrailR);
    header.qp_delta = 25;
    header.header_bit_size = 120;
    slice.header = &header;
    assert_header(rt, alloc, &slice, NaluType::TrailR);
    let mut above = header_again(rt, alloc, &slice, NaluType::TrailR);
    above.qp_delta = 26;
    slice.header = &above;
    let refused = written(alloc, &slice, NaluType::TrailR).err();
    expect_eq(rt, refused, Some(WriteError::NotFormed));
}
