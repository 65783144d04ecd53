//! The sequence parameter set.
ghost use Rattle.std.specs.Prelude.{◌≡◌};
ghost use Rattle.hevc_sequence_set.specs.Sps.{plain_sps};
ghost use Rattle.hevc_pull.specs.Fields.Sps.{fields_of_sps, sps_flags};

use crate::fields::profile::{ProfileFields, profile_fields};
use crate::fields::vui::{VuiFields, vui_fields};
use hevc_events::flag_bits;
use hevc_sequence_set::Sps;

/// The elements of a sequence parameter set (7.3.2.2.1), by their names in H.265.
#[repr(C)]
#[derive(Clone, Copy)]
pub struct SpsFields {
    pub sps_video_parameter_set_id: u8,
    pub sps_seq_parameter_set_id: u8,
    pub sps_max_sub_layers_minus1: u8,
    pub chroma_format_idc: u8,
    pub profile: ProfileFields,
    pub pic_width_in_luma_samples: u16,
    pub pic_height_in_luma_samples: u16,
    /// The window is in units of chroma samples, and all 0 where it is absent (7.4.3.2.1).
    pub conf_win_left_offset: u32,
    pub conf_win_right_offset: u32,
    pub conf_win_top_offset: u32,
    pub conf_win_bottom_offset: u32,
    pub bit_depth_luma_minus8: u8,
    pub bit_depth_chroma_minus8: u8,
    pub log2_max_pic_order_cnt_lsb_minus4: u8,
    /// The three ordering numbers are there for each sub-layer, from the lowest on.
    pub sps_max_dec_pic_buffering_minus1: [u8; 7],
    pub sps_max_num_reorder_pics: [u8; 7],
    pub sps_max_latency_increase_plus1: [u8; 7],
    pub log2_min_luma_coding_block_size_minus3: u8,
    pub log2_diff_max_min_luma_coding_block_size: u8,
    pub log2_min_luma_transform_block_size_minus2: u8,
    pub log2_diff_max_min_luma_transform_block_size: u8,
    pub max_transform_hierarchy_depth_inter: u8,
    pub max_transform_hierarchy_depth_intra: u8,
    pub pcm_sample_bit_depth_luma_minus1: u8,
    pub pcm_sample_bit_depth_chroma_minus1: u8,
    pub log2_min_pcm_luma_coding_block_size_minus3: u8,
    pub log2_diff_max_min_pcm_luma_coding_block_size: u8,
    pub num_short_term_ref_pic_sets: u8,
    pub num_long_term_ref_pics_sps: u8,
    pub vui: VuiFields,
    /// Flags, from bit 0 on.
    pub flags: u32,
}

/// The fields of a sequence parameter set.
pub fn sps_fields(sps: &Sps) -> SpsFields
    ensures { result ≡ fields_of_sps (plain_sps sps.now) }
{
    let max_dec_pic_buffering_minus1 = sps.max_dec_pic_buffering_minus1;
    let max_num_reorder_pics = sps.max_num_reorder_pics;
    let max_latency_increase_plus1 = sps.max_latency_increase_plus1;
    SpsFields {
        sps_video_parameter_set_id: sps.video_parameter_set_id,
        sps_seq_parameter_set_id: sps.seq_parameter_set_id,
        sps_max_sub_layers_minus1: sps.max_sub_layers_minus1,
        chroma_format_idc: sps.chroma_format_idc,
        profile: profile_fields(&sps.profile_tier_level),
        pic_width_in_luma_samples: sps.pic_width_in_luma_samples,
        pic_height_in_luma_samples: sps.pic_height_in_luma_samples,
        conf_win_left_offset: sps.conf_win_left_offset,
        conf_win_right_offset: sps.conf_win_right_offset,
        conf_win_top_offset: sps.conf_win_top_offset,
        conf_win_bottom_offset: sps.conf_win_bottom_offset,
        bit_depth_luma_minus8: sps.bit_depth_luma_minus8,
        bit_depth_chroma_minus8: sps.bit_depth_chroma_minus8,
        log2_max_pic_order_cnt_lsb_minus4: sps.log2_max_pic_order_cnt_lsb_minus4,
        sps_max_dec_pic_buffering_minus1: max_dec_pic_buffering_minus1,
        sps_max_num_reorder_pics: max_num_reorder_pics,
        sps_max_latency_increase_plus1: max_latency_increase_plus1,
        log2_min_luma_coding_block_size_minus3: sps.log2_min_luma_coding_block_size_minus3,
        log2_diff_max_min_luma_coding_block_size: sps.log2_diff_max_min_luma_coding_block_size,
        log2_min_luma_transform_block_size_minus2: sps.log2_min_luma_transform_block_size_minus2,
        log2_diff_max_min_luma_transform_block_size: sps.log2_diff_max_min_luma_transform_block_size,
        max_transform_hierarchy_depth_inter: sps.max_transform_hierarchy_depth_inter,
        max_transform_hierarchy_depth_intra: sps.max_transform_hierarchy_depth_intra,
        pcm_sample_bit_depth_luma_minus1: sps.pcm_sample_bit_depth_luma_minus1,
        pcm_sample_bit_depth_chroma_minus1: sps.pcm_sample_bit_depth_chroma_minus1,
        log2_min_pcm_luma_coding_block_size_minus3: sps.log2_min_pcm_luma_coding_block_size_minus3,
        log2_diff_max_min_pcm_luma_coding_block_size: sps.log2_diff_max_min_pcm_luma_coding_block_size,
        num_short_term_ref_pic_sets: sps.num_short_term_ref_pic_sets,
        num_long_term_ref_pics_sps: sps.num_long_term_ref_pics_sps,
        vui: vui_fields(&sps.vui_parameters),
        flags: sps_flags(sps),
    }
}

/// The flags, in the order of their bits.
fn sps_flags(sps: &Sps) -> u32
    ensures { result ≡ sps_flags (plain_sps sps.now) }
{
    flag_bits(&[
        sps.temporal_id_nesting_flag,
        sps.separate_colour_plane_flag,
        sps.conformance_window_flag,
        sps.sub_layer_ordering_info_present_flag,
        sps.scaling_list_enabled_flag,
        sps.scaling_list_data_present_flag,
        sps.amp_enabled_flag,
        sps.sample_adaptive_offset_enabled_flag,
        sps.pcm_enabled_flag,
        sps.pcm_loop_filter_disabled_flag,
        sps.long_term_ref_pics_present_flag,
        sps.temporal_mvp_enabled_flag,
        sps.strong_intra_smoothing_enabled_flag,
        sps.vui_parameters_present_flag,
        sps.extension_present_flag,
        sps.range_extension_flag,
        sps.scc_extension_flag,
    ]) as u32
}
