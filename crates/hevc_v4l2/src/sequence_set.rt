//! The sequence parameter set: `struct v4l2_ctrl_hevc_sps`.
ghost use Rattle.std.specs.Prelude.{◌≡◌};
ghost use Rattle.hevc_sequence_set.specs.Sps.{plain_sps};
ghost use Rattle.hevc_v4l2.specs.SequenceSet.{control_of_sps};

use hevc_events::flag_bits;
use hevc_sequence_set::Sps;

/// `struct v4l2_ctrl_hevc_sps`: the elements of a sequence parameter set (7.3.2.2.1), by their
/// names in H.265.
#[repr(C)]
#[derive(Clone, Copy)]
pub struct V4l2CtrlHevcSps {
    pub video_parameter_set_id: u8,
    pub seq_parameter_set_id: u8,
    pub pic_width_in_luma_samples: u16,
    pub pic_height_in_luma_samples: u16,
    pub bit_depth_luma_minus8: u8,
    pub bit_depth_chroma_minus8: u8,
    pub log2_max_pic_order_cnt_lsb_minus4: u8,
    /// The three ordering numbers are those of the highest sub-layer.
    pub sps_max_dec_pic_buffering_minus1: u8,
    pub sps_max_num_reorder_pics: u8,
    pub sps_max_latency_increase_plus1: u8,
    pub log2_min_luma_coding_block_size_minus3: u8,
    pub log2_diff_max_min_luma_coding_block_size: u8,
    pub log2_min_luma_transform_block_size_minus2: u8,
    pub log2_diff_max_min_luma_transform_block_size: u8,
    pub max_transform_hierarchy_depth_inter: u8,
    pub max_transform_hierarchy_depth_intra: u8,
    pub pcm_sample_bit_depth_luma_minus1: u8,
    pub pcm_sample_bit_depth_chroma_minus1: u8,
    pub log2_min_pcm_luma_coding_block_size_minus3: u8,
    pub log2_diff_max_min_pcm_luma_coding_block_size: u8,
    pub num_short_term_ref_pic_sets: u8,
    pub num_long_term_ref_pics_sps: u8,
    pub chroma_format_idc: u8,
    pub sps_max_sub_layers_minus1: u8,
    /// Zeros.
    pub reserved: [u8; 6],
    /// `V4L2_HEVC_SPS_FLAG_*`, from bit 0 on.
    pub flags: u64,
}

const _: () = prove!(size_of::<V4l2CtrlHevcSps>() == 40);

/// The sequence set as a stateless decoder takes it.
pub fn sps_control(sps: &Sps) -> V4l2CtrlHevcSps
    ensures { result ≡ control_of_sps (plain_sps sps.now) }
{
    let highest = sps.max_sub_layers_minus1 as usize;
    V4l2CtrlHevcSps {
        video_parameter_set_id: sps.video_parameter_set_id,
        seq_parameter_set_id: sps.seq_parameter_set_id,
        pic_width_in_luma_samples: sps.pic_width_in_luma_samples,
        pic_height_in_luma_samples: sps.pic_height_in_luma_samples,
        bit_depth_luma_minus8: sps.bit_depth_luma_minus8,
        bit_depth_chroma_minus8: sps.bit_depth_chroma_minus8,
        log2_max_pic_order_cnt_lsb_minus4: sps.log2_max_pic_order_cnt_lsb_minus4,
        sps_max_dec_pic_buffering_minus1: sps.max_dec_pic_buffering_minus1[highest],
        sps_max_num_reorder_pics: sps.max_num_reorder_pics[highest],
        sps_max_latency_increase_plus1: sps.max_latency_increase_plus1[highest],
        log2_min_luma_coding_block_size_minus3: sps.log2_min_luma_coding_block_size_minus3,
        log2_diff_max_min_luma_coding_block_size: sps.log2_diff_max_min_luma_coding_block_size,
        log2_min_luma_transform_block_size_minus2: sps.log2_min_luma_transform_block_size_minus2,
        log2_diff_max_min_luma_transform_block_size: sps.log2_diff_max_min_luma_transform_block_size,
        max_transform_hierarchy_depth_inter: sps.max_transform_hierarchy_depth_inter,
        max_transform_hierarchy_depth_intra: sps.max_transform_hierarchy_depth_intra,
        pcm_sample_bit_depth_luma_minus1: sps.pcm_sample_bit_depth_luma_minus1,
        pcm_sample_bit_depth_chroma_minus1: sps.pcm_sample_bit_depth_chroma_minus1,
        log2_min_pcm_luma_coding_block_size_minus3: sps.log2_min_pcm_luma_coding_block_size_minus3,
        log2_diff_max_min_pcm_luma_coding_block_size: sps.log2_diff_max_min_pcm_luma_coding_block_size,
        num_short_term_ref_pic_sets: sps.num_short_term_ref_pic_sets,
        num_long_term_ref_pics_sps: sps.num_long_term_ref_pics_sps,
        chroma_format_idc: sps.chroma_format_idc,
        sps_max_sub_layers_minus1: sps.max_sub_layers_minus1,
        reserved: [0; 6],
        flags: sps_flags(sps),
    }
}

/// The flags, in the order of their bits.
fn sps_flags(sps: &Sps) -> u64
    ensures { result ≡ (control_of_sps (plain_sps sps.now)).flags }
{
    flag_bits(&[
        sps.separate_colour_plane_flag,
        sps.scaling_list_enabled_flag,
        sps.amp_enabled_flag,
        sps.sample_adaptive_offset_enabled_flag,
        sps.pcm_enabled_flag,
        sps.pcm_loop_filter_disabled_flag,
        sps.long_term_ref_pics_present_flag,
        sps.temporal_mvp_enabled_flag,
        sps.strong_intra_smoothing_enabled_flag,
    ])
}
