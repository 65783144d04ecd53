//! What a sequence parameter set says: a getter for each element.
ghost use Rattle.std.specs.Prelude.{◌≡◌};

use crate::sps::Sps;
use crate::sps_range_extension::SpsRangeExtension;
use crate::sps_scc_extension::SpsSccExtension;
use hevc_set_parts::{ProfileTierLevel, ScalingLists, ShortTermRefPicSet};
use hevc_video_set::VuiParams;

impl Sps {
    /// The number of the video parameter set that the set refers to.
    pub fn video_parameter_set_id(&self) -> u8
        ensures { result ≡ self.now.video_parameter_set_id }
    {
        self.video_parameter_set_id
    }

    /// The most temporal sub-layers in the stream, less 1.
    pub fn max_sub_layers_minus1(&self) -> u8
        ensures { result ≡ self.now.max_sub_layers_minus1 }
    {
        self.max_sub_layers_minus1
    }

    /// Whether inter prediction is further restricted so that sub-layers nest.
    pub fn temporal_id_nesting_flag(&self) -> bool
        ensures { result ≡ self.now.temporal_id_nesting_flag }
    {
        self.temporal_id_nesting_flag
    }

    /// The profile, tier and level.
    pub fn profile_tier_level(&self) -> &ProfileTierLevel
        ensures { result.now ≡ self.now.profile_tier_level }
    {
        &self.profile_tier_level
    }

    /// The number of the set.
    pub fn seq_parameter_set_id(&self) -> u8
        ensures { result ≡ self.now.seq_parameter_set_id }
    {
        self.seq_parameter_set_id
    }

    /// The chroma format.
    pub fn chroma_format_idc(&self) -> u8
        ensures { result ≡ self.now.chroma_format_idc }
    {
        self.chroma_format_idc
    }

    /// Whether the three colour planes are coded apart, each as luma.
    pub fn separate_colour_plane_flag(&self) -> bool
        ensures { result ≡ self.now.separate_colour_plane_flag }
    {
        self.separate_colour_plane_flag
    }

    /// The width of a picture in luma samples.
    pub fn pic_width_in_luma_samples(&self) -> u16
        ensures { result ≡ self.now.pic_width_in_luma_samples }
    {
        self.pic_width_in_luma_samples
    }

    /// The height of a picture in luma samples.
    pub fn pic_height_in_luma_samples(&self) -> u16
        ensures { result ≡ self.now.pic_height_in_luma_samples }
    {
        self.pic_height_in_luma_samples
    }

    /// Whether the four offsets of the conformance cropping window are there.
    pub fn conformance_window_flag(&self) -> bool
        ensures { result ≡ self.now.conformance_window_flag }
    {
        self.conformance_window_flag
    }

    /// What is cropped on the left, in units of SubWidthC luma samples.
    pub fn conf_win_left_offset(&self) -> u32
        ensures { result ≡ self.now.conf_win_left_offset }
    {
        self.conf_win_left_offset
    }

    /// What is cropped on the right, in units of SubWidthC luma samples.
    pub fn conf_win_right_offset(&self) -> u32
        ensures { result ≡ self.now.conf_win_right_offset }
    {
        self.conf_win_right_offset
    }

    /// What is cropped at the top, in units of SubHeightC luma samples.
    pub fn conf_win_top_offset(&self) -> u32
        ensures { result ≡ self.now.conf_win_top_offset }
    {
        self.conf_win_top_offset
    }

    /// What is cropped at the bottom, in units of SubHeightC luma samples.
    pub fn conf_win_bottom_offset(&self) -> u32
        ensures { result ≡ self.now.conf_win_bottom_offset }
    {
        self.conf_win_bottom_offset
    }

    /// The bit depth of luma samples, less 8.
    pub fn bit_depth_luma_minus8(&self) -> u8
        ensures { result ≡ self.now.bit_depth_luma_minus8 }
    {
        self.bit_depth_luma_minus8
    }

    /// The bit depth of chroma samples, less 8.
    pub fn bit_depth_chroma_minus8(&self) -> u8
        ensures { result ≡ self.now.bit_depth_chroma_minus8 }
    {
        self.bit_depth_chroma_minus8
    }

    /// The number of low bits of order counts in slice headers, less 4.
    pub fn log2_max_pic_order_cnt_lsb_minus4(&self) -> u8
        ensures { result ≡ self.now.log2_max_pic_order_cnt_lsb_minus4 }
    {
        self.log2_max_pic_order_cnt_lsb_minus4
    }

    /// Whether each sub-layer has its own ordering numbers.
    pub fn sub_layer_ordering_info_present_flag(&self) -> bool
        ensures { result ≡ self.now.sub_layer_ordering_info_present_flag }
    {
        self.sub_layer_ordering_info_present_flag
    }

    /// For each sub-layer, the size of the decoded picture buffer in pictures, less 1.
    pub fn max_dec_pic_buffering_minus1(&self) -> [u8; 7]
        ensures { result ≡ self.now.max_dec_pic_buffering_minus1 }
    {
        self.max_dec_pic_buffering_minus1
    }

    /// For each sub-layer, the most pictures that precede one in decoding order and follow it in
    /// output order.
    pub fn max_num_reorder_pics(&self) -> [u8; 7]
        ensures { result ≡ self.now.max_num_reorder_pics }
    {
        self.max_num_reorder_pics
    }

    /// For each sub-layer, the latency beyond reordering, plus 1.
    pub fn max_latency_increase_plus1(&self) -> [u8; 7]
        ensures { result ≡ self.now.max_latency_increase_plus1 }
    {
        self.max_latency_increase_plus1
    }

    /// The logarithm of the smallest size of a luma coding block, less 3.
    pub fn log2_min_luma_coding_block_size_minus3(&self) -> u8
        ensures { result ≡ self.now.log2_min_luma_coding_block_size_minus3 }
    {
        self.log2_min_luma_coding_block_size_minus3
    }

    /// The logarithm of the largest size of a luma coding block, less that of the smallest.
    pub fn log2_diff_max_min_luma_coding_block_size(&self) -> u8
        ensures { result ≡ self.now.log2_diff_max_min_luma_coding_block_size }
    {
        self.log2_diff_max_min_luma_coding_block_size
    }

    /// The logarithm of the smallest size of a luma transform block, less 2.
    pub fn log2_min_luma_transform_block_size_minus2(&self) -> u8
        ensures { result ≡ self.now.log2_min_luma_transform_block_size_minus2 }
    {
        self.log2_min_luma_transform_block_size_minus2
    }

    /// The logarithm of the largest size of a luma transform block, less that of the smallest.
    pub fn log2_diff_max_min_luma_transform_block_size(&self) -> u8
        ensures { result ≡ self.now.log2_diff_max_min_luma_transform_block_size }
    {
        self.log2_diff_max_min_luma_transform_block_size
    }

    /// How often a coding unit in inter prediction may be split into transform blocks.
    pub fn max_transform_hierarchy_depth_inter(&self) -> u8
        ensures { result ≡ self.now.max_transform_hierarchy_depth_inter }
    {
        self.max_transform_hierarchy_depth_inter
    }

    /// How often a coding unit in intra prediction may be split into transform blocks.
    pub fn max_transform_hierarchy_depth_intra(&self) -> u8
        ensures { result ≡ self.now.max_transform_hierarchy_depth_intra }
    {
        self.max_transform_hierarchy_depth_intra
    }

    /// Whether coefficients are scaled by lists.
    pub fn scaling_list_enabled_flag(&self) -> bool
        ensures { result ≡ self.now.scaling_list_enabled_flag }
    {
        self.scaling_list_enabled_flag
    }

    /// Whether the set has scaling lists of its own.
    pub fn scaling_list_data_present_flag(&self) -> bool
        ensures { result ≡ self.now.scaling_list_data_present_flag }
    {
        self.scaling_list_data_present_flag
    }

    /// The scaling lists of the set, with all entries 0 where it has none of its own.
    pub fn scaling_list(&self) -> &ScalingLists
        ensures { result.now ≡ self.now.scaling_list }
    {
        &self.scaling_list
    }

    /// Whether asymmetric motion partitions may be used.
    pub fn amp_enabled_flag(&self) -> bool
        ensures { result ≡ self.now.amp_enabled_flag }
    {
        self.amp_enabled_flag
    }

    /// Whether sample adaptive offsets may be used.
    pub fn sample_adaptive_offset_enabled_flag(&self) -> bool
        ensures { result ≡ self.now.sample_adaptive_offset_enabled_flag }
    {
        self.sample_adaptive_offset_enabled_flag
    }

    /// Whether blocks may be coded by pulse code modulation.
    pub fn pcm_enabled_flag(&self) -> bool
        ensures { result ≡ self.now.pcm_enabled_flag }
    {
        self.pcm_enabled_flag
    }

    /// The bits of a luma sample in pulse code modulation, less 1.
    pub fn pcm_sample_bit_depth_luma_minus1(&self) -> u8
        ensures { result ≡ self.now.pcm_sample_bit_depth_luma_minus1 }
    {
        self.pcm_sample_bit_depth_luma_minus1
    }

    /// The bits of a chroma sample in pulse code modulation, less 1.
    pub fn pcm_sample_bit_depth_chroma_minus1(&self) -> u8
        ensures { result ≡ self.now.pcm_sample_bit_depth_chroma_minus1 }
    {
        self.pcm_sample_bit_depth_chroma_minus1
    }

    /// The logarithm of the smallest size of a block in pulse code modulation, less 3.
    pub fn log2_min_pcm_luma_coding_block_size_minus3(&self) -> u8
        ensures { result ≡ self.now.log2_min_pcm_luma_coding_block_size_minus3 }
    {
        self.log2_min_pcm_luma_coding_block_size_minus3
    }

    /// The logarithm of the largest size of a block in pulse code modulation, less that of the
    /// smallest.
    pub fn log2_diff_max_min_pcm_luma_coding_block_size(&self) -> u8
        ensures { result ≡ self.now.log2_diff_max_min_pcm_luma_coding_block_size }
    {
        self.log2_diff_max_min_pcm_luma_coding_block_size
    }

    /// Whether blocks in pulse code modulation are left out of the loop filters.
    pub fn pcm_loop_filter_disabled_flag(&self) -> bool
        ensures { result ≡ self.now.pcm_loop_filter_disabled_flag }
    {
        self.pcm_loop_filter_disabled_flag
    }

    /// The number of short-term reference picture sets.
    pub fn num_short_term_ref_pic_sets(&self) -> u8
        ensures { result ≡ self.now.num_short_term_ref_pic_sets }
    {
        self.num_short_term_ref_pic_sets
    }

    /// The short-term reference picture sets that slices may name.
    pub fn short_term_ref_pic_set(&self) -> &[ShortTermRefPicSet]
        ensures { result.now ≡ self.now.short_term_ref_pic_set }
    {
        self.short_term_ref_pic_set.as_slice()
    }

    /// Whether slices may refer to long-term pictures.
    pub fn long_term_ref_pics_present_flag(&self) -> bool
        ensures { result ≡ self.now.long_term_ref_pics_present_flag }
    {
        self.long_term_ref_pics_present_flag
    }

    /// The number of long-term pictures that slices may name.
    pub fn num_long_term_ref_pics_sps(&self) -> u8
        ensures { result ≡ self.now.num_long_term_ref_pics_sps }
    {
        self.num_long_term_ref_pics_sps
    }

    /// For each long-term picture, the low bits of its order count.
    pub fn lt_ref_pic_poc_lsb_sps(&self) -> &[u32]
        ensures { result.now ≡ self.now.lt_ref_pic_poc_lsb_sps }
    {
        &self.lt_ref_pic_poc_lsb_sps
    }

    /// For each long-term picture, whether the current picture may refer to it.
    pub fn used_by_curr_pic_lt_sps_flag(&self) -> &[bool]
        ensures { result.now ≡ self.now.used_by_curr_pic_lt_sps_flag }
    {
        &self.used_by_curr_pic_lt_sps_flag
    }

    /// Whether motion vectors may be predicted from other pictures.
    pub fn temporal_mvp_enabled_flag(&self) -> bool
        ensures { result ≡ self.now.temporal_mvp_enabled_flag }
    {
        self.temporal_mvp_enabled_flag
    }

    /// Whether strong smoothing may be used in intra prediction.
    pub fn strong_intra_smoothing_enabled_flag(&self) -> bool
        ensures { result ≡ self.now.strong_intra_smoothing_enabled_flag }
    {
        self.strong_intra_smoothing_enabled_flag
    }

    /// Whether `vui_parameters` is present.
    pub fn vui_parameters_present_flag(&self) -> bool
        ensures { result ≡ self.now.vui_parameters_present_flag }
    {
        self.vui_parameters_present_flag
    }

    /// Video usability information.
    pub fn vui_parameters(&self) -> &VuiParams
        ensures { result.now ≡ self.now.vui_parameters }
    {
        &self.vui_parameters
    }

    /// Whether the flags of extensions are there.
    pub fn extension_present_flag(&self) -> bool
        ensures { result ≡ self.now.extension_present_flag }
    {
        self.extension_present_flag
    }

    /// Whether `range_extension` is present.
    pub fn range_extension_flag(&self) -> bool
        ensures { result ≡ self.now.range_extension_flag }
    {
        self.range_extension_flag
    }

    /// Whether `scc_extension` is present.
    pub fn scc_extension_flag(&self) -> bool
        ensures { result ≡ self.now.scc_extension_flag }
    {
        self.scc_extension_flag
    }

    /// The range extension.
    pub fn range_extension(&self) -> &SpsRangeExtension
        ensures { result.now ≡ self.now.range_extension }
    {
        &self.range_extension
    }

    /// The screen content coding extension.
    pub fn scc_extension(&self) -> &SpsSccExtension
        ensures { result.now ≡ self.now.scc_extension }
    {
        &self.scc_extension
    }
}
