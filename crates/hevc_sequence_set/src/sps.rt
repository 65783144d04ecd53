//! Sequence parameter sets.
ghost use Rattle.std.specs.Prelude.{◌≡◌, ◌+◌, ◌*◌, ◌^◌, ◌≤◌, min, length, IsTrue, IfOk};
ghost use Rattle.std.specs.Prelude.{if◌then◌else◌};
ghost use Rattle.std.specs.Int.{div_ceil};
ghost use Rattle.hevc_records.specs.Bounds.{AtMost, AtMostEach};
ghost use Rattle.hevc_records.specs.SpsSizes.{leaves_some, wp_offset_half_range};

use crate::sps_range_extension::SpsRangeExtension;
use crate::sps_scc_extension::SpsSccExtension;
use hevc_set_parts::{Items, ProfileTierLevel, ScalingLists, ShortTermRefPicSet};
use hevc_video_set::VuiParams;
use std::alloc::{AllocError, Global};

/// A sequence parameter set (H.265 7.3.2.2.1, 7.4.3.2.1), and the values that are derived from it.
///
/// The arrays of seven have a place for each sub-layer. Logarithms are to the base 2, of sizes in
/// luma samples. SubWidthC and SubHeightC, the luma samples for a chroma sample across and down,
/// are 2 and 2 where `chroma_array_type` is 1, 2 and 1 where it is 2, and else 1 and 1 (Table 6-1).
#[derive(Drop, PartialEq, Eq)]
pub struct Sps {
    /// The number of the video parameter set that the set refers to: 0 to 15.
    pub video_parameter_set_id: u8,
    /// The most temporal sub-layers in the stream, less 1: 0 to 6.
    pub max_sub_layers_minus1: u8,
    /// Whether inter prediction is further restricted so that sub-layers nest.
    pub temporal_id_nesting_flag: bool,
    /// The profile, tier and level.
    pub profile_tier_level: ProfileTierLevel,
    /// The number of the set: 0 to 15.
    pub seq_parameter_set_id: u8,
    /// The chroma format: 0 without chroma, 1 for 4:2:0, 2 for 4:2:2, 3 for 4:4:4.
    pub chroma_format_idc: u8,
    /// Whether the three colour planes are coded apart, each as luma.
    pub separate_colour_plane_flag: bool,
    /// The width of a picture in luma samples: 1 to 16888.
    pub pic_width_in_luma_samples: u16,
    /// The height of a picture in luma samples: 1 to 16888.
    pub pic_height_in_luma_samples: u16,
    /// Whether the four offsets of the conformance cropping window are there.
    pub conformance_window_flag: bool,
    /// What is cropped on the left, in units of SubWidthC luma samples.
    pub conf_win_left_offset: u32,
    /// What is cropped on the right, in units of SubWidthC luma samples.
    pub conf_win_right_offset: u32,
    /// What is cropped at the top, in units of SubHeightC luma samples.
    pub conf_win_top_offset: u32,
    /// What is cropped at the bottom, in units of SubHeightC luma samples.
    pub conf_win_bottom_offset: u32,
    /// The bit depth of luma samples, less 8: 0 to 6.
    pub bit_depth_luma_minus8: u8,
    /// The bit depth of chroma samples, less 8: 0 to 6.
    pub bit_depth_chroma_minus8: u8,
    /// The number of low bits of order counts in slice headers, less 4: 0 to 12.
    pub log2_max_pic_order_cnt_lsb_minus4: u8,
    /// Whether each sub-layer has its own ordering numbers.
    pub sub_layer_ordering_info_present_flag: bool,
    /// For each sub-layer, the size of the decoded picture buffer in pictures, less 1: 0 to 16.
    pub max_dec_pic_buffering_minus1: [u8; 7],
    /// For each sub-layer, the most pictures that precede one in decoding order and follow it in
    /// output order: at most `max_dec_pic_buffering_minus1` there.
    pub max_num_reorder_pics: [u8; 7],
    /// For each sub-layer, the latency beyond reordering, plus 1: 0 for no bound.
    pub max_latency_increase_plus1: [u8; 7],
    /// The logarithm of the smallest size of a luma coding block, less 3: 0 to 3.
    pub log2_min_luma_coding_block_size_minus3: u8,
    /// The logarithm of the largest size of a luma coding block, less that of the smallest: 0 to 6.
    pub log2_diff_max_min_luma_coding_block_size: u8,
    /// The logarithm of the smallest size of a luma transform block, less 2: 0 to 3.
    pub log2_min_luma_transform_block_size_minus2: u8,
    /// The logarithm of the largest size of a luma transform block, less that of the smallest: 0 to
    /// 3.
    pub log2_diff_max_min_luma_transform_block_size: u8,
    /// How often a coding unit in inter prediction may be split into transform blocks: 0 to 4.
    pub max_transform_hierarchy_depth_inter: u8,
    /// How often a coding unit in intra prediction may be split into transform blocks: 0 to 4.
    pub max_transform_hierarchy_depth_intra: u8,
    /// Whether coefficients are scaled by lists.
    pub scaling_list_enabled_flag: bool,
    /// Whether the set has scaling lists of its own.
    pub scaling_list_data_present_flag: bool,
    /// The scaling lists of the set, with all entries 0 where it has none of its own.
    pub scaling_list: ScalingLists,
    /// Whether asymmetric motion partitions may be used.
    pub amp_enabled_flag: bool,
    /// Whether sample adaptive offsets may be used.
    pub sample_adaptive_offset_enabled_flag: bool,
    /// Whether blocks may be coded by pulse code modulation.
    pub pcm_enabled_flag: bool,
    /// The bits of a luma sample in pulse code modulation, less 1: 0 to 15.
    pub pcm_sample_bit_depth_luma_minus1: u8,
    /// The bits of a chroma sample in pulse code modulation, less 1: 0 to 15.
    pub pcm_sample_bit_depth_chroma_minus1: u8,
    /// The logarithm of the smallest size of a block in pulse code modulation, less 3: 0 to 2.
    pub log2_min_pcm_luma_coding_block_size_minus3: u8,
    /// The logarithm of the largest size of a block in pulse code modulation, less that of the
    /// smallest: 0 to 2.
    pub log2_diff_max_min_pcm_luma_coding_block_size: u8,
    /// Whether blocks in pulse code modulation are left out of the loop filters.
    pub pcm_loop_filter_disabled_flag: bool,
    /// The number of short-term reference picture sets: 0 to 64.
    pub num_short_term_ref_pic_sets: u8,
    /// The short-term reference picture sets that slices may name.
    pub short_term_ref_pic_set: Items<ShortTermRefPicSet>,
    /// Whether slices may refer to long-term pictures.
    pub long_term_ref_pics_present_flag: bool,
    /// The number of long-term pictures that slices may name: 0 to 32.
    pub num_long_term_ref_pics_sps: u8,
    /// For each long-term picture, the low bits of its order count.
    pub lt_ref_pic_poc_lsb_sps: [u32; 32],
    /// For each long-term picture, whether the current picture may refer to it.
    pub used_by_curr_pic_lt_sps_flag: [bool; 32],
    /// Whether motion vectors may be predicted from other pictures.
    pub temporal_mvp_enabled_flag: bool,
    /// Whether strong smoothing may be used in intra prediction.
    pub strong_intra_smoothing_enabled_flag: bool,
    /// Whether `vui_parameters` is present.
    pub vui_parameters_present_flag: bool,
    /// Video usability information.
    pub vui_parameters: VuiParams,
    /// Whether the flags of extensions are there.
    pub extension_present_flag: bool,
    /// Whether `range_extension` is present.
    pub range_extension_flag: bool,
    /// Whether `scc_extension` is present.
    pub scc_extension_flag: bool,
    /// The range extension.
    pub range_extension: SpsRangeExtension,
    /// The screen content coding extension.
    pub scc_extension: SpsSccExtension,
    /// The chroma format by which blocks are coded: `chroma_format_idc`, but 0 where the colour
    /// planes are coded apart.
    pub chroma_array_type: u8,
    /// The logarithm of the smallest size of a luma coding block: 3 to 6.
    pub min_cb_log2_size_y: u32,
    /// The logarithm of the size of a luma coding tree block: 3 to 12.
    pub ctb_log2_size_y: u32,
    /// The size of a luma coding tree block in samples: 8 to 4096.
    pub ctb_size_y: u32,
    /// The width of a picture in coding tree blocks, the last column included where it is cut: 1 to
    /// 2111.
    pub pic_width_in_ctbs_y: u32,
    /// The height of a picture in coding tree blocks, the last row included where it is cut: 1 to
    /// 2111.
    pub pic_height_in_ctbs_y: u32,
    /// The number of coding tree blocks in a picture: 1 to 4456321.
    pub pic_size_in_ctbs_y: u32,
    /// The number of luma samples in a picture: 1 to 285204544.
    pub pic_size_in_samples_y: u32,
    /// The logarithm of the largest size of a luma transform block: 2 to 5, at most
    /// `ctb_log2_size_y`.
    pub max_tb_log2_size_y: u32,
    /// Half the range of luma offsets in weighted prediction: 128 to 8192.
    pub wp_offset_half_range_y: u32,
    /// Half the range of chroma offsets in weighted prediction: 128 to 8192.
    pub wp_offset_half_range_c: u32,
    pub ghost sub_layers: { max_sub_layers_minus1 ≤ 6 },
    pub ghost chroma_format: { chroma_format_idc ≤ 3 },
    pub ghost width_range: { (1 ≤ pic_width_in_luma_samples) × (pic_width_in_luma_samples ≤ 16888) },
    pub ghost height_range: { (1 ≤ pic_height_in_luma_samples) × (pic_height_in_luma_samples ≤ 16888) },
    pub ghost window: { IsTrue conformance_window_flag → IsTrue (leaves_some chroma_array_type pic_width_in_luma_samples pic_height_in_luma_samples conf_win_left_offset conf_win_right_offset conf_win_top_offset conf_win_bottom_offset) },
    pub ghost luma_depth: { bit_depth_luma_minus8 ≤ 6 },
    pub ghost chroma_depth: { bit_depth_chroma_minus8 ≤ 6 },
    pub ghost order_count_bits: { log2_max_pic_order_cnt_lsb_minus4 ≤ 12 },
    pub ghost buffering: { AtMost 16 max_dec_pic_buffering_minus1 },
    pub ghost reordering: { AtMostEach max_dec_pic_buffering_minus1 max_num_reorder_pics },
    pub ghost coding_blocks: { (log2_min_luma_coding_block_size_minus3 ≤ 3) × (log2_diff_max_min_luma_coding_block_size ≤ 6) },
    pub ghost transform_blocks: { (log2_min_luma_transform_block_size_minus2 ≤ 3) × (log2_diff_max_min_luma_transform_block_size ≤ 3) },
    pub ghost transform_in_coding: { max_tb_log2_size_y ≤ min ctb_log2_size_y 5 },
    pub ghost short_term_count: { num_short_term_ref_pic_sets ≤ 64 },
    pub ghost short_term_sets: { length short_term_ref_pic_set ≡ num_short_term_ref_pic_sets },
    pub ghost long_term_count: { num_long_term_ref_pics_sps ≤ 32 },
    pub ghost chroma_array: { chroma_array_type ≡ (if separate_colour_plane_flag then 0 else chroma_format_idc) },
    pub ghost log2_min_coding_block: { min_cb_log2_size_y ≡ log2_min_luma_coding_block_size_minus3 + 3 },
    pub ghost log2_coding_tree_block: { ctb_log2_size_y ≡ min_cb_log2_size_y + log2_diff_max_min_luma_coding_block_size },
    pub ghost coding_tree_block: { ctb_size_y ≡ 2 ^ ctb_log2_size_y },
    pub ghost width_in_ctbs: { pic_width_in_ctbs_y ≡ div_ceil pic_width_in_luma_samples ctb_size_y },
    pub ghost height_in_ctbs: { pic_height_in_ctbs_y ≡ div_ceil pic_height_in_luma_samples ctb_size_y },
    pub ghost size_in_ctbs: { pic_size_in_ctbs_y ≡ pic_width_in_ctbs_y * pic_height_in_ctbs_y },
    pub ghost size_in_samples: { pic_size_in_samples_y ≡ pic_width_in_luma_samples * pic_height_in_luma_samples },
    pub ghost log2_max_transform_block: { max_tb_log2_size_y ≡ log2_min_luma_transform_block_size_minus2 + 2 + log2_diff_max_min_luma_transform_block_size },
    pub ghost luma_half_range: { wp_offset_half_range_y ≡ wp_offset_half_range range_extension.high_precision_offsets_enabled_flag bit_depth_luma_minus8 },
    pub ghost chroma_half_range: { wp_offset_half_range_c ≡ wp_offset_half_range range_extension.high_precision_offsets_enabled_flag bit_depth_chroma_minus8 },
}

impl Sps {
    ghost use Rattle.hevc_records.specs.Sps.{default_sps};
    ghost use Rattle.hevc_sequence_set.specs.Sps.{plain_sps};

    /// A set of pictures of one luma sample. Its other elements are 0, not set or empty, and its
    /// parts those of their own `new`; the derived values follow from these.
    pub fn new(alloc: Global) -> Sps
        ensures { plain_sps result ≡ default_sps }
    {
        Sps {
            video_parameter_set_id: 0,
            max_sub_layers_minus1: 0,
            temporal_id_nesting_flag: false,
            profile_tier_level: ProfileTierLevel::new(),
            seq_parameter_set_id: 0,
            chroma_format_idc: 0,
            separate_colour_plane_flag: false,
            pic_width_in_luma_samples: 1,
            pic_height_in_luma_samples: 1,
            conformance_window_flag: false,
            conf_win_left_offset: 0,
            conf_win_right_offset: 0,
            conf_win_top_offset: 0,
            conf_win_bottom_offset: 0,
            bit_depth_luma_minus8: 0,
            bit_depth_chroma_minus8: 0,
            log2_max_pic_order_cnt_lsb_minus4: 0,
            sub_layer_ordering_info_present_flag: false,
            max_dec_pic_buffering_minus1: [0; 7],
            max_num_reorder_pics: [0; 7],
            max_latency_increase_plus1: [0; 7],
            log2_min_luma_coding_block_size_minus3: 0,
            log2_diff_max_min_luma_coding_block_size: 0,
            log2_min_luma_transform_block_size_minus2: 0,
            log2_diff_max_min_luma_transform_block_size: 0,
            max_transform_hierarchy_depth_inter: 0,
            max_transform_hierarchy_depth_intra: 0,
            scaling_list_enabled_flag: false,
            scaling_list_data_present_flag: false,
            scaling_list: ScalingLists::new(),
            amp_enabled_flag: false,
            sample_adaptive_offset_enabled_flag: false,
            pcm_enabled_flag: false,
            pcm_sample_bit_depth_luma_minus1: 0,
            pcm_sample_bit_depth_chroma_minus1: 0,
            log2_min_pcm_luma_coding_block_size_minus3: 0,
            log2_diff_max_min_pcm_luma_coding_block_size: 0,
            pcm_loop_filter_disabled_flag: false,
            num_short_term_ref_pic_sets: 0,
            short_term_ref_pic_set: Items::new(alloc),
            long_term_ref_pics_present_flag: false,
            num_long_term_ref_pics_sps: 0,
            lt_ref_pic_poc_lsb_sps: [0; 32],
            used_by_curr_pic_lt_sps_flag: [false; 32],
            temporal_mvp_enabled_flag: false,
            strong_intra_smoothing_enabled_flag: false,
            vui_parameters_present_flag: false,
            vui_parameters: VuiParams::new(),
            extension_present_flag: false,
            range_extension_flag: false,
            scc_extension_flag: false,
            range_extension: SpsRangeExtension::new(),
            scc_extension: SpsSccExtension::new(),
            chroma_array_type: 0,
            min_cb_log2_size_y: 3,
            ctb_log2_size_y: 3,
            ctb_size_y: 8,
            pic_width_in_ctbs_y: 1,
            pic_height_in_ctbs_y: 1,
            pic_size_in_ctbs_y: 1,
            pic_size_in_samples_y: 1,
            max_tb_log2_size_y: 2,
            wp_offset_half_range_y: 128,
            wp_offset_half_range_c: 128,
        }
    }

    /// An equal set.
    ///
    /// Errors: no memory.
    pub fn try_clone(&self) -> Result<Sps, AllocError>
        ensures { IfOk result (λ copy. copy ≡ self.now) }
    {
        let short_term_ref_pic_set = self.short_term_ref_pic_set.try_copy()?;
        Ok(Sps {
            video_parameter_set_id: self.video_parameter_set_id,
            max_sub_layers_minus1: self.max_sub_layers_minus1,
            temporal_id_nesting_flag: self.temporal_id_nesting_flag,
            profile_tier_level: self.profile_tier_level,
            seq_parameter_set_id: self.seq_parameter_set_id,
            chroma_format_idc: self.chroma_format_idc,
            separate_colour_plane_flag: self.separate_colour_plane_flag,
            pic_width_in_luma_samples: self.pic_width_in_luma_samples,
            pic_height_in_luma_samples: self.pic_height_in_luma_samples,
            conformance_window_flag: self.conformance_window_flag,
            conf_win_left_offset: self.conf_win_left_offset,
            conf_win_right_offset: self.conf_win_right_offset,
            conf_win_top_offset: self.conf_win_top_offset,
            conf_win_bottom_offset: self.conf_win_bottom_offset,
            bit_depth_luma_minus8: self.bit_depth_luma_minus8,
            bit_depth_chroma_minus8: self.bit_depth_chroma_minus8,
            log2_max_pic_order_cnt_lsb_minus4: self.log2_max_pic_order_cnt_lsb_minus4,
            sub_layer_ordering_info_present_flag: self.sub_layer_ordering_info_present_flag,
            max_dec_pic_buffering_minus1: self.max_dec_pic_buffering_minus1,
            max_num_reorder_pics: self.max_num_reorder_pics,
            max_latency_increase_plus1: self.max_latency_increase_plus1,
            log2_min_luma_coding_block_size_minus3: self.log2_min_luma_coding_block_size_minus3,
            log2_diff_max_min_luma_coding_block_size: self.log2_diff_max_min_luma_coding_block_size,
            log2_min_luma_transform_block_size_minus2: self.log2_min_luma_transform_block_size_minus2,
            log2_diff_max_min_luma_transform_block_size: self.log2_diff_max_min_luma_transform_block_size,
            max_transform_hierarchy_depth_inter: self.max_transform_hierarchy_depth_inter,
            max_transform_hierarchy_depth_intra: self.max_transform_hierarchy_depth_intra,
            scaling_list_enabled_flag: self.scaling_list_enabled_flag,
            scaling_list_data_present_flag: self.scaling_list_data_present_flag,
            scaling_list: self.scaling_list,
            amp_enabled_flag: self.amp_enabled_flag,
            sample_adaptive_offset_enabled_flag: self.sample_adaptive_offset_enabled_flag,
            pcm_enabled_flag: self.pcm_enabled_flag,
            pcm_sample_bit_depth_luma_minus1: self.pcm_sample_bit_depth_luma_minus1,
            pcm_sample_bit_depth_chroma_minus1: self.pcm_sample_bit_depth_chroma_minus1,
            log2_min_pcm_luma_coding_block_size_minus3: self.log2_min_pcm_luma_coding_block_size_minus3,
            log2_diff_max_min_pcm_luma_coding_block_size: self.log2_diff_max_min_pcm_luma_coding_block_size,
            pcm_loop_filter_disabled_flag: self.pcm_loop_filter_disabled_flag,
            num_short_term_ref_pic_sets: self.num_short_term_ref_pic_sets,
            short_term_ref_pic_set,
            long_term_ref_pics_present_flag: self.long_term_ref_pics_present_flag,
            num_long_term_ref_pics_sps: self.num_long_term_ref_pics_sps,
            lt_ref_pic_poc_lsb_sps: self.lt_ref_pic_poc_lsb_sps,
            used_by_curr_pic_lt_sps_flag: self.used_by_curr_pic_lt_sps_flag,
            temporal_mvp_enabled_flag: self.temporal_mvp_enabled_flag,
            strong_intra_smoothing_enabled_flag: self.strong_intra_smoothing_enabled_flag,
            vui_parameters_present_flag: self.vui_parameters_present_flag,
            vui_parameters: self.vui_parameters,
            extension_present_flag: self.extension_present_flag,
            range_extension_flag: self.range_extension_flag,
            scc_extension_flag: self.scc_extension_flag,
            range_extension: self.range_extension,
            scc_extension: self.scc_extension,
            chroma_array_type: self.chroma_array_type,
            min_cb_log2_size_y: self.min_cb_log2_size_y,
            ctb_log2_size_y: self.ctb_log2_size_y,
            ctb_size_y: self.ctb_size_y,
            pic_width_in_ctbs_y: self.pic_width_in_ctbs_y,
            pic_height_in_ctbs_y: self.pic_height_in_ctbs_y,
            pic_size_in_ctbs_y: self.pic_size_in_ctbs_y,
            pic_size_in_samples_y: self.pic_size_in_samples_y,
            max_tb_log2_size_y: self.max_tb_log2_size_y,
            wp_offset_half_range_y: self.wp_offset_half_range_y,
            wp_offset_half_range_c: self.wp_offset_half_range_c,
        })
    }
}
