//! Picture parameter sets.
ghost use Rattle.std.specs.Prelude.{◌≡◌, ◌+◌, ◌≤◌, pos, neg_ℤ, ◌≤ℤ◌};

use hevc_set_parts::{PpsRangeExtension, PpsSccExtension, ScalingLists};

/// A picture parameter set (H.265 7.3.2.3.1, 7.4.3.3.1).
#[derive(Clone, Copy, PartialEq, Eq)]
pub struct Pps {
    /// The number of the set: 0 to 63.
    pub pic_parameter_set_id: u8,
    /// The number of the sequence set that it refers to: 0 to 15.
    pub seq_parameter_set_id: u8,
    /// Whether slice headers tell whether their segment is a dependent one.
    pub dependent_slice_segments_enabled_flag: bool,
    /// Whether slice headers have `pic_output_flag`.
    pub output_flag_present_flag: bool,
    /// The number of bits in slice headers that are passed over: 0 to 7.
    pub num_extra_slice_header_bits: u8,
    /// Whether signs of coefficients may be hidden.
    pub sign_data_hiding_enabled_flag: bool,
    /// Whether slice headers have `cabac_init_flag`.
    pub cabac_init_present_flag: bool,
    /// The number of active entries of list 0 where a slice header has none, less 1: 0 to 14.
    pub num_ref_idx_l0_default_active_minus1: u8,
    /// The number of active entries of list 1 where a slice header has none, less 1: 0 to 14.
    pub num_ref_idx_l1_default_active_minus1: u8,
    /// The first luma quantiser of a slice, less 26: `-(26 + qp_bd_offset_y)` to 25.
    pub init_qp_minus26: i8,
    /// Whether intra prediction uses intra blocks alone.
    pub constrained_intra_pred_flag: bool,
    /// Whether blocks may skip the transform.
    pub transform_skip_enabled_flag: bool,
    /// Whether coding units may change the quantiser.
    pub cu_qp_delta_enabled_flag: bool,
    /// The most splits of a coding tree block above a unit that changes the quantiser: 0 to
    /// `log2_diff_max_min_luma_coding_block_size` of the sequence set.
    pub diff_cu_qp_delta_depth: u8,
    /// The Cb quantiser offset: -12 to 12.
    pub cb_qp_offset: i8,
    /// The Cr quantiser offset: -12 to 12.
    pub cr_qp_offset: i8,
    /// Whether slice headers have `cb_qp_offset` and `cr_qp_offset`.
    pub slice_chroma_qp_offsets_present_flag: bool,
    /// Whether P slices have weights.
    pub weighted_pred_flag: bool,
    /// Whether B slices have weights.
    pub weighted_bipred_flag: bool,
    /// Whether coding units may be lossless.
    pub transquant_bypass_enabled_flag: bool,
    /// Whether a picture has several tiles.
    pub tiles_enabled_flag: bool,
    /// Whether the state of entropy coding is taken over from row to row of coding tree blocks.
    pub entropy_coding_sync_enabled_flag: bool,
    /// The number of tile columns, less 1: 0 to 19.
    pub num_tile_columns_minus1: u8,
    /// The number of tile rows, less 1: 0 to 21.
    pub num_tile_rows_minus1: u8,
    /// Whether tiles are spread evenly.
    pub uniform_spacing_flag: bool,
    /// The width of each tile column in coding tree blocks, less 1; each 0 without tiles.
    pub column_width_minus1: [u32; 20],
    /// The height of each tile row in coding tree blocks, less 1; each 0 without tiles.
    pub row_height_minus1: [u32; 22],
    /// Whether in-loop filters go across tile boundaries.
    pub loop_filter_across_tiles_enabled_flag: bool,
    /// Whether in-loop filters may go across slice boundaries.
    pub loop_filter_across_slices_enabled_flag: bool,
    /// Whether the set speaks of the deblocking filter.
    pub deblocking_filter_control_present_flag: bool,
    /// Whether slice headers may speak of the deblocking filter.
    pub deblocking_filter_override_enabled_flag: bool,
    /// Whether the deblocking filter is off where a slice header doesn't say.
    pub deblocking_filter_disabled_flag: bool,
    /// Half the offset of the deblocking parameter beta where a slice header doesn't say: -6 to 6.
    pub beta_offset_div2: i8,
    /// Half the offset of the deblocking parameter tC where a slice header doesn't say: -6 to 6.
    pub tc_offset_div2: i8,
    /// Whether the set has scaling lists.
    pub scaling_list_data_present_flag: bool,
    /// The scaling lists.
    pub scaling_list: ScalingLists,
    /// Whether slice headers may modify the reference lists.
    pub lists_modification_present_flag: bool,
    /// The logarithm of the size of regions whose merge candidates are found in parallel, less 2: 0
    /// to that of coding tree blocks, less 2.
    pub log2_parallel_merge_level_minus2: u8,
    /// Whether slice headers have an extension.
    pub slice_segment_header_extension_present_flag: bool,
    /// Whether extensions may follow.
    pub extension_present_flag: bool,
    /// Whether the range extension is present.
    pub range_extension_flag: bool,
    /// Whether the screen content coding extension is present.
    pub scc_extension_flag: bool,
    /// The range extension.
    pub range_extension: PpsRangeExtension,
    /// The screen content coding extension.
    pub scc_extension: PpsSccExtension,
    /// How far below 0 a luma quantiser may be: six for each bit of luma depth above 8: 0 to 36.
    pub qp_bd_offset_y: u32,
    /// The temporal id of the unit of the set: 0 to 6.
    pub temporal_id: u8,
    pub ghost active_l0: { num_ref_idx_l0_default_active_minus1 ≤ 14 },
    pub ghost active_l1: { num_ref_idx_l1_default_active_minus1 ≤ 14 },
    pub ghost luma_offset: { qp_bd_offset_y ≤ 36 },
    pub ghost init_qp_least: { neg_ℤ (pos (26 + qp_bd_offset_y)) ≤ℤ init_qp_minus26 },
    pub ghost init_qp_most: { init_qp_minus26 ≤ℤ pos 25 },
    pub ghost cb_least: { neg_ℤ (pos 12) ≤ℤ cb_qp_offset },
    pub ghost cb_most: { cb_qp_offset ≤ℤ pos 12 },
    pub ghost cr_least: { neg_ℤ (pos 12) ≤ℤ cr_qp_offset },
    pub ghost cr_most: { cr_qp_offset ≤ℤ pos 12 },
    pub ghost tile_columns: { num_tile_columns_minus1 ≤ 19 },
    pub ghost tile_rows: { num_tile_rows_minus1 ≤ 21 },
    pub ghost beta_least: { neg_ℤ (pos 6) ≤ℤ beta_offset_div2 },
    pub ghost beta_most: { beta_offset_div2 ≤ℤ pos 6 },
    pub ghost tc_least: { neg_ℤ (pos 6) ≤ℤ tc_offset_div2 },
    pub ghost tc_most: { tc_offset_div2 ≤ℤ pos 6 },
}

impl Pps {
    ghost use Rattle.hevc_records.specs.Pps.{default_pps};
    ghost use Rattle.hevc_picture_slice.specs.Pps.{plain_pps};

    /// All numbers 0 and all flags not set, but for `uniform_spacing_flag` and
    /// `loop_filter_across_tiles_enabled_flag`.
    pub fn new() -> Pps
        ensures { plain_pps result ≡ default_pps }
    {
        Pps {
            pic_parameter_set_id: 0,
            seq_parameter_set_id: 0,
            dependent_slice_segments_enabled_flag: false,
            output_flag_present_flag: false,
            num_extra_slice_header_bits: 0,
            sign_data_hiding_enabled_flag: false,
            cabac_init_present_flag: false,
            num_ref_idx_l0_default_active_minus1: 0,
            num_ref_idx_l1_default_active_minus1: 0,
            init_qp_minus26: 0,
            constrained_intra_pred_flag: false,
            transform_skip_enabled_flag: false,
            cu_qp_delta_enabled_flag: false,
            diff_cu_qp_delta_depth: 0,
            cb_qp_offset: 0,
            cr_qp_offset: 0,
            slice_chroma_qp_offsets_present_flag: false,
            weighted_pred_flag: false,
            weighted_bipred_flag: false,
            transquant_bypass_enabled_flag: false,
            tiles_enabled_flag: false,
            entropy_coding_sync_enabled_flag: false,
            num_tile_columns_minus1: 0,
            num_tile_rows_minus1: 0,
            uniform_spacing_flag: true,
            column_width_minus1: [0; 20],
            row_height_minus1: [0; 22],
            loop_filter_across_tiles_enabled_flag: true,
            loop_filter_across_slices_enabled_flag: false,
            deblocking_filter_control_present_flag: false,
            deblocking_filter_override_enabled_flag: false,
            deblocking_filter_disabled_flag: false,
            beta_offset_div2: 0,
            tc_offset_div2: 0,
            scaling_list_data_present_flag: false,
            scaling_list: ScalingLists::new(),
            lists_modification_present_flag: false,
            log2_parallel_merge_level_minus2: 0,
            slice_segment_header_extension_present_flag: false,
            extension_present_flag: false,
            range_extension_flag: false,
            scc_extension_flag: false,
            range_extension: PpsRangeExtension::new(),
            scc_extension: PpsSccExtension::new(),
            qp_bd_offset_y: 0,
            temporal_id: 0,
        }
    }

    /// The number of the set.
    pub fn pic_parameter_set_id(&self) -> u8
        ensures { result ≡ self.now.pic_parameter_set_id }
    {
        self.pic_parameter_set_id
    }

    /// The number of the sequence set that it refers to.
    pub fn seq_parameter_set_id(&self) -> u8
        ensures { result ≡ self.now.seq_parameter_set_id }
    {
        self.seq_parameter_set_id
    }

    /// Whether slice headers tell whether their segment is a dependent one.
    pub fn dependent_slice_segments_enabled_flag(&self) -> bool
        ensures { result ≡ self.now.dependent_slice_segments_enabled_flag }
    {
        self.dependent_slice_segments_enabled_flag
    }

    /// Whether slice headers have `pic_output_flag`.
    pub fn output_flag_present_flag(&self) -> bool
        ensures { result ≡ self.now.output_flag_present_flag }
    {
        self.output_flag_present_flag
    }

    /// The number of bits in slice headers that are passed over.
    pub fn num_extra_slice_header_bits(&self) -> u8
        ensures { result ≡ self.now.num_extra_slice_header_bits }
    {
        self.num_extra_slice_header_bits
    }

    /// Whether signs of coefficients may be hidden.
    pub fn sign_data_hiding_enabled_flag(&self) -> bool
        ensures { result ≡ self.now.sign_data_hiding_enabled_flag }
    {
        self.sign_data_hiding_enabled_flag
    }

    /// Whether slice headers have `cabac_init_flag`.
    pub fn cabac_init_present_flag(&self) -> bool
        ensures { result ≡ self.now.cabac_init_present_flag }
    {
        self.cabac_init_present_flag
    }

    /// The number of active entries of list 0 where a slice header has none, less 1.
    pub fn num_ref_idx_l0_default_active_minus1(&self) -> u8
        ensures { result ≡ self.now.num_ref_idx_l0_default_active_minus1 }
    {
        self.num_ref_idx_l0_default_active_minus1
    }

    /// The number of active entries of list 1 where a slice header has none, less 1.
    pub fn num_ref_idx_l1_default_active_minus1(&self) -> u8
        ensures { result ≡ self.now.num_ref_idx_l1_default_active_minus1 }
    {
        self.num_ref_idx_l1_default_active_minus1
    }

    /// The first luma quantiser of a slice, less 26.
    pub fn init_qp_minus26(&self) -> i8
        ensures { result ≡ self.now.init_qp_minus26 }
    {
        self.init_qp_minus26
    }

    /// Whether intra prediction uses intra blocks alone.
    pub fn constrained_intra_pred_flag(&self) -> bool
        ensures { result ≡ self.now.constrained_intra_pred_flag }
    {
        self.constrained_intra_pred_flag
    }

    /// Whether blocks may skip the transform.
    pub fn transform_skip_enabled_flag(&self) -> bool
        ensures { result ≡ self.now.transform_skip_enabled_flag }
    {
        self.transform_skip_enabled_flag
    }

    /// Whether coding units may change the quantiser.
    pub fn cu_qp_delta_enabled_flag(&self) -> bool
        ensures { result ≡ self.now.cu_qp_delta_enabled_flag }
    {
        self.cu_qp_delta_enabled_flag
    }

    /// The most splits of a coding tree block above a unit that changes the quantiser.
    pub fn diff_cu_qp_delta_depth(&self) -> u8
        ensures { result ≡ self.now.diff_cu_qp_delta_depth }
    {
        self.diff_cu_qp_delta_depth
    }

    /// The Cb quantiser offset.
    pub fn cb_qp_offset(&self) -> i8
        ensures { result ≡ self.now.cb_qp_offset }
    {
        self.cb_qp_offset
    }

    /// The Cr quantiser offset.
    pub fn cr_qp_offset(&self) -> i8
        ensures { result ≡ self.now.cr_qp_offset }
    {
        self.cr_qp_offset
    }

    /// Whether slice headers have `cb_qp_offset` and `cr_qp_offset`.
    pub fn slice_chroma_qp_offsets_present_flag(&self) -> bool
        ensures { result ≡ self.now.slice_chroma_qp_offsets_present_flag }
    {
        self.slice_chroma_qp_offsets_present_flag
    }

    /// Whether P slices have weights.
    pub fn weighted_pred_flag(&self) -> bool
        ensures { result ≡ self.now.weighted_pred_flag }
    {
        self.weighted_pred_flag
    }

    /// Whether B slices have weights.
    pub fn weighted_bipred_flag(&self) -> bool
        ensures { result ≡ self.now.weighted_bipred_flag }
    {
        self.weighted_bipred_flag
    }

    /// Whether coding units may be lossless.
    pub fn transquant_bypass_enabled_flag(&self) -> bool
        ensures { result ≡ self.now.transquant_bypass_enabled_flag }
    {
        self.transquant_bypass_enabled_flag
    }

    /// Whether a picture has several tiles.
    pub fn tiles_enabled_flag(&self) -> bool
        ensures { result ≡ self.now.tiles_enabled_flag }
    {
        self.tiles_enabled_flag
    }

    /// Whether the state of entropy coding is taken over from row to row of coding tree blocks.
    pub fn entropy_coding_sync_enabled_flag(&self) -> bool
        ensures { result ≡ self.now.entropy_coding_sync_enabled_flag }
    {
        self.entropy_coding_sync_enabled_flag
    }

    /// The number of tile columns, less 1.
    pub fn num_tile_columns_minus1(&self) -> u8
        ensures { result ≡ self.now.num_tile_columns_minus1 }
    {
        self.num_tile_columns_minus1
    }

    /// The number of tile rows, less 1.
    pub fn num_tile_rows_minus1(&self) -> u8
        ensures { result ≡ self.now.num_tile_rows_minus1 }
    {
        self.num_tile_rows_minus1
    }

    /// Whether tiles are spread evenly.
    pub fn uniform_spacing_flag(&self) -> bool
        ensures { result ≡ self.now.uniform_spacing_flag }
    {
        self.uniform_spacing_flag
    }

    /// The width of each tile column in coding tree blocks, less 1; each 0 without tiles.
    pub fn column_width_minus1(&self) -> [u32; 20]
        ensures { result ≡ self.now.column_width_minus1 }
    {
        self.column_width_minus1
    }

    /// The height of each tile row in coding tree blocks, less 1; each 0 without tiles.
    pub fn row_height_minus1(&self) -> [u32; 22]
        ensures { result ≡ self.now.row_height_minus1 }
    {
        self.row_height_minus1
    }

    /// Whether in-loop filters go across tile boundaries.
    pub fn loop_filter_across_tiles_enabled_flag(&self) -> bool
        ensures { result ≡ self.now.loop_filter_across_tiles_enabled_flag }
    {
        self.loop_filter_across_tiles_enabled_flag
    }

    /// Whether in-loop filters may go across slice boundaries.
    pub fn loop_filter_across_slices_enabled_flag(&self) -> bool
        ensures { result ≡ self.now.loop_filter_across_slices_enabled_flag }
    {
        self.loop_filter_across_slices_enabled_flag
    }

    /// Whether the set speaks of the deblocking filter.
    pub fn deblocking_filter_control_present_flag(&self) -> bool
        ensures { result ≡ self.now.deblocking_filter_control_present_flag }
    {
        self.deblocking_filter_control_present_flag
    }

    /// Whether slice headers may speak of the deblocking filter.
    pub fn deblocking_filter_override_enabled_flag(&self) -> bool
        ensures { result ≡ self.now.deblocking_filter_override_enabled_flag }
    {
        self.deblocking_filter_override_enabled_flag
    }

    /// Whether the deblocking filter is off where a slice header doesn't say.
    pub fn deblocking_filter_disabled_flag(&self) -> bool
        ensures { result ≡ self.now.deblocking_filter_disabled_flag }
    {
        self.deblocking_filter_disabled_flag
    }

    /// Half the offset of the deblocking parameter beta where a slice header doesn't say.
    pub fn beta_offset_div2(&self) -> i8
        ensures { result ≡ self.now.beta_offset_div2 }
    {
        self.beta_offset_div2
    }

    /// Half the offset of the deblocking parameter tC where a slice header doesn't say.
    pub fn tc_offset_div2(&self) -> i8
        ensures { result ≡ self.now.tc_offset_div2 }
    {
        self.tc_offset_div2
    }

    /// Whether the set has scaling lists.
    pub fn scaling_list_data_present_flag(&self) -> bool
        ensures { result ≡ self.now.scaling_list_data_present_flag }
    {
        self.scaling_list_data_present_flag
    }

    /// The scaling lists.
    pub fn scaling_list(&self) -> &ScalingLists
        ensures { result.now ≡ self.now.scaling_list }
    {
        &self.scaling_list
    }

    /// Whether slice headers may modify the reference lists.
    pub fn lists_modification_present_flag(&self) -> bool
        ensures { result ≡ self.now.lists_modification_present_flag }
    {
        self.lists_modification_present_flag
    }

    /// The logarithm of the size of regions whose merge candidates are found in parallel, less 2.
    pub fn log2_parallel_merge_level_minus2(&self) -> u8
        ensures { result ≡ self.now.log2_parallel_merge_level_minus2 }
    {
        self.log2_parallel_merge_level_minus2
    }

    /// Whether slice headers have an extension.
    pub fn slice_segment_header_extension_present_flag(&self) -> bool
        ensures { result ≡ self.now.slice_segment_header_extension_present_flag }
    {
        self.slice_segment_header_extension_present_flag
    }

    /// Whether extensions may follow.
    pub fn extension_present_flag(&self) -> bool
        ensures { result ≡ self.now.extension_present_flag }
    {
        self.extension_present_flag
    }

    /// Whether the range extension is present.
    pub fn range_extension_flag(&self) -> bool
        ensures { result ≡ self.now.range_extension_flag }
    {
        self.range_extension_flag
    }

    /// Whether the screen content coding extension is present.
    pub fn scc_extension_flag(&self) -> bool
        ensures { result ≡ self.now.scc_extension_flag }
    {
        self.scc_extension_flag
    }

    /// The range extension.
    pub fn range_extension(&self) -> &PpsRangeExtension
        ensures { result.now ≡ self.now.range_extension }
    {
        &self.range_extension
    }

    /// The screen content coding extension.
    pub fn scc_extension(&self) -> &PpsSccExtension
        ensures { result.now ≡ self.now.scc_extension }
    {
        &self.scc_extension
    }

    /// How far below 0 a luma quantiser may be: six for each bit of luma depth above 8.
    pub fn qp_bd_offset_y(&self) -> u32
        ensures { result ≡ self.now.qp_bd_offset_y }
    {
        self.qp_bd_offset_y
    }

    /// The temporal id of the unit of the set.
    pub fn temporal_id(&self) -> u8
        ensures { result ≡ self.now.temporal_id }
    {
        self.temporal_id
    }
}
