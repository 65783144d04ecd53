//! The range extension of a picture parameter set.
ghost use Rattle.std.specs.Prelude.{◌≡◌};

/// The range extension of a picture parameter set (H.265 7.3.2.3.2, 7.4.3.3.2).
#[derive(Clone, Copy, PartialEq, Eq)]
pub struct PpsRangeExtension {
    /// The logarithm of the largest block size with transform skip, less 2: 0 to 3.
    pub log2_max_transform_skip_block_size_minus2: u32,
    /// Whether cross-component prediction may be used.
    pub cross_component_prediction_enabled_flag: bool,
    /// Whether coding units may choose among chroma quantiser offsets.
    pub chroma_qp_offset_list_enabled_flag: bool,
    /// The most splits of a coding tree block above a unit that chooses an offset.
    pub diff_cu_chroma_qp_offset_depth: u32,
    /// The number of offsets to choose from, less 1: 0 to 5.
    pub chroma_qp_offset_list_len_minus1: u32,
    /// The Cb quantiser offsets to choose from: -12 to 12.
    pub cb_qp_offset_list: [i32; 6],
    /// The Cr quantiser offsets to choose from: -12 to 12.
    pub cr_qp_offset_list: [i32; 6],
    /// The logarithm of the scale of sample adaptive offsets of luma: at most the luma bit depth
    /// less 10.
    pub log2_sao_offset_scale_luma: u32,
    /// The logarithm of the scale of sample adaptive offsets of chroma: at most the chroma bit
    /// depth less 10.
    pub log2_sao_offset_scale_chroma: u32,
}

impl PpsRangeExtension {
    ghost use Rattle.hevc_records.specs.PpsRangeExtension.{default_pps_range_extension};
    ghost use Rattle.hevc_set_parts.specs.PpsRangeExtension.{plain_pps_range_extension};

    /// All numbers 0, all flags not set.
    pub fn new() -> PpsRangeExtension
        ensures { plain_pps_range_extension result ≡ default_pps_range_extension }
    {
        PpsRangeExtension {
            log2_max_transform_skip_block_size_minus2: 0,
            cross_component_prediction_enabled_flag: false,
            chroma_qp_offset_list_enabled_flag: false,
            diff_cu_chroma_qp_offset_depth: 0,
            chroma_qp_offset_list_len_minus1: 0,
            cb_qp_offset_list: [0; 6],
            cr_qp_offset_list: [0; 6],
            log2_sao_offset_scale_luma: 0,
            log2_sao_offset_scale_chroma: 0,
        }
    }

    /// The logarithm of the largest block size with transform skip, less 2.
    pub fn log2_max_transform_skip_block_size_minus2(&self) -> u32
        ensures { result ≡ self.now.log2_max_transform_skip_block_size_minus2 }
    {
        self.log2_max_transform_skip_block_size_minus2
    }

    /// Whether cross-component prediction may be used.
    pub fn cross_component_prediction_enabled_flag(&self) -> bool
        ensures { result ≡ self.now.cross_component_prediction_enabled_flag }
    {
        self.cross_component_prediction_enabled_flag
    }

    /// Whether coding units may choose among chroma quantiser offsets.
    pub fn chroma_qp_offset_list_enabled_flag(&self) -> bool
        ensures { result ≡ self.now.chroma_qp_offset_list_enabled_flag }
    {
        self.chroma_qp_offset_list_enabled_flag
    }

    /// The most splits of a coding tree block above a unit that chooses an offset.
    pub fn diff_cu_chroma_qp_offset_depth(&self) -> u32
        ensures { result ≡ self.now.diff_cu_chroma_qp_offset_depth }
    {
        self.diff_cu_chroma_qp_offset_depth
    }

    /// The number of offsets to choose from, less 1.
    pub fn chroma_qp_offset_list_len_minus1(&self) -> u32
        ensures { result ≡ self.now.chroma_qp_offset_list_len_minus1 }
    {
        self.chroma_qp_offset_list_len_minus1
    }

    /// The Cb quantiser offsets to choose from.
    pub fn cb_qp_offset_list(&self) -> [i32; 6]
        ensures { result ≡ self.now.cb_qp_offset_list }
    {
        self.cb_qp_offset_list
    }

    /// The Cr quantiser offsets to choose from.
    pub fn cr_qp_offset_list(&self) -> [i32; 6]
        ensures { result ≡ self.now.cr_qp_offset_list }
    {
        self.cr_qp_offset_list
    }

    /// The logarithm of the scale of sample adaptive offsets of luma.
    pub fn log2_sao_offset_scale_luma(&self) -> u32
        ensures { result ≡ self.now.log2_sao_offset_scale_luma }
    {
        self.log2_sao_offset_scale_luma
    }

    /// The logarithm of the scale of sample adaptive offsets of chroma.
    pub fn log2_sao_offset_scale_chroma(&self) -> u32
        ensures { result ≡ self.now.log2_sao_offset_scale_chroma }
    {
        self.log2_sao_offset_scale_chroma
    }
}
