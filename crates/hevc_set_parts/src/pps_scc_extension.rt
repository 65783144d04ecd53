//! The screen content coding extension of a picture parameter set.
ghost use Rattle.std.specs.Prelude.{◌≡◌};

/// The screen content coding extension of a picture parameter set (H.265 7.3.2.3.3, 7.4.3.3.3).
#[derive(Clone, Copy, PartialEq, Eq)]
pub struct PpsSccExtension {
    /// Whether a picture may refer to itself.
    pub curr_pic_ref_enabled_flag: bool,
    /// Whether the adaptive colour transform may be used.
    pub residual_adaptive_colour_transform_enabled_flag: bool,
    /// Whether slice headers have quantiser offsets of the colour transform.
    pub slice_act_qp_offsets_present_flag: bool,
    /// The Y quantiser offset of the colour transform, plus 5: -7 to 17.
    pub act_y_qp_offset_plus5: i8,
    /// The Cb quantiser offset of the colour transform, plus 5: -7 to 17.
    pub act_cb_qp_offset_plus5: i8,
    /// The Cr quantiser offset of the colour transform, plus 3: -9 to 15.
    pub act_cr_qp_offset_plus3: i8,
    /// Whether the set has its own first palette predictors.
    pub palette_predictor_initializers_present_flag: bool,
    /// The number of first palette predictors: 0 to 128.
    pub num_palette_predictor_initializers: u8,
    /// Whether the first palette predictors have luma alone.
    pub monochrome_palette_flag: bool,
    /// The bit depth of the luma entries, less 8: 0 to 6.
    pub luma_bit_depth_entry_minus8: u8,
    /// The bit depth of the chroma entries, less 8: 0 to 6.
    pub chroma_bit_depth_entry_minus8: u8,
    /// For each component, the first palette predictors.
    pub palette_predictor_initializer: [[u16; 128]; 3],
}

impl PpsSccExtension {
    ghost use Rattle.hevc_records.specs.PpsSccExtension.{default_pps_scc_extension};
    ghost use Rattle.hevc_set_parts.specs.PpsSccExtension.{plain_pps_scc_extension};

    /// All numbers 0, all flags not set.
    pub fn new() -> PpsSccExtension
        ensures { plain_pps_scc_extension result ≡ default_pps_scc_extension }
    {
        PpsSccExtension {
            curr_pic_ref_enabled_flag: false,
            residual_adaptive_colour_transform_enabled_flag: false,
            slice_act_qp_offsets_present_flag: false,
            act_y_qp_offset_plus5: 0,
            act_cb_qp_offset_plus5: 0,
            act_cr_qp_offset_plus3: 0,
            palette_predictor_initializers_present_flag: false,
            num_palette_predictor_initializers: 0,
            monochrome_palette_flag: false,
            luma_bit_depth_entry_minus8: 0,
            chroma_bit_depth_entry_minus8: 0,
            palette_predictor_initializer: [[0; 128]; 3],
        }
    }

    /// Whether a picture may refer to itself.
    pub fn curr_pic_ref_enabled_flag(&self) -> bool
        ensures { result ≡ self.now.curr_pic_ref_enabled_flag }
    {
        self.curr_pic_ref_enabled_flag
    }

    /// Whether the adaptive colour transform may be used.
    pub fn residual_adaptive_colour_transform_enabled_flag(&self) -> bool
        ensures { result ≡ self.now.residual_adaptive_colour_transform_enabled_flag }
    {
        self.residual_adaptive_colour_transform_enabled_flag
    }

    /// Whether slice headers have quantiser offsets of the colour transform.
    pub fn slice_act_qp_offsets_present_flag(&self) -> bool
        ensures { result ≡ self.now.slice_act_qp_offsets_present_flag }
    {
        self.slice_act_qp_offsets_present_flag
    }

    /// The Y quantiser offset of the colour transform, plus 5.
    pub fn act_y_qp_offset_plus5(&self) -> i8
        ensures { result ≡ self.now.act_y_qp_offset_plus5 }
    {
        self.act_y_qp_offset_plus5
    }

    /// The Cb quantiser offset of the colour transform, plus 5.
    pub fn act_cb_qp_offset_plus5(&self) -> i8
        ensures { result ≡ self.now.act_cb_qp_offset_plus5 }
    {
        self.act_cb_qp_offset_plus5
    }

    /// The Cr quantiser offset of the colour transform, plus 3.
    pub fn act_cr_qp_offset_plus3(&self) -> i8
        ensures { result ≡ self.now.act_cr_qp_offset_plus3 }
    {
        self.act_cr_qp_offset_plus3
    }

    /// Whether the set has its own first palette predictors.
    pub fn palette_predictor_initializers_present_flag(&self) -> bool
        ensures { result ≡ self.now.palette_predictor_initializers_present_flag }
    {
        self.palette_predictor_initializers_present_flag
    }

    /// The number of first palette predictors.
    pub fn num_palette_predictor_initializers(&self) -> u8
        ensures { result ≡ self.now.num_palette_predictor_initializers }
    {
        self.num_palette_predictor_initializers
    }

    /// Whether the first palette predictors have luma alone.
    pub fn monochrome_palette_flag(&self) -> bool
        ensures { result ≡ self.now.monochrome_palette_flag }
    {
        self.monochrome_palette_flag
    }

    /// The bit depth of the luma entries, less 8.
    pub fn luma_bit_depth_entry_minus8(&self) -> u8
        ensures { result ≡ self.now.luma_bit_depth_entry_minus8 }
    {
        self.luma_bit_depth_entry_minus8
    }

    /// The bit depth of the chroma entries, less 8.
    pub fn chroma_bit_depth_entry_minus8(&self) -> u8
        ensures { result ≡ self.now.chroma_bit_depth_entry_minus8 }
    {
        self.chroma_bit_depth_entry_minus8
    }

    /// For each component, the first palette predictors.
    pub fn palette_predictor_initializer(&self) -> [[u16; 128]; 3]
        ensures { result ≡ self.now.palette_predictor_initializer }
    {
        self.palette_predictor_initializer
    }
}
