//! The screen content coding extension of a sequence parameter set.
ghost use Rattle.std.specs.Prelude.{◌≡◌, ◌+◌, ◌≤◌};

/// The screen content coding extension of a sequence parameter set (H.265 7.3.2.2.3, 7.4.3.2.3).
#[derive(Clone, Copy, PartialEq, Eq)]
pub struct SpsSccExtension {
    /// Whether a picture may refer to itself.
    pub curr_pic_ref_enabled_flag: bool,
    /// Whether blocks may be coded by palettes.
    pub palette_mode_enabled_flag: bool,
    /// The most entries of a palette: 0 to 64.
    pub palette_max_size: u8,
    /// The most palette predictors, less `palette_max_size`: 0 to 128 less `palette_max_size`.
    pub delta_palette_max_predictor_size: u8,
    /// Whether the set has its own first palette predictors.
    pub palette_predictor_initializers_present_flag: bool,
    /// The number of first palette predictors, less 1: 0 to 127.
    pub num_palette_predictor_initializer_minus1: u8,
    /// For each component, the first palette predictors.
    pub palette_predictor_initializer: [[u32; 128]; 3],
    /// Whether motion vectors are whole samples: 0 never, 1 always, 2 as each slice says; 3 is
    /// reserved.
    pub motion_vector_resolution_control_idc: u8,
    /// Whether intra prediction goes without filtering of block boundaries where the standard lets
    /// it.
    pub intra_boundary_filtering_disabled_flag: bool,
    pub ghost palette: { palette_max_size ≤ 64 },
    pub ghost predictors: { palette_max_size + delta_palette_max_predictor_size ≤ 128 },
}

impl SpsSccExtension {
    ghost use Rattle.hevc_records.specs.SpsSccExtension.{default_sps_scc_extension};
    ghost use Rattle.hevc_sequence_set.specs.SpsSccExtension.{plain_sps_scc_extension};

    /// All numbers 0, all flags not set.
    pub fn new() -> SpsSccExtension
        ensures { plain_sps_scc_extension result ≡ default_sps_scc_extension }
    {
        SpsSccExtension {
            curr_pic_ref_enabled_flag: false,
            palette_mode_enabled_flag: false,
            palette_max_size: 0,
            delta_palette_max_predictor_size: 0,
            palette_predictor_initializers_present_flag: false,
            num_palette_predictor_initializer_minus1: 0,
            palette_predictor_initializer: [[0; 128]; 3],
            motion_vector_resolution_control_idc: 0,
            intra_boundary_filtering_disabled_flag: false,
        }
    }

    /// Whether a picture may refer to itself.
    pub fn curr_pic_ref_enabled_flag(&self) -> bool
        ensures { result ≡ self.now.curr_pic_ref_enabled_flag }
    {
        self.curr_pic_ref_enabled_flag
    }

    /// Whether blocks may be coded by palettes.
    pub fn palette_mode_enabled_flag(&self) -> bool
        ensures { result ≡ self.now.palette_mode_enabled_flag }
    {
        self.palette_mode_enabled_flag
    }

    /// The most entries of a palette.
    pub fn palette_max_size(&self) -> u8
        ensures { result ≡ self.now.palette_max_size }
    {
        self.palette_max_size
    }

    /// The most palette predictors, less `palette_max_size`.
    pub fn delta_palette_max_predictor_size(&self) -> u8
        ensures { result ≡ self.now.delta_palette_max_predictor_size }
    {
        self.delta_palette_max_predictor_size
    }

    /// Whether the set has its own first palette predictors.
    pub fn palette_predictor_initializers_present_flag(&self) -> bool
        ensures { result ≡ self.now.palette_predictor_initializers_present_flag }
    {
        self.palette_predictor_initializers_present_flag
    }

    /// The number of first palette predictors, less 1.
    pub fn num_palette_predictor_initializer_minus1(&self) -> u8
        ensures { result ≡ self.now.num_palette_predictor_initializer_minus1 }
    {
        self.num_palette_predictor_initializer_minus1
    }

    /// For each component, the first palette predictors.
    pub fn palette_predictor_initializer(&self) -> [[u32; 128]; 3]
        ensures { result ≡ self.now.palette_predictor_initializer }
    {
        self.palette_predictor_initializer
    }

    /// Whether motion vectors are whole samples: 0 never, 1 always, 2 as each slice says.
    pub fn motion_vector_resolution_control_idc(&self) -> u8
        ensures { result ≡ self.now.motion_vector_resolution_control_idc }
    {
        self.motion_vector_resolution_control_idc
    }

    /// Whether intra prediction goes without filtering of block boundaries where the standard lets
    /// it.
    pub fn intra_boundary_filtering_disabled_flag(&self) -> bool
        ensures { result ≡ self.now.intra_boundary_filtering_disabled_flag }
    {
        self.intra_boundary_filtering_disabled_flag
    }
}
