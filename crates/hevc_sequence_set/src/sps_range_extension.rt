//! The range extension of a sequence parameter set.
ghost use Rattle.std.specs.Prelude.{◌≡◌};

/// The range extension of a sequence parameter set (H.265 7.3.2.2.2, 7.4.3.2.2).
#[derive(Clone, Copy, PartialEq, Eq)]
pub struct SpsRangeExtension {
    /// Whether the residuals of 4x4 intra blocks without transform are rotated.
    pub transform_skip_rotation_enabled_flag: bool,
    /// Whether coefficients of blocks without transform have a context of their own.
    pub transform_skip_context_enabled_flag: bool,
    /// Whether residuals of intra blocks without transform may be differences.
    pub implicit_rdpcm_enabled_flag: bool,
    /// Whether residuals of inter blocks without transform may be differences.
    pub explicit_rdpcm_enabled_flag: bool,
    /// Whether coefficients and interpolation have a larger range.
    pub extended_precision_processing_flag: bool,
    /// Whether intra prediction goes without smoothing of its neighbours.
    pub intra_smoothing_disabled_flag: bool,
    /// Whether offsets of weighted prediction have the precision of samples.
    pub high_precision_offsets_enabled_flag: bool,
    /// Whether Rice parameters begin from what earlier blocks have told.
    pub persistent_rice_adaptation_enabled_flag: bool,
    /// Whether the arithmetic decoder is aligned before bypass bits.
    pub cabac_bypass_alignment_enabled_flag: bool,
}

impl SpsRangeExtension {
    ghost use Rattle.hevc_records.specs.SpsRangeExtension.{default_sps_range_extension};
    ghost use Rattle.hevc_sequence_set.specs.SpsRangeExtension.{plain_sps_range_extension};

    /// All flags not set.
    pub fn new() -> SpsRangeExtension
        ensures { plain_sps_range_extension result ≡ default_sps_range_extension }
    {
        SpsRangeExtension {
            transform_skip_rotation_enabled_flag: false,
            transform_skip_context_enabled_flag: false,
            implicit_rdpcm_enabled_flag: false,
            explicit_rdpcm_enabled_flag: false,
            extended_precision_processing_flag: false,
            intra_smoothing_disabled_flag: false,
            high_precision_offsets_enabled_flag: false,
            persistent_rice_adaptation_enabled_flag: false,
            cabac_bypass_alignment_enabled_flag: false,
        }
    }

    /// Whether the residuals of 4x4 intra blocks without transform are rotated.
    pub fn transform_skip_rotation_enabled_flag(&self) -> bool
        ensures { result ≡ self.now.transform_skip_rotation_enabled_flag }
    {
        self.transform_skip_rotation_enabled_flag
    }

    /// Whether coefficients of blocks without transform have a context of their own.
    pub fn transform_skip_context_enabled_flag(&self) -> bool
        ensures { result ≡ self.now.transform_skip_context_enabled_flag }
    {
        self.transform_skip_context_enabled_flag
    }

    /// Whether residuals of intra blocks without transform may be differences.
    pub fn implicit_rdpcm_enabled_flag(&self) -> bool
        ensures { result ≡ self.now.implicit_rdpcm_enabled_flag }
    {
        self.implicit_rdpcm_enabled_flag
    }

    /// Whether residuals of inter blocks without transform may be differences.
    pub fn explicit_rdpcm_enabled_flag(&self) -> bool
        ensures { result ≡ self.now.explicit_rdpcm_enabled_flag }
    {
        self.explicit_rdpcm_enabled_flag
    }

    /// Whether coefficients and interpolation have a larger range.
    pub fn extended_precision_processing_flag(&self) -> bool
        ensures { result ≡ self.now.extended_precision_processing_flag }
    {
        self.extended_precision_processing_flag
    }

    /// Whether intra prediction goes without smoothing of its neighbours.
    pub fn intra_smoothing_disabled_flag(&self) -> bool
        ensures { result ≡ self.now.intra_smoothing_disabled_flag }
    {
        self.intra_smoothing_disabled_flag
    }

    /// Whether offsets of weighted prediction have the precision of samples.
    pub fn high_precision_offsets_enabled_flag(&self) -> bool
        ensures { result ≡ self.now.high_precision_offsets_enabled_flag }
    {
        self.high_precision_offsets_enabled_flag
    }

    /// Whether Rice parameters begin from what earlier blocks have told.
    pub fn persistent_rice_adaptation_enabled_flag(&self) -> bool
        ensures { result ≡ self.now.persistent_rice_adaptation_enabled_flag }
    {
        self.persistent_rice_adaptation_enabled_flag
    }

    /// Whether the arithmetic decoder is aligned before bypass bits.
    pub fn cabac_bypass_alignment_enabled_flag(&self) -> bool
        ensures { result ≡ self.now.cabac_bypass_alignment_enabled_flag }
    {
        self.cabac_bypass_alignment_enabled_flag
    }
}
