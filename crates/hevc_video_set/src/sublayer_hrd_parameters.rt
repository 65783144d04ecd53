//! Buffer sizes and bit rates of a sub-layer.
ghost use Rattle.std.specs.Prelude.{◌≡◌};

/// The bit rates and buffer sizes of a sub-layer, one of each for each schedule of delivery (H.265
/// E.2.3, E.3.3).
///
/// The scales of `HrdParams` turn these numbers into bits a second and bits.
#[derive(Clone, Copy, PartialEq, Eq)]
pub struct SublayerHrdParameters {
    /// The bit rates before their scale, less 1.
    pub bit_rate_value_minus1: [u32; 32],
    /// The sizes of the coded picture buffer before their scale, less 1.
    pub cpb_size_value_minus1: [u32; 32],
    /// The buffer sizes for decoding units before their scale, less 1.
    pub cpb_size_du_value_minus1: [u32; 32],
    /// The bit rates for decoding units before their scale, less 1.
    pub bit_rate_du_value_minus1: [u32; 32],
    /// Whether the bit rate is constant.
    pub cbr_flag: [bool; 32],
}

impl SublayerHrdParameters {
    ghost use Rattle.hevc_records.specs.SublayerHrdParameters.{default_sublayer_hrd_parameters};
    ghost use Rattle.hevc_video_set.specs.SublayerHrdParameters.{plain_sublayer_hrd_parameters};

    /// All numbers 0, all flags not set.
    pub fn new() -> SublayerHrdParameters
        ensures { plain_sublayer_hrd_parameters result ≡ default_sublayer_hrd_parameters }
    {
        SublayerHrdParameters {
            bit_rate_value_minus1: [0; 32],
            cpb_size_value_minus1: [0; 32],
            cpb_size_du_value_minus1: [0; 32],
            bit_rate_du_value_minus1: [0; 32],
            cbr_flag: [false; 32],
        }
    }

    /// The bit rates before their scale, less 1.
    pub fn bit_rate_value_minus1(&self) -> [u32; 32]
        ensures { result ≡ self.now.bit_rate_value_minus1 }
    {
        self.bit_rate_value_minus1
    }

    /// The sizes of the coded picture buffer before their scale, less 1.
    pub fn cpb_size_value_minus1(&self) -> [u32; 32]
        ensures { result ≡ self.now.cpb_size_value_minus1 }
    {
        self.cpb_size_value_minus1
    }

    /// The buffer sizes for decoding units before their scale, less 1.
    pub fn cpb_size_du_value_minus1(&self) -> [u32; 32]
        ensures { result ≡ self.now.cpb_size_du_value_minus1 }
    {
        self.cpb_size_du_value_minus1
    }

    /// The bit rates for decoding units before their scale, less 1.
    pub fn bit_rate_du_value_minus1(&self) -> [u32; 32]
        ensures { result ≡ self.now.bit_rate_du_value_minus1 }
    {
        self.bit_rate_du_value_minus1
    }

    /// Whether the bit rate is constant.
    pub fn cbr_flag(&self) -> [bool; 32]
        ensures { result ≡ self.now.cbr_flag }
    {
        self.cbr_flag
    }
}
