//! Timing and sizes of the decoding buffers.
ghost use Rattle.std.specs.Prelude.{◌≡◌};
ghost use Rattle.hevc_records.specs.Bounds.{AtMost};

use crate::sublayer_hrd_parameters::SublayerHrdParameters;

/// Parameters of the hypothetical reference decoder (H.265 E.2.2, E.3.2).
///
/// The arrays of seven have a place for each sub-layer.
#[derive(Clone, Copy, PartialEq, Eq)]
pub struct HrdParams {
    /// Whether `nal_hrd` is present.
    pub nal_hrd_parameters_present_flag: bool,
    /// Whether `vcl_hrd` is present.
    pub vcl_hrd_parameters_present_flag: bool,
    /// Whether buffers may work by decoding units.
    pub sub_pic_hrd_params_present_flag: bool,
    /// The number of sub-picture ticks in a tick, less 2: 0 to 255.
    pub tick_divisor_minus2: u8,
    /// The length in bits of the removal delay increments of decoding units, less 1: 0 to 31.
    pub du_cpb_removal_delay_increment_length_minus1: u8,
    /// Whether decoding units are timed in picture timing messages.
    pub sub_pic_cpb_params_in_pic_timing_sei_flag: bool,
    /// The length in bits of the output delays of decoding units, less 1: 0 to 31.
    pub dpb_output_delay_du_length_minus1: u8,
    /// The scale of bit rates: 0 to 15.
    pub bit_rate_scale: u8,
    /// The scale of buffer sizes: 0 to 15.
    pub cpb_size_scale: u8,
    /// The scale of buffer sizes for decoding units: 0 to 15.
    pub cpb_size_du_scale: u8,
    /// The length in bits of initial removal delays, less 1: 0 to 31.
    pub initial_cpb_removal_delay_length_minus1: u8,
    /// The length in bits of removal delays of access units, less 1: 0 to 31.
    pub au_cpb_removal_delay_length_minus1: u8,
    /// The length in bits of output delays, less 1: 0 to 31.
    pub dpb_output_delay_length_minus1: u8,
    /// For each sub-layer, whether pictures are output at a fixed rate throughout.
    pub fixed_pic_rate_general_flag: [bool; 7],
    /// For each sub-layer, whether pictures are output at a fixed rate within each coded video
    /// sequence.
    pub fixed_pic_rate_within_cvs_flag: [bool; 7],
    /// For each sub-layer, the distance of outputs in ticks, less 1: 0 to 2047.
    pub elemental_duration_in_tc_minus1: [u32; 7],
    /// For each sub-layer, whether the decoder works with low delay.
    pub low_delay_hrd_flag: [bool; 7],
    /// For each sub-layer, the number of schedules of delivery, less 1: 0 to 31.
    pub cpb_cnt_minus1: [u32; 7],
    /// For each sub-layer, its rates and sizes for the stream of NAL units.
    pub nal_hrd: [SublayerHrdParameters; 7],
    /// For each sub-layer, its rates and sizes for the VCL NAL units.
    pub vcl_hrd: [SublayerHrdParameters; 7],
    pub ghost durations: { AtMost 2047 elemental_duration_in_tc_minus1 },
    pub ghost counts: { AtMost 31 cpb_cnt_minus1 },
}

impl HrdParams {
    ghost use Rattle.hevc_records.specs.HrdParams.{default_hrd_params};
    ghost use Rattle.hevc_video_set.specs.HrdParams.{plain_hrd_params};

    /// All flags not set; all numbers 0 but three lengths that are 23 where nothing says otherwise
    /// (E.3.2).
    pub fn new() -> HrdParams
        ensures { plain_hrd_params result ≡ default_hrd_params }
    {
        HrdParams {
            nal_hrd_parameters_present_flag: false,
            vcl_hrd_parameters_present_flag: false,
            sub_pic_hrd_params_present_flag: false,
            tick_divisor_minus2: 0,
            du_cpb_removal_delay_increment_length_minus1: 0,
            sub_pic_cpb_params_in_pic_timing_sei_flag: false,
            dpb_output_delay_du_length_minus1: 23,
            bit_rate_scale: 0,
            cpb_size_scale: 0,
            cpb_size_du_scale: 0,
            initial_cpb_removal_delay_length_minus1: 23,
            au_cpb_removal_delay_length_minus1: 23,
            dpb_output_delay_length_minus1: 0,
            fixed_pic_rate_general_flag: [false; 7],
            fixed_pic_rate_within_cvs_flag: [false; 7],
            elemental_duration_in_tc_minus1: [0; 7],
            low_delay_hrd_flag: [false; 7],
            cpb_cnt_minus1: [0; 7],
            nal_hrd: [SublayerHrdParameters::new(); 7],
            vcl_hrd: [SublayerHrdParameters::new(); 7],
        }
    }

    /// Whether `nal_hrd` is present.
    pub fn nal_hrd_parameters_present_flag(&self) -> bool
        ensures { result ≡ self.now.nal_hrd_parameters_present_flag }
    {
        self.nal_hrd_parameters_present_flag
    }

    /// Whether `vcl_hrd` is present.
    pub fn vcl_hrd_parameters_present_flag(&self) -> bool
        ensures { result ≡ self.now.vcl_hrd_parameters_present_flag }
    {
        self.vcl_hrd_parameters_present_flag
    }

    /// Whether buffers may work by decoding units.
    pub fn sub_pic_hrd_params_present_flag(&self) -> bool
        ensures { result ≡ self.now.sub_pic_hrd_params_present_flag }
    {
        self.sub_pic_hrd_params_present_flag
    }

    /// The number of sub-picture ticks in a tick, less 2.
    pub fn tick_divisor_minus2(&self) -> u8
        ensures { result ≡ self.now.tick_divisor_minus2 }
    {
        self.tick_divisor_minus2
    }

    /// The length in bits of the removal delay increments of decoding units, less 1.
    pub fn du_cpb_removal_delay_increment_length_minus1(&self) -> u8
        ensures { result ≡ self.now.du_cpb_removal_delay_increment_length_minus1 }
    {
        self.du_cpb_removal_delay_increment_length_minus1
    }

    /// Whether decoding units are timed in picture timing messages.
    pub fn sub_pic_cpb_params_in_pic_timing_sei_flag(&self) -> bool
        ensures { result ≡ self.now.sub_pic_cpb_params_in_pic_timing_sei_flag }
    {
        self.sub_pic_cpb_params_in_pic_timing_sei_flag
    }

    /// The length in bits of the output delays of decoding units, less 1.
    pub fn dpb_output_delay_du_length_minus1(&self) -> u8
        ensures { result ≡ self.now.dpb_output_delay_du_length_minus1 }
    {
        self.dpb_output_delay_du_length_minus1
    }

    /// The scale of bit rates.
    pub fn bit_rate_scale(&self) -> u8
        ensures { result ≡ self.now.bit_rate_scale }
    {
        self.bit_rate_scale
    }

    /// The scale of buffer sizes.
    pub fn cpb_size_scale(&self) -> u8
        ensures { result ≡ self.now.cpb_size_scale }
    {
        self.cpb_size_scale
    }

    /// The scale of buffer sizes for decoding units.
    pub fn cpb_size_du_scale(&self) -> u8
        ensures { result ≡ self.now.cpb_size_du_scale }
    {
        self.cpb_size_du_scale
    }

    /// The length in bits of initial removal delays, less 1.
    pub fn initial_cpb_removal_delay_length_minus1(&self) -> u8
        ensures { result ≡ self.now.initial_cpb_removal_delay_length_minus1 }
    {
        self.initial_cpb_removal_delay_length_minus1
    }

    /// The length in bits of removal delays of access units, less 1.
    pub fn au_cpb_removal_delay_length_minus1(&self) -> u8
        ensures { result ≡ self.now.au_cpb_removal_delay_length_minus1 }
    {
        self.au_cpb_removal_delay_length_minus1
    }

    /// The length in bits of output delays, less 1.
    pub fn dpb_output_delay_length_minus1(&self) -> u8
        ensures { result ≡ self.now.dpb_output_delay_length_minus1 }
    {
        self.dpb_output_delay_length_minus1
    }

    /// For each sub-layer, whether pictures are output at a fixed rate throughout.
    pub fn fixed_pic_rate_general_flag(&self) -> [bool; 7]
        ensures { result ≡ self.now.fixed_pic_rate_general_flag }
    {
        self.fixed_pic_rate_general_flag
    }

    /// For each sub-layer, whether pictures are output at a fixed rate within each coded video
    /// sequence.
    pub fn fixed_pic_rate_within_cvs_flag(&self) -> [bool; 7]
        ensures { result ≡ self.now.fixed_pic_rate_within_cvs_flag }
    {
        self.fixed_pic_rate_within_cvs_flag
    }

    /// For each sub-layer, the distance of outputs in ticks, less 1.
    pub fn elemental_duration_in_tc_minus1(&self) -> [u32; 7]
        ensures { result ≡ self.now.elemental_duration_in_tc_minus1 }
    {
        self.elemental_duration_in_tc_minus1
    }

    /// For each sub-layer, whether the decoder works with low delay.
    pub fn low_delay_hrd_flag(&self) -> [bool; 7]
        ensures { result ≡ self.now.low_delay_hrd_flag }
    {
        self.low_delay_hrd_flag
    }

    /// For each sub-layer, the number of schedules of delivery, less 1.
    pub fn cpb_cnt_minus1(&self) -> [u32; 7]
        ensures { result ≡ self.now.cpb_cnt_minus1 }
    {
        self.cpb_cnt_minus1
    }

    /// For each sub-layer, its rates and sizes for the stream of NAL units.
    pub fn nal_hrd(&self) -> &[SublayerHrdParameters; 7]
        ensures { result.now ≡ self.now.nal_hrd }
    {
        &self.nal_hrd
    }

    /// For each sub-layer, its rates and sizes for the VCL NAL units.
    pub fn vcl_hrd(&self) -> &[SublayerHrdParameters; 7]
        ensures { result.now ≡ self.now.vcl_hrd }
    {
        &self.vcl_hrd
    }
}
