//! Video parameter sets.
ghost use Rattle.std.specs.Prelude.{◌≡◌, IfOk, ◌≤◌};

use crate::hrd_params::HrdParams;
use hevc_set_parts::{Items, ProfileTierLevel};
use std::alloc::{AllocError, Global};

/// A video parameter set (H.265 7.3.2.1, 7.4.3.1).
///
/// The arrays of seven have a place for each sub-layer; those above the highest hold 0.
#[derive(Drop, PartialEq, Eq)]
pub struct Vps {
    /// The number of the set: 0 to 15.
    pub video_parameter_set_id: u8,
    /// Whether the base layer is in the stream.
    pub base_layer_internal_flag: bool,
    /// Whether the base layer is present at all.
    pub base_layer_available_flag: bool,
    /// The most layers in the stream, less 1: 0 to 63.
    pub max_layers_minus1: u8,
    /// The most temporal sub-layers in the stream, less 1: 0 to 6.
    pub max_sub_layers_minus1: u8,
    /// Whether inter prediction is further restricted so that sub-layers nest.
    pub temporal_id_nesting_flag: bool,
    /// The profile, tier and level.
    pub profile_tier_level: ProfileTierLevel,
    /// Whether each sub-layer has its own ordering numbers.
    pub sub_layer_ordering_info_present_flag: bool,
    /// For each sub-layer, the size of the decoded picture buffer in pictures, less 1: 0 to 15.
    pub max_dec_pic_buffering_minus1: [u32; 7],
    /// For each sub-layer, the most pictures that precede one in decoding order and follow it in
    /// output order: at most `max_dec_pic_buffering_minus1` there.
    pub max_num_reorder_pics: [u32; 7],
    /// For each sub-layer, the latency beyond reordering, plus 1: 0 for no bound.
    pub max_latency_increase_plus1: [u32; 7],
    /// The highest layer id in the stream: 0 to 62.
    pub max_layer_id: u8,
    /// The number of layer sets, less 1: 0 to 1023.
    pub num_layer_sets_minus1: u32,
    /// Whether the length of a tick is present.
    pub timing_info_present_flag: bool,
    /// The length of a tick in units of the clock.
    pub num_units_in_tick: u32,
    /// The number of units of the clock in a second.
    pub time_scale: u32,
    /// Whether order counts are proportional to output times.
    pub poc_proportional_to_timing_flag: bool,
    /// The number of ticks for a difference of 1 in order counts, less 1.
    pub num_ticks_poc_diff_one_minus1: u32,
    /// The number of structures of `hrd_parameters`: 0 to 1024.
    pub num_hrd_parameters: u32,
    /// For each structure of `hrd_parameters`, the layer set that it applies to.
    pub hrd_layer_set_idx: Items<u16>,
    /// For each structure of `hrd_parameters`, whether it has its own common part.
    pub cprms_present_flag: Items<bool>,
    /// Parameters of the hypothetical reference decoder.
    pub hrd_parameters: Items<HrdParams>,
    /// Whether extension data follow.
    pub extension_flag: bool,
    pub ghost sub_layers: { max_sub_layers_minus1 ≤ 6 },
}

impl Vps {
    ghost use Rattle.hevc_records.specs.Vps.{default_vps};
    ghost use Rattle.hevc_video_set.specs.Vps.{plain_vps};

    /// All numbers 0, all flags not set and all lists empty, but for `cprms_present_flag`, which is
    /// true alone: the first structure of parameters always has its common part.
    ///
    /// Errors: no memory.
    pub fn new(alloc: Global) -> Result<Vps, AllocError>
        ensures { IfOk result (λ vps. plain_vps vps ≡ default_vps) }
    {
        let mut cprms_present_flag = Items::new(alloc);
        cprms_present_flag.push(true)?;
        Ok(Vps {
            video_parameter_set_id: 0,
            base_layer_internal_flag: false,
            base_layer_available_flag: false,
            max_layers_minus1: 0,
            max_sub_layers_minus1: 0,
            temporal_id_nesting_flag: false,
            profile_tier_level: ProfileTierLevel::new(),
            sub_layer_ordering_info_present_flag: false,
            max_dec_pic_buffering_minus1: [0; 7],
            max_num_reorder_pics: [0; 7],
            max_latency_increase_plus1: [0; 7],
            max_layer_id: 0,
            num_layer_sets_minus1: 0,
            timing_info_present_flag: false,
            num_units_in_tick: 0,
            time_scale: 0,
            poc_proportional_to_timing_flag: false,
            num_ticks_poc_diff_one_minus1: 0,
            num_hrd_parameters: 0,
            hrd_layer_set_idx: Items::new(alloc),
            cprms_present_flag,
            hrd_parameters: Items::new(alloc),
            extension_flag: false,
        })
    }

    /// An equal set.
    ///
    /// Errors: no memory.
    pub fn try_clone(&self) -> Result<Vps, AllocError>
        ensures { IfOk result (λ copy. copy ≡ self.now) }
    {
        let hrd_layer_set_idx = self.hrd_layer_set_idx.try_copy()?;
        let cprms_present_flag = self.cprms_present_flag.try_copy()?;
        let hrd_parameters = self.hrd_parameters.try_copy()?;
        Ok(Vps {
            video_parameter_set_id: self.video_parameter_set_id,
            base_layer_internal_flag: self.base_layer_internal_flag,
            base_layer_available_flag: self.base_layer_available_flag,
            max_layers_minus1: self.max_layers_minus1,
            max_sub_layers_minus1: self.max_sub_layers_minus1,
            temporal_id_nesting_flag: self.temporal_id_nesting_flag,
            profile_tier_level: self.profile_tier_level,
            sub_layer_ordering_info_present_flag: self.sub_layer_ordering_info_present_flag,
            max_dec_pic_buffering_minus1: self.max_dec_pic_buffering_minus1,
            max_num_reorder_pics: self.max_num_reorder_pics,
            max_latency_increase_plus1: self.max_latency_increase_plus1,
            max_layer_id: self.max_layer_id,
            num_layer_sets_minus1: self.num_layer_sets_minus1,
            timing_info_present_flag: self.timing_info_present_flag,
            num_units_in_tick: self.num_units_in_tick,
            time_scale: self.time_scale,
            poc_proportional_to_timing_flag: self.poc_proportional_to_timing_flag,
            num_ticks_poc_diff_one_minus1: self.num_ticks_poc_diff_one_minus1,
            num_hrd_parameters: self.num_hrd_parameters,
            hrd_layer_set_idx,
            cprms_present_flag,
            hrd_parameters,
            extension_flag: self.extension_flag,
        })
    }

    /// The number of the set.
    pub fn video_parameter_set_id(&self) -> u8
        ensures { result ≡ self.now.video_parameter_set_id }
    {
        self.video_parameter_set_id
    }

    /// Whether the base layer is in the stream.
    pub fn base_layer_internal_flag(&self) -> bool
        ensures { result ≡ self.now.base_layer_internal_flag }
    {
        self.base_layer_internal_flag
    }

    /// Whether the base layer is present at all.
    pub fn base_layer_available_flag(&self) -> bool
        ensures { result ≡ self.now.base_layer_available_flag }
    {
        self.base_layer_available_flag
    }

    /// The most layers in the stream, less 1.
    pub fn max_layers_minus1(&self) -> u8
        ensures { result ≡ self.now.max_layers_minus1 }
    {
        self.max_layers_minus1
    }

    /// The most temporal sub-layers in the stream, less 1.
    pub fn max_sub_layers_minus1(&self) -> u8
        ensures { result ≡ self.now.max_sub_layers_minus1 }
    {
        self.max_sub_layers_minus1
    }

    /// Whether inter prediction is further restricted so that sub-layers nest.
    pub fn temporal_id_nesting_flag(&self) -> bool
        ensures { result ≡ self.now.temporal_id_nesting_flag }
    {
        self.temporal_id_nesting_flag
    }

    /// The profile, tier and level.
    pub fn profile_tier_level(&self) -> &ProfileTierLevel
        ensures { result.now ≡ self.now.profile_tier_level }
    {
        &self.profile_tier_level
    }

    /// Whether each sub-layer has its own ordering numbers.
    pub fn sub_layer_ordering_info_present_flag(&self) -> bool
        ensures { result ≡ self.now.sub_layer_ordering_info_present_flag }
    {
        self.sub_layer_ordering_info_present_flag
    }

    /// For each sub-layer, the size of the decoded picture buffer in pictures, less 1.
    pub fn max_dec_pic_buffering_minus1(&self) -> [u32; 7]
        ensures { result ≡ self.now.max_dec_pic_buffering_minus1 }
    {
        self.max_dec_pic_buffering_minus1
    }

    /// For each sub-layer, the most pictures that precede one in decoding order and follow it in
    /// output order.
    pub fn max_num_reorder_pics(&self) -> [u32; 7]
        ensures { result ≡ self.now.max_num_reorder_pics }
    {
        self.max_num_reorder_pics
    }

    /// For each sub-layer, the latency beyond reordering, plus 1.
    pub fn max_latency_increase_plus1(&self) -> [u32; 7]
        ensures { result ≡ self.now.max_latency_increase_plus1 }
    {
        self.max_latency_increase_plus1
    }

    /// The highest layer id in the stream.
    pub fn max_layer_id(&self) -> u8
        ensures { result ≡ self.now.max_layer_id }
    {
        self.max_layer_id
    }

    /// The number of layer sets, less 1.
    pub fn num_layer_sets_minus1(&self) -> u32
        ensures { result ≡ self.now.num_layer_sets_minus1 }
    {
        self.num_layer_sets_minus1
    }

    /// Whether the length of a tick is present.
    pub fn timing_info_present_flag(&self) -> bool
        ensures { result ≡ self.now.timing_info_present_flag }
    {
        self.timing_info_present_flag
    }

    /// The length of a tick in units of the clock.
    pub fn num_units_in_tick(&self) -> u32
        ensures { result ≡ self.now.num_units_in_tick }
    {
        self.num_units_in_tick
    }

    /// The number of units of the clock in a second.
    pub fn time_scale(&self) -> u32
        ensures { result ≡ self.now.time_scale }
    {
        self.time_scale
    }

    /// Whether order counts are proportional to output times.
    pub fn poc_proportional_to_timing_flag(&self) -> bool
        ensures { result ≡ self.now.poc_proportional_to_timing_flag }
    {
        self.poc_proportional_to_timing_flag
    }

    /// The number of ticks for a difference of 1 in order counts, less 1.
    pub fn num_ticks_poc_diff_one_minus1(&self) -> u32
        ensures { result ≡ self.now.num_ticks_poc_diff_one_minus1 }
    {
        self.num_ticks_poc_diff_one_minus1
    }

    /// The number of structures of `hrd_parameters`.
    pub fn num_hrd_parameters(&self) -> u32
        ensures { result ≡ self.now.num_hrd_parameters }
    {
        self.num_hrd_parameters
    }

    /// For each structure of `hrd_parameters`, the layer set that it applies to.
    pub fn hrd_layer_set_idx(&self) -> &[u16]
        ensures { result.now ≡ self.now.hrd_layer_set_idx }
    {
        self.hrd_layer_set_idx.as_slice()
    }

    /// For each structure of `hrd_parameters`, whether it has its own common part.
    pub fn cprms_present_flag(&self) -> &[bool]
        ensures { result.now ≡ self.now.cprms_present_flag }
    {
        self.cprms_present_flag.as_slice()
    }

    /// Parameters of the hypothetical reference decoder.
    pub fn hrd_parameters(&self) -> &[HrdParams]
        ensures { result.now ≡ self.now.hrd_parameters }
    {
        self.hrd_parameters.as_slice()
    }

    /// Whether extension data follow.
    pub fn extension_flag(&self) -> bool
        ensures { result ≡ self.now.extension_flag }
    {
        self.extension_flag
    }
}
