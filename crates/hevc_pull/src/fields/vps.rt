//! The video parameter set.
ghost use Rattle.std.specs.Prelude.{◌≡◌};
ghost use Rattle.hevc_video_set.specs.Vps.{plain_vps};
ghost use Rattle.hevc_pull.specs.Fields.Vps.{fields_of_vps, vps_flags};

use crate::fields::profile::{ProfileFields, profile_fields};
use hevc_events::flag_bits;
use hevc_video_set::Vps;

/// The elements of a video parameter set (7.3.2.1), by their names in H.265.
#[repr(C)]
#[derive(Clone, Copy)]
pub struct VpsFields {
    pub vps_video_parameter_set_id: u8,
    pub vps_max_layers_minus1: u8,
    pub vps_max_sub_layers_minus1: u8,
    pub vps_max_layer_id: u8,
    pub profile: ProfileFields,
    /// The three ordering numbers are there for each sub-layer, from the lowest on.
    pub vps_max_dec_pic_buffering_minus1: [u32; 7],
    pub vps_max_num_reorder_pics: [u32; 7],
    pub vps_max_latency_increase_plus1: [u32; 7],
    pub vps_num_layer_sets_minus1: u32,
    /// The four numbers of timing are 0 where it is absent.
    pub vps_num_units_in_tick: u32,
    pub vps_time_scale: u32,
    pub vps_num_ticks_poc_diff_one_minus1: u32,
    pub vps_num_hrd_parameters: u32,
    /// Flags, from bit 0 on.
    pub flags: u32,
}

/// The fields of a video parameter set.
pub fn vps_fields(vps: &Vps) -> VpsFields
    ensures { result ≡ fields_of_vps (plain_vps vps.now) }
{
    let max_dec_pic_buffering_minus1 = vps.max_dec_pic_buffering_minus1;
    let max_num_reorder_pics = vps.max_num_reorder_pics;
    let max_latency_increase_plus1 = vps.max_latency_increase_plus1;
    VpsFields {
        vps_video_parameter_set_id: vps.video_parameter_set_id,
        vps_max_layers_minus1: vps.max_layers_minus1,
        vps_max_sub_layers_minus1: vps.max_sub_layers_minus1,
        vps_max_layer_id: vps.max_layer_id,
        profile: profile_fields(&vps.profile_tier_level),
        vps_max_dec_pic_buffering_minus1: max_dec_pic_buffering_minus1,
        vps_max_num_reorder_pics: max_num_reorder_pics,
        vps_max_latency_increase_plus1: max_latency_increase_plus1,
        vps_num_layer_sets_minus1: vps.num_layer_sets_minus1,
        vps_num_units_in_tick: vps.num_units_in_tick,
        vps_time_scale: vps.time_scale,
        vps_num_ticks_poc_diff_one_minus1: vps.num_ticks_poc_diff_one_minus1,
        vps_num_hrd_parameters: vps.num_hrd_parameters,
        flags: vps_flags(vps),
    }
}

/// The flags, in the order of their bits.
fn vps_flags(vps: &Vps) -> u32
    ensures { result ≡ vps_flags (plain_vps vps.now) }
{
    flag_bits(&[
        vps.base_layer_internal_flag,
        vps.base_layer_available_flag,
        vps.temporal_id_nesting_flag,
        vps.sub_layer_ordering_info_present_flag,
        vps.timing_info_present_flag,
        vps.poc_proportional_to_timing_flag,
        vps.extension_flag,
    ]) as u32
}
