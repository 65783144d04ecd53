//! The event of each call.
ghost use Rattle.std.specs.Prelude.{◌≡◌};
ghost use Rattle.hevc_bits.specs.NaluType.{nalu_type_number};
ghost use Rattle.hevc_backend.specs.declared.call.Call.TheVariants.{NewSequence, SubmitPicture};
ghost use Rattle.hevc_backend.specs.Calls.{new_picture_call, begin_picture_call, decode_slice_call};
ghost use Rattle.hevc_sequence_set.specs.Sps.{plain_sps};
ghost use Rattle.hevc_queue.specs.declared.given.Given.TheVariants as Given;
ghost use Rattle.hevc_queue.specs.Events.{event_of, event_of_call, sequence_of, with_size};

use crate::places::{places_of_entries, places_of_members};
use hevc_backend::NegotiationInfo;
use hevc_bits::NaluType;
use hevc_dpb::PictureData;
use hevc_events::{Event, Sequence, Window, event_of_picture, no_places};
use hevc_picture_slice::Slice;
use hevc_refs::{RefPicList, RefPicSet};
use hevc_sequence_set::Sps;

/// A sequence begins.
pub(crate) fn sequence_event(place: u64, sps: &Sps) -> Event
    ensures { result ≡ event_of place (Given.Sequence sps.now) }
{
    let mut event = format_event(place, &NegotiationInfo::from(sps));
    tell_size(&mut event, sps);
    event.sequence = sequence_of(sps);
    event
}

/// The same, by the format alone.
fn format_event(place: u64, info: &NegotiationInfo) -> Event
    ensures { result ≡ event_of_call place (NewSequence info.now) }
{
    let mut event = event_of_picture(place, 1, 0);
    event.width = info.coded_resolution.width;
    event.height = info.coded_resolution.height;
    event.general_profile_idc = u32::from(info.general_profile_idc);
    event.bit_depth_luma_minus8 = u32::from(info.bit_depth_luma_minus8);
    event.bit_depth_chroma_minus8 = u32::from(info.bit_depth_chroma_minus8);
    event.chroma_format_idc = u32::from(info.chroma_format_idc);
    event.max_num_pics = u32::from(info.max_num_pics);
    event
}

/// Tells the size of a picture, and what is shown of it.
fn tell_size(event: &mut Event, sps: &Sps)
    ensures { event.new ≡ with_size (plain_sps sps.now) event.old }
{
    let visible = sps.visible_rectangle();
    event.width = u32::from(sps.width());
    event.height = u32::from(sps.height());
    event.window = Window {
        x: visible.min.x,
        y: visible.min.y,
        width: visible.max.x,
        height: visible.max.y,
    };
}

/// What a sequence parameter set says of its sequence.
fn sequence_of(sps: &Sps) -> Sequence
    ensures { result ≡ sequence_of (plain_sps sps.now) }
{
    let highest = sps.max_sub_layers_minus1 as usize;
    let vui = &sps.vui_parameters;
    Sequence {
        general_level_idc: u32::from(sps.profile_tier_level.general_level_idc.number()),
        sps_max_dec_pic_buffering_minus1: u32::from(sps.max_dec_pic_buffering_minus1[highest]),
        sps_max_num_reorder_pics: u32::from(sps.max_num_reorder_pics[highest]),
        sps_max_latency_increase_plus1: u32::from(sps.max_latency_increase_plus1[highest]),
        aspect_ratio_idc: vui.aspect_ratio_idc,
        sar_width: vui.sar_width,
        sar_height: vui.sar_height,
        video_full_range_flag: if vui.video_full_range_flag { 1 } else { 0 },
        colour_primaries: vui.colour_primaries,
        transfer_characteristics: vui.transfer_characteristics,
        matrix_coeffs: vui.matrix_coeffs,
        vui_num_units_in_tick: vui.num_units_in_tick,
        vui_time_scale: vui.time_scale,
    }
}

/// A picture begins.
pub(crate) fn picture_event(place: u64, number: u64, picture: &PictureData, timestamp: u64) -> Event
    ensures { result ≡ event_of_call place (new_picture_call number picture.now timestamp) }
{
    let mut event = event_of_picture(place, 2, number);
    event.nal_unit_type = type_number(picture.nalu_type);
    event.timestamp = timestamp;
    event.order_count = picture.pic_order_cnt_val;
    event.is_output = if picture.pic_output_flag { 1 } else { 0 };
    event
}

/// The number of a unit's type.
fn type_number(nalu_type: NaluType) -> u32
    ensures { result ≡ nalu_type_number nalu_type }
{
    u32::from(nalu_type as u8)
}

/// The slices of a picture come.
pub(crate) fn sets_event(place: u64, number: u64, sps: &Sps, rps: &RefPicSet) -> Event
    ensures { result ≡ with_size (plain_sps sps.now)
        (event_of_call place (begin_picture_call number rps.now)) }
{
    let mut event = event_of_picture(place, 3, number);
    tell_size(&mut event, sps);
    event.lists = [
        places_of_members(rps.st_curr_before()),
        places_of_members(rps.st_curr_after()),
        places_of_members(rps.st_foll()),
        places_of_members(rps.lt_curr()),
        places_of_members(rps.lt_foll()),
    ];
    event
}

/// A slice.
pub(crate) fn slice_event(
    place: u64,
    number: u64,
    slice: &Slice<'_>,
    ref_pic_list0: &RefPicList,
    ref_pic_list1: &RefPicList,
) -> Event
    ensures { result ≡ event_of_call place
        (decode_slice_call number slice.now ref_pic_list0.now ref_pic_list1.now) }
{
    let mut event = event_of_picture(place, 4, number);
    event.address = slice.header.segment_address;
    event.size = slice.nalu.as_ref().len() as u64;
    event.lists = [
        places_of_entries(ref_pic_list0.as_slice()),
        places_of_entries(ref_pic_list1.as_slice()),
        no_places(),
        no_places(),
        no_places(),
    ];
    event
}

/// A picture is whole. Its number is its handle.
pub(crate) fn submission_event(place: u64, number: u64) -> Event
    ensures { result ≡ event_of_call place (SubmitPicture number number) }
{
    event_of_picture(place, 5, number)
}
