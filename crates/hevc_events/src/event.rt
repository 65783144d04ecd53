//! What a backend was asked for, as plain structs.
ghost use Rattle.std.specs.Prelude.{◌≡◌};
ghost use Rattle.hevc_events.specs.Plain.{bare_event, event_of_picture, no_places, no_sequence};
ghost use Rattle.hevc_events.specs.Plain.{no_window};

/// A list of pictures, of at most 16 places (8.3.2, 8.3.4).
#[repr(C)]
#[derive(Clone, Copy)]
pub struct Places {
    /// For each place the number of its picture, 0 where it has none of the buffer.
    pub numbers: [u64; 16],
    /// For each place 0 where its picture is in the buffer, 1 where there is no such picture, 2
    /// where it is the current picture itself.
    pub kinds: [u8; 16],
    /// How many places the list has.
    pub count: u32,
}

/// A rectangle of luma samples within a picture.
#[repr(C)]
#[derive(Clone, Copy)]
pub struct Window {
    /// Its left column.
    pub x: u32,
    /// Its upper row.
    pub y: u32,
    /// How many columns it has.
    pub width: u32,
    /// How many rows it has.
    pub height: u32,
}

/// What a sequence parameter set says of a sequence. What is absent has the value that H.265
/// infers, or 0.
#[repr(C)]
#[derive(Clone, Copy)]
pub struct Sequence {
    /// Thirty times the level (A.4.1).
    pub general_level_idc: u32,
    /// The three ordering numbers are those of the highest sub-layer (7.4.3.2.1).
    pub sps_max_dec_pic_buffering_minus1: u32,
    pub sps_max_num_reorder_pics: u32,
    pub sps_max_latency_increase_plus1: u32,
    /// The shape of a sample (Table E.1): 255 where `sar_width` and `sar_height` tell it.
    pub aspect_ratio_idc: u32,
    pub sar_width: u32,
    pub sar_height: u32,
    /// The colours (E.3.1): whether samples have their full range, and Tables E.3 to E.5.
    pub video_full_range_flag: u32,
    pub colour_primaries: u32,
    pub transfer_characteristics: u32,
    pub matrix_coeffs: u32,
    /// A tick has so many units, of which `vui_time_scale` are a second.
    pub vui_num_units_in_tick: u32,
    pub vui_time_scale: u32,
}

/// A call of the decoder on its backend. What a kind doesn't have is 0.
#[repr(C)]
#[derive(Clone, Copy)]
pub struct Event {
    /// Which call it is, counted from 0.
    pub place: u64,
    /// 1: a sequence begins. 2: a picture begins. 3: its slices come, with its reference picture
    /// set. 4: a slice. 5: the picture is whole.
    pub kind: u32,
    /// Of kind 2, `nal_unit_type` of the picture's first slice (Table 7-1).
    pub nal_unit_type: u32,
    /// Of kinds 2 to 5, the picture's number, from 0 in order of decoding. It is its handle too.
    pub number: u64,
    /// Of kind 2, the timestamp that came with the picture's first slice.
    pub timestamp: u64,
    /// Of kind 2, PicOrderCntVal.
    pub order_count: i32,
    /// Of kind 2, PicOutputFlag.
    pub is_output: u32,
    /// Of kinds 1 and 3, `pic_width_in_luma_samples`.
    pub width: u32,
    /// Of kinds 1 and 3, `pic_height_in_luma_samples`.
    pub height: u32,
    /// Of kinds 1 and 3, the conformance cropping window (7.4.3.2.1): what is shown of a picture.
    pub window: Window,
    /// Of kind 1, what else is known of the sequence.
    pub sequence: Sequence,
    /// Of kind 1, `general_profile_idc`.
    pub general_profile_idc: u32,
    /// Of kind 1, `bit_depth_luma_minus8`.
    pub bit_depth_luma_minus8: u32,
    /// Of kind 1, `bit_depth_chroma_minus8`.
    pub bit_depth_chroma_minus8: u32,
    /// Of kind 1, `chroma_format_idc`.
    pub chroma_format_idc: u32,
    /// Of kind 1, how many pictures the decoded picture buffer holds at most (MaxDpbSize, A.4.2).
    pub max_num_pics: u32,
    /// Of kind 4, `slice_segment_address`.
    pub address: u32,
    /// Of kind 4, how many bytes the unit has, its header's among them.
    pub size: u64,
    /// Of kind 3, RefPicSetStCurrBefore, StCurrAfter, StFoll, LtCurr and LtFoll; of kind 4,
    /// RefPicList0 and RefPicList1.
    pub lists: [Places; 5],
}

/// A list of no place.
pub fn no_places() -> Places
    ensures { result ≡ no_places }
{
    Places {
        numbers: [0; 16],
        kinds: [0; 16],
        count: 0,
    }
}

/// A window of no sample.
pub fn no_window() -> Window
    ensures { result ≡ no_window }
{
    Window {
        x: 0,
        y: 0,
        width: 0,
        height: 0,
    }
}

/// A sequence of which nothing is known.
fn no_sequence() -> Sequence
    ensures { result ≡ no_sequence }
{
    Sequence {
        general_level_idc: 0,
        sps_max_dec_pic_buffering_minus1: 0,
        sps_max_num_reorder_pics: 0,
        sps_max_latency_increase_plus1: 0,
        aspect_ratio_idc: 0,
        sar_width: 0,
        sar_height: 0,
        video_full_range_flag: 0,
        colour_primaries: 0,
        transfer_characteristics: 0,
        matrix_coeffs: 0,
        vui_num_units_in_tick: 0,
        vui_time_scale: 0,
    }
}

/// An event of a kind, at a place, and nothing else.
fn bare_event(place: u64, kind: u32) -> Event
    ensures { result ≡ bare_event place kind }
{
    Event {
        place,
        kind,
        nal_unit_type: 0,
        number: 0,
        timestamp: 0,
        order_count: 0,
        is_output: 0,
        width: 0,
        height: 0,
        window: no_window(),
        sequence: no_sequence(),
        general_profile_idc: 0,
        bit_depth_luma_minus8: 0,
        bit_depth_chroma_minus8: 0,
        chroma_format_idc: 0,
        max_num_pics: 0,
        address: 0,
        size: 0,
        lists: [no_places(); 5],
    }
}

/// An event of a kind that is about this picture, number 0 where it is about none, and nothing
/// else.
pub fn event_of_picture(place: u64, kind: u32, number: u64) -> Event
    ensures { result ≡ event_of_picture place kind number }
{
    let mut event = bare_event(place, kind);
    event.number = number;
    event
}
