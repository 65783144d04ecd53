//! Structs with another number in each field, by which a program in C sees that its header has them
//! where they are.
ghost use Rattle.std.specs.Prelude.{◌≡◌};
ghost use prog.Memory.{capped, size};
ghost use denote.Param.{layout};
ghost use Rattle.hevc_events.specs.contracts.event.Event as event_type;
ghost use Rattle.hevc_pull.specs.contracts.calls.DecodeCall as call_type;
ghost use Rattle.hevc_pull.specs.contracts.units.UnitCall as unit_type;
ghost use Rattle.hevc_pull.specs.contracts.reads.UnitRead as read_type;
ghost use Rattle.hevc_events.specs.Plain.{no_places};
ghost use Rattle.fezhalum.specs.Numbered.{numbered_call, numbered_event, numbered_places};
ghost use Rattle.fezhalum.specs.Numbered.{numbered_read, numbered_sequence, numbered_unit};

use hevc_events::{Event, Places, Sequence, Window};
use hevc_pull::{DecodeCall, UnitCall, UnitRead};

/// Fills an event: its fields with 1, 2, 3 and so on, and of its first and its last list the last
/// places. Answers the size of the struct.
#[unsafe(no_mangle)]
pub extern "C" fn fezhalum_layout_event(event: &mut Event) -> usize
    ensures fields { event.new ≡ numbered_event }
    ensures size { result ≡ capped (size (layout event_type.the_row)) }
{
    *event = numbered_event();
    std::mem::size_of::<Event>()
}

fn numbered_event() -> Event
    ensures { result ≡ numbered_event }
{
    Event {
        place: 1,
        kind: 2,
        nal_unit_type: 3,
        number: 4,
        timestamp: 5,
        order_count: 6,
        is_output: 7,
        width: 8,
        height: 9,
        window: Window {
            x: 10,
            y: 11,
            width: 12,
            height: 13,
        },
        sequence: numbered_sequence(),
        general_profile_idc: 27,
        bit_depth_luma_minus8: 28,
        bit_depth_chroma_minus8: 29,
        chroma_format_idc: 30,
        max_num_pics: 31,
        address: 32,
        size: 33,
        lists: [
            numbered_places(34, 35, 36),
            no_places(),
            no_places(),
            no_places(),
            numbered_places(37, 38, 39),
        ],
    }
}

fn numbered_sequence() -> Sequence
    ensures { result ≡ numbered_sequence }
{
    Sequence {
        general_level_idc: 14,
        sps_max_dec_pic_buffering_minus1: 15,
        sps_max_num_reorder_pics: 16,
        sps_max_latency_increase_plus1: 17,
        aspect_ratio_idc: 18,
        sar_width: 19,
        sar_height: 20,
        video_full_range_flag: 21,
        colour_primaries: 22,
        transfer_characteristics: 23,
        matrix_coeffs: 24,
        vui_num_units_in_tick: 25,
        vui_time_scale: 26,
    }
}

/// A list with these in its last place.
fn numbered_places(count: u32, number: u64, kind: u8) -> Places
    ensures { result ≡ numbered_places count number kind }
{
    Places {
        numbers: [0, 0, 0, 0, 0, 0, 0, 0, 0, 0, 0, 0, 0, 0, 0, number],
        kinds: [0, 0, 0, 0, 0, 0, 0, 0, 0, 0, 0, 0, 0, 0, 0, kind],
        count,
    }
}

fn no_places() -> Places
    ensures { result ≡ no_places }
{
    Places {
        numbers: [0; 16],
        kinds: [0; 16],
        count: 0,
    }
}

/// Fills what a call of decoding is given and answers, as an event is filled. Answers the size of
/// the struct.
#[unsafe(no_mangle)]
pub extern "C" fn fezhalum_layout_decode_call(call: &mut DecodeCall) -> usize
    ensures fields { call.new ≡ numbered_call }
    ensures size { result ≡ capped (size (layout call_type.the_row)) }
{
    *call = DecodeCall {
        timestamp: 1,
        free_frames: 2,
        offset: 3,
        size: 4,
        next: 5,
        table: 6,
        row: 7,
    };
    std::mem::size_of::<DecodeCall>()
}

/// Fills what is told of a unit, as an event is filled. Answers the size of the struct.
#[unsafe(no_mangle)]
pub extern "C" fn fezhalum_layout_unit(unit: &mut UnitCall) -> usize
    ensures fields { unit.new ≡ numbered_unit }
    ensures size { result ≡ capped (size (layout unit_type.the_row)) }
{
    *unit = numbered_unit();
    std::mem::size_of::<UnitCall>()
}

fn numbered_unit() -> UnitCall
    ensures { result ≡ numbered_unit }
{
    UnitCall {
        offset: 1,
        size: 2,
        next: 3,
        nal_unit_type: 4,
        layer_id: 5,
        temporal_id: 6,
        table: 7,
        row: 8,
    }
}

/// Fills the unit of what was read as `fezhalum_layout_unit` does, and then the last field of each
/// set and of the header with 9 to 12. Answers the size of the struct.
#[unsafe(no_mangle)]
pub extern "C" fn fezhalum_layout_read(told: &mut UnitRead) -> usize
    ensures fields { told.new ≡ numbered_read told.old }
    ensures size { result ≡ capped (size (layout read_type.the_row)) }
{
    told.unit = numbered_unit();
    told.vps.flags = 9;
    told.sps.flags = 10;
    told.pps.flags = 11;
    told.slice.flags = 12;
    std::mem::size_of::<UnitRead>()
}
