//! The calls of a decoder.
ghost use Rattle.std.specs.Prelude.{◌≡◌, ◌<◌, length};
ghost use Rattle.hevc_bits.specs.declared.stream_limit.TheConstants.{STREAM_LIMIT};
ghost use Rattle.hevc_spec.specs.Units.{units};
ghost use Rattle.hevc_pull.specs.Calls.{Accepts, Decodes, DecodesFirst, FlushesAll, TakesNext};
ghost use Rattle.hevc_pull.specs.Calls.{SeeksNext, event_of_counted, event_of_pulled, seeks_first};
ghost use Rattle.hevc_pull.specs.Calls.{with_extent};
ghost use Rattle.hevc_pull.specs.Extents.{first_extent};
ghost use Rattle.hevc_pull.specs.Pulling.{Counts};
ghost use Rattle.hevc_pull.specs.Views.{KeepsTold, options_for, seen_of, with_free_frames};

use crate::counted::Counted;
use crate::decoder::PullDecoder;
use crate::extent::{Extent, extent_of_found, no_extent};
use crate::pulled::Pulled;
use crate::status::{FORMAT_NOT_AWAITED, TOO_LONG, row_of, status_of, table_of};
use hevc_bits::{Nalu, NaluHeader, UnitError};
use hevc_driver::DecodeError;
use hevc_events::{Event, event_of_picture};

/// What a call of `decode` is given, and what it answers.
#[repr(C)]
#[derive(Clone, Copy)]
pub struct DecodeCall {
    /// Given: the time at which the unit's picture is to be output, in the caller's unit.
    pub timestamp: u64,
    /// Given: how many frames are free.
    pub free_frames: u64,
    /// Answered: the place of the unit's first header byte in the bytes.
    pub offset: u64,
    /// Answered: how many bytes the unit has, its header's among them.
    pub size: u64,
    /// Answered: the place after the unit, from which on the next one is sought.
    pub next: u64,
    /// Answered: of an element that is out of range, its table in docs/TABLES.md.
    pub table: u32,
    /// Answered: of such an element its row; of an unspecified unit type, or a picture parameter
    /// set that isn't kept, its number.
    pub row: u32,
}

/// Takes the first unit of the bytes. The answer is a status, 0 where it was taken.
#[tactic(auto, using(crate::proofs::Others::extent_goes_on))]
pub fn decode(decoder: &mut PullDecoder, bytes: &[u8], call: &mut DecodeCall) -> u32
    ensures { Decodes bytes.now decoder.old decoder.new call.old call.new result }
{
    tell_extent(no_extent(), call);
    call.table = 0;
    call.row = 0;
    if bytes.len() >= 1 << 60 {
        return TOO_LONG;
    }
    match decode_first(decoder, bytes, call) {
        Ok(()) => 0,
        Err(error) => {
            call.table = table_of(&error);
            call.row = row_of(&error);
            status_of(&error)
        }
    }
}

/// Takes the first unit of the bytes, and tells where it lies.
fn decode_first(
    decoder: &mut PullDecoder,
    bytes: &[u8],
    call: &mut DecodeCall,
) -> Result<(), DecodeError>
    requires short { length bytes.now < STREAM_LIMIT }
    ensures takes { DecodesFirst (units bytes.now) result call.old.timestamp
        (options_for decoder.old) decoder.old.seeking
        (with_free_frames call.old.free_frames (seen_of decoder.old)) (seen_of decoder.new) }
    ensures seeking { decoder.new.seeking
        ≡ seeks_first (units bytes.now) decoder.old.seeking }
    ensures told { KeepsTold decoder.old decoder.new }
    ensures counts { Counts call.old.timestamp decoder.old decoder.new }
    ensures options { options_for decoder.new ≡ options_for decoder.old }
    ensures lies { call.new ≡ with_extent (first_extent (units bytes.now)) call.old }
{
    let mut position = 0;
    let found: Result<Nalu<'_, NaluHeader>, UnitError> = Nalu::next(bytes, &mut position);
    tell_extent(extent_of_found(&found, bytes, 0), call);
    decoder.set_free_frames(call.free_frames as usize);
    let nalu = found?;
    decoder.decode_unit(call.timestamp, &nalu)
}

/// Tells where a unit lies.
fn tell_extent(extent: Extent, call: &mut DecodeCall)
    ensures { call.new ≡ with_extent extent call.old }
{
    call.offset = extent.offset;
    call.size = extent.size;
    call.next = extent.next;
}

/// The next of what came of the units. The answer is 1 where there was one, and else 0; then the
/// event stays as it was.
pub fn next_event(decoder: &mut PullDecoder, event: &mut Event) -> u32
    ensures { TakesNext decoder.old decoder.new event.old event.new result }
{
    match decoder.next() {
        Some(pulled) => {
            *event = event_of_pulled(pulled);
            1
        }
        None => 0,
    }
}

/// What came of units as an event: an output has kind 6, and that a format is awaited kind 7; a
/// picture that will never be output has kind 8, and one that isn't decoded kind 9.
fn event_of_pulled(pulled: Pulled) -> Event
    ensures { result ≡ event_of_pulled pulled }
{
    match pulled {
        Pulled::Asked(event) => event,
        Pulled::Output(frame, counted) => {
            let mut event = event_of_picture(0, 6, frame.number);
            event.order_count = frame.order_count;
            event.timestamp = counted.timestamp;
            event.width = counted.width;
            event.height = counted.height;
            event.window = counted.window;
            event
        }
        Pulled::FormatChanged => event_of_picture(0, 7, 0),
        Pulled::Dropped(counted) => event_of_counted(8, &counted),
        Pulled::Skipped(counted) => event_of_counted(9, &counted),
    }
}

/// An event of a picture that was counted.
fn event_of_counted(kind: u32, counted: &Counted) -> Event
    ensures { result ≡ event_of_counted kind counted.now }
{
    let mut event = event_of_picture(0, kind, counted.number);
    event.timestamp = counted.timestamp;
    event
}

/// The stream ends, or is left: the open picture is over, and all that waits is output. The answer
/// is a status.
pub fn flush(decoder: &mut PullDecoder) -> u32
    ensures { FlushesAll decoder.old decoder.new result }
{
    match decoder.flush() {
        Ok(()) => 0,
        Err(error) => status_of(&error),
    }
}

/// The stream is left: all that waits is output, and decoding goes on at the next IRAP picture. The
/// answer is a status.
pub fn seek(decoder: &mut PullDecoder) -> u32
    ensures { SeeksNext decoder.old decoder.new result }
{
    match decoder.seek() {
        Ok(()) => 0,
        Err(error) => status_of(&error),
    }
}

/// Accepts the format that is awaited. The answer is a status.
pub fn accept_format(decoder: &mut PullDecoder) -> u32
    ensures { Accepts decoder.old decoder.new result }
{
    match decoder.accept_format() {
        Ok(()) => 0,
        Err(_) => FORMAT_NOT_AWAITED,
    }
}
