//! A stream that is decoded by the calls for C.
use super::{check, check_all, pull_decoder};
use crate::expect::ok;
use hevc_events::{Event, event_of_picture};
use hevc_pull::{
    DecodeCall, PullDecoder, UnitCall, accept_format, decode, flush, next_event, next_unit,
};
use hevc_stream_maker::make_stream;
use std::alloc::Global;
use std::process::Abort;

/// What came of a stream: how many events, how many told that a format is awaited, and the numbers
/// of the pictures that were output, that never will be, and that aren't decoded.
#[derive(Drop)]
struct Came {
    events: u32,
    changes: u32,
    outputs: Vec<u64>,
    drops: Vec<u64>,
    skips: Vec<u64>,
}

/// The next event that waits, of kind 0 where none does.
fn take_one(decoder: &mut PullDecoder) -> Event {
    let mut event = event_of_picture(0, 0, 0);
    let _left = next_event(decoder, &mut event);
    event
}

/// Takes all that waits.
fn take_all(rt: &impl Abort, decoder: &mut PullDecoder, came: &mut Came) {
    for _ in 0..100 {
        let event = take_one(decoder);
        match event.kind {
            0 => break,
            6 => ok(rt, came.outputs.push(event.number)),
            7 => came.changes = came.changes.saturating_add(1),
            8 => ok(rt, came.drops.push(event.number)),
            9 => ok(rt, came.skips.push(event.number)),
            _ => {}
        }
        came.events = came.events.saturating_add(1);
    }
}

/// Decodes a stream of a few units.
fn decode_all(rt: &impl Abort, alloc: Global, stream: &[u8]) -> Came {
    let mut decoder = pull_decoder(alloc);
    let came = decode_with(rt, &mut decoder, alloc, stream);
    let _waiting = decoder.end();
    came
}

/// The same, with a decoder that is left.
fn decode_with(rt: &impl Abort, decoder: &mut PullDecoder, alloc: Global, stream: &[u8]) -> Came {
    let mut came = Came {
        events: 0,
        changes: 0,
        outputs: Vec::new(alloc),
        drops: Vec::new(alloc),
        skips: Vec::new(alloc),
    };
    let mut call = DecodeCall {
        timestamp: 0,
        free_frames: 16,
        offset: 0,
        size: 0,
        next: 0,
        table: 0,
        row: 0,
    };
    let mut at = 0usize;
    for _ in 0..100 {
        let rest = ok(rt, stream.get(at..).ok_or("past the end"));
        let status = decode(decoder, rest, &mut call);
        take_all(rt, decoder, &mut came);
        if status == 2 {
            let _accepted = accept_format(decoder);
        } else if status == 0 {
            at = at.saturating_add(call.next as usize);
        } else {
            break;
        }
    }
    let _flushed = flush(decoder);
    take_all(rt, decoder, &mut came);
    came
}

#[test]
fn nine_pictures_are_output_in_order(rt: HostRuntime) {
    let rt = &rt;
    let stream = ok(rt, make_stream(rt.alloc(), 9));
    let came = decode_all(rt, rt.alloc(), &stream);
    let facts = [
        (
            came.outputs.as_slice() == [0, 4, 3, 5, 2, 7, 6, 8, 1].as_slice(),
            "outputs",
        ),
        (
            came.events == 2 + 4 * 9 + 9,
            "a sequence, its format, four calls for each picture, and the outputs",
        ),
        (came.changes == 1, "the format is told once"),
        (
            came.drops.is_empty() && came.skips.is_empty(),
            "all are output",
        ),
    ];
    check_all(rt, &facts);
}

/// The stream of nine pictures twice, of which the second IDR picture discards what waits
/// (NoOutputOfPriorPicsFlag, C.5.2.2).
fn make_discarding(rt: &impl Abort, alloc: Global) -> Vec<u8> {
    let mut stream = ok(rt, make_stream(alloc, 9));
    let mut again = ok(rt, make_stream(alloc, 9));
    if let Some(byte) = again.get_mut(44) {
        *byte |= 0x40;
    }
    ok(rt, stream.extend_from_slice(&again));
    stream
}

#[test]
fn discarded_pictures_are_dropped(rt: HostRuntime) {
    let rt = &rt;
    let stream = make_discarding(rt, rt.alloc());
    let came = decode_all(rt, rt.alloc(), &stream);
    let facts = [
        (!came.drops.is_empty(), "some are dropped"),
        (
            came.outputs.len().saturating_add(came.drops.len()) == 18,
            "each is output or dropped",
        ),
        (
            came.drops.iter().all(|number| *number < 9),
            "those before the second IDR picture",
        ),
        (came.skips.is_empty(), "none is skipped"),
    ];
    check_all(rt, &facts);
}

#[test]
fn a_leading_picture_is_skipped(rt: HostRuntime) {
    let rt = &rt;
    let mut stream = ok(rt, make_stream(rt.alloc(), 2));
    if let Some(byte) = stream.get_mut(49) {
        // RASL_N
        *byte = 16;
    }
    let came = decode_all(rt, rt.alloc(), &stream);
    let facts = [
        (came.outputs.as_slice() == [0].as_slice(), "the IDR picture"),
        (came.skips.as_slice() == [1].as_slice(), "the skipped one"),
        (came.drops.is_empty(), "none is dropped"),
    ];
    check_all(rt, &facts);
}

/// Decodes one unit, and tells where it lies.
fn call_of(stream: &[u8], decoder: &mut PullDecoder) -> (u32, DecodeCall) {
    let mut call = DecodeCall {
        timestamp: 0,
        free_frames: 16,
        offset: 0,
        size: 0,
        next: 0,
        table: 0,
        row: 0,
    };
    let status = decode(decoder, stream, &mut call);
    (status, call)
}

#[test]
fn a_refused_unit_has_a_place(rt: HostRuntime) {
    let mut decoder = pull_decoder(rt.alloc());
    let (cut, told) = call_of(&[9, 0, 0, 1, 0x42, 0, 0, 1, 0x46, 1], &mut decoder);
    let (end, told_end) = call_of(&[0, 0, 1, 0x48, 0, 7, 0, 0, 1, 0x46, 1], &mut decoder);
    let (none, told_none) = call_of(&[0, 0, 0], &mut decoder);
    let facts = [
        (cut == 5, "a header that ends"),
        (
            told.offset == 4 && told.size == 1 && told.next == 5,
            "its place",
        ),
        (end == 8, "an end of sequence of temporal id plus 1 of 0"),
        (
            told_end.offset == 3 && told_end.size == 2 && told_end.next == 5,
            "its two bytes",
        ),
        (none == 1 && told_none.next == 0, "no unit"),
    ];
    check_all(&rt, &facts);
    let _waiting = decoder.end();
}

#[test]
fn a_format_that_is_not_awaited(rt: HostRuntime) {
    let mut decoder = pull_decoder(rt.alloc());
    let status = accept_format(&mut decoder);
    check(
        &rt,
        decoder.end() == 0 && status == 16,
        "refused, and nothing waits",
    );
}

/// The unit of a call that told nothing yet.
fn no_unit() -> UnitCall {
    UnitCall {
        offset: 0,
        size: 0,
        next: 0,
        nal_unit_type: 0,
        layer_id: 0,
        temporal_id: 0,
        table: 0,
        row: 0,
    }
}

/// Looks for a unit. The answer is the status.
fn status_of(stream: &[u8], from: usize, unit: &mut UnitCall) -> u32 {
    next_unit(stream, from, unit)
}

#[test]
fn units_of_a_stream(rt: HostRuntime) {
    let stream = [0, 0, 1, 0x40, 1, 12, 0, 0, 1, 0x46, 0x0B, 0x50];
    let mut unit = no_unit();
    let facts = [
        (status_of(&stream, 0, &mut unit) == 0, "the first unit"),
        (unit.offset == 3 && unit.size == 3, "its place"),
        (unit.nal_unit_type == 32, "its type"),
        (status_of(&stream, 6, &mut unit) == 0, "the second unit"),
        (unit.offset == 9 && unit.size == 3, "its place"),
        (unit.nal_unit_type == 35, "its type"),
        (
            unit.layer_id == 1 && unit.temporal_id == 2,
            "its layer and sub-layer",
        ),
        (status_of(&stream, 12, &mut unit) == 1, "no third unit"),
        (
            status_of(&stream, 13, &mut unit) == 17,
            "a place past the end",
        ),
        (
            status_of(&[0, 0, 1, 0x42], 0, &mut unit) == 5,
            "a header that ends",
        ),
        (
            status_of(&[0, 0, 1, 0x7C, 1], 0, &mut unit) == 6,
            "an unspecified type",
        ),
        (unit.row == 62, "its number"),
        (
            unit.offset == 3 && unit.size == 2 && unit.next == 5,
            "its place, and where the next is sought",
        ),
    ];
    check_all(&rt, &facts);
}
