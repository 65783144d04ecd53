//! Whole streams over backends that fail at a planned call, or have no frame.
mod calling;
mod judging;
mod pieces;
mod plans;
mod states;
mod told;

use crate::expect::{expect, expect_eq, ok};
use calling::{numbers_by_events, numbers_of_source, numbers_of_stream};
use hevc_backend::Backend;
use hevc_decoder::{DecodeError, Refused, Shown, decode_stream};
use hevc_io::MemorySource;
use std::alloc::Global;
use std::process::Abort;

/// A sequence set of 16 by 16 luma samples of which one picture may be needed for output, a picture set, and two
/// slices of an IDR picture each, every unit after a start code.
const TWO_PICTURES: &[u8] = &[
    0x00, 0x00, 0x01, 0x42, 0x01, 0x01, 0x01, 0x60, 0x00, 0x00, 0x03, 0x00, 0x90, 0x00, 0x00, 0x03,
    0x00, 0x00, 0x03, 0x00, 0x3c, 0xa0, 0x88, 0x45, 0xe5, 0x5a, 0xbc, 0x20, 0x80, 0x00, 0x00, 0x01,
    0x44, 0x01, 0xc0, 0x71, 0x80, 0x12, 0x00, 0x00, 0x01, 0x26, 0x01, 0xaf, 0x80, 0x00, 0x00, 0x01,
    0x26, 0x01, 0xaf, 0x80,
];

#[test]
fn an_empty_stream_has_no_pictures(rt: HostRuntime) {
    let rt = &rt;
    let mut shown = Vec::new(rt.alloc());
    let decoded = decode_stream(rt.alloc(), Backend::new(rt.alloc()), &[], &mut shown);
    expect(rt, decoded.result == Ok(0));
    expect(rt, shown.is_empty());
}

#[test]
fn two_pictures_come_out(rt: HostRuntime) {
    let rt = &rt;
    let alloc = rt.alloc();
    let mut shown = Vec::new(alloc);
    let decoded = decode_stream(alloc, Backend::new(alloc), TWO_PICTURES, &mut shown);
    expect(rt, decoded.result == Ok(2));
    expect_eq(rt, decoded.backend.calls().len(), 9);
    let first = Shown {
        number: 0,
        handle: 0,
        order_count: 0,
        unit: 3,
    };
    let second = Shown {
        number: 1,
        handle: 1,
        order_count: 0,
        unit: 4,
    };
    expect(rt, shown.as_slice() == [first, second].as_slice());
}

/// The stream is refused at this unit over a backend, which took so many calls; so many pictures were output.
fn refused(
    rt: &impl Abort,
    alloc: Global,
    backend: Backend,
    refused: Refused,
    calls: usize,
    pictures: usize,
) {
    let mut shown = Vec::new(alloc);
    let decoded = decode_stream(alloc, backend, TWO_PICTURES, &mut shown);
    expect(rt, decoded.result == Err(refused));
    expect_eq(rt, decoded.backend.calls().len(), calls);
    expect_eq(rt, shown.len(), pictures);
}

/// Of the nine calls one fails, the first being 1.
fn fails(rt: &impl Abort, alloc: Global, call: u64, unit: u64, pictures: usize) {
    let backend = Backend::with_plan(alloc, ok(rt, vec![in alloc; call]), Vec::new(alloc));
    let error = DecodeError::Backend;
    refused(
        rt,
        alloc,
        backend,
        Refused { unit, error },
        (call as usize).saturating_sub(1),
        pictures,
    );
}

#[test]
fn a_call_that_fails_is_told_at_its_unit(rt: HostRuntime) {
    for (call, unit, pictures) in [
        (1, 0, 0),
        (2, 2, 0),
        (3, 2, 0),
        (4, 2, 0),
        (5, 3, 0),
        (6, 3, 1),
        (7, 3, 1),
        (8, 3, 1),
        (9, 4, 1),
    ] {
        fails(&rt, rt.alloc(), call, unit, pictures);
    }
}

#[test]
fn a_frame_that_is_missing_is_told_at_the_picture_that_wants_it(rt: HostRuntime) {
    let rt = &rt;
    let alloc = rt.alloc();
    let error = DecodeError::NotEnoughOutputBuffers(1);
    let first = Backend::with_plan(alloc, Vec::new(alloc), ok(rt, vec![in alloc; 0]));
    refused(rt, alloc, first, Refused { unit: 2, error }, 1, 0);
    let second = Backend::with_plan(alloc, Vec::new(alloc), ok(rt, vec![in alloc; 1, 0]));
    refused(rt, alloc, second, Refused { unit: 3, error }, 5, 0);
}

#[test]
fn events_streams_and_sources_give_the_same_pictures(rt: HostRuntime) {
    let rt = &rt;
    let alloc = rt.alloc();
    let numbers = ok(rt, numbers_by_events(alloc, TWO_PICTURES));
    expect_eq(rt, numbers.as_slice(), [0u64, 1].as_slice());
    let numbers = ok(rt, ok(rt, numbers_of_stream(alloc, TWO_PICTURES)));
    expect_eq(rt, numbers.as_slice(), [0u64, 1].as_slice());
    let mut bytes = ok(rt, Vec::with_capacity(alloc, 52));
    ok(rt, bytes.extend_from_slice(TWO_PICTURES));
    let mut source = MemorySource::new(bytes, Vec::new(alloc));
    let read = ok(rt, numbers_of_source(alloc, &mut source));
    expect_eq(rt, ok(rt, read).as_slice(), [0u64, 1].as_slice());
}

#[test]
fn refused_units_are_told_with_their_numbers(rt: HostRuntime) {
    let rt = &rt;
    let alloc = rt.alloc();
    let truncated = ok(rt, numbers_of_stream(alloc, &[0, 0, 1, 0x26]));
    expect(
        rt,
        matches!(
            truncated,
            Err(Refused {
                unit: 0,
                error: DecodeError::TruncatedNalu
            })
        ),
    );
    let refused = numbers_by_events(alloc, &[0, 0, 1, 0x26]);
    expect(rt, matches!(refused, Err(DecodeError::TruncatedNalu)));
}
