//! A decoder, unit by unit, with its events.
use crate::expect::{expect, expect_eq, ok};
use hevc_backend::{Backend, Call};
use hevc_stateless::{DecodeError, DecoderEvent, Options, StatelessDecoder};
use hevc_worked_units::streams::{INTRA, P_SLICE, PICTURE_SET, SEQUENCE_SET};
use std::process::Abort;

/// The same of 32 by 16 luma samples.
const WIDE_SET: &[u8] = &[
    0x00, 0x00, 0x01, 0x42, 0x01, 0x01, 0x01, 0x60, 0x00, 0x00, 0x03, 0x00, 0x90, 0x00, 0x00, 0x03,
    0x00, 0x00, 0x03, 0x00, 0x3c, 0xa0, 0x42, 0x11, 0x79, 0x56, 0xaf, 0x08, 0x20,
];

/// The same of temporal sub-layer 1.
const UPPER: &[u8] = &[0x00, 0x00, 0x01, 0x02, 0x02, 0xd2, 0x14, 0x97, 0x80];

/// The same in layer 0, in layer 1 and in layer 32.
const IN_LAYERS: [&[u8]; 3] = [
    &[0x00, 0x00, 0x01, 0x02, 0x01, 0xd2, 0x14, 0x97, 0x80],
    &[0x00, 0x00, 0x01, 0x02, 0x09, 0xd2, 0x14, 0x97, 0x80],
    &[0x00, 0x00, 0x01, 0x03, 0x01, 0xd2, 0x14, 0x97, 0x80],
];

/// An end of sequence.
const END: &[u8] = &[0x00, 0x00, 0x01, 0x48, 0x01];

/// Accepts a format, if one is awaited.
fn accept(decoder: &mut StatelessDecoder<Backend>) -> bool {
    let awaited = decoder.awaiting_format();
    if awaited {
        decoder.accept_format();
    }
    awaited
}

/// The number of the next picture that was output.
fn next_number(decoder: &mut StatelessDecoder<Backend>) -> Option<u64> {
    match decoder.next_event() {
        Some(DecoderEvent::FrameReady(frame)) => Some(frame.number),
        _ => None,
    }
}

/// A decoder whose first format is accepted, with a picture set.
fn begin(decoder: &mut StatelessDecoder<Backend>) -> Result<usize, DecodeError> {
    if decoder.decode(0, SEQUENCE_SET) != Err(DecodeError::CheckEvents) || !accept(decoder) {
        return Err(DecodeError::NoNal);
    }
    decoder.decode(0, SEQUENCE_SET)?;
    decoder.decode(0, PICTURE_SET)
}

/// The decoder takes each of these units whole.
fn takes(rt: &impl Abort, decoder: &mut StatelessDecoder<Backend>, units: &[&[u8]]) {
    for unit in units {
        assert!(rt; unit.len() < 1000);
        expect(rt, decoder.decode(0, unit) == Ok(unit.len()));
    }
}

/// The next pictures that are output have these numbers.
fn come_out(rt: &impl Abort, decoder: &mut StatelessDecoder<Backend>, numbers: &[u64]) {
    for number in numbers {
        expect(rt, next_number(decoder) == Some(*number));
    }
}

/// The name of a call, and the number of its picture.
fn named(call: &Call<u64>) -> (&'static str, u64) {
    match call {
        Call::NewSequence { .. } => ("NewSequence", 0),
        Call::NewPicture { number, .. } => ("NewPicture", *number),
        Call::BeginPicture { number, .. } => ("BeginPicture", *number),
        Call::DecodeSlice { number, .. } => ("DecodeSlice", *number),
        Call::SubmitPicture { number, .. } => ("SubmitPicture", *number),
    }
}

/// The backend got these calls, of these pictures, and no others.
fn got(rt: &impl Abort, decoder: &StatelessDecoder<Backend>, calls: &[(&str, u64)]) {
    let log = decoder.backend().calls();
    expect_eq(rt, log.len(), calls.len());
    for (call, (name, number)) in log.iter().zip(calls) {
        let (name_now, number_now) = named(call);
        expect(rt, name_now == *name);
        expect_eq(rt, number_now, *number);
    }
}

#[test]
fn the_first_sequence_set_is_negotiated_and_given_again(rt: HostRuntime) {
    let rt = &rt;
    let alloc = rt.alloc();
    let mut decoder = StatelessDecoder::new(alloc, Backend::new(alloc));
    takes(rt, &mut decoder, &[INTRA]);
    expect(
        rt,
        decoder.decode(0, SEQUENCE_SET) == Err(DecodeError::CheckEvents),
    );
    expect(
        rt,
        decoder.decode(0, SEQUENCE_SET) == Err(DecodeError::CheckEvents),
    );
    expect(
        rt,
        matches!(decoder.next_event(), Some(DecoderEvent::FormatChanged)),
    );
    expect(rt, accept(&mut decoder));
    expect(rt, !decoder.awaiting_format());
    takes(rt, &mut decoder, &[SEQUENCE_SET]);
    expect_eq(rt, decoder.backend().calls().len(), 1);
}

#[test]
fn a_picture_set_waits_for_its_sequence_set(rt: HostRuntime) {
    let rt = &rt;
    let alloc = rt.alloc();
    let mut decoder = StatelessDecoder::new(alloc, Backend::new(alloc));
    takes(rt, &mut decoder, &[PICTURE_SET]);
    expect(
        rt,
        decoder.decode(0, SEQUENCE_SET) == Err(DecodeError::CheckEvents),
    );
    expect(rt, accept(&mut decoder));
    expect(
        rt,
        decoder.decode(0, INTRA) == Err(DecodeError::MissingPps(0)),
    );
    takes(rt, &mut decoder, &[SEQUENCE_SET]);
    expect(rt, decoder.decode(5, INTRA) == Ok(7));
    expect(rt, decoder.flush() == Ok(()));
    come_out(rt, &mut decoder, &[0]);
    expect(rt, next_number(&mut decoder).is_none());
}

#[test]
fn behind_a_flush_an_idr_picture_is_waited_for(rt: HostRuntime) {
    let rt = &rt;
    let alloc = rt.alloc();
    let mut decoder = StatelessDecoder::new(alloc, Backend::new(alloc));
    expect(rt, begin(&mut decoder) == Ok(9));
    takes(rt, &mut decoder, &[INTRA, P_SLICE, END]);
    expect(rt, decoder.flush() == Ok(()));
    let calls = decoder.backend().calls().len();
    takes(rt, &mut decoder, &[P_SLICE]);
    expect_eq(rt, decoder.backend().calls().len(), calls);
    takes(rt, &mut decoder, &[INTRA, P_SLICE]);
    expect(rt, decoder.flush() == Ok(()));
    come_out(rt, &mut decoder, &[0, 1, 2, 3]);
}

#[test]
fn a_flush_forgets_a_format_that_is_awaited(rt: HostRuntime) {
    let rt = &rt;
    let alloc = rt.alloc();
    let mut decoder = StatelessDecoder::new(alloc, Backend::new(alloc));
    expect(
        rt,
        decoder.decode(0, SEQUENCE_SET) == Err(DecodeError::CheckEvents),
    );
    expect(rt, decoder.flush() == Ok(()));
    expect(rt, !decoder.awaiting_format());
    takes(rt, &mut decoder, &[PICTURE_SET, SEQUENCE_SET]);
    expect(
        rt,
        decoder.decode(0, INTRA) == Err(DecodeError::CheckEvents),
    );
    expect(rt, accept(&mut decoder));
    takes(rt, &mut decoder, &[INTRA]);
}

#[test]
fn sub_layers_above_the_wanted_ones_are_passed_over(rt: HostRuntime) {
    let rt = &rt;
    let alloc = rt.alloc();
    let mut options = Options::new();
    options.highest_tid = 0;
    let mut decoder = StatelessDecoder::new_with(alloc, Backend::new(alloc), options);
    expect(rt, begin(&mut decoder) == Ok(9));
    takes(rt, &mut decoder, &[INTRA]);
    let calls = decoder.backend().calls().len();
    takes(rt, &mut decoder, &[UPPER]);
    expect_eq(rt, decoder.backend().calls().len(), calls);
}

#[test]
fn layers_above_the_wanted_ones_are_passed_over(rt: HostRuntime) {
    let rt = &rt;
    let alloc = rt.alloc();
    for (highest_layer, wanted) in [(0, 1), (1, 2), (31, 2), (32, 3)] {
        let options = Options {
            highest_layer,
            ..Options::new()
        };
        let mut decoder = StatelessDecoder::new_with(alloc, Backend::new(alloc), options);
        expect(rt, begin(&mut decoder) == Ok(9));
        takes(rt, &mut decoder, &[INTRA]);
        for (layer, unit) in IN_LAYERS.iter().enumerate() {
            let calls = decoder.backend().calls().len();
            takes(rt, &mut decoder, &[*unit]);
            expect(
                rt,
                (decoder.backend().calls().len() == calls) == (layer >= wanted),
            );
        }
    }
}

#[test]
fn a_refusal_leaves_the_decoder_where_it_stood(rt: HostRuntime) {
    let rt = &rt;
    let alloc = rt.alloc();
    let backend = Backend::with_plan(
        alloc,
        ok(rt, vec![in alloc; 1]),
        ok(rt, vec![in alloc; 16, 0]),
    );
    let mut decoder = StatelessDecoder::new(alloc, backend);
    expect(rt, decoder.decode(0, &[]) == Err(DecodeError::NoNal));
    expect(
        rt,
        decoder.decode(0, &[0, 0, 1, 0x26]) == Err(DecodeError::TruncatedNalu),
    );
    let unspecified = Err(DecodeError::InvalidNaluType(48));
    expect(rt, decoder.decode(0, &[0, 0, 1, 0x60, 1]) == unspecified);
    expect(
        rt,
        decoder.decode(0, SEQUENCE_SET) == Err(DecodeError::Backend),
    );
    expect(rt, begin(&mut decoder) == Ok(9));
    takes(rt, &mut decoder, &[INTRA]);
    let full = Err(DecodeError::NotEnoughOutputBuffers(1));
    expect(rt, decoder.decode(0, P_SLICE) == full);
    takes(rt, &mut decoder, &[P_SLICE]);
    expect(rt, decoder.flush() == Ok(()));
    come_out(rt, &mut decoder, &[0, 1]);
}

#[test]
fn another_format_is_negotiated_behind_what_waits(rt: HostRuntime) {
    let rt = &rt;
    let alloc = rt.alloc();
    let mut decoder = StatelessDecoder::new(alloc, Backend::new(alloc));
    expect(rt, begin(&mut decoder) == Ok(9));
    takes(rt, &mut decoder, &[INTRA, WIDE_SET]);
    expect(rt, next_number(&mut decoder).is_none());
    expect(
        rt,
        decoder.decode(0, INTRA) == Err(DecodeError::CheckEvents),
    );
    come_out(rt, &mut decoder, &[0]);
    expect(
        rt,
        matches!(decoder.next_event(), Some(DecoderEvent::FormatChanged)),
    );
    expect(rt, accept(&mut decoder));
    let calls = decoder.backend().calls().len();
    takes(rt, &mut decoder, &[INTRA]);
    expect_eq(rt, decoder.backend().calls().len(), calls + 3);
}

#[test]
fn a_picture_whose_call_failed_is_given_again_as_another(rt: HostRuntime) {
    let rt = &rt;
    let alloc = rt.alloc();
    let backend = Backend::with_plan(alloc, ok(rt, vec![in alloc; 3]), Vec::new(alloc));
    let mut decoder = StatelessDecoder::new(alloc, backend);
    expect(rt, begin(&mut decoder) == Ok(9));
    expect(rt, decoder.decode(0, INTRA) == Err(DecodeError::Backend));
    got(rt, &decoder, &[("NewSequence", 0), ("NewPicture", 0)]);
    takes(rt, &mut decoder, &[INTRA]);
    let calls = [
        ("NewSequence", 0),
        ("NewPicture", 0),
        ("NewPicture", 1),
        ("BeginPicture", 1),
        ("DecodeSlice", 1),
    ];
    got(rt, &decoder, &calls);
    expect(rt, decoder.flush() == Ok(()));
    come_out(rt, &mut decoder, &[1]);
    expect(rt, next_number(&mut decoder).is_none());
}

#[test]
fn a_picture_without_a_frame_is_given_again_as_itself(rt: HostRuntime) {
    let rt = &rt;
    let alloc = rt.alloc();
    let backend = Backend::with_plan(alloc, Vec::new(alloc), ok(rt, vec![in alloc; 16, 0]));
    let mut decoder = StatelessDecoder::new(alloc, backend);
    expect(rt, begin(&mut decoder) == Ok(9));
    takes(rt, &mut decoder, &[INTRA]);
    let full = Err(DecodeError::NotEnoughOutputBuffers(1));
    expect(rt, decoder.decode(0, P_SLICE) == full);
    let calls = [
        ("NewSequence", 0),
        ("NewPicture", 0),
        ("BeginPicture", 0),
        ("DecodeSlice", 0),
        ("SubmitPicture", 0),
    ];
    got(rt, &decoder, &calls);
    takes(rt, &mut decoder, &[P_SLICE]);
    expect(rt, decoder.flush() == Ok(()));
    come_out(rt, &mut decoder, &[0, 1]);
    expect(rt, next_number(&mut decoder).is_none());
    let calls = decoder.backend().calls().len();
    takes(rt, &mut decoder, &[P_SLICE]);
    expect_eq(rt, decoder.backend().calls().len(), calls);
    takes(rt, &mut decoder, &[INTRA]);
    expect_eq(rt, decoder.backend().calls().len(), calls + 3);
    expect(rt, decoder.flush() == Ok(()));
    come_out(rt, &mut decoder, &[2]);
}
