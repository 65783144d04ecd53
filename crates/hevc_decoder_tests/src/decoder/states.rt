//! A decoder that is driven by hand, over a backend that fails and has no frame by a plan.
use crate::expect::{expect, expect_eq, ok};
use hevc_backend::Backend;
use hevc_decoder::{DecodeError, DecoderEvent, StatelessDecoder};
use hevc_worked_units::streams::{INTRA, P_SLICE, PICTURE_SET, SEQUENCE_SET};
use std::process::Abort;

/// The number of the next picture that was output.
fn next_number(decoder: &mut StatelessDecoder<Backend>) -> Option<u64> {
    match decoder.next_event() {
        Some(DecoderEvent::FrameReady(frame)) => Some(frame.number),
        _ => None,
    }
}

/// Accepts the format, if one is awaited.
fn accepts(decoder: &mut StatelessDecoder<Backend>) -> bool {
    let awaited = decoder.awaiting_format();
    if awaited {
        decoder.accept_format();
    }
    awaited
}

/// The first sequence set is waited for.
fn waits_for_a_sequence_set(rt: &impl Abort, decoder: &mut StatelessDecoder<Backend>) {
    expect(rt, decoder.decode(0, INTRA) == Ok(7));
    expect(rt, decoder.stream_info().is_none());
    expect(
        rt,
        decoder.decode(0, SEQUENCE_SET) == Err(DecodeError::CheckEvents),
    );
}

/// That its format is accepted, or forgotten by a flush.
fn waits_for_a_format(rt: &impl Abort, decoder: &mut StatelessDecoder<Backend>) {
    expect(
        rt,
        decoder.decode(0, SEQUENCE_SET) == Err(DecodeError::CheckEvents),
    );
    expect(
        rt,
        decoder.decode(0, PICTURE_SET) == Err(DecodeError::CheckEvents),
    );
    expect(
        rt,
        matches!(decoder.next_event(), Some(DecoderEvent::FormatChanged)),
    );
    expect(rt, decoder.stream_info().is_some());
    expect(rt, decoder.flush() == Ok(()));
    expect(rt, !decoder.awaiting_format());
}

/// After a flush, an INTRA picture or a sequence set.
fn waits_behind_a_flush(rt: &impl Abort, decoder: &mut StatelessDecoder<Backend>) {
    expect(rt, decoder.flush() == Ok(()));
    expect(rt, decoder.decode(0, P_SLICE) == Ok(9));
    expect(rt, decoder.decode(0, SEQUENCE_SET) == Ok(29));
    expect(rt, decoder.decode(0, PICTURE_SET) == Ok(9));
    expect_eq(rt, decoder.num_pictures(), 0);
}

/// Nothing: the format is negotiated anew, by the second call of that kind, with a frame.
fn negotiates_anew(rt: &impl Abort, decoder: &mut StatelessDecoder<Backend>) {
    expect(rt, decoder.decode(7, INTRA) == Err(DecodeError::Backend));
    expect(
        rt,
        decoder.decode(7, INTRA) == Err(DecodeError::NotEnoughOutputBuffers(1)),
    );
    expect(
        rt,
        decoder.decode(7, INTRA) == Err(DecodeError::CheckEvents),
    );
    expect(rt, accepts(decoder));
    expect(rt, decoder.decode(7, INTRA) == Ok(7));
    expect_eq(rt, decoder.num_pictures(), 1);
}

/// The next pictures that are output have these numbers, and no more do.
fn come_out(rt: &impl Abort, decoder: &mut StatelessDecoder<Backend>, numbers: &[u64]) {
    for number in numbers {
        expect(rt, next_number(decoder) == Some(*number));
    }
    expect(rt, next_number(decoder).is_none());
}

#[test]
fn four_states_by_hand(rt: HostRuntime) {
    let rt = &rt;
    let alloc = rt.alloc();
    let backend = Backend::with_plan(
        alloc,
        ok(rt, vec![in alloc; 2]),
        ok(rt, vec![in alloc; 16, 0, 16]),
    );
    let mut decoder = StatelessDecoder::new(alloc, backend);
    waits_for_a_sequence_set(rt, &mut decoder);
    waits_for_a_format(rt, &mut decoder);
    waits_behind_a_flush(rt, &mut decoder);
    negotiates_anew(rt, &mut decoder);
    come_out(rt, &mut decoder, &[]);
    expect(rt, decoder.flush() == Ok(()));
    come_out(rt, &mut decoder, &[0]);

    // And once more after a flush.
    expect(rt, decoder.decode(8, INTRA) == Ok(7));
    expect(rt, decoder.decode(9, P_SLICE) == Ok(9));
    expect(rt, decoder.flush() == Ok(()));
    come_out(rt, &mut decoder, &[1, 2]);
}
