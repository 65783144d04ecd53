//! The structs of Linux's stateless decoders over a decoder.
use super::{check, check_all, pull_decoder};
use crate::expect::ok;
use hevc_pull::{
    DecodeCall, PullDecoder, accept_format, decode, entry_points, picture_controls, slice_controls,
    want_controls,
};
use hevc_queue::PictureControls;
use hevc_stream_maker::make_stream;
use hevc_v4l2::SliceControls;
use std::process::Abort;

/// Decodes a unit. The answer is its status.
fn status_of(decoder: &mut PullDecoder, bytes: &[u8], call: &mut DecodeCall) -> u32 {
    decode(decoder, bytes, call)
}

/// Accepts a format.
fn accept(decoder: &mut PullDecoder) -> u32 {
    accept_format(decoder)
}

/// Decodes a unit, or accepts a format. The answer is where the next one is sought.
fn decode_next(
    rt: &impl Abort,
    decoder: &mut PullDecoder,
    bytes: &[u8],
    call: &mut DecodeCall,
) -> usize {
    let status = status_of(decoder, bytes, call);
    if status == 2 {
        let _accepted = accept(decoder);
        return 0;
    }
    check(rt, status == 0, "refused");
    call.next as usize
}

/// Decodes the units of a stream up to the third picture.
fn decode_some(rt: &impl Abort, decoder: &mut PullDecoder, stream: &[u8]) {
    let mut call = DecodeCall {
        timestamp: 0,
        free_frames: 16,
        offset: 0,
        size: 0,
        next: 0,
        table: 0,
        row: 0,
    };
    let mut at = 0usize;
    for _ in 0..6 {
        let rest = ok(rt, stream.get(at..).ok_or("past the end"));
        at = at.saturating_add(decode_next(rt, decoder, rest, &mut call));
    }
}

/// The structs of the third picture and its slice segment.
fn structs_of(
    rt: &impl Abort,
    decoder: &mut PullDecoder,
    stream: &[u8],
) -> (PictureControls, SliceControls) {
    decode_some(rt, decoder, stream);
    let filled = ok(rt, decoder.picture_controls().ok_or("no structs"));
    let picture = ok(rt, filled);
    let filled = ok(rt, decoder.slice_controls().ok_or("no struct"));
    (picture, ok(rt, filled))
}

/// Compares what the calls fill with what the decoder has.
fn compare(rt: &impl Abort, decoder: &mut PullDecoder, stream: &[u8]) {
    let facts = [
        (decoder.picture_controls().is_none(), "no structs"),
        (decoder.slice_controls().is_none(), "no struct"),
        (want_controls(decoder) == 0, "structs are wanted"),
        (decoder.picture_controls().is_none(), "none is filled yet"),
    ];
    check_all(rt, &facts);
    let (mut picture, mut slice) = structs_of(rt, decoder, stream);
    picture.decode_params.num_active_dpb_entries = 0;
    slice.params.bit_size = 0;
    let mut count = 7usize;
    let facts = [
        (
            picture_controls(decoder, &mut picture) == 0,
            "the structs of a picture",
        ),
        (picture.sps.pic_width_in_luma_samples == 16, "its width"),
        (
            picture.decode_params.pic_order_cnt_val == 4,
            "its order count",
        ),
        (
            picture.decode_params.num_active_dpb_entries == 2,
            "its reference pictures",
        ),
        (
            picture.decode_params.dpb[0].timestamp == 0,
            "the time of the first one",
        ),
        (
            picture.decode_params.dpb[1].timestamp == 1000,
            "and of the second one, whose number is 1",
        ),
        (
            slice_controls(decoder, &mut slice) == 0,
            "the struct of a slice segment",
        ),
        (slice.params.slice_pic_order_cnt == 4, "its picture"),
        (slice.params.ref_idx_l0[0] == 0, "its reference"),
        (slice.params.bit_size != 0, "its size"),
        (
            entry_points(decoder, &mut [], &mut count) == 0,
            "its entry points",
        ),
        (count == 0, "of which there are none"),
    ];
    check_all(rt, &facts);
}

#[test]
fn structs_of_the_latest_picture(rt: HostRuntime) {
    let rt = &rt;
    let stream = ok(rt, make_stream(rt.alloc(), 3));
    let mut decoder = pull_decoder(rt.alloc());
    compare(rt, &mut decoder, stream.as_slice());
    let waiting = decoder.end();
    check(
        rt,
        waiting == 1 + 3 * 3 + 2,
        "a sequence, three calls for each picture, that the first two are whole",
    );
}
