//! What is decoded from each point on, beside what is decoded of the whole.
ghost use Rattle.std.specs.Prelude.{◌<◌, length};
ghost use Rattle.hevc_bits.specs.declared.stream_limit.TheConstants.{STREAM_LIMIT};

use crate::tests::expect::{expect, expect_eq, expect_fewer, ok};
use crate::tests::streams::{
    BLA, IDR, OTHER_PPS, OTHER_SPS, P4, P12, PPS, RASL6, SPS, WIDE_SPS, stream,
};
use hevc_backend::SilentBackend;
use hevc_bits::{Nalu, NaluHeader, STREAM_LIMIT};
use hevc_decoder::{Decoded, Shown, decode_stream};
use hevc_index::{Point, index, splice};
use hevc_stream_maker::make_stream;
use std::alloc::Global;
use std::process::Abort;

/// The outputs of these bytes, which are decoded to their end.
fn outputs(rt: &impl Abort, alloc: Global, bytes: &[u8]) -> Vec<Shown<()>>
    requires { length bytes.now < STREAM_LIMIT }
{
    let mut shown = Vec::new(alloc);
    let decoded = decode_stream(alloc, SilentBackend::new(), bytes, &mut shown);
    let Decoded { backend: _, result } = decoded;
    expect(rt, result.is_ok());
    shown
}

/// How many units these bytes have.
fn num_units(bytes: &[u8]) -> u64 {
    let mut count = 0u64;
    let mut position = 0;
    while let Ok(nalu) = Nalu::<NaluHeader>::next(bytes, &mut position) {
        position = nalu.offset() + nalu.size();
        count = count.wrapping_add(1);
    }
    count
}

/// From this point on the outputs are those of the whole, but for numbers and units.
fn begins_at(rt: &impl Abort, alloc: Global, bytes: &[u8], point: &Point, whole: &[Shown<()>])
    requires { length bytes.now < STREAM_LIMIT }
{
    let mut out = Vec::new(alloc);
    expect(rt, splice(alloc, bytes, point.number, &mut out).is_ok());
    expect_fewer(rt, &out, STREAM_LIMIT);
    let part = outputs(rt, alloc, &out);
    // All units from the point on come after the sets.
    let later = num_units(bytes).wrapping_sub(point.unit);
    let sets = num_units(&out).wrapping_sub(later);
    let mut others = part.iter();
    for output in whole {
        if output.number < point.number {
            continue;
        }
        let Some(other) = others.next() else {
            panic!(rt; "an output is missing");
        };
        expect_eq(rt, other.number, output.number.wrapping_sub(point.number));
        expect_eq(rt, other.order_count, output.order_count);
        let unit = output.unit.wrapping_sub(point.unit).wrapping_add(sets);
        expect_eq(rt, other.unit, unit);
    }
    expect(rt, others.next().is_none());
}

/// That is so from each of the points on, of which there are so many.
fn begins_at_each(rt: &impl Abort, alloc: Global, bytes: &[u8], number_of_points: usize) {
    expect_fewer(rt, bytes, STREAM_LIMIT);
    let whole = outputs(rt, alloc, bytes);
    let Ok(points) = index(alloc, bytes) else {
        panic!(rt; "the stream is refused");
    };
    expect_eq(rt, points.as_slice().len(), number_of_points);
    for point in points.as_slice() {
        begins_at(rt, alloc, bytes, point, &whole);
    }
}

#[test]
fn each_point_begins_a_stream(rt: HostRuntime) {
    let rt = &rt;
    let alloc = rt.alloc();
    let bytes = stream(rt, alloc, &[SPS, PPS, IDR, P4, IDR, P4]);
    begins_at_each(rt, alloc, &bytes, 2);
    let bytes = stream(rt, alloc, &[SPS, PPS, IDR, P4, BLA, RASL6, P12, IDR, P4]);
    begins_at_each(rt, alloc, &bytes, 3);
    let bytes = stream(rt, alloc, &[SPS, PPS, IDR, WIDE_SPS, PPS, IDR, P4]);
    begins_at_each(rt, alloc, &bytes, 2);
    let bytes = stream(rt, alloc, &[OTHER_PPS, SPS, PPS, IDR, OTHER_SPS, IDR, P4]);
    begins_at_each(rt, alloc, &bytes, 2);
}

#[test]
fn made_streams_are_joined(rt: HostRuntime) {
    let alloc = rt.alloc();
    let made = ok(&rt, make_stream(alloc, 9));
    let mut bytes = Vec::new(alloc);
    for _ in 0..4 {
        ok(&rt, bytes.extend_from_slice(&made));
    }
    begins_at_each(&rt, alloc, &bytes, 4);
}
