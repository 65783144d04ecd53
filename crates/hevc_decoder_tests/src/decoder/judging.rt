//! A stream that is judged, and one whose units are given one by one.
ghost use Rattle.std.specs.Prelude.{◌<◌, length};
ghost use Rattle.hevc_bits.specs.declared.stream_limit.TheConstants.{STREAM_LIMIT};

use super::TWO_PICTURES;
use crate::expect::{expect, expect_eq};
use hevc_backend::{Backend, SilentBackend};
use hevc_decoder::{
    DecodeError, Options, Refused, begin_stream, decode_next_unit, end_stream, judge_stream,
};
use std::alloc::Global;

/// The units of a stream and its pictures, counted as its units are given one by one.
fn count_by_steps(alloc: Global, stream: &[u8]) -> Result<(u64, u64), Refused>
    requires { length stream.now < STREAM_LIMIT }
{
    let mut decoder = begin_stream(alloc, SilentBackend::new(), Options::new());
    let mut shown = Vec::new(alloc);
    let mut position = 0;
    let mut units = 0;
    while let Some(_unit) = decode_next_unit(
        &mut decoder,
        stream,
        &mut position,
        units,
        &mut shown,
    )? {
        units += 1;
    }
    let pictures = end_stream(&mut decoder, units, &mut shown)?;
    Ok((units, pictures))
}

#[test]
fn a_judged_stream_has_the_calls_and_the_verdict(rt: HostRuntime) {
    let rt = &rt;
    let alloc = rt.alloc();
    let decoded = judge_stream(alloc, Backend::new(alloc), Options::new(), TWO_PICTURES);
    expect(rt, decoded.result == Ok(2));
    expect_eq(rt, decoded.backend.calls().len(), 9);
}

#[test]
fn a_judged_stream_is_refused_at_its_unit(rt: HostRuntime) {
    let alloc = rt.alloc();
    let refused = Refused {
        unit: 0,
        error: DecodeError::OutOfRange { table: 0, row: 1 },
    };
    let stream = &[0x00, 0x00, 0x01, 0x48, 0x00, 0x05];
    let decoded = judge_stream(alloc, SilentBackend::new(), Options::new(), stream);
    expect(&rt, decoded.result == Err(refused));
}

#[test]
fn units_are_given_one_by_one(rt: HostRuntime) {
    let rt = &rt;
    let alloc = rt.alloc();
    expect(rt, count_by_steps(alloc, TWO_PICTURES) == Ok((4, 2)));
    expect(rt, count_by_steps(alloc, &[]) == Ok((0, 0)));
}
