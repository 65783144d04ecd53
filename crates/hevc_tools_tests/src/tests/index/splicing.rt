//! Streams that begin at a point of another.
use crate::tests::expect::{expect, expect_eq, expect_fewer, ok};
use crate::tests::streams::{
    BLA, END_OF_SEQUENCE, IDR, OTHER_PPS, OTHER_SPS, P4, P12, PPS, RASL6, SPS, TRUNCATED,
    UPPER_IDR, WIDE_SPS, joined, stream,
};
use hevc_bits::STREAM_LIMIT;
use hevc_decoder::{DecodeError, Refused};
use hevc_index::{IndexError, splice};
use std::alloc::Global;
use std::process::Abort;

/// From the point of this number on this is the stream; one byte that is there stays before it.
fn splices(rt: &impl Abort, alloc: Global, bytes: &[u8], number: u64, units: &[&[u8]]) {
    expect_fewer(rt, bytes, STREAM_LIMIT);
    let mut out = ok(rt, Vec::from_slice(alloc, &[0x07]));
    expect(rt, splice(alloc, bytes, number, &mut out).is_ok());
    let mut expected = ok(rt, Vec::from_slice(alloc, &[0x07]));
    ok(rt, expected.extend_from_slice(&stream(rt, alloc, units)));
    expect_eq(rt, out.as_slice(), expected.as_slice());
}

/// No stream begins at a point of this number, for this reason, and nothing is added.
fn refuses(rt: &impl Abort, alloc: Global, units: &[&[u8]], number: u64, error: IndexError) {
    let bytes = stream(rt, alloc, units);
    expect_fewer(rt, &bytes, STREAM_LIMIT);
    let mut out = ok(rt, Vec::from_slice(alloc, &[0x07]));
    expect(rt, splice(alloc, &bytes, number, &mut out) == Err(error));
    expect_eq(rt, out.as_slice(), [0x07].as_slice());
}

#[test]
fn the_sets_before_a_point_come_first(rt: HostRuntime) {
    let rt = &rt;
    let alloc = rt.alloc();
    let bytes = stream(rt, alloc, &[SPS, PPS, IDR, P4, IDR, P4]);
    splices(rt, alloc, &bytes, 0, &[SPS, PPS, IDR, P4, IDR, P4]);
    splices(rt, alloc, &bytes, 2, &[SPS, PPS, IDR, P4]);
    let bytes = stream(rt, alloc, &[SPS, PPS, IDR, WIDE_SPS, PPS, IDR, P4]);
    splices(rt, alloc, &bytes, 1, &[SPS, PPS, WIDE_SPS, PPS, IDR, P4]);
    splices(
        rt,
        alloc,
        &bytes,
        0,
        &[SPS, PPS, IDR, WIDE_SPS, PPS, IDR, P4],
    );
    let bytes = stream(rt, alloc, &[OTHER_PPS, SPS, PPS, IDR, OTHER_SPS, IDR, P4]);
    splices(
        rt,
        alloc,
        &bytes,
        1,
        &[OTHER_PPS, SPS, PPS, OTHER_SPS, IDR, P4],
    );
}

#[test]
fn other_units_before_a_point_are_left_out(rt: HostRuntime) {
    let rt = &rt;
    let alloc = rt.alloc();
    let units = [SPS, PPS, IDR, P4, END_OF_SEQUENCE, BLA, RASL6, P12];
    let bytes = stream(rt, alloc, &units);
    splices(rt, alloc, &bytes, 2, &[SPS, PPS, BLA, RASL6, P12]);
    let bytes = stream(rt, alloc, &[IDR, END_OF_SEQUENCE, SPS, PPS, IDR]);
    splices(rt, alloc, &bytes, 0, &[SPS, PPS, IDR]);
}

#[test]
fn what_stands_between_units_is_left_out(rt: HostRuntime) {
    let alloc = rt.alloc();
    let long = [0x00, 0x00, 0x00, 0x01];
    let mut bytes = joined(&rt, alloc, &long, &[SPS, PPS, IDR, P4, IDR]);
    ok(&rt, bytes.extend_from_slice(&[0x00, 0x00, 0x00]));
    splices(&rt, alloc, &bytes, 2, &[SPS, PPS, IDR]);
}

#[test]
fn there_may_be_no_such_point(rt: HostRuntime) {
    let rt = &rt;
    let alloc = rt.alloc();
    let none = IndexError::NoSuchPoint;
    refuses(rt, alloc, &[], 0, none);
    for number in [1, 3, 4, u64::MAX] {
        refuses(rt, alloc, &[SPS, PPS, IDR, P4, IDR, P4], number, none);
    }
    refuses(rt, alloc, &[SPS, PPS, IDR, UPPER_IDR], 1, none);
}

#[test]
fn refused_streams_have_no_points(rt: HostRuntime) {
    let alloc = rt.alloc();
    let truncated = IndexError::Refused(Refused {
        unit: 4,
        error: DecodeError::TruncatedNalu,
    });
    for number in [0, 1, 9] {
        refuses(
            &rt,
            alloc,
            &[SPS, PPS, IDR, P4, TRUNCATED],
            number,
            truncated,
        );
    }
}
