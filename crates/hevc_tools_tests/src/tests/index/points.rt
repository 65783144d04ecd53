//! The points of streams in memory.
use crate::tests::expect::{expect, expect_eq, expect_fewer};
use crate::tests::streams::{
    BLA, CRA, END_OF_SEQUENCE, IDR, LATER_RASL6, OTHER_PPS, OTHER_SPS, P4, P12, PPS, RASL6, SPS,
    TRUNCATED, UPPER_IDR, WIDE_SPS, joined, stream,
};
use hevc_bits::{NaluType, STREAM_LIMIT};
use hevc_decoder::{DecodeError, Refused};
use hevc_index::{IndexError, Point, index};
use std::alloc::Global;
use std::process::Abort;

/// An IDR picture of order count 0.
fn idr_at(number: u64, unit: u64, offset: u64) -> Point {
    Point {
        number,
        unit,
        offset,
        nalu_type: NaluType::IdrWRadl,
        order_count: 0,
    }
}

/// The points of these bytes are exactly these.
fn has_points(rt: &impl Abort, alloc: Global, bytes: &[u8], expected: &[Point]) {
    expect_fewer(rt, bytes, STREAM_LIMIT);
    let points = index(alloc, bytes);
    let Ok(points) = points else {
        panic!(rt; "the stream is refused");
    };
    expect_eq(rt, points.as_slice().len(), expected.len());
    let mut others = expected.iter();
    for point in points.as_slice() {
        expect(rt, others.next() == Some(point));
    }
}

/// The points of these units are exactly these.
fn points_are(rt: &impl Abort, alloc: Global, units: &[&[u8]], expected: &[Point]) {
    let bytes = stream(rt, alloc, units);
    has_points(rt, alloc, &bytes, expected);
}

#[test]
fn idr_pictures_are_points(rt: HostRuntime) {
    let rt = &rt;
    let alloc = rt.alloc();
    points_are(rt, alloc, &[], &[]);
    points_are(rt, alloc, &[SPS, PPS], &[]);
    points_are(rt, alloc, &[SPS, PPS, IDR], &[idr_at(0, 2, 41)]);
    let two = [idr_at(0, 2, 41), idr_at(2, 4, 57)];
    points_are(rt, alloc, &[SPS, PPS, IDR, P4, IDR, P4], &two);
    let long = [0x00, 0x00, 0x00, 0x01];
    let bytes = joined(rt, alloc, &long, &[SPS, PPS, IDR, P4, IDR]);
    has_points(rt, alloc, &bytes, &[idr_at(0, 2, 44), idr_at(2, 4, 62)]);
}

#[test]
fn cra_pictures_are_none(rt: HostRuntime) {
    let rt = &rt;
    let alloc = rt.alloc();
    points_are(rt, alloc, &[SPS, PPS, CRA], &[]);
    let two = [idr_at(0, 2, 41), idr_at(3, 5, 65)];
    points_are(rt, alloc, &[SPS, PPS, IDR, P4, CRA, IDR], &two);
}

#[test]
fn bla_pictures_have_their_order_count(rt: HostRuntime) {
    let alloc = rt.alloc();
    let bla = Point {
        number: 2,
        unit: 4,
        offset: 57,
        nalu_type: NaluType::BlaWLp,
        order_count: 8,
    };
    // A skipped picture has a number, and a later slice of it has none.
    let units = [SPS, PPS, IDR, P4, BLA, RASL6, LATER_RASL6, RASL6, P12, IDR];
    points_are(
        &rt,
        alloc,
        &units,
        &[idr_at(0, 2, 41), bla, idr_at(6, 9, 98)],
    );
}

#[test]
fn upper_sub_layers_have_none(rt: HostRuntime) {
    let rt = &rt;
    let alloc = rt.alloc();
    points_are(rt, alloc, &[SPS, PPS, UPPER_IDR], &[]);
    let two = [idr_at(0, 2, 41), idr_at(2, 4, 55)];
    points_are(rt, alloc, &[SPS, PPS, IDR, UPPER_IDR, IDR], &two);
}

#[test]
fn sets_may_change(rt: HostRuntime) {
    let rt = &rt;
    let alloc = rt.alloc();
    let two = [idr_at(0, 2, 41), idr_at(1, 5, 86)];
    points_are(rt, alloc, &[SPS, PPS, IDR, WIDE_SPS, PPS, IDR], &two);
    // The first picture set waits until the sequence set that it names comes.
    let units = [OTHER_PPS, SPS, PPS, IDR, OTHER_SPS, IDR, P4];
    points_are(rt, alloc, &units, &[idr_at(0, 3, 51), idr_at(1, 5, 87)]);
    let units = [IDR, END_OF_SEQUENCE, SPS, PPS, IDR];
    points_are(rt, alloc, &units, &[idr_at(0, 4, 53)]);
}

#[test]
fn refused_streams_have_none(rt: HostRuntime) {
    let rt = &rt;
    let alloc = rt.alloc();
    for (units, unit, error) in [
        ([TRUNCATED, SPS, PPS], 0u64, DecodeError::TruncatedNalu),
        ([SPS, IDR, PPS], 1, DecodeError::MissingPps(0)),
        ([SPS, PPS, TRUNCATED], 2, DecodeError::TruncatedNalu),
    ] {
        let bytes = stream(rt, alloc, &units);
        expect_fewer(rt, &bytes, STREAM_LIMIT);
        let refused = Refused { unit, error };
        match index(alloc, &bytes) {
            Err(told) => expect(rt, told == IndexError::Refused(refused)),
            Ok(_) => panic!(rt; "the stream isn't refused"),
        }
    }
}
