//! Which units are kept of streams in memory.
ghost use Rattle.std.specs.Prelude.{◌≤◌};

use crate::tests::expect::{expect_eq, ok};
use crate::tests::streams::{IDR, P4, PPS, SPS, TRUNCATED, UPPER_P2, joined, stream};
use hevc_bits::UnitError;
use hevc_extract::{ExtractError, Kept, extract, extract_layer};
use std::alloc::Global;
use std::process::Abort;

/// From these bytes exactly these units are extracted, and so many others are dropped.
fn keeps(
    rt: &impl Abort,
    alloc: Global,
    bytes: &[u8],
    highest_tid: u8,
    units: &[&[u8]],
    dropped: u64,
)
    requires { highest_tid ≤ 6 }
{
    let mut out = Vec::new(alloc);
    let kept = extract(bytes, highest_tid, &mut out);
    let counts = Kept {
        units: units.len() as u64,
        dropped,
    };
    expect_eq(rt, kept, Ok(counts));
    let expected = stream(rt, alloc, units);
    expect_eq(rt, out.as_slice(), expected.as_slice());
}

/// From these units none are extracted, since this one is refused.
fn refuses(rt: &impl Abort, alloc: Global, units: &[&[u8]], unit: u64, error: UnitError) {
    let bytes = stream(rt, alloc, units);
    let mut out = ok(rt, Vec::from_slice(alloc, &[0x07]));
    let kept = extract(&bytes, 0, &mut out);
    expect_eq(rt, kept, Err(ExtractError::Refused { unit, error }));
    expect_eq(rt, out.as_slice(), [0x07].as_slice());
}

#[test]
fn units_of_upper_sub_layers_are_dropped(rt: HostRuntime) {
    let rt = &rt;
    let alloc = rt.alloc();
    let bytes = stream(rt, alloc, &[SPS, PPS, IDR, P4, UPPER_P2]);
    keeps(rt, alloc, &bytes, 0, &[SPS, PPS, IDR, P4], 1);
    keeps(rt, alloc, &bytes, 1, &[SPS, PPS, IDR, P4, UPPER_P2], 0);
    keeps(rt, alloc, &bytes, 6, &[SPS, PPS, IDR, P4, UPPER_P2], 0);
    let bytes = stream(rt, alloc, &[UPPER_P2, UPPER_P2]);
    keeps(rt, alloc, &bytes, 0, &[], 2);
    keeps(rt, alloc, &[], 0, &[], 0);
    keeps(rt, alloc, &[0x00, 0x00, 0x02, 0x42], 0, &[], 0);
}

#[test]
fn what_stands_between_units_is_left_out(rt: HostRuntime) {
    let rt = &rt;
    let alloc = rt.alloc();
    let long = [0x00, 0x00, 0x00, 0x01];
    let mut bytes = joined(rt, alloc, &long, &[SPS, PPS, IDR, UPPER_P2, P4]);
    ok(rt, bytes.extend_from_slice(&[0x00, 0x00, 0x00]));
    keeps(rt, alloc, &bytes, 0, &[SPS, PPS, IDR, P4], 1);
    let mut bytes = ok(rt, Vec::from_slice(alloc, &[0x42, 0x01]));
    let unit = joined(rt, alloc, &long, &[IDR]);
    ok(rt, bytes.extend_from_slice(&unit));
    keeps(rt, alloc, &bytes, 0, &[IDR], 0);
}

#[test]
fn an_end_keeps_its_header_alone(rt: HostRuntime) {
    let alloc = rt.alloc();
    let bytes = stream(
        &rt,
        alloc,
        &[&[0x48, 0x01, 0x05], &[0x4a, 0x01, 0x00, 0x02], IDR],
    );
    keeps(
        &rt,
        alloc,
        &bytes,
        0,
        &[&[0x48, 0x01], &[0x4a, 0x01], IDR],
        0,
    );
}

#[test]
fn what_is_there_is_kept(rt: HostRuntime) {
    let rt = &rt;
    let alloc = rt.alloc();
    let bytes = stream(rt, alloc, &[IDR, UPPER_P2]);
    let mut out = ok(rt, Vec::from_slice(alloc, &[0x07]));
    let kept = extract(&bytes, 0, &mut out);
    let counts = Kept {
        units: 1,
        dropped: 1,
    };
    expect_eq(rt, kept, Ok(counts));
    let grown = [0x07, 0x00, 0x00, 0x01, 0x26, 0x01, 0xaf, 0x80];
    expect_eq(rt, out.as_slice(), grown.as_slice());
}

#[test]
fn the_first_faulty_header_is_refused(rt: HostRuntime) {
    let rt = &rt;
    let alloc = rt.alloc();
    let unspecified: &[u8] = &[0x60, 0x01, 0x80];
    let no_temporal_id: &[u8] = &[0x26, 0x00, 0x80];
    let cut_end: &[u8] = &[0x48, 0x00, 0x05];
    refuses(rt, alloc, &[TRUNCATED], 0, UnitError::TruncatedNalu);
    refuses(rt, alloc, &[&[]], 0, UnitError::TruncatedNalu);
    let units = [SPS, IDR, UPPER_P2, unspecified, TRUNCATED];
    refuses(rt, alloc, &units, 3, UnitError::InvalidNaluType(48));
    let units = [SPS, no_temporal_id, unspecified];
    refuses(rt, alloc, &units, 1, UnitError::TemporalIdZero);
    refuses(rt, alloc, &[cut_end], 0, UnitError::TemporalIdZero);
}

/// A unit of layer 1, and one of layer 33.
const LAYER_1: &[u8] = &[0x02, 0x09, 0xd2, 0x14, 0x97, 0x80];

const LAYER_33: &[u8] = &[0x03, 0x09, 0xd2, 0x14, 0x97, 0x80];

/// A sequence set of layer 1, and a unit of layer 1 in sub-layer 1.
const SPS_OF_LAYER_1: &[u8] = &[0x42, 0x09, 0x01, 0x80];

const UPPER_LAYER_1: &[u8] = &[0x04, 0x0a, 0xd1, 0x80];

#[test]
fn units_of_upper_layers_are_dropped(rt: HostRuntime) {
    let rt = &rt;
    let alloc = rt.alloc();
    let units = [
        SPS,
        SPS_OF_LAYER_1,
        PPS,
        IDR,
        LAYER_1,
        LAYER_33,
        UPPER_P2,
        UPPER_LAYER_1,
    ];
    let bytes = stream(rt, alloc, &units);
    let up_to_0: &[&[u8]] = &[SPS, PPS, IDR];
    let up_to_1: &[&[u8]] = &[SPS, SPS_OF_LAYER_1, PPS, IDR, LAYER_1];
    let all: &[&[u8]] = &[SPS, SPS_OF_LAYER_1, PPS, IDR, LAYER_1, LAYER_33];
    for (highest_layer, expected) in [
        (0, up_to_0),
        (1, up_to_1),
        (32, up_to_1),
        (33, all),
        (63, all),
    ] {
        let mut out = Vec::new(alloc);
        let kept = extract_layer(&bytes, 0, highest_layer, &mut out);
        let counts = Kept {
            units: expected.len() as u64,
            dropped: 8 - expected.len() as u64,
        };
        expect_eq(rt, kept, Ok(counts));
        let expected = stream(rt, alloc, expected);
        expect_eq(rt, out.as_slice(), expected.as_slice());
    }
    keeps(rt, alloc, &bytes, 0, all, 2);
}
