//! Units, and streams that are put together of them.
use crate::tests::expect::ok;
pub(crate) use hevc_worked_units::units::{
    CRA, DISCARDING_IDR, END_OF_BITSTREAM, END_OF_SEQUENCE, IDR, LARGE_SPS, P2, P4, P8, PPS, SPS,
    T0, UPPER_P2, WIDE_SPS,
};
use std::alloc::Global;
use std::process::Abort;

/// A sequence set of 16 by 16 luma samples with the id 1.
pub(crate) const OTHER_SPS: &[u8] = &[
    0x42, 0x01, 0x01, 0x01, 0x60, 0x00, 0x00, 0x03, 0x00, 0x90, 0x00, 0x00, 0x03, 0x00, 0x00, 0x03,
    0x00, 0x3c, 0x48, 0x22, 0x11, 0x79, 0x56, 0xaf, 0x08, 0x20,
];

/// The sequence set of 16 by 16 luma samples with `sps_max_latency_increase_plus1` 1.
pub(crate) const LATENCY_SPS: &[u8] = &[
    0x42, 0x01, 0x01, 0x01, 0x60, 0x00, 0x00, 0x03, 0x00, 0x90, 0x00, 0x00, 0x03, 0x00, 0x00, 0x03,
    0x00, 0x3c, 0xa0, 0x88, 0x45, 0xe5, 0x4a, 0xaf, 0x08, 0x20,
];

/// The same with a buffer of three pictures, two of which may be reordered, and no latency.
pub(crate) const SMALL_BUFFER_SPS: &[u8] = &[
    0x42, 0x01, 0x01, 0x01, 0x60, 0x00, 0x00, 0x03, 0x00, 0x90, 0x00, 0x00, 0x03, 0x00, 0x00, 0x03,
    0x00, 0x3c, 0xa0, 0x88, 0x45, 0xed, 0xea, 0xf0, 0x82,
];

pub(crate) const OTHER_PPS: &[u8] = &[0x44, 0x01, 0xa0, 0x1c, 0x60, 0x04, 0x80];

/// An IDR picture of temporal id 1.
pub(crate) const UPPER_IDR: &[u8] = &[0x26, 0x02, 0xaf, 0x80];

/// An IDR picture that names a picture set which isn't kept.
pub(crate) const UNKNOWN_PPS_IDR: &[u8] = &[0x26, 0x01, 0x8d, 0x80];

/// A P picture of order count 12, which refers to 8.
pub(crate) const P12: &[u8] = &[0x02, 0x01, 0xd6, 0x14, 0x97, 0x80];

pub(crate) const T1: &[u8] = &[0x02, 0x01, 0xd8, 0xbc, 0x80];

pub(crate) const T3: &[u8] = &[0x02, 0x01, 0xd9, 0xbc, 0x80];

pub(crate) const BLA: &[u8] = &[0x20, 0x01, 0xae, 0x1e, 0x80];

/// RASL pictures of order counts 6 and 4, and one more slice of the first.
pub(crate) const RASL6: &[u8] = &[0x12, 0x01, 0xdb, 0x3c, 0x80];

pub(crate) const RASL4: &[u8] = &[0x12, 0x01, 0xda, 0x3c, 0x80];

pub(crate) const LATER_RASL6: &[u8] = &[0x12, 0x01, 0x5b, 0x3c, 0x80];

/// A unit of fewer bytes than a header has.
pub(crate) const TRUNCATED: &[u8] = &[0x42];

/// The units, each after this start code.
pub(crate) fn joined(rt: &impl Abort, alloc: Global, start: &[u8], units: &[&[u8]]) -> Vec<u8> {
    let mut bytes = Vec::new(alloc);
    for unit in units {
        ok(rt, bytes.extend_from_slice(start));
        ok(rt, bytes.extend_from_slice(unit));
    }
    bytes
}

/// The units, each after 00 00 01.
pub(crate) fn stream(rt: &impl Abort, alloc: Global, units: &[&[u8]]) -> Vec<u8> {
    joined(rt, alloc, &[0x00, 0x00, 0x01], units)
}
