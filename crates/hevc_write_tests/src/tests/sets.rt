//! Worked parameter sets (7.3.2), read, and written again.
use crate::tests::expect::{expect, expect_eq, expect_fewer, ok};
use crate::tests::written::assert_unit;
use hevc_bit_writer::{BitWriter, append_unit};
use hevc_bits::{Nalu, NaluHeader};
use hevc_boxed::Boxed;
use hevc_readers::{read_pps, read_sps, read_vps};
use hevc_sequence_set::Sps;
use hevc_worked_units::sets::ten_blocks;
use hevc_worked_units::streams::{
    EVEN_TILES, EXTENDED_PICTURE_SET, EXTENDED_SEQUENCE_SET, FILTERED_PICTURE_SET, MANY_SETS,
    TIMED_SEQUENCE_SET, TOLD_TILES,
};
pub(crate) use hevc_worked_units::streams::{COMMON_VIDEO_SET, TIMED_VIDEO_SET};
use hevc_write_pps::write_pps;
use hevc_write_sps::write_sps;
use hevc_write_vps::write_vps;
use std::alloc::Global;
use std::collections::BTreeMap;
use std::process::Abort;

/// A video set of x265: two sub-layers.
pub(crate) const VIDEO_SET: &[u8] = &[
    0x00, 0x00, 0x01, 0x40, 0x01, 0x0c, 0x02, 0xff, 0xff, 0x01, 0x60, 0x00, 0x00, 0x03, 0x00, 0x90,
    0x00, 0x00, 0x03, 0x00, 0x00, 0x03, 0x00, 0x1e, 0x00, 0x00, 0x95, 0x94, 0xac, 0xa0, 0x48,
];

/// A sequence set of x265: usability with a clock and schedules, and scaling lists that are the
/// default ones.
const DISPLAYED_SEQUENCE_SET: &[u8] = &[
    0x00, 0x00, 0x01, 0x42, 0x01, 0x01, 0x01, 0x60, 0x00, 0x00, 0x03, 0x00, 0x90, 0x00, 0x00, 0x03,
    0x00, 0x00, 0x03, 0x00, 0x3c, 0xa0, 0x10, 0x20, 0x20, 0x59, 0x65, 0x64, 0xb9, 0x38, 0x5e, 0x09,
    0xce, 0x02, 0x02, 0x03, 0x48, 0x59, 0x59, 0x60, 0x00, 0x00, 0x03, 0x00, 0x20, 0x00, 0x00, 0x03,
    0x03, 0xcc, 0x02, 0x92, 0xcd, 0xc0, 0x01, 0xe8, 0x48, 0x00, 0x3d, 0x09, 0x10,
];

/// A sequence set of x265: two sub-layers.
pub(crate) const SEQUENCE_SET: &[u8] = &[
    0x00, 0x00, 0x01, 0x42, 0x01, 0x02, 0x01, 0x60, 0x00, 0x00, 0x03, 0x00, 0x90, 0x00, 0x00, 0x03,
    0x00, 0x00, 0x03, 0x00, 0x1e, 0x00, 0x00, 0xa0, 0x10, 0x20, 0x20, 0x59, 0x65, 0x65, 0x2b, 0x2d,
    0xc9, 0x85, 0xe0, 0x20, 0x20, 0x00, 0x00, 0x03, 0x00, 0x20, 0x00, 0x00, 0x03, 0x03, 0xc1,
];

/// A picture set of x265.
pub(crate) const PICTURE_SET: &[u8] = &[0x00, 0x00, 0x01, 0x44, 0x01, 0xc1, 0x73, 0xd9, 0x89];

/// A video set is written as it was.
fn assert_video_set(rt: &impl Abort, alloc: Global, stream: &[u8]) {
    expect_fewer(rt, stream, 1000);
    let mut position = 0;
    let nalu = ok(rt, Nalu::<NaluHeader>::next(stream, &mut position));
    let vps = ok(rt, read_vps(alloc, &nalu));
    let mut w = BitWriter::new(alloc);
    ok(rt, write_vps(&mut w, &vps));
    assert_unit(rt, alloc, &mut w, stream);
}

/// A sequence set is written as it was.
fn assert_sequence_set(rt: &impl Abort, alloc: Global, stream: &[u8]) {
    expect_fewer(rt, stream, 1000);
    let mut position = 0;
    let nalu = ok(rt, Nalu::<NaluHeader>::next(stream, &mut position));
    let sps = ok(rt, read_sps(alloc, &nalu));
    let mut w = BitWriter::new(alloc);
    ok(rt, write_sps(&mut w, &sps));
    assert_unit(rt, alloc, &mut w, stream);
}

/// A picture set that names this sequence set is written as it was.
fn assert_picture_set(rt: &impl Abort, alloc: Global, sps: &Sps, stream: &[u8]) {
    expect_fewer(rt, stream, 1000);
    let mut spses = BTreeMap::new(alloc);
    let kept = ok(rt, Boxed::new(alloc, ok(rt, sps.try_clone())));
    ok(rt, spses.insert(sps.seq_parameter_set_id, kept));
    let mut position = 0;
    let nalu = ok(rt, Nalu::<NaluHeader>::next(stream, &mut position));
    let pps = ok(rt, read_pps(alloc, &nalu, &spses));
    let mut w = BitWriter::new(alloc);
    ok(rt, write_pps(&mut w, sps, &pps));
    assert_unit(rt, alloc, &mut w, stream);
}

#[test]
fn video_sets_are_written_as_they_were(rt: HostRuntime) {
    let rt = &rt;
    assert_video_set(rt, rt.alloc(), COMMON_VIDEO_SET);
    assert_video_set(rt, rt.alloc(), VIDEO_SET);
}

#[test]
fn layers_that_no_record_keeps_are_zeros(rt: HostRuntime) {
    let rt = &rt;
    expect_fewer(rt, TIMED_VIDEO_SET, 1000);
    let mut position = 0;
    let nalu = ok(rt, Nalu::<NaluHeader>::next(TIMED_VIDEO_SET, &mut position));
    let vps = ok(rt, read_vps(rt.alloc(), &nalu));
    let mut w = BitWriter::new(rt.alloc());
    ok(rt, write_vps(&mut w, &vps));
    ok(rt, w.write_trailing_bits());
    let mut unit = Vec::new(rt.alloc());
    ok(
        rt,
        append_unit(rt.alloc(), &mut unit, [0x40, 0x01], w.as_bytes()),
    );
    expect_eq(rt, unit.len(), TIMED_VIDEO_SET.len());
    expect_fewer(rt, &unit, 1000);
    position = 0;
    let nalu = ok(rt, Nalu::<NaluHeader>::next(unit.as_slice(), &mut position));
    expect(rt, ok(rt, read_vps(rt.alloc(), &nalu)) == vps);
}

#[test]
fn sequence_sets_are_written_as_they_were(rt: HostRuntime) {
    let rt = &rt;
    assert_sequence_set(rt, rt.alloc(), EXTENDED_SEQUENCE_SET);
    assert_sequence_set(rt, rt.alloc(), MANY_SETS);
    assert_sequence_set(rt, rt.alloc(), TIMED_SEQUENCE_SET);
    assert_sequence_set(rt, rt.alloc(), DISPLAYED_SEQUENCE_SET);
    assert_sequence_set(rt, rt.alloc(), SEQUENCE_SET);
}

#[test]
fn picture_sets_are_written_as_they_were(rt: HostRuntime) {
    let rt = &rt;
    let sps = ten_blocks(rt.alloc());
    assert_picture_set(rt, rt.alloc(), &sps, EVEN_TILES);
    assert_picture_set(rt, rt.alloc(), &sps, TOLD_TILES);
    assert_picture_set(rt, rt.alloc(), &sps, EXTENDED_PICTURE_SET);
    assert_picture_set(rt, rt.alloc(), &sps, FILTERED_PICTURE_SET);
    assert_picture_set(rt, rt.alloc(), &sps, PICTURE_SET);
}
