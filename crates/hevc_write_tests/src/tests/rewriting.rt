//! Streams whose parameter sets are written anew.
use crate::tests::expect::{expect, expect_eq, expect_fewer, ok};
use crate::tests::sets::{COMMON_VIDEO_SET, PICTURE_SET, SEQUENCE_SET, TIMED_VIDEO_SET, VIDEO_SET};
use hevc_bits::{Nalu, NaluHeader, UnitError};
use hevc_write::rewrite;
use std::alloc::Global;
use std::process::Abort;

/// A stream is rewritten as this one, which is rewritten as it is.
fn assert_rewritten(rt: &impl Abort, alloc: Global, stream: &[u8], want: &[u8]) {
    expect_fewer(rt, stream, 1000);
    let mut out = Vec::new(alloc);
    ok(rt, rewrite(alloc, stream, &mut out));
    expect(rt, out.as_slice() == want);
    expect_fewer(rt, &out, 1000);
    let mut again = Vec::new(alloc);
    ok(rt, rewrite(alloc, out.as_slice(), &mut again));
    expect(rt, again.as_slice() == want);
}

#[test]
fn each_unit_comes_after_00_00_01(rt: HostRuntime) {
    let alloc = rt.alloc();
    let mut stream = ok(&rt, Vec::from_slice(alloc, &[0, 0]));
    let mut want = Vec::new(alloc);
    for unit in [VIDEO_SET, SEQUENCE_SET, PICTURE_SET] {
        ok(&rt, stream.extend_from_slice(unit));
        ok(&rt, stream.extend_from_slice(&[0, 0]));
        ok(&rt, want.extend_from_slice(unit));
    }
    assert_rewritten(&rt, alloc, stream.as_slice(), want.as_slice());
}

#[test]
fn a_set_that_waits_is_as_it_was(rt: HostRuntime) {
    let rt = &rt;
    assert_rewritten(rt, rt.alloc(), PICTURE_SET, PICTURE_SET);
    let cut = [0, 0, 1, 0x42, 0x01, 0x01];
    assert_rewritten(rt, rt.alloc(), &cut, &cut);
    assert_rewritten(rt, rt.alloc(), COMMON_VIDEO_SET, COMMON_VIDEO_SET);
}

#[test]
fn what_no_record_keeps_is_chosen_once(rt: HostRuntime) {
    let rt = &rt;
    let alloc = rt.alloc();
    expect_fewer(rt, TIMED_VIDEO_SET, 1000);
    let mut out = Vec::new(alloc);
    ok(rt, rewrite(alloc, TIMED_VIDEO_SET, &mut out));
    expect(rt, out.as_slice() != TIMED_VIDEO_SET);
    assert_rewritten(rt, alloc, TIMED_VIDEO_SET, out.as_slice());
}

#[test]
fn the_zero_of_an_end_unit_stays(rt: HostRuntime) {
    let rt = &rt;
    let stream = [0, 0, 1, 0x48, 0, 5];
    let want = [0, 0, 1, 0x48, 0, 0x80];
    assert_rewritten(rt, rt.alloc(), &stream, &want);
    let mut position = 0;
    let refused = Nalu::<NaluHeader>::next(&stream, &mut position).err();
    position = 0;
    expect_eq(
        rt,
        refused,
        Nalu::<NaluHeader>::next(&want, &mut position).err(),
    );
    expect_eq(rt, refused, Some(UnitError::TemporalIdZero));
}

#[test]
fn bytes_before_a_start_code_are_of_no_unit(rt: HostRuntime) {
    let rt = &rt;
    assert_rewritten(rt, rt.alloc(), &[], &[]);
    assert_rewritten(rt, rt.alloc(), &[1, 2, 0, 0], &[]);
    assert_rewritten(
        rt,
        rt.alloc(),
        &[9, 0, 0, 1, 0x46, 1, 0x50, 0],
        &[0, 0, 1, 0x46, 1, 0x50],
    );
}
