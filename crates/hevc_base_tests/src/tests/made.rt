//! Small streams, byte by byte.
use crate::tests::expect::{expect, expect_eq, ok};
use hevc_stream_maker::make_stream;
use std::test::Fail;

#[test]
fn one_picture_is_an_idr_picture(rt: HostRuntime) {
    let stream = ok(&rt, make_stream(rt.alloc(), 1));
    expect_eq(&rt, stream.len(), 46);
}

#[test]
fn groups_are_coded_from_their_end(rt: HostRuntime) {
    let rt = &rt;
    let stream = ok(rt, make_stream(rt.alloc(), 4));
    // order counts 8, 4 and 2
    let pictures: &[u8] = &[
        0x00, 0x00, 0x01, 0x02, 0x01, 0xd0, 0x41, 0x44, 0x5c, 0x80, 0x00, 0x00, 0x01, 0x02, 0x01,
        0xd0, 0x21, 0x22, 0x49, 0x70, 0x80, 0x00, 0x00, 0x01, 0x02, 0x01, 0xd0, 0x11, 0x35, 0x52,
        0x1c, 0x80,
    ];
    expect_eq(rt, stream.len(), (46 + pictures.len()));
    expect(rt, stream.ends_with(pictures));
}
