//! Each form of element, and a unit, once.
use crate::tests::expect::{expect_eq, ok};
use hevc_bit_writer::{BitWriter, append_unit};
use std::process::Abort;

/// A slice segment header, whose bits end where its byte does.
#[test]
fn elements_fill_bytes(rt: HostRuntime) {
    let rt = &rt;
    let alloc = rt.alloc();
    let mut writer = BitWriter::new(alloc);
    ok(rt, writer.write_flag(true));
    ok(rt, writer.write_ue(0));
    ok(rt, writer.write_ue(1));
    ok(rt, writer.write_bits(4, 4));
    ok(rt, writer.write_flag(false));
    ok(rt, writer.write_ue(1));
    ok(rt, writer.write_ue(0));
    ok(rt, writer.write_ue(3));
    ok(rt, writer.write_flag(true));
    ok(rt, writer.write_flag(false));
    ok(rt, writer.write_ue(0));
    ok(rt, writer.write_se(0));
    ok(rt, writer.write_trailing_bits());
    assert_whole(rt, &writer, &[0xd2, 0x14, 0x97]);
}

#[test]
fn signed_numbers_alternate(rt: HostRuntime) {
    let rt = &rt;
    let mut writer = BitWriter::new(rt.alloc());
    for value in [1, -1, 2, -2] {
        ok(rt, writer.write_se(value));
    }
    ok(rt, writer.write_bits(32, 0x8000_0001));
    ok(rt, writer.write_trailing_bits());
    // 010 011 00100 00101, 32 bits, and 1 0 .. 0
    assert_whole(rt, &writer, &[0x4c, 0x85, 0x80, 0x00, 0x00, 0x01, 0x80]);
}

#[test]
fn the_longest_number_has_63_bits(rt: HostRuntime) {
    let rt = &rt;
    let mut writer = BitWriter::new(rt.alloc());
    ok(rt, writer.write_ue(u32::MAX - 1));
    ok(rt, writer.write_flag(false));
    let bytes = &[0x00, 0x00, 0x00, 0x01, 0xff, 0xff, 0xff, 0xfe];
    assert_whole(rt, &writer, bytes);
}

#[test]
fn no_start_code_is_written(rt: HostRuntime) {
    let rt = &rt;
    let alloc = rt.alloc();
    let mut stream = Vec::new(alloc);
    ok(
        rt,
        append_unit(
            alloc,
            &mut stream,
            [0x02, 0x01],
            &[0, 0, 1, 0, 0, 0, 0, 0, 3, 0, 0, 4],
        ),
    );
    let expected: &[u8] = &[
        0, 0, 1, 0x02, 0x01, 0, 0, 3, 1, 0, 0, 3, 0, 0, 3, 0, 3, 0, 0, 4,
    ];
    expect_eq(rt, stream.as_slice(), expected);
}

fn assert_whole(rt: &impl Abort, writer: &BitWriter, expected: &[u8]) {
    assert!(rt; writer.is_whole());
    expect_eq(rt, writer.as_bytes(), expected);
}
