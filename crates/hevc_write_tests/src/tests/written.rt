//! What a writer holds, compared.
use crate::tests::expect::{expect, ok};
use hevc_bit_writer::{BitWriter, append_unit};
use std::alloc::Global;
use std::process::Abort;

/// The bits that were written, a one and zeros up to a whole byte, and 03 bytes among them, are
/// these bytes.
pub fn assert_written(rt: &impl Abort, alloc: Global, w: &mut BitWriter, want: &[u8]) {
    ok(rt, w.write_trailing_bits());
    expect(rt, w.is_whole());
    let mut unit = Vec::new(alloc);
    ok(
        rt,
        append_unit(alloc, &mut unit, [0x42, 0x01], w.as_bytes()),
    );
    let mut expected = ok(rt, Vec::from_slice(alloc, &[0, 0, 1, 0x42, 0x01]));
    ok(rt, expected.extend_from_slice(want));
    expect(rt, unit == expected);
}

/// The bits that were written, with a one and zeros up to a whole byte, are the payload of this
/// unit.
pub fn assert_unit(rt: &impl Abort, alloc: Global, w: &mut BitWriter, stream: &[u8]) {
    assert!(rt; stream.len() > 4);
    ok(rt, w.write_trailing_bits());
    expect(rt, w.is_whole());
    let mut unit = Vec::new(alloc);
    ok(
        rt,
        append_unit(alloc, &mut unit, [stream[3], stream[4]], w.as_bytes()),
    );
    expect(rt, unit.as_slice() == stream);
}
