//! A stream of three pictures over backends of which one call fails, each in turn.
use crate::expect::{expect, expect_eq, ok};
use hevc_backend::Backend;
use hevc_decoder::{DecodeError, Refused, Shown, decode_stream};
use std::alloc::Global;
use std::process::Abort;

/// A sequence set of 16 by 16 luma samples of which one picture may be needed for output, a picture set, an IDR
/// picture, and P pictures of order counts 4 and 2, every unit after a start code.
const THREE_PICTURES: &[u8] = &[
    0x00, 0x00, 0x01, 0x42, 0x01, 0x01, 0x01, 0x60, 0x00, 0x00, 0x03, 0x00, 0x90, 0x00, 0x00, 0x03,
    0x00, 0x00, 0x03, 0x00, 0x3c, 0xa0, 0x88, 0x45, 0xe5, 0x5a, 0xbc, 0x20, 0x80, 0x00, 0x00, 0x01,
    0x44, 0x01, 0xc0, 0x71, 0x80, 0x12, 0x00, 0x00, 0x01, 0x26, 0x01, 0xaf, 0x80, 0x00, 0x00, 0x01,
    0x02, 0x01, 0xd2, 0x14, 0x97, 0x80, 0x00, 0x00, 0x01, 0x02, 0x01, 0xd1, 0x12, 0x55, 0x70, 0x80,
];

/// The outputs of that stream.
const OUTPUTS: &[Shown<u64>] = &[
    Shown {
        number: 0,
        handle: 0,
        order_count: 0,
        unit: 4,
    },
    Shown {
        number: 2,
        handle: 2,
        order_count: 2,
        unit: 5,
    },
    Shown {
        number: 1,
        handle: 1,
        order_count: 4,
        unit: 5,
    },
];

/// Where one of these calls fails, the first being 1, the stream has this answer, and these pictures
/// were output.
fn ends(
    rt: &impl Abort,
    alloc: Global,
    first: u64,
    last: u64,
    answer: Result<u64, Refused>,
    outputs: &[Shown<u64>],
) {
    for call in first..=last {
        let backend = Backend::with_plan(alloc, ok(rt, vec![in alloc; call]), Vec::new(alloc));
        let mut shown = Vec::new(alloc);
        let decoded = decode_stream(alloc, backend, THREE_PICTURES, &mut shown);
        expect(rt, decoded.result == answer);
        expect(rt, shown.as_slice() == outputs);
    }
}

/// The backend is blamed at this unit.
fn blamed(unit: u64) -> Result<u64, Refused> {
    let error = DecodeError::Backend;
    Err(Refused { unit, error })
}

#[test]
fn each_call_in_turn_fails(rt: HostRuntime) {
    let rt = &rt;
    let alloc = rt.alloc();
    ends(rt, alloc, 1, 1, blamed(0), &[]);
    ends(rt, alloc, 2, 4, blamed(2), &[]);
    ends(rt, alloc, 5, 8, blamed(3), &[]);
    ends(rt, alloc, 9, 9, blamed(4), &[]);
    ends(rt, alloc, 10, 12, blamed(4), &OUTPUTS[..1]);
    ends(rt, alloc, 13, 13, blamed(5), &OUTPUTS[..1]);
    ends(rt, alloc, 14, 14, Ok(3), OUTPUTS);
}

/// An IDR picture, a P picture of order count 4, and I pictures of 2 and 1, where one picture may be needed for output.
const REORDERED_TOO_FAR: &[u8] = &[
    0x00, 0x00, 0x01, 0x42, 0x01, 0x01, 0x01, 0x60, 0x00, 0x00, 0x03, 0x00, 0x90, 0x00, 0x00, 0x03,
    0x00, 0x00, 0x03, 0x00, 0x3c, 0xa0, 0x88, 0x45, 0xe5, 0x5a, 0xbc, 0x20, 0x80, 0x00, 0x00, 0x01,
    0x44, 0x01, 0xc0, 0x71, 0x80, 0x12, 0x00, 0x00, 0x01, 0x26, 0x01, 0xaf, 0x80, 0x00, 0x00, 0x01,
    0x02, 0x01, 0xd2, 0x14, 0x97, 0x80, 0x00, 0x00, 0x01, 0x02, 0x01, 0xd9, 0x3c, 0x80, 0x00, 0x00,
    0x01, 0x02, 0x01, 0xd8, 0xbc, 0x80,
];

#[test]
fn a_broken_order_is_not_mended(rt: HostRuntime) {
    let rt = &rt;
    let alloc = rt.alloc();
    let mut shown = Vec::new(alloc);
    let decoded = decode_stream(alloc, Backend::new(alloc), REORDERED_TOO_FAR, &mut shown);
    expect(rt, decoded.result == Ok(4));
    let mut counts = Vec::new(alloc);
    for output in &shown {
        ok(rt, counts.push(output.order_count));
    }
    expect_eq(rt, counts.as_slice(), [0i32, 2, 1, 4].as_slice());
}
