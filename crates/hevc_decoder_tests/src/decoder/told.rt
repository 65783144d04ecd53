//! What a backend is handed with the calls of a stream.
use crate::expect::{expect, expect_eq};
use hevc_decoder::decode_stream;
use hevc_pictures::Reference;
use hevc_test_backend::{Came, KeptDpb, KeptSegment, TellingBackend};
use std::process::Abort;

/// A sequence set of 16 by 16 luma samples, a picture set with `dependent_slice_segments_enabled_flag`, an IDR picture whose
/// slice has `slice_qp_delta` 1, and a dependent slice segment of it, every unit after a start code.
const DEPENDENT_SEGMENT: &[u8] = &[
    0x00, 0x00, 0x01, 0x42, 0x01, 0x01, 0x01, 0x60, 0x00, 0x00, 0x03, 0x00, 0x90, 0x00, 0x00, 0x03,
    0x00, 0x00, 0x03, 0x00, 0x3c, 0xa0, 0x88, 0x45, 0xe5, 0x5a, 0xbc, 0x20, 0x80, 0x00, 0x00, 0x01,
    0x44, 0x01, 0xe0, 0x71, 0x80, 0x12, 0x00, 0x00, 0x01, 0x26, 0x01, 0xad, 0x60, 0x00, 0x00, 0x01,
    0x26, 0x01, 0x38, 0x80,
];

/// A sequence set of 16 by 16 luma samples, with MaxPicOrderCntLsb 16 and sps_max_num_reorder_pics 1; a picture set; an IDR picture; a
/// P picture with the low bits 8 that refers to it; one with the low bits 0, whose count is 16, that refers to both; an end of sequence;
/// a CRA picture with the low bits 8; and an I picture with the low bits 0, whose count is 16, that keeps no picture.
const TWO_SEQUENCES: &[u8] = &[
    0x00, 0x00, 0x01, 0x42, 0x01, 0x01, 0x01, 0x60, 0x00, 0x00, 0x03, 0x00, 0x90, 0x00, 0x00, 0x03,
    0x00, 0x00, 0x03, 0x00, 0x3c, 0xa0, 0x88, 0x45, 0xe5, 0x5a, 0xbc, 0x20, 0x80, 0x00, 0x00, 0x01,
    0x44, 0x01, 0xc0, 0x71, 0x80, 0x12, 0x00, 0x00, 0x01, 0x26, 0x01, 0xaf, 0x80, 0x00, 0x00, 0x01,
    0x02, 0x01, 0xd4, 0x14, 0x45, 0xc0, 0x80, 0x00, 0x00, 0x01, 0x02, 0x01, 0xd0, 0x1c, 0x44, 0x45,
    0xc0, 0x80, 0x00, 0x00, 0x01, 0x48, 0x01, 0x00, 0x00, 0x01, 0x2a, 0x01, 0xae, 0x1e, 0x80, 0x00,
    0x00, 0x01, 0x02, 0x01, 0xd8, 0x3c, 0x80,
];

/// A stored picture: its number and count, whether it waits for output, its mark, and its latency count.
type Stored = (u64, i32, bool, Reference, i32);

/// What comes with the slices of a picture.
#[derive(Drop)]
struct Handed<'a> {
    number: u64,
    count: i32,
    stored: &'a [Stored],
}

/// A buffer holds these pictures, in this order, and may hold 16.
fn expect_stored(rt: &impl Abort, dpb: &KeptDpb, stored: &[Stored]) {
    expect_eq(rt, dpb.max_num_pics, 16);
    expect_eq(rt, dpb.entries.as_slice().len(), stored.len());
    for (entry, stored) in dpb.entries.as_slice().iter().zip(stored.iter()) {
        let picture = &entry.picture;
        let (number, count, waits, mark, latency) = *stored;
        expect_eq(
            rt,
            (entry.number, picture.pic_order_cnt_val),
            (number, count),
        );
        expect_eq(rt, picture.needed_for_output, waits);
        expect(rt, *picture.reference() == mark);
        expect_eq(rt, picture.pic_latency_cnt, latency);
    }
}

/// A picture of one slice came as it is to come: announced, begun, and decoded.
fn expect_came(rt: &impl Abort, came: &[Came], expected: &Handed<'_>) {
    match came {
        [
            Came::Announced {
                number: announced,
                picture: first,
            },
            Came::Begun {
                number: begun,
                picture,
                dpb: before,
                segment: _,
            },
            Came::Decoded {
                number: decoded,
                dpb,
                segment: _,
            },
        ] => {
            expect_eq(
                rt,
                (*announced, *begun, *decoded),
                (expected.number, expected.number, expected.number),
            );
            expect(rt, *first == *picture);
            expect_eq(rt, picture.pic_order_cnt_val, expected.count);
            expect_stored(rt, before, expected.stored);
            expect_stored(rt, dpb, expected.stored);
        }
        _ => panic!(rt; "another call comes"),
    }
}

#[test]
fn the_whole_buffer_comes_with_each_slice(rt: HostRuntime) {
    let rt = &rt;
    let alloc = rt.alloc();
    let mut shown = Vec::new(alloc);
    let backend = TellingBackend::new(alloc);
    let decoded = decode_stream(alloc, backend, TWO_SEQUENCES, &mut shown);
    expect(rt, decoded.result == Ok(5));
    expect_eq(rt, decoded.backend.asked, 5);
    let idr = (0, 0, true, Reference::ShortTerm, 0);
    let expected = [
        Handed {
            number: 0,
            count: 0,
            stored: &[],
        },
        Handed {
            number: 1,
            count: 8,
            stored: &[idr],
        },
        Handed {
            number: 2,
            count: 16,
            stored: &[
                (0, 0, false, Reference::ShortTerm, 1),
                (1, 8, true, Reference::ShortTerm, 0),
            ],
        },
        Handed {
            number: 3,
            count: 8,
            stored: &[],
        },
        Handed {
            number: 4,
            count: 16,
            stored: &[(3, 8, true, Reference::None, 0)],
        },
    ];
    let came = decoded.backend.came.as_slice();
    match came.split_first() {
        Some((Came::Sequence(set), pictures)) => {
            expect_eq(rt, (set.width(), set.height()), (16, 16));
            expect_eq(rt, set.max_num_reorder_pics[0], 1);
            expect_eq(rt, pictures.len(), 15);
            for (came, expected) in pictures.chunks(3).zip(expected.iter()) {
                expect_came(rt, came, expected);
            }
        }
        _ => panic!(rt; "no sequence set"),
    }
}

/// The sets of this stream, and a header with this quantiser.
fn is_of_stream(segment: &KeptSegment, dependent: bool) -> bool {
    segment.sps.width() == 16
        && segment.pps.dependent_slice_segments_enabled_flag
        && segment.header.dependent_slice_segment_flag == dependent
        && segment.header.qp_delta == 1
}

#[test]
fn a_dependent_segment_comes_with_the_whole_header(rt: HostRuntime) {
    let rt = &rt;
    let alloc = rt.alloc();
    let mut shown = Vec::new(alloc);
    let decoded = decode_stream(
        alloc,
        TellingBackend::new(alloc),
        DEPENDENT_SEGMENT,
        &mut shown,
    );
    expect(rt, decoded.result == Ok(1));
    let came = decoded.backend.came.as_slice();
    expect_eq(rt, came.len(), 5);
    expect(rt, matches!(came.get(0), Some(Came::Sequence(_))));
    match (came.get(1), came.get(2)) {
        (
            Some(
                Came::Announced {
                    number: 0,
                    picture: announced,
                },
            ),
            Some(
                Came::Begun {
                    number: 0,
                    picture,
                    dpb: _,
                    segment,
                },
            ),
        ) => {
            expect(rt, *picture == *announced && picture.pic_order_cnt_val == 0);
            expect(rt, is_of_stream(segment, false));
        }
        _ => panic!(rt; "no picture begins"),
    }
    match (came.get(3), came.get(4)) {
        (
            Some(
                Came::Decoded {
                    number: 0,
                    dpb: _,
                    segment: first,
                },
            ),
            Some(
                Came::Decoded {
                    number: 0,
                    dpb: _,
                    segment: second,
                },
            ),
        ) => {
            expect(rt, is_of_stream(first, false) && is_of_stream(second, true));
        }
        _ => panic!(rt; "no two segments"),
    }
}
