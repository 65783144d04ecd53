//! Worked sets, each in a stream of its own.
ghost use Rattle.std.specs.Prelude.{◌<◌, length};

use crate::tests::expect::{expect, expect_eq, ok};
use crate::tests::streams::{PICTURE_SET, VIDEO_SET};
use hevc_bits::{Nalu, NaluHeader};
use hevc_readers::{ParseError, read_vps};
use hevc_set_parts::Level;
use hevc_video_set::{HrdParams, Vps};
use hevc_worked_units::streams::{COMMON_VIDEO_SET, TIMED_VIDEO_SET};
use std::alloc::Global;
use std::process::Abort;

/// Row 12: the second sub-layer buffers fewer pictures than the first.
const FALLING: &[u8] = &[
    0x00, 0x00, 0x01, 0x40, 0x01, 0x0c, 0x03, 0xff, 0xff, 0x01, 0x60, 0x00, 0x00, 0x03, 0x00, 0x90,
    0x00, 0x00, 0x03, 0x00, 0x00, 0x03, 0x00, 0x3c, 0x00, 0x00, 0x91, 0x5a, 0xa0,
];

/// Row 13: the second sub-layer reorders fewer pictures than the first.
const FALLING_REORDERING: &[u8] = &[
    0x00, 0x00, 0x01, 0x40, 0x01, 0x0c, 0x03, 0xff, 0xff, 0x01, 0x60, 0x00, 0x00, 0x03, 0x00, 0x90,
    0x00, 0x00, 0x03, 0x00, 0x00, 0x03, 0x00, 0x3c, 0x00, 0x00, 0x91, 0x49, 0xa0,
];

/// Row 21: 1025 structures.
const TOO_MANY: &[u8] = &[
    0x00, 0x00, 0x01, 0x40, 0x01, 0x0c, 0x01, 0xff, 0xff, 0x01, 0x60, 0x00, 0x00, 0x03, 0x00, 0x90,
    0x00, 0x00, 0x03, 0x00, 0x00, 0x03, 0x00, 0x3c, 0x91, 0x40, 0xc0, 0x00, 0x00, 0x03, 0x00, 0x40,
    0x00, 0x00, 0x03, 0x00, 0x40, 0x04, 0x02, 0x80,
];

/// The first unit of a stream as a set.
fn read(alloc: Global, stream: &[u8]) -> Result<Vps, ParseError>
    requires { length stream.now < 1000 }
{
    let mut position = 0;
    match Nalu::<NaluHeader>::next(stream, &mut position) {
        Ok(unit) => read_vps(alloc, &unit),
        Err(_) => Err(ParseError::WrongNaluType),
    }
}

/// The error of a set that isn't read.
fn refusal(rt: &impl Abort, alloc: Global, stream: &[u8]) -> Option<ParseError> {
    assert!(rt; stream.len() < 1000);
    read(alloc, stream).err()
}

#[test]
fn a_usual_set(rt: HostRuntime) {
    let rt = &rt;
    let vps = ok(rt, read(rt.alloc(), VIDEO_SET));
    expect_eq(rt, vps.video_parameter_set_id, 0);
    expect_eq(rt, vps.max_sub_layers_minus1, 0);
    expect_eq(rt, vps.max_dec_pic_buffering_minus1, [4, 0, 0, 0, 0, 0, 0]);
    expect_eq(rt, vps.max_num_reorder_pics, [1, 0, 0, 0, 0, 0, 0]);
    expect_eq(rt, vps.max_latency_increase_plus1, [0; 7]);
    expect(rt, vps.profile_tier_level.general_level_idc == Level::L2);
    expect(rt, !vps.timing_info_present_flag);
    expect_eq(rt, vps.cprms_present_flag.as_slice(), [true].as_slice());
}

#[test]
fn three_structures_of_timing(rt: HostRuntime) {
    let rt = &rt;
    let vps = ok(rt, read(rt.alloc(), TIMED_VIDEO_SET));
    expect_eq(rt, vps.video_parameter_set_id, 3);
    expect_eq(rt, vps.max_dec_pic_buffering_minus1, [2, 4, 0, 0, 0, 0, 0]);
    expect_eq(rt, vps.max_num_reorder_pics, [0, 2, 0, 0, 0, 0, 0]);
    expect_eq(rt, vps.max_latency_increase_plus1, [0, 5, 0, 0, 0, 0, 0]);
    expect_eq(rt, vps.max_layer_id, 1);
    expect_eq(rt, vps.num_layer_sets_minus1, 2);
    expect_eq(rt, vps.num_units_in_tick, 1001);
    expect_eq(rt, vps.time_scale, 60_000);
    expect_eq(rt, vps.num_ticks_poc_diff_one_minus1, 7);
    expect_eq(rt, vps.hrd_layer_set_idx.as_slice(), [0, 1, 2].as_slice());
    expect_eq(
        rt,
        vps.cprms_present_flag.as_slice(),
        [true, false, true].as_slice(),
    );
    has_structures(rt, vps.hrd_parameters.as_slice());
}

/// The structures of timing of `TIMED_VIDEO_SET`.
fn has_structures(rt: &impl Abort, structures: &[HrdParams]) {
    let [first, second, third] = structures else {
        return expect(rt, false);
    };
    expect(
        rt,
        first.nal_hrd_parameters_present_flag && second.nal_hrd_parameters_present_flag,
    );
    expect_eq(rt, second.cpb_size_scale, 2);
    let rates = second.nal_hrd[1].bit_rate_value_minus1;
    expect_eq(rt, rates[1], 11);
    expect(
        rt,
        !third.nal_hrd_parameters_present_flag && third.sub_pic_hrd_params_present_flag,
    );
    let sizes = third.vcl_hrd[0].cpb_size_du_value_minus1;
    expect_eq(rt, sizes[1], 61);
}

#[test]
fn numbers_of_the_highest_sub_layer_hold_for_all(rt: HostRuntime) {
    let rt = &rt;
    let vps = ok(rt, read(rt.alloc(), COMMON_VIDEO_SET));
    expect_eq(rt, vps.max_dec_pic_buffering_minus1, [3, 3, 3, 0, 0, 0, 0]);
    expect_eq(rt, vps.max_num_reorder_pics, [1, 1, 1, 0, 0, 0, 0]);
}

#[test]
fn refusals_name_their_rows(rt: HostRuntime) {
    let rt = &rt;
    let alloc = rt.alloc();
    for (stream, table, row) in [
        (FALLING, 1, 12),
        (FALLING_REORDERING, 1, 13),
        (TOO_MANY, 1, 21),
    ] {
        let refused = refusal(rt, alloc, stream);
        let at_row = Some(ParseError::OutOfRange { table, row });
        assert_eq!(rt; refused, at_row, "row {row} of table {table}");
    }
    expect_eq(
        rt,
        refusal(rt, alloc, &VIDEO_SET[..20]),
        Some(ParseError::OutOfBits),
    );
    expect_eq(
        rt,
        refusal(rt, alloc, PICTURE_SET),
        Some(ParseError::WrongNaluType),
    );
}
