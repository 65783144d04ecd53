//! Worked sets, each in a stream of its own.
ghost use Rattle.std.specs.Prelude.{◌<◌, length};

use crate::tests::expect::{expect, expect_eq, ok};
use crate::tests::streams::{PICTURE_SET, SEQUENCE_SET};
use hevc_bits::{Nalu, NaluHeader};
use hevc_boxed::Boxed;
use hevc_readers::{ParseError, read_sps};
use hevc_sequence_set::{Sps, SpsSccExtension};
use hevc_worked_units::streams::{EXTENDED_SEQUENCE_SET, MANY_SETS, TIMED_SEQUENCE_SET};
use std::alloc::Global;
use std::process::Abort;

/// Row 2: eight sub-layers.
const MANY_SUB_LAYERS: &[u8] = &[0x00, 0x00, 0x01, 0x42, 0x01, 0x0f, 0x80];

/// Row 27 of table 2: 61 is the number of no level.
const NO_LEVEL: &[u8] = &[
    0x00, 0x00, 0x01, 0x42, 0x01, 0x01, 0x01, 0x60, 0x00, 0x00, 0x03, 0x00, 0x90, 0x00, 0x00, 0x03,
    0x00, 0x00, 0x03, 0x00, 0x3d,
];

/// Row 19: a latency above 255.
const LATE: &[u8] = &[
    0x00, 0x00, 0x01, 0x42, 0x01, 0x01, 0x01, 0x60, 0x00, 0x00, 0x03, 0x00, 0x90, 0x00, 0x00, 0x03,
    0x00, 0x00, 0x03, 0x00, 0x3c, 0xa0, 0x88, 0x45, 0xe5, 0x40, 0x10, 0x18,
];

/// Row 46: the flag of the extension for three dimensions.
const THREE_DIMENSIONS: &[u8] = &[
    0x00, 0x00, 0x01, 0x42, 0x01, 0x01, 0x01, 0x60, 0x00, 0x00, 0x03, 0x00, 0x90, 0x00, 0x00, 0x03,
    0x00, 0x00, 0x03, 0x00, 0x3c, 0xa0, 0x88, 0x45, 0x96, 0x55, 0xab, 0xc2, 0x12, 0x80,
];

/// Row 5 of table 10: first predictors where there is room for none.
const NO_PREDICTOR: &[u8] = &[
    0x00, 0x00, 0x01, 0x42, 0x01, 0x01, 0x01, 0x60, 0x00, 0x00, 0x03, 0x00, 0x90, 0x00, 0x00, 0x03,
    0x00, 0x00, 0x03, 0x00, 0x3c, 0xa0, 0x88, 0x45, 0x96, 0x55, 0xab, 0xc2, 0x11, 0x07, 0xe0,
];

/// Row 12: a window that leaves nothing.
const CROPPED_AWAY: &[u8] = &[
    0x00, 0x00, 0x01, 0x42, 0x01, 0x01, 0x01, 0x60, 0x00, 0x00, 0x03, 0x00, 0x90, 0x00, 0x00, 0x03,
    0x00, 0x00, 0x03, 0x00, 0x3c, 0xa0, 0x88, 0x46, 0x52, 0xf9, 0x65, 0x5a, 0xbe,
];

/// Row 18: more reordering than buffering.
const REORDERED: &[u8] = &[
    0x00, 0x00, 0x01, 0x42, 0x01, 0x01, 0x01, 0x60, 0x00, 0x00, 0x03, 0x00, 0x90, 0x00, 0x00, 0x03,
    0x00, 0x00, 0x03, 0x00, 0x3c, 0xa0, 0x88, 0x45, 0x96, 0x9e,
];

/// Row 24: transform blocks of 32 in coding tree blocks of 16.
const LARGE_TRANSFORMS: &[u8] = &[
    0x00, 0x00, 0x01, 0x42, 0x01, 0x01, 0x01, 0x60, 0x00, 0x00, 0x03, 0x00, 0x90, 0x00, 0x00, 0x03,
    0x00, 0x00, 0x03, 0x00, 0x3c, 0xa0, 0x88, 0x45, 0x96, 0x55, 0xa9, 0x38,
];

/// The first unit of a stream as a set.
fn read(alloc: Global, stream: &[u8]) -> Result<Boxed<Sps>, ParseError>
    requires { length stream.now < 1000 }
{
    let mut position = 0;
    match Nalu::<NaluHeader>::next(stream, &mut position) {
        Ok(unit) => read_sps(alloc, &unit),
        Err(_) => Err(ParseError::WrongNaluType),
    }
}

/// The error of a set that isn't read.
fn refusal(rt: &impl Abort, alloc: Global, stream: &[u8]) -> Option<ParseError> {
    assert!(rt; stream.len() < 1000);
    read(alloc, stream).err()
}

#[test]
fn a_usual_set(rt: HostRuntime) {
    let rt = &rt;
    let sps = ok(rt, read(rt.alloc(), SEQUENCE_SET));
    expect_eq(rt, sps.ctb_size_y, 16);
    expect_eq(rt, sps.pic_size_in_ctbs_y, 1);
    expect_eq(rt, sps.max_tb_log2_size_y, 4);
    expect_eq(rt, sps.wp_offset_half_range_y, 128);
    expect_eq(rt, sps.max_dec_pic_buffering_minus1, [4, 0, 0, 0, 0, 0, 0]);
    expect_eq(rt, sps.max_num_reorder_pics, [1, 0, 0, 0, 0, 0, 0]);
}

#[test]
fn both_extensions(rt: HostRuntime) {
    let rt = &rt;
    let sps = ok(rt, read(rt.alloc(), EXTENDED_SEQUENCE_SET));
    expect_eq(rt, sps.chroma_array_type, 3);
    expect_eq(rt, sps.pic_size_in_ctbs_y, 6);
    expect(rt, sps.range_extension.transform_skip_rotation_enabled_flag);
    expect(rt, sps.range_extension.cabac_bypass_alignment_enabled_flag);
    expect(rt, !sps.range_extension.explicit_rdpcm_enabled_flag);
    expect_eq(rt, sps.wp_offset_half_range_y, 512);
    expect_eq(rt, sps.wp_offset_half_range_c, 256);
    has_palettes(rt, &sps.scc_extension);
}

/// The extension for screen content of `EXTENDED_SEQUENCE_SET`.
fn has_palettes(rt: &impl Abort, x: &SpsSccExtension) {
    expect_eq(rt, x.palette_max_size, 2);
    expect_eq(rt, x.num_palette_predictor_initializer_minus1, 1);
    let predictors = x.palette_predictor_initializer;
    expect_eq(rt, predictors[0][0], 1023);
    expect_eq(rt, predictors[1][0], 511);
    expect_eq(rt, predictors[2][1], 8);
    expect_eq(rt, x.motion_vector_resolution_control_idc, 2);
    expect(rt, x.intra_boundary_filtering_disabled_flag);
}

#[test]
fn many_sets_of_references(rt: HostRuntime) {
    let rt = &rt;
    let sps = ok(rt, read(rt.alloc(), MANY_SETS));
    let sets = sps.short_term_ref_pic_set.as_slice();
    expect_eq(rt, sets.len(), 64);
    let last = ok(rt, sets.get(63).ok_or("no set"));
    expect(rt, last.inter_ref_pic_set_prediction_flag);
    expect_eq(rt, last.num_negative_pics, 1);
    let deltas = last.delta_poc_s0;
    expect_eq(rt, deltas[0], -1);
    expect_eq(rt, sps.num_long_term_ref_pics_sps, 2);
    let lsbs = sps.lt_ref_pic_poc_lsb_sps;
    expect_eq(rt, lsbs[1], 200);
    expect(
        rt,
        sps.used_by_curr_pic_lt_sps_flag[0] && !sps.used_by_curr_pic_lt_sps_flag[1],
    );
}

#[test]
fn usability_with_both_kinds_of_schedules(rt: HostRuntime) {
    let rt = &rt;
    let sps = ok(rt, read(rt.alloc(), TIMED_SEQUENCE_SET));
    expect_eq(rt, sps.max_dec_pic_buffering_minus1, [2, 2, 0, 0, 0, 0, 0]);
    expect_eq(rt, sps.max_latency_increase_plus1, [3, 3, 0, 0, 0, 0, 0]);
    expect_eq(rt, sps.conf_win_top_offset, 2);
    expect_eq(rt, sps.pcm_sample_bit_depth_chroma_minus1, 6);
    expect_eq(rt, sps.log2_diff_max_min_pcm_luma_coding_block_size, 1);
    expect(
        rt,
        sps.scaling_list_enabled_flag && !sps.scaling_list_data_present_flag,
    );
    let vui = &sps.vui_parameters;
    expect_eq(rt, vui.time_scale, 30_000);
    let sizes = vui.hrd.nal_hrd[1].cpb_size_du_value_minus1;
    expect_eq(rt, sizes[1], 31);
    let rates = vui.hrd.vcl_hrd[0].bit_rate_value_minus1;
    expect_eq(rt, rates[1], 21);
}

#[test]
fn refusals_name_their_rows(rt: HostRuntime) {
    let rt = &rt;
    let alloc = rt.alloc();
    for (stream, table, row) in [
        (MANY_SUB_LAYERS, 5, 2),
        (NO_LEVEL, 2, 27),
        (CROPPED_AWAY, 5, 12),
        (REORDERED, 5, 18),
        (LATE, 5, 19),
        (LARGE_TRANSFORMS, 5, 24),
        (THREE_DIMENSIONS, 5, 46),
        (NO_PREDICTOR, 10, 5),
    ] {
        let refused = refusal(rt, alloc, stream);
        let at_row = Some(ParseError::OutOfRange { table, row });
        assert_eq!(rt; refused, at_row, "row {row} of table {table}");
    }
    expect_eq(
        rt,
        refusal(rt, alloc, &SEQUENCE_SET[..25]),
        Some(ParseError::OutOfBits),
    );
    expect_eq(
        rt,
        refusal(rt, alloc, PICTURE_SET),
        Some(ParseError::WrongNaluType),
    );
}
