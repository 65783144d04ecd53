//! Worked sets, each in a stream of its own.
ghost use Rattle.std.specs.Prelude.{◌<◌, length};

use crate::tests::expect::{expect, expect_eq, ok};
use crate::tests::streams::{PICTURE_SET, SEQUENCE_SET};
use hevc_bits::{Nalu, NaluHeader};
use hevc_boxed::Boxed;
use hevc_picture_slice::Pps;
use hevc_readers::{ParseError, default_scaling_lists, read_pps};
use hevc_sequence_set::Sps;
use hevc_set_parts::{PpsRangeExtension, PpsSccExtension};
use hevc_worked_units::sets::ten_blocks;
use hevc_worked_units::streams::{
    EVEN_TILES, EXTENDED_PICTURE_SET, FILTERED_PICTURE_SET, TOLD_TILES,
};
use std::alloc::Global;
use std::collections::BTreeMap;
use std::process::Abort;

/// Twenty columns that are spread evenly.
const NARROW: &[u8] = &[
    0x00, 0x00, 0x01, 0x44, 0x01, 0xc0, 0x71, 0x84, 0x14, 0xc1, 0x20,
];

/// Row 8: a quantiser of -1, which 8 bits of luma don't have.
const LOW_QUANTISER: &[u8] = &[
    0x00, 0x00, 0x01, 0x44, 0x01, 0xc0, 0x60, 0xdc, 0x60, 0x04, 0x80,
];

/// Row 10: a split of coding tree blocks that have no splits.
const DEEP_QUANTISER: &[u8] = &[0x00, 0x00, 0x01, 0x44, 0x01, 0xc0, 0x72, 0xb0, 0x02, 0x40];

/// Row 14: eleven columns.
const MANY_COLUMNS: &[u8] = &[
    0x00, 0x00, 0x01, 0x44, 0x01, 0xc0, 0x71, 0x84, 0x2f, 0x84, 0x80,
];

/// Row 17: a column of ten blocks before another one.
const WIDE_COLUMN: &[u8] = &[
    0x00, 0x00, 0x01, 0x44, 0x01, 0xc0, 0x71, 0x84, 0xa1, 0x50, 0x90,
];

/// Row 17: a column where one block is left for two.
const NO_COLUMN_LEFT: &[u8] = &[
    0x00, 0x00, 0x01, 0x44, 0x01, 0xc0, 0x71, 0x84, 0xe1, 0x38, 0x48,
];

/// Row 27: regions of parallel merging of 16 luma samples.
const COARSE_MERGING: &[u8] = &[0x00, 0x00, 0x01, 0x44, 0x01, 0xc0, 0x71, 0x80, 0x0c, 0x80];

/// Row 30: the flag of the extension for several layers.
const SEVERAL_LAYERS: &[u8] = &[0x00, 0x00, 0x01, 0x44, 0x01, 0xc0, 0x71, 0x80, 0x15, 0x02];

/// Row 6 of table 12: offsets scaled by 8.
const SCALED_OFFSETS: &[u8] = &[
    0x00, 0x00, 0x01, 0x44, 0x01, 0xc0, 0x71, 0x80, 0x16, 0x00, 0x26,
];

/// Row 7 of table 13: seven palette predictors.
const MANY_PREDICTORS: &[u8] = &[
    0x00, 0x00, 0x01, 0x44, 0x01, 0xc0, 0x71, 0x80, 0x14, 0x40, 0x88, 0x80,
];

/// Row 9 of table 13: palettes of another depth.
const OTHER_DEPTH: &[u8] = &[
    0x00, 0x00, 0x01, 0x44, 0x01, 0xc0, 0x71, 0x80, 0x14, 0x40, 0xa1, 0x20, 0x02, 0x02, 0x03,
];

/// A sequence set of twenty blocks.
fn twenty_blocks(alloc: Global) -> Sps {
    let mut sps = Sps::new(alloc);
    sps.pic_width_in_luma_samples = 160;
    sps.pic_width_in_ctbs_y = 20;
    sps.pic_size_in_ctbs_y = 20;
    sps.pic_size_in_samples_y = 160;
    sps
}

/// The first unit of a stream as a set, where this sequence set is kept.
fn read(alloc: Global, sps: Sps, stream: &[u8]) -> Result<Pps, ParseError>
    requires { length stream.now < 1000 }
{
    let id = sps.seq_parameter_set_id;
    let mut spses = BTreeMap::new(alloc);
    let sps = Boxed::new(alloc, sps)?;
    spses.insert(id, sps).map_err(|_| ParseError::NoMemory)?;
    read_with(alloc, &spses, stream)
}

/// The first unit of a stream as a set.
fn read_with(
    alloc: Global,
    spses: &BTreeMap<u8, Boxed<Sps>>,
    stream: &[u8],
) -> Result<Pps, ParseError>
    requires { length stream.now < 1000 }
{
    let mut position = 0;
    match Nalu::<NaluHeader>::next(stream, &mut position) {
        Ok(unit) => read_pps(alloc, &unit, spses),
        Err(_) => Err(ParseError::WrongNaluType),
    }
}

/// The error of a set that isn't read.
fn refusal(rt: &impl Abort, alloc: Global, stream: &[u8]) -> Option<ParseError> {
    assert!(rt; stream.len() < 1000);
    read(alloc, ten_blocks(alloc), stream).err()
}

#[test]
fn a_usual_set(rt: HostRuntime) {
    let rt = &rt;
    let pps = ok(rt, read(rt.alloc(), Sps::new(rt.alloc()), PICTURE_SET));
    expect(rt, !pps.tiles_enabled_flag && pps.uniform_spacing_flag);
    expect_eq(rt, pps.column_width_minus1, [0; 20]);
    expect_eq(rt, pps.temporal_id, 0);
    expect(rt, pps.scaling_list == default_scaling_lists());
    let dc_coefs = pps.scaling_list.scaling_list_dc_coef_minus8_16x16;
    expect_eq(rt, dc_coefs[0], 8);
}

#[test]
fn columns_spread_evenly(rt: HostRuntime) {
    let rt = &rt;
    let pps = ok(rt, read(rt.alloc(), ten_blocks(rt.alloc()), EVEN_TILES));
    let widths = pps.column_width_minus1;
    expect_eq(rt, widths[0], 2);
    expect_eq(rt, widths[1], 2);
    expect_eq(rt, widths[2], 3);
    expect_eq(rt, widths[3], 0);
    expect(rt, pps.loop_filter_across_tiles_enabled_flag);
    let pps = ok(rt, read(rt.alloc(), twenty_blocks(rt.alloc()), NARROW));
    expect_eq(rt, pps.num_tile_columns_minus1, 19);
    expect_eq(rt, pps.column_width_minus1, [0; 20]);
    expect(rt, !pps.loop_filter_across_tiles_enabled_flag);
}

#[test]
fn columns_with_their_sizes(rt: HostRuntime) {
    let rt = &rt;
    let pps = ok(rt, read(rt.alloc(), ten_blocks(rt.alloc()), TOLD_TILES));
    let widths = pps.column_width_minus1;
    expect_eq(rt, widths[0], 0);
    expect_eq(rt, widths[1], 3);
    expect_eq(rt, widths[2], 4);
    expect_eq(rt, pps.row_height_minus1, [0; 22]);
}

#[test]
fn offsets_of_filters(rt: HostRuntime) {
    let rt = &rt;
    let pps = ok(
        rt,
        read(rt.alloc(), ten_blocks(rt.alloc()), FILTERED_PICTURE_SET),
    );
    expect_eq(rt, pps.beta_offset_div2, -6);
    expect_eq(rt, pps.tc_offset_div2, 6);
    expect(rt, pps.lists_modification_present_flag);
    expect_eq(rt, pps.log2_parallel_merge_level_minus2, 1);
    expect_eq(rt, pps.qp_bd_offset_y, 24);
}

#[test]
fn both_extensions(rt: HostRuntime) {
    let rt = &rt;
    let pps = ok(
        rt,
        read(rt.alloc(), ten_blocks(rt.alloc()), EXTENDED_PICTURE_SET),
    );
    has_chroma_offsets(rt, &pps.range_extension);
    has_palettes(rt, &pps.scc_extension);
}

/// The range extension of `EXTENDED_PICTURE_SET`.
fn has_chroma_offsets(rt: &impl Abort, x: &PpsRangeExtension) {
    expect(rt, x.cross_component_prediction_enabled_flag);
    expect_eq(rt, x.chroma_qp_offset_list_len_minus1, 1);
    expect_eq(rt, x.cb_qp_offset_list, [-3, 12, 0, 0, 0, 0]);
    expect_eq(rt, x.cr_qp_offset_list, [4, -12, 0, 0, 0, 0]);
    expect_eq(rt, x.log2_sao_offset_scale_luma, 2);
}

/// Its extension for screen content.
fn has_palettes(rt: &impl Abort, x: &PpsSccExtension) {
    expect_eq(rt, x.act_y_qp_offset_plus5, -7);
    expect_eq(rt, x.act_cr_qp_offset_plus3, 15);
    expect_eq(rt, x.num_palette_predictor_initializers, 2);
    let predictors = x.palette_predictor_initializer;
    expect_eq(rt, predictors[0][0], 4095);
    expect_eq(rt, predictors[1][0], 255);
    expect_eq(rt, predictors[2][1], 9);
}

#[test]
fn refusals_name_their_rows(rt: HostRuntime) {
    let rt = &rt;
    let alloc = rt.alloc();
    for (stream, table, row) in [
        (DEEP_QUANTISER, 11, 10),
        (MANY_COLUMNS, 11, 14),
        (WIDE_COLUMN, 11, 17),
        (NO_COLUMN_LEFT, 11, 17),
        (COARSE_MERGING, 11, 27),
        (SEVERAL_LAYERS, 11, 30),
        (SCALED_OFFSETS, 12, 6),
        (MANY_PREDICTORS, 13, 7),
        (OTHER_DEPTH, 13, 9),
    ] {
        let refused = refusal(rt, alloc, stream);
        let at_row = Some(ParseError::OutOfRange { table, row });
        assert_eq!(rt; refused, at_row, "row {row} of table {table}");
    }
    expect_eq(
        rt,
        refusal(rt, alloc, &PICTURE_SET[..6]),
        Some(ParseError::OutOfBits),
    );
    expect_eq(
        rt,
        refusal(rt, alloc, SEQUENCE_SET),
        Some(ParseError::WrongNaluType),
    );
}

#[test]
fn quantisers_by_the_depth_of_luma(rt: HostRuntime) {
    let rt = &rt;
    let pps = ok(rt, read(rt.alloc(), ten_blocks(rt.alloc()), LOW_QUANTISER));
    expect_eq(rt, pps.init_qp_minus26, -27);
    expect_eq(
        rt,
        read(rt.alloc(), twenty_blocks(rt.alloc()), LOW_QUANTISER).err(),
        Some(ParseError::OutOfRange { table: 11, row: 8 }),
    );
}

#[test]
fn a_sequence_set_that_is_not_kept(rt: HostRuntime) {
    let spses = BTreeMap::new(rt.alloc());
    expect_eq(
        &rt,
        read_with(rt.alloc(), &spses, PICTURE_SET).err(),
        Some(ParseError::MissingSps(0)),
    );
}
