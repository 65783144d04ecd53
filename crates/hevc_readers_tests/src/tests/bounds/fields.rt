//! Fields of whole sets and headers, and of some that lack what those have.
use super::Line::Bits;
use super::picture_set::PICTURE_SET;
use super::sequence_set::SEQUENCE_SET;
use super::slice::SLICE;
use super::{Kept, Line, Unit, both_sets, no_sets, whole};
use crate::tests::expect::{expect, expect_eq, ok};
use hevc_bits::{Nalu, NaluHeader};
use hevc_boxed::Boxed;
use hevc_picture_slice::{Pps, SliceHeader};
use hevc_readers::{read_pps, read_sps};
use hevc_sequence_set::Sps;
use hevc_slice_header::read_slice_header;
use std::alloc::Global;
use std::process::Abort;

/// A sequence set of 16 by 16 samples, 4:4:4 with planes coded apart, coding blocks of 16 and
/// transform blocks of 8, with adaptive offsets; of the extensions it has the range extension
/// alone, with offsets of high precision.
const APART: Unit = Unit {
    header: [0x42, 0x01],
    parts: &[
        // rows 1 to 4
        &[
            Bits(8, 1),
            Bits(8, 1),
            Bits(32, 0x6000_0000),
            Bits(4, 9),
            Bits(32, 0),
            Bits(12, 0),
            Bits(8, 60),
        ],
        // rows 5 to 10
        &[
            Bits(1, 1),
            Bits(5, 4),
            Bits(1, 1),
            Bits(9, 17),
            Bits(9, 17),
            Bits(1, 0),
        ],
        // rows 13 to 19
        &[Bits(4, 0b1111), Bits(5, 5), Bits(3, 2), Bits(1, 1)],
        // rows 20 to 26
        &[Bits(3, 2), Bits(1, 1), Bits(3, 2), Bits(3, 0b111)],
        // rows 27 to 41
        &[
            Bits(1, 0),
            Bits(3, 0b010),
            Bits(1, 1),
            Bits(1, 0),
            Bits(3, 0),
        ],
        // rows 43 to 48, and table 9
        &[Bits(9, 0b1_1000_0000), Bits(9, 4)],
    ],
};

/// Rows 1 to 13 of a picture set that has none of the tools.
const NO_TOOLS: &[Line] = &[
    Bits(9, 0b1_1000_0000),
    Bits(3, 0b111),
    Bits(3, 0),
    Bits(8, 0b1100_0000),
];

/// A picture set without deblocking; of the extensions it has the range extension alone.
const RANGED: Unit = Unit {
    header: [0x44, 0x01],
    parts: &[
        NO_TOOLS,
        // rows 20 to 24, 26 to 33
        &[Bits(5, 0b11010), Bits(4, 0b0101), Bits(8, 0b1000_0000)],
        // table 12
        &[Bits(2, 0b10), Bits(1, 1), Bits(1, 1)],
    ],
};

/// One with the extension for screen content alone.
const SCREENED: Unit = Unit {
    header: [0x44, 0x01],
    parts: &[
        NO_TOOLS,
        // rows 20 to 24, 26 to 33
        &[Bits(3, 0), Bits(4, 0b0101), Bits(8, 0b0001_0000)],
        // table 13
        &[Bits(3, 0b100)],
    ],
};

/// Rows 1 to 21 of an I slice.
const INTRA: &[Line] = &[
    Bits(2, 0b11),
    Bits(1, 0),
    Bits(3, 0b011),
    Bits(1, 1),
    Bits(4, 5),
    Bits(3, 0b110),
    Bits(2, 0b11),
    Bits(1, 0),
];

/// Rows 35 to 42: no offset of the quantiser.
const NO_OFFSETS: &[Line] = &[Bits(6, 0b11_1111), Bits(1, 0)];

/// Rows 48 to 51: an entry point.
const ENTRY: &[Line] = &[Bits(3, 2), Bits(7, 8), Bits(8, 18), Bits(1, 1)];

/// An I slice without adaptive offsets, which sets deblocking off: row 47 is absent.
const UNFILTERED: Unit = Unit {
    header: [0x02, 0x01],
    parts: &[INTRA, &[Bits(2, 0)], NO_OFFSETS, &[Bits(2, 0b11)], ENTRY],
};

/// The same with adaptive offsets of chroma: row 47 is 0.
const CHROMA_ADAPTED: Unit = Unit {
    header: [0x02, 0x01],
    parts: &[INTRA, &[Bits(2, 1)], NO_OFFSETS, &[Bits(3, 0b110)], ENTRY],
};

/// The same with deblocking as the picture set has it: rows 44 to 46 are absent, row 47 is 0.
const INHERITED: Unit = Unit {
    header: [0x02, 0x01],
    parts: &[INTRA, &[Bits(2, 0)], NO_OFFSETS, &[Bits(2, 0)], ENTRY],
};

/// An I slice of an IDR picture, of plane 2, with adaptive offsets of luma: row 23 is absent.
const PLANE: Unit = Unit {
    header: [0x26, 0x01],
    parts: &[&[Bits(6, 0b10_1011), Bits(2, 2), Bits(3, 0b110)]],
};

/// The sequence set of a unit.
fn sequence_set_of(rt: &impl Abort, alloc: Global, unit: &Unit) -> Boxed<Sps> {
    let stream = whole(rt, alloc, unit);
    let mut position = 0;
    let nalu = ok(rt, Nalu::<NaluHeader>::next(&stream, &mut position));
    ok(rt, read_sps(alloc, &nalu))
}

/// The picture set of a unit.
fn picture_set_of(rt: &impl Abort, alloc: Global, kept: &Kept, unit: &Unit) -> Pps {
    let stream = whole(rt, alloc, unit);
    let mut position = 0;
    let nalu = ok(rt, Nalu::<NaluHeader>::next(&stream, &mut position));
    ok(rt, read_pps(alloc, &nalu, &kept.spses))
}

/// The header of a slice.
fn header_of(rt: &impl Abort, alloc: Global, kept: &Kept, unit: &Unit) -> SliceHeader {
    let stream = whole(rt, alloc, unit);
    let mut position = 0;
    let nalu = ok(rt, Nalu::<NaluHeader>::next(&stream, &mut position));
    let mut header = SliceHeader::new(alloc);
    ok(
        rt,
        read_slice_header(alloc, &nalu, &kept.spses, &kept.ppses, &mut header),
    );
    header
}

#[test]
fn a_sequence_set_has_its_last_fields(rt: HostRuntime) {
    let rt = &rt;
    let sps = sequence_set_of(rt, rt.alloc(), &SEQUENCE_SET);
    expect_eq(rt, (sps.chroma_array_type, sps.ctb_log2_size_y), (3, 5));
    expect(rt, sps.range_extension_flag && sps.scc_extension_flag);
    let scc = &sps.scc_extension;
    expect(
        rt,
        scc.curr_pic_ref_enabled_flag && scc.palette_mode_enabled_flag,
    );
    expect_eq(
        rt,
        (scc.palette_max_size, scc.delta_palette_max_predictor_size),
        (4, 2),
    );
    let colours = scc.palette_predictor_initializer;
    expect_eq(rt, (colours[0][0], colours[1][0], colours[2][0]), (5, 6, 7));
    expect_eq(rt, scc.motion_vector_resolution_control_idc, 2);
}

#[test]
fn planes_may_be_coded_apart(rt: HostRuntime) {
    let rt = &rt;
    let sps = sequence_set_of(rt, rt.alloc(), &APART);
    expect_eq(rt, (sps.chroma_format_idc, sps.chroma_array_type), (3, 0));
    expect_eq(rt, (sps.ctb_log2_size_y, sps.min_cb_log2_size_y), (4, 4));
    expect(
        rt,
        sps.sample_adaptive_offset_enabled_flag && !sps.pcm_enabled_flag,
    );
    expect(rt, sps.range_extension_flag && !sps.scc_extension_flag);
    expect(rt, sps.range_extension.high_precision_offsets_enabled_flag);
    expect(
        rt,
        !sps.range_extension.persistent_rice_adaptation_enabled_flag,
    );
}

#[test]
fn a_picture_set_has_its_offsets(rt: HostRuntime) {
    let rt = &rt;
    let alloc = rt.alloc();
    let kept = both_sets(rt, alloc);
    let pps = picture_set_of(rt, alloc, &kept, &PICTURE_SET);
    expect_eq(rt, (pps.cb_qp_offset, pps.cr_qp_offset), (2, -2));
    expect_eq(rt, (pps.beta_offset_div2, pps.tc_offset_div2), (3, -4));
    expect(
        rt,
        pps.deblocking_filter_override_enabled_flag && !pps.deblocking_filter_disabled_flag,
    );
    expect(rt, pps.range_extension.chroma_qp_offset_list_enabled_flag);
    let scc = &pps.scc_extension;
    expect(rt, scc.slice_act_qp_offsets_present_flag);
    expect_eq(
        rt,
        (scc.act_y_qp_offset_plus5, scc.act_cb_qp_offset_plus5),
        (5, 4),
    );
    expect_eq(rt, scc.act_cr_qp_offset_plus3, 3);
    let colours = scc.palette_predictor_initializer;
    expect_eq(rt, (colours[0][0], colours[1][0], colours[2][0]), (5, 6, 7));
}

#[test]
fn a_picture_set_may_have_one_extension(rt: HostRuntime) {
    let rt = &rt;
    let alloc = rt.alloc();
    let kept = both_sets(rt, alloc);
    let ranged = picture_set_of(rt, alloc, &kept, &RANGED);
    expect(rt, ranged.deblocking_filter_control_present_flag);
    expect(
        rt,
        ranged.deblocking_filter_disabled_flag && ranged.range_extension_flag,
    );
    expect_eq(rt, (ranged.beta_offset_div2, ranged.tc_offset_div2), (0, 0));
    expect(rt, !ranged.scc_extension_flag);
    expect(
        rt,
        ranged
            .range_extension
            .cross_component_prediction_enabled_flag,
    );
    expect(rt, !ranged.scc_extension.curr_pic_ref_enabled_flag);
    let screened = picture_set_of(rt, alloc, &kept, &SCREENED);
    expect(
        rt,
        !screened.range_extension_flag && screened.scc_extension_flag,
    );
    expect(
        rt,
        !screened
            .range_extension
            .cross_component_prediction_enabled_flag,
    );
    expect(rt, screened.scc_extension.curr_pic_ref_enabled_flag);
}

#[test]
fn a_slice_has_its_offsets(rt: HostRuntime) {
    let rt = &rt;
    let alloc = rt.alloc();
    let h = header_of(rt, alloc, &both_sets(rt, alloc), &SLICE);
    expect(rt, h.sao_luma_flag && !h.sao_chroma_flag);
    expect_eq(rt, (h.cb_qp_offset, h.cr_qp_offset), (4, -5));
    let act = (h.slice_act_y_qp_offset, h.slice_act_cb_qp_offset);
    expect_eq(rt, act, (1, 2));
    expect_eq(rt, h.slice_act_cr_qp_offset, 3);
    expect(
        rt,
        h.cu_chroma_qp_offset_enabled_flag && h.deblocking_filter_override_flag,
    );
    expect(rt, !h.deblocking_filter_disabled_flag);
    expect_eq(rt, (h.beta_offset_div2, h.tc_offset_div2), (2, -1));
    expect(rt, h.loop_filter_across_slices_enabled_flag);
    expect_eq(rt, h.entry_point_offset_minus1.as_slice(), [18].as_slice());
    expect_eq(rt, h.num_pic_total_curr, 3);
}

/// Whether loop filters cross the slice, whether deblocking is off, and its offsets.
fn filters_of(h: &SliceHeader) -> (bool, bool, i8, i8) {
    (
        h.loop_filter_across_slices_enabled_flag,
        h.deblocking_filter_disabled_flag,
        h.beta_offset_div2,
        h.tc_offset_div2,
    )
}

#[test]
fn filters_are_those_of_the_slice_or_of_its_picture_set(rt: HostRuntime) {
    let rt = &rt;
    let alloc = rt.alloc();
    let kept = both_sets(rt, alloc);
    for (unit, filters, override_flag, chroma) in [
        (&UNFILTERED, (true, true, 3, -4), true, false),
        (&CHROMA_ADAPTED, (false, true, 3, -4), true, true),
        (&INHERITED, (false, false, 3, -4), false, false),
    ] {
        let h = header_of(rt, alloc, &kept, unit);
        expect(rt, filters_of(&h) == filters);
        expect_eq(rt, h.deblocking_filter_override_flag, override_flag);
        expect_eq(rt, (h.sao_luma_flag, h.sao_chroma_flag), (false, chroma));
        expect_eq(rt, h.short_term_ref_pic_set_idx, 2);
        expect_eq(rt, h.entry_point_offset_minus1.as_slice(), [18].as_slice());
    }
}

#[test]
fn a_slice_of_one_plane_has_no_chroma(rt: HostRuntime) {
    let rt = &rt;
    let alloc = rt.alloc();
    let mut kept = no_sets(alloc);
    let sps = sequence_set_of(rt, alloc, &APART);
    ok(rt, kept.spses.insert(0, sps));
    let pps = picture_set_of(rt, alloc, &kept, &RANGED);
    ok(rt, kept.ppses.insert(0, pps));
    let h = header_of(rt, alloc, &kept, &PLANE);
    expect_eq(rt, h.colour_plane_id, 2);
    expect(rt, h.sao_luma_flag && !h.sao_chroma_flag);
    expect(rt, filters_of(&h) == (false, true, 0, 0));
    expect_eq(rt, h.header_bit_size, 32);
}
