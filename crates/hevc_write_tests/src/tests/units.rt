//! Slices, and their refusals, as units (7.3.1.1).
use crate::tests::expect::{expect, expect_eq, expect_fewer, ok};
use crate::tests::sets::{PICTURE_SET, SEQUENCE_SET};
use hevc_bits::{Nalu, NaluHeader, NaluType};
use hevc_boxed::Boxed;
use hevc_picture_slice::{Pps, SliceHeader};
use hevc_readers::{read_pps, read_sps};
use hevc_sequence_set::Sps;
use hevc_slice_header::read_slice_header;
use hevc_worked_units::sets::{column, referring_column, tall_column};
use hevc_worked_units::streams::{
    FAR_ENTRY_POINT, HEADER_EXTENSION, INTRA, LATER_SEGMENT, MANY_ENTRY_POINTS, ONE_LIST, P_SLICE,
    TWO_LISTS,
};
use hevc_write::{PictureUnit, SliceUnit, Syntax, WriteError, write_unit};
use std::alloc::Global;
use std::collections::BTreeMap;
use std::process::Abort;

/// A picture set whose slices order their lists, and weigh those of two kinds or of one.
fn weighing_set(two_lists: bool) -> Pps {
    let mut pps = Pps::new();
    pps.lists_modification_present_flag = true;
    pps.cabac_init_present_flag = true;
    pps.weighted_bipred_flag = two_lists;
    pps.weighted_pred_flag = !two_lists;
    pps
}

/// The slice header of a stream's first unit, with these sets, and the unit's header.
fn read(
    rt: &impl Abort,
    alloc: Global,
    sps: &Sps,
    pps: &Pps,
    stream: &[u8],
) -> (NaluHeader, SliceHeader) {
    expect_fewer(rt, stream, 1000);
    let mut spses = BTreeMap::new(alloc);
    let kept = ok(rt, Boxed::new(alloc, ok(rt, sps.try_clone())));
    ok(rt, spses.insert(0, kept));
    let mut ppses = BTreeMap::new(alloc);
    ok(rt, ppses.insert(0, *pps));
    let mut position = 0;
    let unit = ok(rt, Nalu::<NaluHeader>::next(stream, &mut position));
    let mut header = SliceHeader::new(alloc);
    ok(
        rt,
        read_slice_header(alloc, &unit, &spses, &ppses, &mut header),
    );
    (*unit.header(), header)
}

/// A slice with a body of one byte is written as it was.
fn assert_slice(rt: &impl Abort, alloc: Global, sps: &Sps, pps: &Pps, stream: &[u8]) {
    let (unit, header) = read(rt, alloc, sps, pps, stream);
    let slice = SliceUnit {
        header: &header,
        pps,
        sps,
        body: &[0x80],
    };
    let mut out = Vec::new(alloc);
    ok(rt, write_unit(alloc, &slice, &unit, &mut out));
    expect(rt, out.as_slice() == stream);
}

#[test]
fn slices_are_written_as_they_were(rt: HostRuntime) {
    let rt = &rt;
    let alloc = rt.alloc();
    let plain = column(alloc);
    let referring = referring_column(alloc);
    let mut dependent = Pps::new();
    dependent.dependent_slice_segments_enabled_flag = true;
    assert_slice(rt, alloc, &plain, &Pps::new(), P_SLICE);
    assert_slice(rt, alloc, &plain, &dependent, LATER_SEGMENT);
    assert_slice(rt, alloc, &referring, &weighing_set(true), TWO_LISTS);
    assert_slice(rt, alloc, &referring, &weighing_set(false), ONE_LIST);
}

#[test]
fn entry_points_are_written_as_they_were(rt: HostRuntime) {
    let rt = &rt;
    let alloc = rt.alloc();
    let tall = tall_column(alloc);
    let mut pps = Pps::new();
    pps.entropy_coding_sync_enabled_flag = true;
    assert_slice(rt, alloc, &tall, &pps, FAR_ENTRY_POINT);
    assert_slice(rt, alloc, &tall, &pps, MANY_ENTRY_POINTS);
}

#[test]
fn the_body_comes_after_the_header(rt: HostRuntime) {
    let rt = &rt;
    let alloc = rt.alloc();
    let sps = column(alloc);
    assert_slice(rt, alloc, &sps, &Pps::new(), INTRA);
    let (unit, header) = read(rt, alloc, &sps, &Pps::new(), INTRA);
    let pps = Pps::new();
    let slice = SliceUnit {
        header: &header,
        pps: &pps,
        sps: &sps,
        body: &[0, 0, 1, 0, 0, 2, 0, 0, 4],
    };
    let mut out = Vec::new(alloc);
    ok(rt, write_unit(alloc, &slice, &unit, &mut out));
    let want: &[u8] = &[0, 0, 1, 0x26, 0x01, 0xaf, 0, 0, 3, 1, 0, 0, 3, 2, 0, 0, 4];
    expect(rt, out.as_slice() == want);
    let mut payload = ok(rt, Vec::from_slice(alloc, &[7]));
    ok(rt, slice.write_payload(&unit, &mut payload));
    let want: &[u8] = &[7, 0xaf, 0, 0, 1, 0, 0, 2, 0, 0, 4];
    expect(rt, payload.as_slice() == want);
}

#[test]
fn a_body_ends_in_no_zero(rt: HostRuntime) {
    let rt = &rt;
    let alloc = rt.alloc();
    let sps = column(alloc);
    let pps = Pps::new();
    let (unit, header) = read(rt, alloc, &sps, &pps, INTRA);
    let slice = SliceUnit {
        header: &header,
        pps: &pps,
        sps: &sps,
        body: &[0x80, 0],
    };
    let mut out = ok(rt, Vec::from_slice(alloc, &[7]));
    expect_eq(
        rt,
        write_unit(alloc, &slice, &unit, &mut out),
        Err(WriteError::ZeroEnd),
    );
    expect_eq(
        rt,
        slice.write_payload(&unit, &mut out),
        Err(WriteError::ZeroEnd),
    );
    expect(rt, out.as_slice() == [7].as_slice());
}

#[test]
fn no_extension_is_written(rt: HostRuntime) {
    let rt = &rt;
    let alloc = rt.alloc();
    let sps = column(alloc);
    let mut pps = Pps::new();
    pps.slice_segment_header_extension_present_flag = true;
    let (unit, header) = read(rt, alloc, &sps, &pps, HEADER_EXTENSION);
    let slice = SliceUnit {
        header: &header,
        pps: &pps,
        sps: &sps,
        body: &[],
    };
    let mut out = Vec::new(alloc);
    ok(rt, write_unit(alloc, &slice, &unit, &mut out));
    expect(
        rt,
        out.as_slice() == [0, 0, 1, 0x26, 0x01, 0xaf, 0x80].as_slice(),
    );
}

#[test]
fn a_slice_of_another_picture_set_is_not_formed(rt: HostRuntime) {
    let rt = &rt;
    let alloc = rt.alloc();
    let sps = column(alloc);
    let pps = Pps::new();
    let (unit, header) = read(rt, alloc, &sps, &pps, INTRA);
    let mut other = Pps::new();
    other.pic_parameter_set_id = 1;
    let slice = SliceUnit {
        header: &header,
        pps: &other,
        sps: &sps,
        body: &[0x80, 0],
    };
    let mut out = Vec::new(alloc);
    expect_eq(
        rt,
        write_unit(alloc, &slice, &unit, &mut out),
        Err(WriteError::NotFormed),
    );
    expect(rt, out.is_empty());
}

/// The sequence set and the picture set of units of both.
fn read_sets(rt: &impl Abort, alloc: Global) -> (Sps, Pps) {
    expect_fewer(rt, SEQUENCE_SET, 1000);
    expect_fewer(rt, PICTURE_SET, 1000);
    let unit = ok(rt, Nalu::<NaluHeader>::next(SEQUENCE_SET, &mut 0));
    let sps = ok(rt, read_sps(alloc, &unit));
    let mut spses = BTreeMap::new(alloc);
    let kept = ok(rt, Boxed::new(alloc, ok(rt, sps.try_clone())));
    ok(rt, spses.insert(0, kept));
    let unit = ok(rt, Nalu::<NaluHeader>::next(PICTURE_SET, &mut 0));
    let pps = ok(rt, read_pps(alloc, &unit, &spses));
    (sps.into_inner(), pps)
}

/// What a picture set is written as in a unit of this type and temporal id plus 1.
fn written_as(
    rt: &impl Abort,
    alloc: Global,
    pps: &Pps,
    sps: &Sps,
    nalu_type: NaluType,
    temporal_id_plus1: u8,
) -> Result<Vec<u8>, WriteError> {
    let Some(header) = NaluHeader::new(nalu_type, 0, temporal_id_plus1) else {
        return rt.abort();
    };
    let mut out = Vec::new(alloc);
    write_unit(alloc, &PictureUnit { pps, sps }, &header, &mut out)?;
    Ok(out)
}

#[test]
fn a_picture_set_is_in_a_unit_of_its_own_type_and_temporal_id(rt: HostRuntime) {
    let rt = &rt;
    let alloc = rt.alloc();
    let (sps, pps) = read_sets(rt, alloc);
    let out = ok(rt, written_as(rt, alloc, &pps, &sps, NaluType::PpsNut, 1));
    expect(rt, out.as_slice() == PICTURE_SET);
    let not_formed = Some(WriteError::NotFormed);
    let of_another_type = written_as(rt, alloc, &pps, &sps, NaluType::SpsNut, 1);
    expect_eq(rt, of_another_type.err(), not_formed);
    let of_sub_layer_1 = written_as(rt, alloc, &pps, &sps, NaluType::PpsNut, 2);
    expect_eq(rt, of_sub_layer_1.err(), not_formed);
    let mut of_id_64 = pps;
    of_id_64.pic_parameter_set_id = 64;
    let written = written_as(rt, alloc, &of_id_64, &sps, NaluType::PpsNut, 1);
    expect_eq(rt, written.err(), not_formed);
}

#[test]
fn a_header_has_six_bits_of_the_layer_and_three_of_the_temporal_id(rt: HostRuntime) {
    let rt = &rt;
    for (layer_id, temporal_id_plus1, is_some) in [
        (0, 1, true),
        (63, 7, true),
        (64, 1, false),
        (0, 0, false),
        (0, 8, false),
    ] {
        let header = NaluHeader::new(NaluType::PpsNut, layer_id, temporal_id_plus1);
        expect_eq(rt, header.is_some(), is_some);
    }
}
