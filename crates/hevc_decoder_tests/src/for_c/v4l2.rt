//! The structs of Linux's stateless decoders: values from outside, and each call once.
use super::check_all;
use crate::expect::ok;
use hevc_bits::{Nalu, NaluHeader};
use hevc_dpb::{Dpb, PictureData};
use hevc_picture_slice::{Pps, Slice, SliceHeader};
use hevc_refs::{RefPicSet, ReferencePicLists};
use hevc_sequence_set::Sps;
use hevc_v4l2::{
    ControlError, SliceControls, V4l2CtrlHevcDecodeParams, V4l2CtrlHevcScalingMatrix,
    decode_control, pps_control, scaling_control, slice_controls, sps_control, write_entry_points,
};
use std::alloc::Global;

/// A unit of type 1 with four bytes, after its start code.
const STREAM: [u8; 7] = [0, 0, 1, 2, 1, 0xD2, 0x14];

/// The default list of intra prediction as a matrix, row by row (Table 7-6, by the scan of 6.5.3).
const INTRA: [u8; 64] = [
    16, 16, 16, 16, 17, 18, 21, 24, 16, 16, 16, 16, 17, 19, 22, 25, 16, 16, 17, 18, 20, 22, 25, 29,
    16, 16, 18, 21, 24, 27, 31, 36, 17, 17, 20, 24, 30, 35, 41, 47, 18, 19, 22, 27, 35, 44, 54, 65,
    21, 22, 25, 31, 41, 54, 70, 88, 24, 25, 29, 36, 47, 65, 88, 115,
];

/// A new sequence set but for three flags: of two tools, and of scaling lists, where they are wanted.
fn sequence_set(alloc: Global, has_lists: bool) -> Sps {
    let mut sps = Sps::new(alloc);
    sps.amp_enabled_flag = true;
    sps.strong_intra_smoothing_enabled_flag = true;
    sps.scaling_list_enabled_flag = has_lists;
    sps
}

#[test]
fn a_sequence_set(rt: HostRuntime) {
    let control = sps_control(&sequence_set(rt.alloc(), false));
    let facts = [
        (control.pic_width_in_luma_samples == 1, "its width"),
        (control.flags == 0x104, "its flags"),
    ];
    check_all(&rt, &facts);
}

#[test]
fn a_picture_set(rt: HostRuntime) {
    let rt = &rt;
    let mut pps = Pps::new();
    pps.column_width_minus1[0] = 255;
    let control = ok(rt, pps_control(&pps));
    pps.row_height_minus1[21] = 256;
    let too_high = pps_control(&pps).err();
    pps.column_width_minus1[0] = 256;
    let too_wide = pps_control(&pps).err();
    let facts = [
        (control.num_tile_columns_minus1 == 0, "one column"),
        (control.column_width_minus1[0] == 255, "its width"),
        (control.flags == 0x10_2000, "its flags"),
        (
            too_high == Some(ControlError::TileRows),
            "a row that is too high",
        ),
        (
            too_wide == Some(ControlError::TileColumns),
            "a column that is too wide",
        ),
    ];
    check_all(rt, &facts);
}

/// The lists of sets without any, where coefficients are scaled by lists, or not.
fn lists_of(alloc: Global, is_enabled: bool) -> V4l2CtrlHevcScalingMatrix {
    scaling_control(&sequence_set(alloc, is_enabled), &Pps::new())
}

#[test]
fn default_lists_row_by_row(rt: HostRuntime) {
    let flat = lists_of(rt.alloc(), false);
    let control = lists_of(rt.alloc(), true);
    let facts = [
        (flat.scaling_list_32x32 == [[16; 64]; 2], "flat lists"),
        (control.scaling_list_8x8[0] == INTRA, "8x8"),
        (control.scaling_list_32x32[0] == INTRA, "32x32"),
        (
            control.scaling_list_dc_coef_16x16 == [16; 6],
            "first entries",
        ),
    ];
    check_all(&rt, &facts);
}

/// A slice segment of this unit, dependent or not, of whose header 17 bits and two inserted bytes are
/// told, and 40 bits of a short-term set.
fn slice_of(alloc: Global, nalu: Nalu<'_, NaluHeader>, is_dependent: bool) -> Slice<'_> {
    let mut header = SliceHeader::new(alloc);
    header.header_bit_size = 17;
    header.n_emulation_prevention_bytes = 2;
    header.st_rps_bits = 40;
    header.dependent_slice_segment_flag = is_dependent;
    Slice::new(header, nalu)
}

/// An IRAP picture of order count -7.
fn picture() -> PictureData {
    let mut picture = PictureData::default();
    picture.is_irap = true;
    picture.pic_order_cnt_val = -7;
    picture
}

/// The struct of this slice segment, with nothing in the buffer and no lists, and that of its picture.
fn structs_of(
    alloc: Global,
    slice: &Slice<'_>,
) -> (
    Result<SliceControls, ControlError>,
    Result<V4l2CtrlHevcDecodeParams, ControlError>,
) {
    let picture = picture();
    let sps = Sps::new(alloc);
    let dpb: Dpb<u64> = Dpb::new(alloc);
    let lists = ReferencePicLists::new();
    let (list0, list1) = (&lists.ref_pic_list0, &lists.ref_pic_list1);
    (
        slice_controls(&picture, slice, &sps, &dpb, list0, list1),
        decode_control(&picture, slice, &sps, &dpb, &RefPicSet::new()),
    )
}

#[test]
fn a_slice_and_its_picture(rt: HostRuntime) {
    let rt = &rt;
    let mut position = 0;
    let nalu = ok(rt, Nalu::<NaluHeader>::next(&STREAM, &mut position));
    let (slice, picture) = structs_of(rt.alloc(), &slice_of(rt.alloc(), nalu, false));
    let structs = ok(rt, slice);
    let control = structs.params;
    let picture = ok(rt, picture);
    let facts = [
        (control.bit_size == 32, "its size"),
        (control.data_byte_offset == 3, "its header's size"),
        (
            structs.raw_data_byte_offset == 5,
            "with the bytes that are inserted",
        ),
        (
            control.short_term_ref_pic_set_size == 40,
            "its short-term set",
        ),
        (control.nal_unit_type == 1, "its type"),
        (control.slice_pic_order_cnt == -7, "its picture"),
        (control.ref_idx_l0 == [255; 16], "no reference picture"),
        (picture.num_active_dpb_entries == 0, "no picture"),
        (picture.flags == 1, "an IRAP picture"),
    ];
    check_all(rt, &facts);
}

#[test]
fn a_dependent_slice_segment_includes_no_set(rt: HostRuntime) {
    let rt = &rt;
    let mut position = 0;
    let nalu = ok(rt, Nalu::<NaluHeader>::next(&STREAM, &mut position));
    let (slice, picture) = structs_of(rt.alloc(), &slice_of(rt.alloc(), nalu, true));
    let control = ok(rt, slice).params;
    let picture = ok(rt, picture);
    let facts = [
        (control.short_term_ref_pic_set_size == 0, "no set"),
        (
            picture.short_term_ref_pic_set_size == 40,
            "that of its picture",
        ),
        (control.flags == 0x220, "its flags"),
    ];
    check_all(rt, &facts);
}

#[test]
fn entry_points(rt: HostRuntime) {
    let mut offsets = [0; 3];
    let written = write_entry_points(&[9, 0xFFFF_FFFE], &mut offsets);
    let mut others = [7; 3];
    let too_far = write_entry_points(&[0xFFFF_FFFF], &mut others);
    let too_many = write_entry_points(&[0, 0, 0, 0xFFFF_FFFF], &mut others);
    let facts = [
        (written.is_ok(), "they are written"),
        (
            offsets == [10, 0xFFFF_FFFF, 0],
            "with 1 more, the first two",
        ),
        (
            too_far.err() == Some(ControlError::EntryPoint),
            "2^32 bytes to the next",
        ),
        (
            too_many.err() == Some(ControlError::NoRoom),
            "four in three places",
        ),
        (others == [7; 3], "none is written"),
    ];
    check_all(&rt, &facts);
}
