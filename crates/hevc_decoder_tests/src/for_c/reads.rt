//! Sets and headers that are read without a decoder.
use super::check_all;
use crate::expect::ok;
use hevc_parser::Parser;
use hevc_picture_slice::{Pps, SliceHeader};
use hevc_pull::{UnitCall, UnitRead, pps_fields, read_unit, slice_fields, sps_fields, vps_fields};
use hevc_sequence_set::Sps;
use hevc_stream_maker::make_stream;
use hevc_video_set::Vps;
use std::alloc::Global;
use std::process::Abort;

/// Nothing that was read.
fn nothing_read(rt: &impl Abort, alloc: Global) -> UnitRead {
    UnitRead {
        unit: UnitCall {
            offset: 0,
            size: 0,
            next: 0,
            nal_unit_type: 0,
            layer_id: 0,
            temporal_id: 0,
            table: 0,
            row: 0,
        },
        vps: vps_fields(&ok(rt, Vps::new(alloc))),
        sps: sps_fields(&Sps::new(alloc)),
        pps: pps_fields(&Pps::new()),
        slice: slice_fields(&SliceHeader::new(alloc)),
    }
}

/// Reads a unit. The answer is its status.
fn status_of(sets: &mut Parser, bytes: &[u8], told: &mut UnitRead) -> u32 {
    read_unit(sets, bytes, told)
}

/// Reads three units of a stream of two pictures: each set, and the second picture's slice segment header.
fn read_two_pictures(rt: &impl Abort, sets: &mut Parser, stream: &[u8], told: &mut UnitRead) {
    let rest = ok(rt, stream.get(30..).ok_or("short"));
    let slices = ok(rt, stream.get(46..).ok_or("short"));
    let facts = [
        (status_of(sets, stream, told) == 0, "a sequence set"),
        (told.unit.nal_unit_type == 33, "its type"),
        (told.unit.offset == 3 && told.unit.size == 27, "its place"),
        (told.sps.pic_width_in_luma_samples == 16, "its width"),
        (told.sps.chroma_format_idc == 1, "its format"),
        (told.sps.profile.general_level_idc == 60, "its level"),
        (status_of(sets, rest, told) == 0, "a picture set"),
        (told.unit.nal_unit_type == 34, "its type"),
        (told.pps.init_qp_minus26 == 0, "its fields"),
        (status_of(sets, slices, told) == 0, "a slice segment header"),
        (told.unit.nal_unit_type == 1, "its type"),
        (told.slice.slice_pic_order_cnt_lsb == 8, "its order count"),
        (told.slice.slice_type == 1, "its slice type"),
        (told.slice.num_negative_pics == 1, "its references"),
        (
            told.sps.pic_height_in_luma_samples == 16,
            "the sequence set stays told",
        ),
    ];
    check_all(rt, &facts);
}

#[test]
fn sets_and_headers_of_a_stream(rt: HostRuntime) {
    let rt = &rt;
    let stream = ok(rt, make_stream(rt.alloc(), 2));
    let mut sets = Parser::new(rt.alloc());
    let mut told = nothing_read(rt, rt.alloc());
    read_two_pictures(rt, &mut sets, stream.as_slice(), &mut told);
}

/// Reads units that are refused, and two that are passed over.
fn read_refused(rt: &impl Abort, sets: &mut Parser, stream: &[u8], told: &mut UnitRead) {
    let rest = ok(rt, stream.get(30..).ok_or("short"));
    let slice = ok(rt, stream.get(39..).ok_or("short"));
    let facts = [
        (
            status_of(sets, rest, told) == 18,
            "a picture set without its sequence set",
        ),
        (told.unit.row == 0, "the id that it names"),
        (told.unit.size == 6, "its size"),
        (
            status_of(sets, slice, told) == 9,
            "a slice segment without its picture set",
        ),
        (
            status_of(sets, &[0, 0, 1, 0x42, 1, 1], told) == 7,
            "a sequence set that ends",
        ),
        (told.unit.next == 6, "where the next is sought"),
        (
            status_of(sets, &[0, 0, 0, 1, 0x7C, 1, 5], told) == 6,
            "an unspecified type",
        ),
        (
            told.unit.offset == 4 && told.unit.size == 3 && told.unit.next == 7,
            "its place, and where the next is sought",
        ),
        (
            status_of(sets, &[0, 0, 1, 0x46, 1, 0x50], told) == 0,
            "a delimiter",
        ),
        (told.unit.nal_unit_type == 35, "its type"),
        (status_of(sets, &[0, 0], told) == 1, "no unit"),
        (told.unit.size == 0, "no bytes"),
    ];
    check_all(rt, &facts);
}

#[test]
fn what_is_refused_and_what_is_passed_over(rt: HostRuntime) {
    let rt = &rt;
    let stream = ok(rt, make_stream(rt.alloc(), 1));
    let mut sets = Parser::new(rt.alloc());
    let mut told = nothing_read(rt, rt.alloc());
    read_refused(rt, &mut sets, stream.as_slice(), &mut told);
}
