//! A P picture of worked units, over a buffer of two pictures.
ghost use Rattle.std.specs.Prelude.{◌<◌, length};

use crate::expect::{check_all, ok};
use hevc_bits::{Nalu, NaluHeader, NaluType};
use hevc_dpb::{Dpb, PictureData, Reference};
use hevc_parser::{ParseError, Parser};
use hevc_picture_slice::{Pps, Slice};
use hevc_refs::{RefPicSet, build_ref_pic_lists, derive_and_mark};
use hevc_sequence_set::Sps;
use hevc_va::{
    VaError, VaPictureParameterBufferHevc, VaSurface, VaSurfaces, picture_buffer, slice_buffer,
};
use hevc_worked_units::streams::{P_SLICE, PICTURE_SET, SEQUENCE_SET};
use std::alloc::Global;
use std::process::Abort;

/// A picture of this order count.
fn picture(count: i32) -> PictureData {
    let mut picture = PictureData::default();
    picture.nalu_type = NaluType::TrailR;
    picture.pic_order_cnt_val = count;
    picture
}

/// A buffer of pictures 5 and 6 of order counts 0 and 1.
fn buffer(rt: &impl Abort, alloc: Global) -> Dpb<u64> {
    let mut dpb = Dpb::new(alloc);
    ok(rt, dpb.reserve());
    dpb.set_max_num_pics(2);
    ok(rt, dpb.store_picture(5, picture(0), 5));
    ok(rt, dpb.store_picture(6, picture(1), 6));
    dpb
}

/// Keeps the sequence set that the first unit of a stream is. The answer is its id.
fn keep_sequence_set(parser: &mut Parser, stream: &[u8]) -> Result<u8, ParseError>
    requires { length stream.now < 1000 }
{
    let mut position = 0;
    match Nalu::<NaluHeader>::next(stream, &mut position) {
        Ok(unit) => Ok(parser.parse_sps(&unit)?.seq_parameter_set_id),
        Err(_) => Err(ParseError::OutOfBits),
    }
}

/// Keeps the picture set that the first unit of a stream is. The answer is its id.
fn keep_picture_set(parser: &mut Parser, stream: &[u8]) -> Result<u8, ParseError>
    requires { length stream.now < 1000 }
{
    let mut position = 0;
    match Nalu::<NaluHeader>::next(stream, &mut position) {
        Ok(unit) => Ok(parser.parse_pps(&unit)?.pic_parameter_set_id),
        Err(_) => Err(ParseError::OutOfBits),
    }
}

/// The first unit of a stream as a slice segment.
fn slice_of<'a>(parser: &Parser, stream: &'a [u8]) -> Result<Slice<'a>, ParseError>
    requires { length stream.now < 1000 }
{
    let mut position = 0;
    match Nalu::<NaluHeader>::next(stream, &mut position) {
        Ok(unit) => parser.parse_slice_header(unit),
        Err(_) => Err(ParseError::OutOfBits),
    }
}

/// The P slice of order count 4 and its reference picture set, over the buffer, of which picture 6
/// is made a long-term reference picture.
fn set_of(slice: &Slice<'_>, dpb: &mut Dpb<u64>) -> RefPicSet {
    let set = slice.header.short_term_ref_pic_set;
    let rps = derive_and_mark(dpb, &picture(4), &slice.header, &set, 16);
    if dpb.len() > 1 {
        dpb.set_reference_at(1, Reference::LongTerm);
    }
    rps
}

/// The surfaces of the two stored pictures.
const SURFACES: &[VaSurface] = &[
    VaSurface {
        number: 6,
        surface: 71,
    },
    VaSurface {
        number: 5,
        surface: 70,
    },
];

/// The structs of the slice as that of a picture, with these surfaces of stored pictures.
fn picture_with(
    parser: &Parser,
    slice: &Slice<'_>,
    dpb: &Dpb<u64>,
    rps: &RefPicSet,
    stored: &[VaSurface],
) -> Result<VaPictureParameterBufferHevc, VaError> {
    let surfaces = VaSurfaces {
        current: 72,
        stored,
    };
    match (parser.get_sps(0), parser.get_pps(0)) {
        (Some(sps), Some(pps)) => picture_buffer(&picture(4), slice, sps, pps, dpb, rps, surfaces),
        _ => Err(VaError::UnitSize),
    }
}

/// What is expected of the picture.
fn check_picture(rt: &impl Abort, buffer: &VaPictureParameterBufferHevc) {
    let frames = buffer.reference_frames;
    let (first, second, third) = (frames[0], frames[1], frames[2]);
    let facts = [
        (buffer.curr_pic.picture_id == 72, "its surface"),
        (buffer.curr_pic.pic_order_cnt == 4, "its order count"),
        (buffer.curr_pic.flags == 0, "a frame"),
        (first.picture_id == 70, "picture 5"),
        (first.flags == 0x10, "one before it"),
        (second.picture_id == 71, "picture 6"),
        (second.pic_order_cnt == 1, "its order count"),
        (second.flags == 8, "a long-term one"),
        (third.picture_id == 0xFFFF_FFFF, "no third one"),
        (third.flags == 1, "which isn't valid"),
        (buffer.pic_width_in_luma_samples == 16, "its width"),
        (buffer.pic_fields == 0x2_0001, "4:2:0, filters across tiles"),
        (buffer.sps_max_dec_pic_buffering_minus1 == 4, "the buffer"),
        (buffer.slice_parsing_fields == 0, "no flags"),
        (buffer.st_rps_bits == 10, "its short-term set"),
    ];
    check_all(rt, &facts);
}

/// Checks the slice segment as the last one of its picture.
fn check_slice(
    rt: &impl Abort,
    parser: &Parser,
    slice: &Slice<'_>,
    dpb: &Dpb<u64>,
    rps: &RefPicSet,
) {
    let lists = build_ref_pic_lists(&slice.header, rps, false);
    let (list0, list1) = (&lists.ref_pic_list0, &lists.ref_pic_list1);
    let sps = ok(rt, parser.get_sps(0).ok_or("no set"));
    let pps = ok(rt, parser.get_pps(0).ok_or("no set"));
    let buffer = ok(rt, slice_buffer(slice, sps, pps, dpb, list0, list1, true));
    let indices = buffer.ref_pic_list;
    let facts = [
        (buffer.slice_data_size == 6, "its size"),
        (buffer.slice_data_byte_offset == 5, "its header's size"),
        (
            buffer.slice_data_num_emu_prevn_bytes == 0,
            "nothing is inserted",
        ),
        (indices[0][0] == 0, "picture 5"),
        (indices[0][1] == 255, "no other one"),
        (indices[1] == [255; 15], "no list 1"),
        (buffer.long_slice_flags == 0x1005, "a P slice, the last one"),
        (buffer.collocated_ref_idx == 255, "no collocated picture"),
        (buffer.num_entry_point_offsets == 0, "no entry points"),
    ];
    check_all(rt, &facts);
}

/// Checks what is refused of the picture.
fn check_refusals(
    rt: &impl Abort,
    parser: &Parser,
    slice: &Slice<'_>,
    dpb: &Dpb<u64>,
    rps: &RefPicSet,
) {
    let one = picture_with(parser, slice, dpb, rps, &SURFACES[..1]);
    let facts = [(
        one.err() == Some(VaError::NoSurface),
        "picture 5 has no surface",
    )];
    check_all(rt, &facts);
}

#[test]
fn a_p_picture_of_worked_units(rt: HostRuntime) {
    let rt = &rt;
    let mut parser = Parser::new(rt.alloc());
    ok(rt, keep_sequence_set(&mut parser, SEQUENCE_SET));
    ok(rt, keep_picture_set(&mut parser, PICTURE_SET));
    let slice = ok(rt, slice_of(&parser, P_SLICE));
    let mut dpb = buffer(rt, rt.alloc());
    let rps = set_of(&slice, &mut dpb);
    let filled = ok(rt, picture_with(&parser, &slice, &dpb, &rps, SURFACES));
    check_picture(rt, &filled);
    check_slice(rt, &parser, &slice, &dpb, &rps);
    check_refusals(rt, &parser, &slice, &dpb, &rps);
}
