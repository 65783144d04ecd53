//! A picture that refers to itself, with both extensions of a worked sequence set.
ghost use Rattle.std.specs.Prelude.{◌<◌, length};

use crate::expect::{check_all, ok};
use hevc_bits::{Nalu, NaluHeader};
use hevc_boxed::Boxed;
use hevc_dpb::{Dpb, PictureData};
use hevc_parser::ParseError;
use hevc_picture_slice::{Pps, Slice, SliceHeader};
use hevc_readers::read_sps;
use hevc_refs::{RefPicSet, build_ref_pic_lists};
use hevc_sequence_set::Sps;
use hevc_va::{
    VaError, VaPictureParameterBufferHevcExtension, VaSliceParameterBufferHevcExtension,
    VaSurfaces, picture_extension_buffer, slice_buffer, slice_extension_buffer,
};
use hevc_video_set::PredWeightTable;
use hevc_worked_units::streams::{EXTENDED_SEQUENCE_SET, P_SLICE};
use std::alloc::Global;
use std::process::Abort;

/// The sequence set that the first unit of a stream is.
fn read(alloc: Global, stream: &[u8]) -> Result<Boxed<Sps>, ParseError>
    requires { length stream.now < 1000 }
{
    let mut position = 0;
    match Nalu::<NaluHeader>::next(stream, &mut position) {
        Ok(unit) => read_sps(alloc, &unit),
        Err(_) => Err(ParseError::WrongNaluType),
    }
}

/// A picture set by which a picture may refer to itself.
fn picture_set() -> Pps {
    let mut pps = Pps::new();
    pps.scc_extension.curr_pic_ref_enabled_flag = true;
    pps
}

/// Weights with an offset of luma of more than 8 bits.
fn weights() -> PredWeightTable {
    let mut table = PredWeightTable::new();
    table.luma_offset_l0 = [-200; 15];
    table
}

/// A P slice with an offset of luma of more than 8 bits, and three offsets of quantisers.
fn slice_of(alloc: Global, nalu: Nalu<'_, NaluHeader>) -> Slice<'_> {
    let mut header = SliceHeader::new(alloc);
    header.num_pic_total_curr = 1;
    header.pred_weight_table = weights();
    header.use_integer_mv_flag = true;
    header.slice_act_cr_qp_offset = -12;
    Slice::new(header, nalu)
}

/// What is expected of the picture, whose surface is 9.
fn check_picture(rt: &impl Abort, buffer: &VaPictureParameterBufferHevcExtension) {
    let frames = buffer.base.reference_frames;
    let entries = buffer.scc.predictor_palette_entries;
    let facts = [
        (frames[0].picture_id == 9, "it refers to itself"),
        (frames[0].flags == 8, "as to a long-term picture"),
        (frames[1].flags == 1, "and to no other one"),
        (
            buffer.rext.range_extension_pic_fields & 0x109 == 0x101,
            "rotation and alignment",
        ),
        (
            buffer.scc.screen_content_pic_fields == 27,
            "the flags of screen content",
        ),
        (buffer.scc.palette_max_size == 2, "the palette"),
        (buffer.scc.predictor_palette_size == 2, "two predictors"),
        (entries[0][0] == 1023, "the first of luma"),
        (entries[2][1] == 8, "the second of Cr"),
    ];
    check_all(rt, &facts);
}

/// What is expected of its slice.
fn check_slice(rt: &impl Abort, buffer: &VaSliceParameterBufferHevcExtension) {
    let indices = buffer.base.ref_pic_list;
    let (narrow, wide) = (buffer.base.luma_offset_l0, buffer.rext.luma_offset_l0);
    let facts = [
        (indices[0][0] == 0, "the picture itself"),
        (narrow[0] == 0, "no offset in 8 bits"),
        (wide[0] == -200, "its offset in 16"),
        (buffer.rext.slice_ext_flags == 2, "vectors of whole samples"),
        (
            buffer.rext.slice_act_cr_qp_offset == -12,
            "the offset of Cr",
        ),
    ];
    check_all(rt, &facts);
}

#[test]
fn a_picture_that_refers_to_itself(rt: HostRuntime) {
    let rt = &rt;
    let sps = ok(rt, read(rt.alloc(), EXTENDED_SEQUENCE_SET));
    let pps = picture_set();
    let mut position = 0;
    let nalu = ok(rt, Nalu::<NaluHeader>::next(P_SLICE, &mut position));
    let slice = slice_of(rt.alloc(), nalu);
    let dpb: Dpb<u64> = Dpb::new(rt.alloc());
    let rps = RefPicSet::new();
    let picture = PictureData::default();
    let surfaces = VaSurfaces {
        current: 9,
        stored: &[],
    };
    let filled = picture_extension_buffer(&picture, &slice, &sps, &pps, &dpb, &rps, surfaces);
    check_picture(rt, &ok(rt, filled));
    let lists = build_ref_pic_lists(&slice.header, &rps, true);
    let (list0, list1) = (&lists.ref_pic_list0, &lists.ref_pic_list1);
    let filled = slice_extension_buffer(&slice, &sps, &pps, &dpb, list0, list1, false);
    check_slice(rt, &ok(rt, filled));
    let refused = slice_buffer(&slice, &sps, &pps, &dpb, list0, list1, false);
    let facts = [(
        refused.err() == Some(VaError::LumaOffset),
        "its offset in 8 bits",
    )];
    check_all(rt, &facts);
}
