//! The points of a stream.
ghost use Rattle.std.specs.Prelude.{◌≡◌, ◌<◌, [], IfOk, IsErrOf, length, map, option_map};
ghost use Rattle.hevc_bits.specs.declared.stream_limit.TheConstants.{STREAM_LIMIT};
ghost use Rattle.hevc_stream.specs.Options.{default_options};
ghost use Rattle.hevc_driver.specs.Heads.{head_of};
ghost use Rattle.hevc_stateless.specs.Decoders.{view_of};
ghost use Rattle.hevc_index_laws.specs.Points.{points_of};
ghost use Rattle.hevc_index.specs.Finding.{is_start, point_begun, StandsFirst};
ghost use Rattle.hevc_index.specs.Indexing.{ending, plain_point, Judges};

use crate::point::{IndexError, Point};
use hevc_backend::SilentBackend;
use hevc_decoder::{
    Head, Options, StatelessDecoder, StatelessH265DecoderBackend, begin_stream, decode_next_unit,
    end_stream,
};
use hevc_set_parts::Items;
use std::alloc::Global;

/// The points of a byte stream (Annex B) of less than 2^60 bytes at which decoding can start, in
/// decoding order: its IDR and BLA pictures whose first slice segment has temporal id 0. From each
/// of them on `splice` gives a stream.
///
/// `Refused` exactly where `decode_stream` refuses the stream, and as it does; never `NoSuchPoint`.
pub fn index(alloc: Global, stream: &[u8]) -> Result<Items<Point>, IndexError>
    requires { length stream.now < STREAM_LIMIT }
    ensures points { IfOk result (λ points.
        map plain_point points ≡ points_of default_options stream.now) }
    ensures refused { Judges result (ending stream.now) }
    ensures no_number { ¬ (IsErrOf result IndexError.NoSuchPoint) }
{
    let mut decoder = begin_stream(alloc, SilentBackend::new(), Options::new());
    list_points(alloc, &mut decoder, stream)
}

/// Gives a decoder all units of a stream, and lists the points that begin with them. The pictures
/// that are output are let go.
fn list_points<B: StatelessH265DecoderBackend>(
    alloc: Global,
    decoder: &mut StatelessDecoder<B>,
    stream: &[u8],
) -> Result<Items<Point>, IndexError>
    requires short { length stream.now < STREAM_LIMIT }
    requires empty { (view_of decoder.old).queue ≡ [] }
    requires first { StandsFirst B.log B.handed B.frames B.counts B.is_faultless stream.now decoder.old }
    ensures points { IfOk result (λ points.
        map plain_point points ≡ points_of default_options stream.now) }
    ensures refused { Judges result (ending stream.now) }
    ensures no_number { ¬ (IsErrOf result IndexError.NoSuchPoint) }
{
    let mut points = Items::new(alloc);
    let mut shown = Vec::new(alloc);
    let mut position = 0;
    let mut unit = 0;
    loop {
        let pictures = decoder.num_pictures();
        let next = decode_next_unit(decoder, stream, &mut position, unit, &mut shown)?;
        let Some(nalu) = next else {
            end_stream(decoder, unit, &mut shown)?;
            return Ok(points);
        };
        shown.clear();
        if let Some(point) = point_begun(decoder, pictures, unit, nalu.offset() as u64) {
            points.push(point)?;
        }
        unit += 1;
    }
}

/// The point that began with a unit that a decoder took, if one did: so many pictures had begun
/// before it.
fn point_begun<B: StatelessH265DecoderBackend>(
    decoder: &StatelessDecoder<B>,
    pictures: u64,
    unit: u64,
    offset: u64,
) -> Option<Point>
    ensures { option_map plain_point result
        ≡ point_begun pictures unit offset (view_of decoder.now).standing }
{
    if decoder.num_pictures() == pictures {
        return None;
    }
    let head = decoder.open_picture()?;
    if !is_start(head) {
        return None;
    }
    Some(Point {
        number: head.number,
        unit,
        offset,
        nalu_type: head.picture.nalu_type,
        order_count: head.picture.pic_order_cnt_val,
    })
}

/// Whether decoding can start with a picture: it is an IDR or BLA picture, and its temporal id is 0,
/// since it can be prevTid0Pic (8.3.1).
fn is_start(head: &Head) -> bool
    ensures { result ≡ is_start (head_of head.now) }
{
    let nalu_type = head.picture.nalu_type;
    (nalu_type.is_idr() || nalu_type.is_bla()) && head.picture.valid_for_prev_tid0_pic
}
