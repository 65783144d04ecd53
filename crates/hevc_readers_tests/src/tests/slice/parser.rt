//! Worked sets and headers, in the order of their units.
ghost use Rattle.std.specs.Prelude.{◌<◌, length};

use crate::tests::expect::{expect, expect_eq, ok};
use crate::tests::streams::{NO_SET, P_SLICE, PICTURE_SET, SEQUENCE_SET, VIDEO_SET};
use hevc_bits::{Nalu, NaluHeader};
use hevc_boxed::Boxed;
use hevc_parser::{ParseError, Parser, slice_header_set_defaults};
use hevc_picture_slice::{Pps, Slice, SliceHeader};
use hevc_readers::read_sps;
use hevc_sequence_set::Sps;
use std::alloc::Global;

/// The id of the set that the first unit of a stream is.
fn keep_video_set(parser: &mut Parser, stream: &[u8]) -> Result<u8, ParseError>
    requires { length stream.now < 1000 }
{
    let mut position = 0;
    match Nalu::<NaluHeader>::next(stream, &mut position) {
        Ok(unit) => Ok(parser.parse_vps(&unit)?.video_parameter_set_id),
        Err(_) => Err(ParseError::OutOfBits),
    }
}

fn keep_sequence_set(parser: &mut Parser, stream: &[u8]) -> Result<u8, ParseError>
    requires { length stream.now < 1000 }
{
    let mut position = 0;
    match Nalu::<NaluHeader>::next(stream, &mut position) {
        Ok(unit) => Ok(parser.parse_sps(&unit)?.seq_parameter_set_id),
        Err(_) => Err(ParseError::OutOfBits),
    }
}

fn keep_picture_set(parser: &mut Parser, stream: &[u8]) -> Result<u8, ParseError>
    requires { length stream.now < 1000 }
{
    let mut position = 0;
    match Nalu::<NaluHeader>::next(stream, &mut position) {
        Ok(unit) => Ok(parser.parse_pps(&unit)?.pic_parameter_set_id),
        Err(_) => Err(ParseError::OutOfBits),
    }
}

#[test]
fn sets_are_kept_by_their_ids(rt: HostRuntime) {
    let rt = &rt;
    let mut parser = Parser::new(rt.alloc());
    expect(rt, keep_video_set(&mut parser, VIDEO_SET) == Ok(0));
    expect(rt, keep_sequence_set(&mut parser, SEQUENCE_SET) == Ok(0));
    expect(rt, keep_picture_set(&mut parser, PICTURE_SET) == Ok(0));
    expect(rt, parser.get_vps(0).is_some());
    expect(rt, parser.get_vps(1).is_none());
    expect(rt, parser.get_sps(0).is_some());
    expect(rt, parser.get_sps(15).is_none());
    expect(rt, parser.get_pps(0).is_some());
    expect(rt, parser.get_pps(63).is_none());
}

/// Whether keeping the set of a stream's first unit, under an id, changes what is kept.
fn changes(alloc: Global, parser: &mut Parser, stream: &[u8], id: u8) -> Result<bool, ParseError>
    requires { length stream.now < 1000 }
{
    let mut position = 0;
    let Ok(unit) = Nalu::<NaluHeader>::next(stream, &mut position) else {
        return Err(ParseError::OutOfBits);
    };
    let mut set = read_sps(alloc, &unit)?.into_inner();
    set.seq_parameter_set_id = id;
    Ok(parser.keep_sequence_set(Boxed::new(alloc, set)?)?)
}

#[test]
fn a_sequence_set_that_is_repeated_changes_nothing(rt: HostRuntime) {
    let rt = &rt;
    let mut parser = Parser::new(rt.alloc());
    for (id, is_changed) in [(0, true), (0, false), (1, true)] {
        expect(
            rt,
            changes(rt.alloc(), &mut parser, SEQUENCE_SET, id) == Ok(is_changed),
        );
    }
    let set = ok(rt, Boxed::new(rt.alloc(), Sps::new(rt.alloc())));
    expect(rt, ok(rt, parser.keep_sequence_set(set)));
    for (id, is_changed) in [(1, false), (0, true)] {
        expect(
            rt,
            changes(rt.alloc(), &mut parser, SEQUENCE_SET, id) == Ok(is_changed),
        );
    }
}

#[test]
fn a_picture_set_needs_its_sequence_set(rt: HostRuntime) {
    let rt = &rt;
    let mut parser = Parser::new(rt.alloc());
    expect(
        rt,
        keep_picture_set(&mut parser, PICTURE_SET) == Err(ParseError::MissingSps(0)),
    );
    expect(rt, parser.get_pps(0).is_none());
    expect(
        rt,
        keep_sequence_set(&mut parser, PICTURE_SET) == Err(ParseError::WrongNaluType),
    );
    expect(rt, parser.get_sps(0).is_none());
}

/// The first unit of a stream as a slice.
fn slice<'a>(parser: &Parser, stream: &'a [u8]) -> Result<Slice<'a>, ParseError>
    requires { length stream.now < 1000 }
{
    let mut position = 0;
    match Nalu::<NaluHeader>::next(stream, &mut position) {
        Ok(unit) => parser.parse_slice_header(unit),
        Err(_) => Err(ParseError::OutOfBits),
    }
}

/// Why it isn't one.
fn refusal(parser: &Parser, stream: &[u8]) -> Option<ParseError>
    requires { length stream.now < 1000 }
{
    slice(parser, stream).err()
}

#[test]
fn a_p_slice_with_its_sets(rt: HostRuntime) {
    let rt = &rt;
    let mut parser = Parser::new(rt.alloc());
    expect(
        rt,
        refusal(&parser, P_SLICE) == Some(ParseError::MissingPps(0)),
    );
    ok(
        rt,
        keep_sequence_set(&mut parser, SEQUENCE_SET).or(Err("no sequence set")),
    );
    expect(
        rt,
        refusal(&parser, P_SLICE) == Some(ParseError::MissingPps(0)),
    );
    ok(
        rt,
        keep_picture_set(&mut parser, PICTURE_SET).or(Err("no picture set")),
    );
    let slice = ok(rt, slice(&parser, P_SLICE).or(Err("refused")));
    expect_eq(rt, slice.header().num_pic_total_curr, 1);
    expect_eq(rt, slice.header().st_rps_bits, 10);
    expect_eq(rt, slice.header().header_bit_size, 40);
    expect_eq(rt, slice.header().n_emulation_prevention_bytes, 0);
    expect_eq(rt, slice.nalu().size(), 6);
}

#[test]
fn refusals_of_slices_keep_what_is_kept(rt: HostRuntime) {
    let rt = &rt;
    let mut parser = Parser::new(rt.alloc());
    ok(
        rt,
        keep_sequence_set(&mut parser, SEQUENCE_SET).or(Err("no sequence set")),
    );
    ok(
        rt,
        keep_picture_set(&mut parser, PICTURE_SET).or(Err("no picture set")),
    );
    let no_set = Some(ParseError::OutOfRange { table: 14, row: 11 });
    expect(rt, refusal(&parser, NO_SET) == no_set);
    expect(
        rt,
        refusal(&parser, PICTURE_SET) == Some(ParseError::WrongNaluType),
    );
    expect(rt, parser.get_pps(0).is_some());
}

#[test]
fn defaults_of_a_header(rt: HostRuntime) {
    let rt = &rt;
    let alloc = rt.alloc();
    let mut sps = Sps::new(alloc);
    sps.scc_extension.motion_vector_resolution_control_idc = 1;
    let mut pps = Pps::new();
    pps.deblocking_filter_disabled_flag = true;
    let mut header = SliceHeader::new(alloc);
    slice_header_set_defaults(&mut header, &sps, &pps);
    expect(rt, header.use_integer_mv_flag);
    expect(rt, header.deblocking_filter_disabled_flag);
    expect_eq(rt, header.curr_rps_idx, 0);
}
