//! Sets in any order.
use crate::tests::expect::{expect, expect_eq, ok};
use crate::tests::streams::{PICTURE_SET, SEQUENCE_SET, VIDEO_SET};
use hevc_bits::{Nalu, NaluHeader, NaluType};
use hevc_kept_sets::{KeptSets, Options};
use std::alloc::Global;
use std::process::Abort;

/// Another sequence set of that id, with samples of 10 bits.
const DEEP_SET: &[u8] = &[
    0x00, 0x00, 0x01, 0x42, 0x01, 0x01, 0x01, 0x60, 0x00, 0x00, 0x03, 0x00, 0x90, 0x00, 0x00, 0x03,
    0x00, 0x00, 0x03, 0x00, 0x3c, 0xa0, 0x88, 0x44, 0xde, 0x55, 0xab, 0xc2, 0x08,
];

/// The same one of id 1.
const OTHER_DEEP_SET: &[u8] = &[
    0x00, 0x00, 0x01, 0x42, 0x01, 0x01, 0x01, 0x60, 0x00, 0x00, 0x03, 0x00, 0x90, 0x00, 0x00, 0x03,
    0x00, 0x00, 0x03, 0x00, 0x3c, 0x48, 0x22, 0x11, 0x37, 0x95, 0x6a, 0xf0, 0x82,
];

/// Another picture set of that id, with dependent slice segments.
const LATER_SET: &[u8] = &[0x00, 0x00, 0x01, 0x44, 0x01, 0xe0, 0x71, 0x80, 0x12];

/// The later set where it names the sequence set of id 1.
const OTHER_PICTURE_SET: &[u8] = &[0x00, 0x00, 0x01, 0x44, 0x01, 0xa8, 0x1c, 0x60, 0x04, 0x80];

/// Another one of that id, whose quantiser of -30 wants more than 8 bits.
const DEEP_PICTURE_SET: &[u8] = &[
    0x00, 0x00, 0x01, 0x44, 0x01, 0xc0, 0x60, 0xf4, 0x60, 0x04, 0x80,
];

/// A picture set whose payload ends after its ids.
const BROKEN_SET: &[u8] = &[0x00, 0x00, 0x01, 0x44, 0x01, 0xc0];

/// Takes the first unit of each of these streams.
fn take(sets: &mut KeptSets, streams: &[&[u8]]) -> Result<(), &'static str> {
    for stream in streams {
        take_one(sets, stream)?;
    }
    Ok(())
}

/// Takes the first unit of a short stream.
fn take_one(sets: &mut KeptSets, stream: &[u8]) -> Result<(), &'static str> {
    if stream.len() >= 1000 {
        return Err("a long stream");
    }
    let mut position = 0;
    let Ok(unit) = Nalu::<NaluHeader>::next(stream, &mut position) else {
        return Err("no unit");
    };
    if !sets.options().wants(unit.header()) {
        return Ok(());
    }
    match unit.header().nalu_type() {
        NaluType::VpsNut => sets.take_video_set(&unit).or(Err("no video set"))?,
        NaluType::SpsNut => {
            sets.keep_sequence_set(&unit).or(Err("no sequence set"))?;
            sets.read_waiting().or(Err("no memory"))?;
        }
        NaluType::PpsNut => sets.take_picture_set(&unit).or(Err("no memory"))?,
        _ => {}
    }
    Ok(())
}

/// Whether the picture set of id 0 has dependent slice segments, if it is kept.
fn picture_set_kept(sets: &KeptSets) -> Option<bool> {
    let set = sets.parser().get_pps(0)?;
    Some(set.dependent_slice_segments_enabled_flag)
}

/// So many picture sets wait, and that of id 0 has dependent slice segments or hasn't, if it is
/// kept.
fn stand(rt: &impl Abort, sets: &KeptSets, waiting: usize, kept: Option<bool>) {
    expect_eq(rt, sets.num_waiting(), waiting);
    expect_eq(rt, picture_set_kept(sets), kept);
}

/// How many bits above 8 the luma samples have by the sequence set of id 0, if it is kept.
fn depth_kept(sets: &KeptSets) -> Option<u8> {
    let set = sets.parser().get_sps(0)?;
    Some(set.bit_depth_luma_minus8)
}

#[test]
fn a_repeated_sequence_set_is_the_one_that_was_read(rt: HostRuntime) {
    let rt = &rt;
    let mut sets = KeptSets::new(rt.alloc(), Options::new());
    ok(rt, take(&mut sets, &[SEQUENCE_SET, DEEP_SET, DEEP_SET]));
    expect_eq(rt, depth_kept(&sets), Some(2));
    ok(
        rt,
        take(&mut sets, &[SEQUENCE_SET, OTHER_DEEP_SET, SEQUENCE_SET]),
    );
    expect_eq(rt, depth_kept(&sets), Some(0));
}

#[test]
fn a_picture_set_waits_for_its_sequence_set(rt: HostRuntime) {
    let rt = &rt;
    let mut sets = KeptSets::new(rt.alloc(), Options::new());
    ok(rt, take(&mut sets, &[VIDEO_SET, PICTURE_SET]));
    stand(rt, &sets, 1, None);
    ok(rt, take(&mut sets, &[SEQUENCE_SET]));
    stand(rt, &sets, 0, Some(false));
    expect(rt, sets.parser().get_vps(0).is_some());
}

#[test]
fn the_later_waiting_set_of_an_id_stands(rt: HostRuntime) {
    let rt = &rt;
    let mut sets = KeptSets::new(rt.alloc(), Options::new());
    ok(rt, take(&mut sets, &[PICTURE_SET, LATER_SET]));
    expect_eq(rt, sets.num_waiting(), 2);
    ok(rt, take(&mut sets, &[SEQUENCE_SET]));
    stand(rt, &sets, 0, Some(true));
    ok(rt, take(&mut sets, &[PICTURE_SET]));
    stand(rt, &sets, 0, Some(false));
}

#[test]
fn a_broken_set_waits_on(rt: HostRuntime) {
    let rt = &rt;
    let mut sets = KeptSets::new(rt.alloc(), Options::new());
    ok(
        rt,
        take(&mut sets, &[BROKEN_SET, PICTURE_SET, SEQUENCE_SET]),
    );
    stand(rt, &sets, 1, Some(false));
    ok(rt, take(&mut sets, &[SEQUENCE_SET]));
    stand(rt, &sets, 1, Some(false));
}

#[test]
fn a_set_waits_on_where_its_sequence_set_is_repeated(rt: HostRuntime) {
    let rt = &rt;
    let mut sets = KeptSets::new(rt.alloc(), Options::new());
    ok(
        rt,
        take(&mut sets, &[SEQUENCE_SET, DEEP_PICTURE_SET, SEQUENCE_SET]),
    );
    stand(rt, &sets, 1, None);
    ok(rt, take(&mut sets, &[DEEP_SET]));
    stand(rt, &sets, 0, Some(false));
}

#[test]
fn a_set_waits_on_where_another_sequence_set_changes(rt: HostRuntime) {
    let rt = &rt;
    let mut sets = KeptSets::new(rt.alloc(), Options::new());
    ok(rt, take(&mut sets, &[DEEP_PICTURE_SET, OTHER_DEEP_SET]));
    stand(rt, &sets, 1, None);
    ok(rt, take(&mut sets, &[SEQUENCE_SET]));
    expect_eq(rt, sets.num_waiting(), 1);
    ok(rt, take(&mut sets, &[OTHER_DEEP_SET]));
    expect_eq(rt, sets.num_waiting(), 1);
    ok(rt, take(&mut sets, &[DEEP_SET]));
    stand(rt, &sets, 0, Some(false));
}

#[test]
fn the_sets_of_one_sequence_set_are_read_in_their_order(rt: HostRuntime) {
    let rt = &rt;
    let mut sets = KeptSets::new(rt.alloc(), Options::new());
    ok(
        rt,
        take(
            &mut sets,
            &[
                LATER_SET,
                OTHER_PICTURE_SET,
                BROKEN_SET,
                PICTURE_SET,
                SEQUENCE_SET,
            ],
        ),
    );
    stand(rt, &sets, 2, Some(false));
    ok(rt, take(&mut sets, &[OTHER_DEEP_SET]));
    stand(rt, &sets, 1, Some(true));
}

#[test]
fn a_set_that_names_none_waits_on(rt: HostRuntime) {
    let mut sets = KeptSets::new(rt.alloc(), Options::new());
    ok(
        &rt,
        take(
            &mut sets,
            &[
                &[0x00, 0x00, 0x01, 0x44, 0x01, 0x80],
                SEQUENCE_SET,
                OTHER_DEEP_SET,
            ],
        ),
    );
    expect_eq(&rt, sets.num_waiting(), 1);
}

/// Under these options this picture set is passed over.
fn passes_over(rt: &impl Abort, alloc: Global, options: Options, picture_set: &[u8]) {
    let mut sets = KeptSets::new(alloc, options);
    ok(rt, take(&mut sets, &[SEQUENCE_SET, picture_set]));
    stand(rt, &sets, 0, None);
}

#[test]
fn sub_layers_above_the_wanted_ones(rt: HostRuntime) {
    let options = Options {
        highest_tid: 0,
        ..Options::new()
    };
    let upper = [0x00, 0x00, 0x01, 0x44, 0x02, 0xc0, 0x71, 0x80, 0x12];
    passes_over(&rt, rt.alloc(), options, &upper);
}

#[test]
fn layers_above_the_wanted_ones(rt: HostRuntime) {
    let options = Options {
        highest_layer: 0,
        ..Options::new()
    };
    let upper = [0x00, 0x00, 0x01, 0x44, 0x09, 0xc0, 0x71, 0x80, 0x12];
    passes_over(&rt, rt.alloc(), options, &upper);
}
