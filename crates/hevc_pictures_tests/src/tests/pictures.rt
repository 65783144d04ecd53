//! Pictures by their first slice.
use crate::tests::expect::{expect, expect_eq, ok};
use hevc_bits::{Nalu, NaluHeader};
use hevc_picture_slice::{Slice, SliceHeader};
use hevc_pictures::{Limits, PictureData, PocOutOfRange, Reference};
use hevc_sequence_set::Sps;
use std::alloc::Global;
use std::process::Abort;

/// A picture of this unit and these low bits after a picture of this order count, where
/// MaxPicOrderCntLsb is 16.
fn behind(
    rt: &impl Abort,
    alloc: Global,
    unit: &[u8],
    earlier: i32,
    lsb: u16,
    handle_cra_as_bla: bool,
) -> Result<PictureData, PocOutOfRange> {
    let mut position = 0;
    let nalu: Nalu<'_, NaluHeader> = ok(rt, Nalu::next(unit, &mut position));
    let mut header = SliceHeader::new(alloc);
    header.pic_order_cnt_lsb = lsb;
    header.st_rps_bits = 7;
    let mut prev = PictureData::default();
    prev.pic_order_cnt_val = earlier;
    let slice = Slice::new(header, nalu);
    PictureData::new_from_slice(&slice, false, false, Some(&prev), 16, handle_cra_as_bla)
}

#[test]
fn counts_are_the_nearest(rt: HostRuntime) {
    let rt = &rt;
    let trailing = [0, 0, 1, 2, 1];
    for (earlier, lsb, count) in [(14, 2, 18), (18, 14, 14), (0, 8, 8)] {
        let picture = ok(rt, behind(rt, rt.alloc(), &trailing, earlier, lsb, false));
        expect_eq(rt, picture.pic_order_cnt_val, count);
        expect_eq(rt, picture.pic_order_cnt_msb, count - lsb as i32);
        expect_eq(rt, picture.short_term_ref_pic_set_size_bits, 7);
        expect(
            rt,
            picture.valid_for_prev_tid0_pic && picture.pic_output_flag,
        );
        expect(
            rt,
            !picture.is_ref() && *picture.reference() == Reference::None,
        );
    }
    expect(
        rt,
        behind(rt, rt.alloc(), &trailing, 2147483646, 2, false).is_err(),
    );
}

#[test]
fn a_cra_picture_may_be_handled_as_bla(rt: HostRuntime) {
    let rt = &rt;
    let cra = [0, 0, 1, 42, 1];
    let picture = ok(rt, behind(rt, rt.alloc(), &cra, 14, 2, false));
    expect(rt, picture.is_irap && !picture.no_rasl_output_flag);
    expect_eq(rt, picture.pic_order_cnt_val, 18);
    let mut picture = ok(rt, behind(rt, rt.alloc(), &cra, 14, 2, true));
    expect(
        rt,
        picture.no_rasl_output_flag && picture.no_output_of_prior_pics_flag,
    );
    expect_eq(rt, picture.pic_order_cnt_val, 2);
    picture.set_reference(Reference::LongTerm);
    expect(rt, picture.is_ref());
}

#[test]
fn limits_are_those_of_a_sub_layer(rt: HostRuntime) {
    let sps = Sps::new(rt.alloc());
    let limits = Limits::of(&sps, 6);
    expect(
        &rt,
        limits.reorder == 0 && limits.latency_plus1 == 0 && limits.buffering == 0,
    );
}
