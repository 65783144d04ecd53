//! Small buffers, each call once.
use crate::tests::expect::{expect, expect_eq, ok, some};
use hevc_dpb::{Dpb, Limits, PictureData, Reference};

fn picture(count: i32, output: bool) -> PictureData {
    let mut picture = PictureData::default();
    picture.pic_order_cnt_val = count;
    picture.pic_output_flag = output;
    picture
}

#[test]
fn waiting_pictures_are_in_order(rt: HostRuntime) {
    let rt = &rt;
    let alloc = rt.alloc();
    let mut dpb: Dpb<u64> = Dpb::new(alloc);
    expect(rt, dpb.bump(true).is_none());
    expect(rt, dpb.store_picture(7, picture(4, true), 70).is_err());
    expect(rt, dpb.is_empty());
    ok(rt, dpb.reserve());
    dpb.set_max_num_pics(3);
    expect(rt, dpb.store_picture(7, picture(4, true), 70).is_ok());
    expect(rt, dpb.store_picture(8, picture(0, true), 80).is_ok());
    expect(rt, dpb.store_picture(9, picture(2, true), 90).is_ok());
    expect(
        rt,
        some(rt, dpb.waiting_positions()) == [1, 2, 0].as_slice(),
    );
    expect_eq(rt, dpb.len(), dpb.max_num_pics());
    dpb.picture_mut(0).pic_order_cnt_val = 1;
    expect(rt, dpb.waiting_positions().is_none());
    expect_eq(rt, some(rt, dpb.bump(false)).number, 8);
    expect(rt, some(rt, dpb.waiting_positions()) == [0, 2].as_slice());
    expect_eq(rt, some(rt, dpb.bump(false)).handle, 70);
    expect_eq(rt, some(rt, dpb.bump(false)).number, 9);
    expect(rt, dpb.bump(false).is_none());
    expect(rt, some(rt, dpb.waiting_positions()).is_empty());
    expect_eq(rt, dpb.len(), 3);
}

#[test]
fn a_late_picture_is_bumped(rt: HostRuntime) {
    let rt = &rt;
    let alloc = rt.alloc();
    let mut dpb: Dpb<u64> = Dpb::new(alloc);
    ok(rt, dpb.reserve());
    dpb.set_max_num_pics(3);
    let limits = Limits {
        reorder: 2,
        latency_plus1: 1,
        buffering: 4,
    };
    ok(rt, dpb.store_picture(0, picture(0, true), 0));
    ok(rt, dpb.store_picture(1, picture(1, false), 0));
    expect(rt, !dpb.needs_additional_bumping(&limits));
    ok(rt, dpb.store_picture(2, picture(2, false), 0));
    expect(rt, dpb.needs_additional_bumping(&limits));
    expect(rt, dpb.needs_bumping(&limits));
    let first = some(rt, dpb.pictures().next());
    expect_eq(rt, first.pic_latency_cnt, 2);
}

#[test]
fn equal_counts_are_drained_in_stored_order(rt: HostRuntime) {
    let rt = &rt;
    let alloc = rt.alloc();
    let mut dpb: Dpb<u64> = Dpb::new(alloc);
    ok(rt, dpb.reserve());
    dpb.set_max_num_pics(4);
    ok(rt, dpb.store_picture(7, picture(4, true), 0));
    ok(rt, dpb.store_picture(8, picture(0, true), 0));
    ok(rt, dpb.store_picture(9, picture(0, true), 0));
    ok(rt, dpb.store_picture(10, picture(1, false), 0));
    let mut out = Vec::new(alloc);
    ok(rt, dpb.drain(&mut out));
    assert_eq!(rt; out.len(), 3);
    expect_eq(rt, out[0].number, 8);
    expect_eq(rt, out[1].number, 9);
    expect_eq(rt, out[2].number, 7);
    expect_eq(rt, dpb.len(), 1);
    dpb.clear();
    expect(rt, dpb.is_empty());
}

#[test]
fn marked_pictures_are_found(rt: HostRuntime) {
    let rt = &rt;
    let alloc = rt.alloc();
    let mut dpb: Dpb<u64> = Dpb::new(alloc);
    ok(rt, dpb.reserve());
    dpb.set_max_num_pics(3);
    ok(rt, dpb.store_picture(1, picture(-3, false), 0));
    ok(rt, dpb.store_picture(2, picture(29, false), 0));
    ok(rt, dpb.store_picture(3, picture(-3, false), 0));
    dpb.set_reference_at(0, Reference::LongTerm);
    expect(rt, dpb.find_ref_by_poc(-3) == Some(1));
    expect(rt, dpb.find_short_term_ref_by_poc(-3) == Some(3));
    expect(rt, dpb.find_ref_by_poc_masked(13, 15) == Some(1));
    dpb.set_reference_at(0, Reference::None);
    expect(rt, dpb.find_ref_by_poc_masked(13, 15) == Some(2));
    expect(rt, dpb.find_ref_by_poc(13).is_none());
    expect(rt, dpb.get_all_references().as_slice() == [2, 3].as_slice());
    dpb.remove_unused();
    expect_eq(rt, some(rt, dpb.entries().get(0)).number, 2);
    dpb.mark_all_as_unused_for_ref();
    dpb.remove_unused();
    expect(rt, dpb.is_empty());
}
