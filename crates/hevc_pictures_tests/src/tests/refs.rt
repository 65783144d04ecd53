//! Sets and lists over a buffer of three pictures.
ghost use Rattle.std.specs.Prelude.{pos, ◌<ℤ◌};

use crate::tests::expect::{expect, ok, some};
use hevc_bits::NaluType;
use hevc_dpb::{Dpb, PictureData, Reference};
use hevc_picture_slice::SliceHeader;
use hevc_refs::{RefPicListEntry, RefPicSet, build_ref_pic_lists, derive_and_mark};
use hevc_set_parts::{ShortTermRefPicSet, SliceType};
use std::alloc::Global;
use std::process::Abort;

fn picture(count: i32) -> PictureData {
    let mut picture = PictureData::default();
    picture.nalu_type = NaluType::TrailR;
    picture.pic_order_cnt_val = count;
    picture
}

/// A buffer of pictures 0, 1 and 2 of order counts 0, 4 and 20.
fn buffer(rt: &impl Abort, alloc: Global) -> Dpb<u64> {
    let mut dpb = Dpb::new(alloc);
    ok(rt, dpb.reserve());
    dpb.set_max_num_pics(3);
    ok(rt, dpb.store_picture(0, picture(0), 0));
    ok(rt, dpb.store_picture(1, picture(4), 0));
    ok(rt, dpb.store_picture(2, picture(20), 0));
    dpb
}

/// A set of one picture before the current one, and used by it.
fn one_before(delta: i32) -> ShortTermRefPicSet
    requires { delta <ℤ pos 0 }
{
    let mut deltas = [0; 16];
    deltas[0] = delta;
    let mut used = [false; 16];
    used[0] = true;
    ShortTermRefPicSet {
        inter_ref_pic_set_prediction_flag: false,
        delta_idx_minus1: 0,
        delta_rps_sign: false,
        abs_delta_rps_minus1: 0,
        num_negative_pics: 1,
        num_positive_pics: 0,
        delta_poc_s0: deltas,
        used_by_curr_pic_s0: used,
        delta_poc_s1: [0; 16],
        used_by_curr_pic_s1: [false; 16],
        num_delta_pocs: 1,
    }
}

#[test]
fn long_term_members_are_found_first(rt: HostRuntime) {
    let rt = &rt;
    let mut dpb = buffer(rt, rt.alloc());
    let mut header = SliceHeader::new(rt.alloc());
    header.num_long_term_pics = 3;
    header.poc_lsb_lt[0] = 4;
    header.used_by_curr_pic_lt[0] = true;
    header.poc_lsb_lt[1] = 4;
    header.delta_poc_msb_present_flag[1] = true;
    header.delta_poc_msb_cycle_lt[1] = 1;
    header.poc_lsb_lt[2] = 4;
    header.delta_poc_msb_present_flag[2] = true;
    header.delta_poc_msb_cycle_lt[2] = 18446744073709551615;
    let set = derive_and_mark(&mut dpb, &picture(24), &header, &one_before(-20), 16);
    expect(rt, set.lt_curr() == [Some(1)].as_slice());
    expect(rt, set.lt_foll() == [Some(1), None].as_slice());
    expect(rt, set.st_curr_before() == [None].as_slice());
    let second = some(rt, dpb.entries().get(1));
    expect(rt, *second.picture.reference() == Reference::LongTerm);
    expect(rt, dpb.get_all_references().as_slice() == [1].as_slice());
}

#[test]
fn sixteen_members_may_name_one_picture(rt: HostRuntime) {
    let rt = &rt;
    let mut dpb = buffer(rt, rt.alloc());
    let mut header = SliceHeader::new(rt.alloc());
    header.num_long_term_pics = 16;
    header.poc_lsb_lt = [4; 16];
    header.used_by_curr_pic_lt = [true; 16];
    let set = derive_and_mark(
        &mut dpb,
        &picture(24),
        &header,
        &ShortTermRefPicSet::new(),
        16,
    );
    expect(rt, set.lt_curr() == [Some(1); 16].as_slice());
    expect(rt, dpb.get_all_references().as_slice() == [1].as_slice());
}

#[test]
fn an_idr_picture_refers_to_nothing(rt: HostRuntime) {
    let rt = &rt;
    let mut dpb = buffer(rt, rt.alloc());
    let mut idr = picture(0);
    idr.nalu_type = NaluType::IdrNLp;
    let header = SliceHeader::new(rt.alloc());
    let set = derive_and_mark(&mut dpb, &idr, &header, &one_before(-4), 16);
    expect(
        rt,
        set.st_curr_before().is_empty() && set.st_foll().is_empty(),
    );
    expect(rt, dpb.get_all_references().is_empty());
}

#[test]
fn lists_go_round_their_base(rt: HostRuntime) {
    let rt = &rt;
    let mut dpb = buffer(rt, rt.alloc());
    let mut header = SliceHeader::new(rt.alloc());
    header.num_ref_idx_l0_active_minus1 = 2;
    header.num_pic_total_curr = 4;
    let set = derive_and_mark(&mut dpb, &picture(24), &header, &one_before(-4), 16);
    expect(rt, set.st_curr_before() == [Some(2)].as_slice());
    let lists = build_ref_pic_lists(&header, &set, false);
    let stored = Some(RefPicListEntry::DpbEntry(2));
    expect(
        rt,
        lists.ref_pic_list0.as_slice() == [stored, stored, stored].as_slice(),
    );
    expect(rt, lists.ref_pic_list1.as_slice().is_empty());
    let current = Some(RefPicListEntry::CurrentPicture);
    let lists = build_ref_pic_lists(&header, &set, true);
    expect(
        rt,
        lists.ref_pic_list0.as_slice() == [stored, current, current].as_slice(),
    );
    header.type_ = SliceType::B;
    let lists = build_ref_pic_lists(&header, &RefPicSet::new(), false);
    expect(rt, lists.ref_pic_list1.as_slice() == [None].as_slice());
    header.type_ = SliceType::I;
    let lists = build_ref_pic_lists(&header, &set, true);
    expect(rt, lists.ref_pic_list0.as_slice().is_empty());
}
