//! Pictures that are due, and all that are needed for output.
use crate::tests::expect::{expect, expect_eq, ok, some};
use hevc_bumping::{Frame, bump_additionally, bump_for_room, output_all};
use hevc_dpb::{Dpb, Limits, PictureData};
use std::collections::VecDeque;
use std::test::Fail;

fn picture(count: i32) -> PictureData {
    let mut picture = PictureData::default();
    picture.pic_order_cnt_val = count;
    picture.pic_output_flag = true;
    picture
}

#[test]
fn what_is_due_is_output_in_order(rt: HostRuntime) -> Result<(), Fail> {
    let rt = &rt;
    let alloc = rt.alloc();
    let mut dpb: Dpb<u64> = Dpb::new(alloc);
    dpb.reserve()?;
    dpb.set_max_num_pics(4);
    ok(rt, dpb.store_picture(7, picture(4), 70));
    ok(rt, dpb.store_picture(8, picture(0), 80));
    ok(rt, dpb.store_picture(9, picture(2), 90));
    let limits = Limits {
        reorder: 1,
        latency_plus1: 0,
        buffering: 1,
    };
    let mut queue = VecDeque::new(alloc);
    queue.reserve(16)?;
    bump_additionally(&mut dpb, &limits, &mut queue);
    expect_eq(rt, queue.len(), 2);
    let first: Frame<u64> = some(rt, queue.pop_front());
    expect_eq(
        rt,
        (first.number, first.handle, first.order_count),
        (8, 80, 0),
    );
    let second = some(rt, queue.pop_front());
    expect_eq(
        rt,
        (second.number, second.handle, second.order_count),
        (9, 90, 2),
    );
    expect_eq(rt, dpb.len(), 3);
    queue.reserve(16)?;
    bump_for_room(&mut dpb, &limits, &mut queue);
    expect_eq(rt, queue.len(), 1);
    expect_eq(rt, some(rt, queue.pop_front()).number, 7);
    Ok(())
}

#[test]
fn all_that_waits_is_output_and_the_buffer_is_emptied(rt: HostRuntime) {
    let rt = &rt;
    let alloc = rt.alloc();
    let mut dpb: Dpb<u64> = Dpb::new(alloc);
    ok(rt, dpb.reserve());
    dpb.set_max_num_pics(2);
    ok(rt, dpb.store_picture(0, picture(8), 1));
    ok(rt, dpb.store_picture(1, picture(-4), 2));
    let mut queue = VecDeque::new(alloc);
    ok(rt, queue.reserve(16));
    output_all(&mut dpb, &mut queue);
    expect(rt, dpb.is_empty());
    expect_eq(rt, queue.len(), 2);
    expect_eq(rt, some(rt, queue.pop_front()).number, 1);
    expect_eq(rt, some(rt, queue.pop_front()).number, 0);
}
