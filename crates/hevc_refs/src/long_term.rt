//! The long-term members of a reference picture set (8.3.2).
ghost use Rattle.std.specs.Int.{int_rem_euclid};
ghost use Rattle.std.specs.Prelude.{◌≡◌, ◌≤◌, ◌<◌, ◌+◌, ◌*◌, ◌&&◌, ◌<ℤ◌, ◌≤ℤ◌, ℕ, pos, not, map};
ghost use Rattle.std.specs.Prelude.{filter};
ghost use Rattle.arrayvec.specs.ArrayVec.{array_vec_len};
ghost use Rattle.hevc_walk_inputs.specs.Headers.{long_term_member, long_term_members};
ghost use Rattle.hevc_picture_slice.specs.SliceHeader.{plain_slice_header};
ghost use Rattle.hevc_walk.specs.Meanings.{Slice};
ghost use Rattle.hevc_walk.specs.Pictures.{Head};
ghost use Rattle.hevc_walk.specs.Buffer.{Entry, is_reference};
ghost use Rattle.hevc_walk.specs.ReferenceSets.{long_term_count, is_named, long_term_entry};
ghost use Rattle.hevc_walk.specs.ReferenceSets.{is_curr_long_term};
ghost use Rattle.hevc_pictures.specs.OrderCounts.{IsMaxPicOrderCntLsb};
ghost use Rattle.hevc_dpb.specs.Sought.{fits, HasModulus};
ghost use Rattle.hevc_dpb.specs.Views.{buffer_of};

use crate::ref_pic_set::{RefPicSet, push_if};
use hevc_dpb::{Dpb, Sought};
use hevc_picture_slice::SliceHeader;

/// So many times MaxPicOrderCntLsb.
fn cycles(cycle: u64, modulus: i32) -> i128
    requires { IsMaxPicOrderCntLsb modulus }
    ensures value { (m : ℕ) → modulus ≡ pos m → result ≡ pos (cycle * m) }
    ensures from_zero { pos 0 ≤ℤ result }
    ensures below { result <ℤ pos 1208925819614629174706177 }
{
    (cycle as u128 * modulus as u128) as i128
}

/// The low bits of an order count.
fn low_bits(order_count: i32, modulus: i32) -> i32
    requires { IsMaxPicOrderCntLsb modulus }
    ensures value { (m : ℕ) → modulus ≡ pos m → result ≡ int_rem_euclid order_count (pos m) }
    ensures from_zero { pos 0 ≤ℤ result }
{
    order_count.rem_euclid(modulus)
}

/// pocLt with its most significant bits (8-5).
fn whole_count(order_count: i32, cycle: u64, modulus: i32, lsb: u32) -> i128
    requires { IsMaxPicOrderCntLsb modulus }
    ensures { (m : ℕ) → modulus ≡ pos m → result ≡ long_term_count order_count m cycle lsb }
{
    order_count as i128 - cycles(cycle, modulus) - low_bits(order_count, modulus) as i128
        + lsb as i128
}

/// What is looked for as a long-term member: low bits, or a whole order count where its most
/// significant bits are signalled.
fn sought(order_count: i32, header: &SliceHeader, i: usize, modulus: i32) -> Sought
    requires within { i < 16 }
    requires modulus { IsMaxPicOrderCntLsb modulus }
    ensures modulus { HasModulus result }
    ensures fits { (p : Head) (first : Slice) (e : Entry) → order_count ≡ p.order_count
        → modulus ≡ pos first.max_pic_order_cnt_lsb
        → fits result e
        ≡ (is_reference e.mark && is_named p first
        (long_term_member (plain_slice_header header.now) i).poc_lsb
        (long_term_member (plain_slice_header header.now) i).delta_poc_msb_cycle e.order_count) }
{
    let lsb = header.poc_lsb_lt[i];
    if header.delta_poc_msb_present_flag[i] {
        let cycle = header.delta_poc_msb_cycle_lt[i];
        Sought::Count(whole_count(order_count, cycle, modulus, lsb))
    } else {
        Sought::CountModulo((lsb % modulus as u32) as i32, modulus)
    }
}

/// A long-term member is the first reference picture that it names.
fn number_of<T: Copy>(
    dpb: &Dpb<T>,
    order_count: i32,
    header: &SliceHeader,
    i: usize,
    modulus: i32,
) -> Option<u64>
    requires within { i < 16 }
    requires modulus { IsMaxPicOrderCntLsb modulus }
    ensures { (p : Head) (first : Slice) → order_count ≡ p.order_count
        → modulus ≡ pos first.max_pic_order_cnt_lsb
        → result ≡ long_term_entry p first (buffer_of dpb.now)
        (long_term_member (plain_slice_header header.now) i) }
{
    dpb.find(sought(order_count, header, i, modulus))
}

/// RefPicSetLtCurr and RefPicSetLtFoll: the long-term members, those that the picture itself may
/// refer to apart.
pub(crate) fn find_long_term<T: Copy>(
    dpb: &Dpb<T>,
    order_count: i32,
    header: &SliceHeader,
    modulus: i32,
    out: &mut RefPicSet,
)
    requires { IsMaxPicOrderCntLsb modulus }
    ensures curr { (p : Head) (first : Slice) → order_count ≡ p.order_count
        → modulus ≡ pos first.max_pic_order_cnt_lsb
        → out.new.lt_curr.items ≡ map (long_term_entry p first (buffer_of dpb.now))
        (filter is_curr_long_term (long_term_members (plain_slice_header header.now))) }
    ensures foll { (p : Head) (first : Slice) → order_count ≡ p.order_count
        → modulus ≡ pos first.max_pic_order_cnt_lsb
        → out.new.lt_foll.items ≡ map (long_term_entry p first (buffer_of dpb.now))
        (filter (λ m. not (is_curr_long_term m))
        (long_term_members (plain_slice_header header.now))) }
{
    let (curr, foll) = (&mut out.lt_curr, &mut out.lt_foll);
    curr.clear();
    foll.clear();
    let num_members = header.num_long_term_sps as usize + header.num_long_term_pics as usize;
    for i in 0..num_members {
        let number = number_of(dpb, order_count, header, i, modulus);
        let is_used = header.used_by_curr_pic_lt[i];
        push_if(curr, number, is_used);
        push_if(foll, number, !is_used);
    }
}
