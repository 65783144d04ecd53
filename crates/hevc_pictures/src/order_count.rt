//! Picture order counts (8.3.1).
ghost use Rattle.std.specs.Prelude.{◌≡◌, ◌↔◌, ◌&&◌, ℕ, pos, ◌-ℤ◌, ◌≤ℤ◌, ◌<ℤ◌, false, true, IfOk};
ghost use Rattle.std.specs.Prelude.{OnOk, OnErr, IsErr};
ghost use Rattle.std.specs.Int.{int_rem_euclid};
ghost use Rattle.hevc_walk.specs.OrderCounts.{centred_difference, nearest, count_behind, is_i32};
ghost use Rattle.hevc_pictures.specs.OrderCounts.{IsMaxPicOrderCntLsb, count_by};

use thiserror::Error;

/// An order count, or its most significant bits, isn't a 32-bit number.
#[derive(Clone, Copy, Debug, PartialEq, Eq, Drop, Error)]
#[error("the order count is out of the range of 32 bits")]
pub struct PocOutOfRange;

/// PicOrderCntVal, and PicOrderCntMsb, which is that less the low bits.
#[derive(Clone, Copy)]
pub(crate) struct OrderCount {
    pub val: i32,
    pub msb: i32,
}

/// The order count of a picture with these low bits, which begins a sequence or follows
/// prevTid0Pic, which has this order count, if there is such a picture.
pub(crate) fn order_count(
    begins_sequence: bool,
    prev_tid0_count: Option<i32>,
    lsb: i32,
    modulus: i32,
) -> Result<OrderCount, PocOutOfRange>
    requires modulus { IsMaxPicOrderCntLsb modulus }
    requires lsb { pos 0 ≤ℤ lsb }
    ensures val { (m n : ℕ) → modulus ≡ pos m → lsb ≡ pos n
        → IfOk result
        (λ o. o.val ≡ count_by begins_sequence m prev_tid0_count n) }
    ensures msb { IfOk result (λ o. o.msb ≡ o.val -ℤ lsb) }
    ensures refused { (m n : ℕ) → modulus ≡ pos m → lsb ≡ pos n
        → IsErr result
        ↔ ((is_i32 (count_by begins_sequence m prev_tid0_count n)
        && is_i32 (count_by begins_sequence m prev_tid0_count n -ℤ pos n))
        ≡ false) }
{
    let count = if begins_sequence {
        lsb as i64
    } else {
        count_behind(prev_tid0_count, lsb, modulus)
    };
    let val = in_range(count)?;
    let msb = in_range(count - lsb as i64)?;
    Ok(OrderCount { val, msb })
}

/// The order count after that of prevTid0Pic, if there is such a picture.
fn count_behind(prev_tid0_count: Option<i32>, lsb: i32, modulus: i32) -> i64
    requires { IsMaxPicOrderCntLsb modulus }
    ensures value { (m n : ℕ) → modulus ≡ pos m → lsb ≡ pos n
        → result ≡ count_behind m prev_tid0_count n }
    ensures above { (pos 0 -ℤ pos 4294967296) <ℤ result }
    ensures below { result <ℤ pos 4294967296 }
{
    // By reference, so that the number is known to have 32 bits.
    match &prev_tid0_count {
        None => lsb as i64,
        Some(earlier) => nearest(*earlier, lsb, modulus),
    }
}

/// A number of 32 bits.
pub(crate) fn in_range(count: i64) -> Result<i32, PocOutOfRange>
    ensures value { IfOk result (λ n. n ≡ count) }
    ensures within { OnOk result (is_i32 count ≡ true) }
    ensures outside { OnErr result (is_i32 count ≡ false) }
{
    if count < -2147483648 || count > 2147483647 {
        return Err(PocOutOfRange);
    }
    Ok(count as i32)
}

/// How far the low bits are above those of an earlier order count, going round (8-1).
fn difference(earlier: i32, lsb: i32, modulus: i32) -> i64
    requires { IsMaxPicOrderCntLsb modulus }
    ensures value { result ≡ int_rem_euclid (lsb -ℤ earlier) modulus }
    ensures from_zero { pos 0 ≤ℤ result }
    ensures below { result <ℤ modulus }
{
    (lsb as i64 - earlier as i64).rem_euclid(modulus as i64)
}

/// A difference of more than half the modulus is one down.
fn centred_difference(difference: i64, modulus: i32) -> i64
    requires modulus { IsMaxPicOrderCntLsb modulus }
    requires from_zero { pos 0 ≤ℤ difference }
    requires below { difference <ℤ modulus }
    ensures value { (m : ℕ) → modulus ≡ pos m → result ≡ centred_difference m difference }
    ensures above { (pos 0 -ℤ pos 65536) <ℤ result }
    ensures below { result <ℤ pos 65536 }
{
    if 2 * difference <= modulus as i64 {
        difference
    } else {
        difference - modulus as i64
    }
}

/// The number that is congruent to the low bits and nearest to an earlier order count (8-1).
fn nearest(earlier: i32, lsb: i32, modulus: i32) -> i64
    requires { IsMaxPicOrderCntLsb modulus }
    ensures value { (m n : ℕ) → modulus ≡ pos m → lsb ≡ pos n → result ≡ nearest m earlier n }
    ensures above { (pos 0 -ℤ pos 4294967296) <ℤ result }
    ensures below { result <ℤ pos 4294967296 }
{
    earlier as i64 + centred_difference(difference(earlier, lsb, modulus), modulus)
}
