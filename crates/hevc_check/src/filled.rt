//! Up to which order count the pictures that are stored fill the buffer.
ghost use Rattle.std.specs.Prelude.{FitsSigned, ◌≡◌, ◌+◌, ◌||◌, ◌&&◌, ℤ, int_le, int_lt, count_by};
ghost use Rattle.std.specs.Int.{w32};
ghost use Rattle.hevc_dpb.specs.Plain.{plain_entry, plain_entries};
ghost use Rattle.hevc_check.specs.Filled.{is_full_up_to, is_up_to, is_below, stays_up_to};

use hevc_dpb::DpbEntry;

/// The higher of two order counts.
pub(crate) fn higher_of(one: Option<i32>, other: Option<i32>) -> Option<i32>
    ensures up_to { (c : ℤ) → is_up_to c result ≡ is_up_to c one || is_up_to c other }
    ensures below { (c : ℤ) → is_below c result ≡ is_below c one || is_below c other }
{
    match (one, other) {
        (Some(first), Some(second)) => Some(higher_count(first, second)),
        (Some(_), None) => one,
        (None, _) => other,
    }
}

/// The higher of two order counts.
fn higher_count(one: i32, other: i32) -> i32
    ensures up_to { (c : ℤ) → int_le c result ≡ int_le c one || int_le c other }
    ensures below { (c : ℤ) → int_lt c result ≡ int_lt c one || int_lt c other }
{
    if one < other { other } else { one }
}

/// Whether an order count is no higher than another one, if there is one.
pub(crate) fn is_up_to(count: i32, highest: Option<i32>) -> bool
    ensures { result ≡ is_up_to count highest }
{
    match highest {
        Some(highest) => count <= highest,
        None => false,
    }
}

/// Whether a picture is still stored once all before an order count are output: it is referred to, or is needed for output and isn't
/// output before.
fn stays_up_to(entry: &DpbEntry<()>, count: i32) -> bool
    ensures { result ≡ stays_up_to count (plain_entry entry.now) }
{
    entry.picture.is_ref()
        || entry.picture.needed_for_output && count <= entry.picture.pic_order_cnt_val
}

/// How many of the stored pictures are so.
fn num_staying(entries: &[DpbEntry<()>], count: i32) -> usize
    ensures { result ≡ count_by (λ e. stays_up_to count (plain_entry e)) entries.now }
{
    entries
        .iter()
        .filter(|entry| stays_up_to(entry, count))
        .count()
}

/// Whether these are more than `buffering`, which fills the buffer.
fn is_full_up_to(entries: &[DpbEntry<()>], count: i32, buffering: u8) -> bool
    ensures { result ≡ is_full_up_to (buffering + 1) count (plain_entries entries.now) }
{
    num_staying(entries, count) > buffering as usize
}

/// The order count of a picture, if the buffer is full up to it.
fn full_at(entries: &[DpbEntry<()>], count: i32, buffering: u8) -> Option<i32>
    ensures { (c : ℤ) → is_up_to c result
        ≡ int_le c count && is_full_up_to (buffering + 1) count (plain_entries entries.now) }
{
    if is_full_up_to(entries, count, buffering) {
        Some(count)
    } else {
        None
    }
}

/// The highest order count such that the pictures which are referred to, or are needed for output and
/// aren't output before it, are more than `buffering`: the greatest of all where those that are
/// referred to are.
pub(crate) fn full_up_to(entries: &[DpbEntry<()>], buffering: u8) -> Option<i32>
    ensures { (c : ℤ) → FitsSigned w32 c
        → is_up_to c result ≡ is_full_up_to (buffering + 1) c (plain_entries entries.now) }
{
    if is_full_up_to(entries, i32::MAX, buffering) {
        return Some(i32::MAX);
    }
    let mut highest = None;
    for entry in entries {
        let count = entry.picture.pic_order_cnt_val;
        highest = higher_of(highest, full_at(entries, count, buffering));
    }
    highest
}
