//! How many pictures a slice may refer to (7-55).
ghost use Rattle.std.specs.Prelude.{◌≡◌, ◌≤◌};
ghost use Rattle.hevc_tables.specs.SliceHeaderTable as table;
ghost use Rattle.hevc_set_parts.specs.ShortTermRefPicSet.{plain_short_term_ref_pic_set};
ghost use Rattle.hevc_sequence_set.specs.Sps.{plain_sps};
ghost use Rattle.hevc_picture_slice.specs.Pps.{plain_pps};
ghost use Rattle.hevc_picture_slice.specs.SliceHeader.{plain_slice_header};

use hevc_picture_slice::{Pps, SliceHeader};
use hevc_sequence_set::Sps;
use hevc_set_parts::ShortTermRefPicSet;

/// NumPicTotalCurr (7-55), at most 33.
#[tactic(auto, unfolding(hevc_tables::specs::SliceHeaderTable::num_pic_total_curr))]
pub(crate) fn num_pic_total_curr(sps: &Sps, pps: &Pps, h: &SliceHeader) -> u32
    ensures value { result
        ≡ table.num_pic_total_curr (plain_sps sps.now) (plain_pps pps.now)
        (plain_slice_header h.now) }
    ensures few { result ≤ 33 }
{
    let num_long_term = h.num_long_term_sps + h.num_long_term_pics;
    let others = num_used_short_term_of(sps, h) + count_set(num_long_term, &h.used_by_curr_pic_lt);
    if pps.scc_extension.curr_pic_ref_enabled_flag {
        others + 1
    } else {
        others
    }
}

/// The members of the current short-term set that the picture may refer to.
#[tactic(auto, using(crate::proofs::UsedMembers::pictures))]
fn num_used_short_term_of(sps: &Sps, h: &SliceHeader) -> u32
    ensures value { result
        ≡ table.num_used_short_term
        (table.current_short_term_set (plain_sps sps.now) (plain_slice_header h.now)) }
    ensures few { result ≤ 16 }
{
    if h.short_term_ref_pic_set_sps_flag {
        let idx = usize::from(h.short_term_ref_pic_set_idx);
        match sps.short_term_ref_pic_set.as_slice().get(idx) {
            Some(set) => num_used_short_term(set),
            None => 0,
        }
    } else {
        num_used_short_term(&h.short_term_ref_pic_set)
    }
}

/// The members of a short-term set that the current picture may refer to.
fn num_used_short_term(set: &ShortTermRefPicSet) -> u32
    ensures value { result ≡ table.num_used_short_term (plain_short_term_ref_pic_set set.now) }
    ensures few { result ≤ 16 }
{
    count_set(set.num_negative_pics, &set.used_by_curr_pic_s0)
        + count_set(set.num_positive_pics, &set.used_by_curr_pic_s1)
}

/// How many of the first `n` flags are set.
#[tactic(auto, using(crate::proofs::UsedMembers::counts))]
fn count_set(n: u8, flags: &[bool; 16]) -> u32
    requires { n ≤ 16 }
    ensures value { result ≡ table.count_set n flags.now }
    ensures few { result ≤ n }
{
    let mut count = 0;
    for i in 0..usize::from(n) {
        if flags[i] {
            count += 1;
        }
    }
    count
}
