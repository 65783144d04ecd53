//! How many bits the long-term part of a slice header takes.
ghost use Rattle.std.specs.Prelude.{◌≡◌, ◌≤◌, ◌<◌, ◌+◌, ◌*◌};
ghost use Rattle.hevc_tables.specs.SliceHeaderTable.{cycles_before};
ghost use Rattle.hevc_sequence_set.specs.Sps.{plain_sps};
ghost use Rattle.hevc_picture_slice.specs.SliceHeader.{plain_slice_header};
ghost use Rattle.hevc_v4l2.specs.LongTerm.{candidate_count_bits, cycle_bits, long_term_bits};
ghost use Rattle.hevc_v4l2.specs.LongTerm.{long_term_size, picture_bits, ue_bits};

use hevc_picture_slice::{Slice, SliceHeader};
use hevc_sequence_set::Sps;
use hevc_slice_parts::ceil_log2;

/// The bits of rows 14 to 20 of table 14 in the header of a slice, 0 where they are absent.
pub(crate) fn long_term_size(slice: &Slice<'_>, sps: &Sps) -> u16
    ensures { result
        ≡ long_term_size slice.now.nalu.header.nal_unit_type
        (plain_sps sps.now) (plain_slice_header slice.now.header) }
{
    if slice.nalu.header().nalu_type().is_idr() || !sps.long_term_ref_pics_present_flag {
        0
    } else {
        long_term_bits(&slice.header, sps) as u16
    }
}

/// Rows 14 to 20.
fn long_term_bits(header: &SliceHeader, sps: &Sps) -> u32
    ensures value { result ≡ long_term_bits (plain_sps sps.now) (plain_slice_header header.now) }
    ensures few { result ≤ 2000 }
{
    let count = usize::from(header.num_long_term_sps + header.num_long_term_pics);
    let mut bits = candidate_count_bits(header, sps)
        + ue_bits(u64::from(header.num_long_term_pics));
    for i in 0..count {
        bits += picture_bits(header, sps, i);
    }
    bits
}

/// Row 14.
fn candidate_count_bits(header: &SliceHeader, sps: &Sps) -> u32
    ensures value { result
        ≡ candidate_count_bits (plain_sps sps.now) (plain_slice_header header.now) }
    ensures few { result ≤ 63 }
{
    if sps.num_long_term_ref_pics_sps == 0 {
        0
    } else {
        ue_bits(u64::from(header.num_long_term_sps))
    }
}

/// Rows 16 to 20 of a picture.
fn picture_bits(header: &SliceHeader, sps: &Sps, i: usize) -> u32
    requires { i < 16 }
    ensures value { result ≡ picture_bits (plain_sps sps.now) (plain_slice_header header.now) i }
    ensures few { result ≤ 96 }
{
    let named = if i < usize::from(header.num_long_term_sps) {
        ceil_log2(u32::from(sps.num_long_term_ref_pics_sps)) as u32
    } else {
        u32::from(sps.log2_max_pic_order_cnt_lsb_minus4) + 5
    };
    named + cycle_bits(header, i)
}

/// Rows 19 and 20 of a picture.
fn cycle_bits(header: &SliceHeader, i: usize) -> u32
    requires { i < 16 }
    ensures value { result ≡ cycle_bits (plain_slice_header header.now) i }
    ensures few { result ≤ 64 }
{
    if header.delta_poc_msb_present_flag[i] {
        let before = cycles_before(header, i);
        1 + ue_bits(header.delta_poc_msb_cycle_lt[i].saturating_sub(before))
    } else {
        1
    }
}

/// The cycles that those of a picture add up on (7-52).
fn cycles_before(header: &SliceHeader, i: usize) -> u64
    requires { i < 16 }
    ensures { result ≡ cycles_before i (plain_slice_header header.now) }
{
    if i == 0 || i == usize::from(header.num_long_term_sps) {
        0
    } else {
        header.delta_poc_msb_cycle_lt[i - 1]
    }
}

/// The bits of ue(v) (9.2).
fn ue_bits(number: u64) -> u32
    ensures value { result ≡ ue_bits number }
    ensures few { result ≤ 63 }
{
    let number = number.min(2147483647) as u32;
    (2 * ceil_log2(number + 2) as u32).saturating_sub(1)
}
