//! The weights of predictions: `struct v4l2_hevc_pred_weight_table`.
ghost use Rattle.std.specs.Prelude.{◌≡◌, ◌≤◌, ◌^◌, pos, negsuc, neg_ℤ, ◌≤ℤ◌, ◌+ℤ◌, ◌-ℤ◌, ◌*ℤ◌};
ghost use Rattle.std.specs.Prelude.{IsTrue, IfOk};
ghost use Rattle.std.specs.Int.{int_shr};
ghost use Rattle.std.specs.Result.{result_err};
ghost use Rattle.hevc_video_set.specs.PredWeightTable.{plain_pred_weight_table};
ghost use Rattle.hevc_v4l2.specs.Weights.{chroma_offset, chroma_offset_pair, chroma_offsets};
ghost use Rattle.hevc_v4l2.specs.Weights.{chroma_offsets_of};
ghost use Rattle.hevc_v4l2.specs.Weights.{chroma_fits, clip3, control_of_weights, luma_fits};
ghost use Rattle.hevc_v4l2.specs.Weights.{offsets_error, weights_error, with_chroma_offsets};

use crate::arrays::{
    are_signed_byte_pairs, are_signed_bytes, padded_numbers, padded_pairs, signed_byte_pairs_of,
    signed_bytes_of,
};
use crate::error::ControlError;
use hevc_sequence_set::Sps;
use hevc_video_set::PredWeightTable;

/// `struct v4l2_hevc_pred_weight_table`: the weights and offsets of weighted prediction (7.3.6.3),
/// with 16 places for the 15 entries of a list.
#[repr(C)]
#[derive(Clone, Copy)]
pub struct V4l2HevcPredWeightTable {
    pub delta_luma_weight_l0: [i8; 16],
    pub luma_offset_l0: [i8; 16],
    pub delta_chroma_weight_l0: [[i8; 2]; 16],
    /// ChromaOffsetL0 (7-56), which isn't the element of H.265 that it is computed from.
    pub chroma_offset_l0: [[i8; 2]; 16],
    pub delta_luma_weight_l1: [i8; 16],
    pub luma_offset_l1: [i8; 16],
    pub delta_chroma_weight_l1: [[i8; 2]; 16],
    /// ChromaOffsetL1.
    pub chroma_offset_l1: [[i8; 2]; 16],
    pub luma_log2_weight_denom: u8,
    pub delta_chroma_log2_weight_denom: i8,
}

const _: () = prove!(size_of::<V4l2HevcPredWeightTable>() == 194);

/// What chroma offsets are computed by.
#[derive(Clone, Copy)]
struct ChromaScale {
    /// WpOffsetHalfRangeC (7.4.3.2.2).
    half_range: i32,
    /// ChromaLog2WeightDenom (7.4.7.3).
    log2_denominator: u8,
    ghost least: { pos 1 ≤ℤ half_range },
    ghost most: { half_range ≤ℤ pos 8192 },
    ghost denominator: { log2_denominator ≤ 7 },
}

/// The offsets of chroma of a slice's weights, of Cb and Cr: -8192 to 8191.
#[derive(Clone, Copy)]
pub struct ChromaOffsets {
    /// ChromaOffsetL0 (7-56) of each entry of list 0.
    pub l0: [[i16; 2]; 15],
    /// ChromaOffsetL1 of each entry of list 1.
    pub l1: [[i16; 2]; 15],
}

/// The offsets of chroma of these weights, by WpOffsetHalfRangeC of the sequence set (7-56). None
/// where ChromaLog2WeightDenom is above 7, which H.265 doesn't allow (7.4.7.3).
pub fn chroma_offsets_of(table: &PredWeightTable, sps: &Sps) -> Option<ChromaOffsets>
    ensures { result
        ≡ chroma_offsets_of (pos sps.now.wp_offset_half_range_c)
        (plain_pred_weight_table table.now) }
{
    offsets_by(table, half_range(sps))
}

/// WpOffsetHalfRangeC (7.4.3.2.2).
#[tactic(auto, using(crate::proofs::Ranges::half_range_within))]
pub(crate) fn half_range(sps: &Sps) -> i32
    ensures value { result ≡ pos sps.now.wp_offset_half_range_c }
    ensures least { pos 1 ≤ℤ result }
    ensures most { result ≤ℤ pos 8192 }
{
    sps.wp_offset_half_range_c as i32
}

/// The offsets of chroma, by WpOffsetHalfRangeC.
fn offsets_by(table: &PredWeightTable, half_range: i32) -> Option<ChromaOffsets>
    requires least { pos 1 ≤ℤ half_range }
    requires most { half_range ≤ℤ pos 8192 }
    ensures { result ≡ chroma_offsets_of half_range (plain_pred_weight_table table.now) }
{
    if table.chroma_log2_weight_denom > 7 {
        return None;
    }
    let scale = ChromaScale {
        half_range,
        log2_denominator: table.chroma_log2_weight_denom,
    };
    let l0 = chroma_offsets(
        scale,
        &table.delta_chroma_weight_l0,
        &table.delta_chroma_offset_l0,
    );
    let l1 = chroma_offsets(
        scale,
        &table.delta_chroma_weight_l1,
        &table.delta_chroma_offset_l1,
    );
    Some(ChromaOffsets { l0, l1 })
}

/// The weights as a stateless decoder takes them, by WpOffsetHalfRangeC.
///
/// Errors: `ChromaDenominator`; else `LumaOffset`; else `ChromaOffset`.
pub(crate) fn weights_control(
    table: &PredWeightTable,
    half_range: i32,
) -> Result<V4l2HevcPredWeightTable, ControlError>
    requires least { pos 1 ≤ℤ half_range }
    requires most { half_range ≤ℤ pos 8192 }
    ensures filled { IfOk result
        (λ control. control ≡ control_of_weights half_range (plain_pred_weight_table table.now)) }
    ensures refused { result_err result
        ≡ weights_error half_range (plain_pred_weight_table table.now) }
{
    match offsets_by(table, half_range) {
        Some(offsets) => with_chroma_offsets(table, &offsets.l0, &offsets.l1),
        None => Err(ControlError::ChromaDenominator),
    }
}

/// The weights with these offsets of chroma.
fn with_chroma_offsets(
    table: &PredWeightTable,
    offsets_l0: &[[i16; 2]; 15],
    offsets_l1: &[[i16; 2]; 15],
) -> Result<V4l2HevcPredWeightTable, ControlError>
    ensures filled { IfOk result (λ control. control
        ≡ with_chroma_offsets offsets_l0.now offsets_l1.now (plain_pred_weight_table table.now)) }
    ensures refused { result_err result
        ≡ offsets_error offsets_l0.now offsets_l1.now (plain_pred_weight_table table.now) }
{
    if !luma_fits(table) {
        return Err(ControlError::LumaOffset);
    }
    if !chroma_fits(offsets_l0, offsets_l1) {
        return Err(ControlError::ChromaOffset);
    }
    Ok(small_weights(table, offsets_l0, offsets_l1))
}

/// Whether the offsets of luma fit signed bytes.
fn luma_fits(table: &PredWeightTable) -> bool
    ensures { result ≡ luma_fits (plain_pred_weight_table table.now) }
{
    are_signed_bytes(&table.luma_offset_l0) && are_signed_bytes(&table.luma_offset_l1)
}

/// Whether these offsets of chroma do.
fn chroma_fits(offsets_l0: &[[i16; 2]; 15], offsets_l1: &[[i16; 2]; 15]) -> bool
    ensures { result ≡ chroma_fits offsets_l0.now offsets_l1.now }
{
    are_signed_byte_pairs(offsets_l0) && are_signed_byte_pairs(offsets_l1)
}

/// The weights of offsets that fit bytes.
fn small_weights(
    table: &PredWeightTable,
    offsets_l0: &[[i16; 2]; 15],
    offsets_l1: &[[i16; 2]; 15],
) -> V4l2HevcPredWeightTable
    requires luma { IsTrue (luma_fits (plain_pred_weight_table table.now)) }
    requires chroma { IsTrue (chroma_fits offsets_l0.now offsets_l1.now) }
    ensures { result
        ≡ with_chroma_offsets offsets_l0.now offsets_l1.now (plain_pred_weight_table table.now) }
{
    V4l2HevcPredWeightTable {
        delta_luma_weight_l0: padded_numbers(&table.delta_luma_weight_l0),
        luma_offset_l0: padded_numbers(&signed_bytes_of(&table.luma_offset_l0)),
        delta_chroma_weight_l0: padded_pairs(&table.delta_chroma_weight_l0),
        chroma_offset_l0: padded_pairs(&signed_byte_pairs_of(offsets_l0)),
        delta_luma_weight_l1: padded_numbers(&table.delta_luma_weight_l1),
        luma_offset_l1: padded_numbers(&signed_bytes_of(&table.luma_offset_l1)),
        delta_chroma_weight_l1: padded_pairs(&table.delta_chroma_weight_l1),
        chroma_offset_l1: padded_pairs(&signed_byte_pairs_of(offsets_l1)),
        luma_log2_weight_denom: table.luma_log2_weight_denom,
        delta_chroma_log2_weight_denom: table.delta_chroma_log2_weight_denom,
    }
}

/// The offsets of chroma for each entry of a list.
fn chroma_offsets(
    scale: ChromaScale,
    delta_weights: &[[i8; 2]; 15],
    delta_offsets: &[[i16; 2]; 15],
) -> [[i16; 2]; 15]
    ensures { result
        ≡ chroma_offsets scale.half_range scale.log2_denominator
        delta_weights.now delta_offsets.now }
{
    let mut offsets = [[0; 2]; 15];
    for i in 0..15 {
        offsets[i] = chroma_offset_pair(scale, &delta_weights[i], &delta_offsets[i]);
    }
    offsets
}

/// The offsets of Cb and Cr.
fn chroma_offset_pair(
    scale: ChromaScale,
    delta_weights: &[i8; 2],
    delta_offsets: &[i16; 2],
) -> [i16; 2]
    ensures { result
        ≡ chroma_offset_pair scale.half_range scale.log2_denominator
        delta_weights.now delta_offsets.now }
{
    [
        chroma_offset(scale, delta_weights[0], delta_offsets[0]),
        chroma_offset(scale, delta_weights[1], delta_offsets[1]),
    ]
}

/// An offset of chroma (7-56).
fn chroma_offset(scale: ChromaScale, delta_weight: i8, delta_offset: i16) -> i16
    ensures { result
        ≡ chroma_offset scale.half_range scale.log2_denominator delta_weight delta_offset }
{
    wide_chroma_offset(scale, delta_weight, delta_offset) as i16
}

/// The same, as it is computed.
fn wide_chroma_offset(scale: ChromaScale, delta_weight: i8, delta_offset: i16) -> i32
    ensures value { result
        ≡ chroma_offset scale.half_range scale.log2_denominator delta_weight delta_offset }
    ensures not_less { negsuc 8191 ≤ℤ result }
    ensures not_more { result ≤ℤ pos 8191 }
{
    let weight = chroma_weight(scale.log2_denominator, delta_weight);
    let weighted = shifted(
        weighted_half_range(scale.half_range, weight),
        scale.log2_denominator,
    );
    clipped(
        scale.half_range,
        unclipped_offset(scale, delta_offset, weighted),
    )
}

/// ChromaWeightL0 or ChromaWeightL1 (7.4.7.3).
fn chroma_weight(log2_denominator: u8, delta_weight: i8) -> i32
    requires { log2_denominator ≤ 7 }
    ensures value { result ≡ pos (2 ^ log2_denominator) +ℤ delta_weight }
    ensures least { negsuc 127 ≤ℤ result }
    ensures most { result ≤ℤ pos 255 }
{
    (1 << log2_denominator) + i32::from(delta_weight)
}

/// Half the range of offsets by a weight.
#[tactic(auto, using(crate::proofs::Products::weighted_within))]
fn weighted_half_range(half_range: i32, weight: i32) -> i32
    requires half_at_least { pos 1 ≤ℤ half_range }
    requires half_at_most { half_range ≤ℤ pos 8192 }
    requires least { negsuc 127 ≤ℤ weight }
    requires most { weight ≤ℤ pos 255 }
    ensures value { result ≡ half_range *ℤ weight }
    ensures not_less { negsuc 4194303 ≤ℤ result }
    ensures not_more { result ≤ℤ pos 4194303 }
{
    half_range * weight
}

/// A number over a power of 2, rounded down.
#[tactic(auto, using(crate::proofs::Shifts::shifted_within))]
fn shifted(number: i32, log2: u8) -> i32
    requires few { log2 ≤ 7 }
    requires least { negsuc 4194303 ≤ℤ number }
    requires most { number ≤ℤ pos 4194303 }
    ensures value { result ≡ int_shr number log2 }
    ensures not_less { negsuc 4194303 ≤ℤ result }
    ensures not_more { result ≤ℤ pos 4194303 }
{
    number >> log2
}

/// An offset of chroma before it is clipped.
fn unclipped_offset(scale: ChromaScale, delta_offset: i16, weighted: i32) -> i32
    requires not_less { negsuc 4194303 ≤ℤ weighted }
    requires not_more { weighted ≤ℤ pos 4194303 }
    ensures { result ≡ (scale.half_range +ℤ delta_offset) -ℤ weighted }
{
    scale.half_range + i32::from(delta_offset) - weighted
}

/// A number within the range of offsets.
fn clipped(half_range: i32, number: i32) -> i32
    requires least { pos 1 ≤ℤ half_range }
    requires most { half_range ≤ℤ pos 8192 }
    ensures value { result ≡ clip3 (neg_ℤ half_range) (half_range -ℤ pos 1) number }
    ensures not_less { negsuc 8191 ≤ℤ result }
    ensures not_more { result ≤ℤ pos 8191 }
{
    number.clamp(-half_range, half_range - 1)
}
