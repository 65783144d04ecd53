//! The offsets of weighted prediction.
ghost use Rattle.std.specs.Prelude.{◌≡◌, pos, IfOk, IsTrue};
ghost use Rattle.std.specs.List.{list_all};
ghost use Rattle.std.specs.Result.{result_err};
ghost use Rattle.hevc_video_set.specs.PredWeightTable.{plain_pred_weight_table};
ghost use Rattle.hevc_v4l2.specs.Arrays.{is_signed_byte};
ghost use Rattle.hevc_v4l2.specs.Weights.{chroma_offsets_l0, chroma_offsets_l1};
ghost use Rattle.hevc_va.specs.Offsets.{denominator_error, no_chroma_offsets, no_luma_offsets};
ghost use Rattle.hevc_va.specs.Offsets.{offsets_error};

use crate::error::VaError;
use hevc_sequence_set::Sps;
use hevc_v4l2::{ChromaOffsets, chroma_offsets_of};
use hevc_video_set::PredWeightTable;

/// Those of the entries of both lists, in 8 bits.
#[derive(Clone, Copy)]
pub(crate) struct ByteOffsets {
    pub(crate) luma_l0: [i8; 15],
    pub(crate) chroma_l0: [[i8; 2]; 15],
    pub(crate) luma_l1: [i8; 15],
    pub(crate) chroma_l1: [[i8; 2]; 15],
}

/// The offsets of chroma.
///
/// Errors: `ChromaDenominator`.
pub(crate) fn wide_offsets(table: &PredWeightTable, sps: &Sps) -> Result<ChromaOffsets, VaError>
    ensures l0 { IfOk result (λ offsets. offsets.l0
        ≡ chroma_offsets_l0 (pos sps.now.wp_offset_half_range_c)
        (plain_pred_weight_table table.now)) }
    ensures l1 { IfOk result (λ offsets. offsets.l1
        ≡ chroma_offsets_l1 (pos sps.now.wp_offset_half_range_c)
        (plain_pred_weight_table table.now)) }
    ensures refused { result_err result ≡ denominator_error (plain_pred_weight_table table.now) }
{
    match chroma_offsets_of(table, sps) {
        Some(offsets) => Ok(offsets),
        None => Err(VaError::ChromaDenominator),
    }
}

/// Those of luma, and these of chroma, in 8 bits.
///
/// Errors: `LumaOffset`; else `ChromaOffset`.
pub(crate) fn byte_offsets(
    table: &PredWeightTable,
    offsets: &ChromaOffsets,
) -> Result<ByteOffsets, VaError>
    ensures luma_l0 { IfOk result (λ bytes. bytes.luma_l0 ≡ table.now.luma_offset_l0) }
    ensures chroma_l0 { IfOk result (λ bytes. bytes.chroma_l0 ≡ offsets.now.l0) }
    ensures luma_l1 { IfOk result (λ bytes. bytes.luma_l1 ≡ table.now.luma_offset_l1) }
    ensures chroma_l1 { IfOk result (λ bytes. bytes.chroma_l1 ≡ offsets.now.l1) }
    ensures refused { result_err result
        ≡ offsets_error offsets.now.l0 offsets.now.l1 (plain_pred_weight_table table.now) }
{
    if !are_bytes(&table.luma_offset_l0) || !are_bytes(&table.luma_offset_l1) {
        return Err(VaError::LumaOffset);
    }
    if !are_byte_pairs(&offsets.l0) || !are_byte_pairs(&offsets.l1) {
        return Err(VaError::ChromaOffset);
    }
    Ok(ByteOffsets {
        luma_l0: bytes_of(&table.luma_offset_l0),
        chroma_l0: byte_pairs_of(&offsets.l0),
        luma_l1: bytes_of(&table.luma_offset_l1),
        chroma_l1: byte_pairs_of(&offsets.l1),
    })
}

/// No offsets.
pub(crate) fn no_offsets() -> ByteOffsets
    ensures luma_l0 { result.luma_l0 ≡ no_luma_offsets }
    ensures chroma_l0 { result.chroma_l0 ≡ no_chroma_offsets }
    ensures luma_l1 { result.luma_l1 ≡ no_luma_offsets }
    ensures chroma_l1 { result.chroma_l1 ≡ no_chroma_offsets }
{
    ByteOffsets {
        luma_l0: [0; 15],
        chroma_l0: [[0; 2]; 15],
        luma_l1: [0; 15],
        chroma_l1: [[0; 2]; 15],
    }
}

/// Whether each number fits a signed byte.
fn are_bytes(numbers: &[i16]) -> bool
    ensures { result ≡ list_all is_signed_byte numbers.now }
{
    numbers
        .iter()
        .all(|number| -128 <= *number && *number <= 127)
}

/// The same numbers, each as a signed byte.
fn bytes_of<const N: usize>(numbers: &[i16; N]) -> [i8; N]
    requires { IsTrue (list_all is_signed_byte numbers.now) }
    ensures { result ≡ numbers.now }
{
    let mut bytes = [0; N];
    for i in 0..N {
        bytes[i] = numbers[i] as i8;
    }
    bytes
}

/// Whether each number of the pairs fits a signed byte.
fn are_byte_pairs(pairs: &[[i16; 2]]) -> bool
    ensures { result ≡ list_all (list_all is_signed_byte) pairs.now }
{
    pairs.iter().all(|pair| are_bytes(pair))
}

/// The same pairs, each number as a signed byte.
fn byte_pairs_of<const N: usize>(pairs: &[[i16; 2]; N]) -> [[i8; 2]; N]
    requires { IsTrue (list_all (list_all is_signed_byte) pairs.now) }
    ensures { result ≡ pairs.now }
{
    let mut bytes = [[0; 2]; N];
    for i in 0..N {
        bytes[i] = bytes_of(&pairs[i]);
    }
    bytes
}
