//! The weights of one list (7.3.6.3, rows 3 to 8 of table 16; those of list 1 are rows 9 to 14).
ghost use Rattle.std.specs.Prelude.{◌≡◌, ◌<◌, ◌≤◌, ℕ, length, OnOk};
ghost use Rattle.hevc_records.specs.Sps.{PlainSps};
ghost use Rattle.hevc_tables.specs.WeightedPredictionTable as table;
ghost use Rattle.hevc_video_set.specs.PredWeightTable.{plain_pred_weight_table};
ghost use Rattle.hevc_write_slice_parts.specs.WeightParts as own;
ghost use Rattle.hevc_write_elements.specs.Filling.{Writes, WritesIf, WritesTable, WritesTurn};

use hevc_bit_writer::BitWriter;
use hevc_video_set::PredWeightTable;
use hevc_write_elements::rows::{flag, se_i8, se_i16};
use std::alloc::AllocError;

/// The weights of one list, for all places. Fields have the names of their syntax elements, without
/// `_l0` and `_l1`.
#[derive(Clone, Copy)]
pub(crate) struct ListWeights {
    pub luma_weight_flag: [bool; 15],
    pub chroma_weight_flag: [bool; 15],
    pub delta_luma_weight: [i8; 15],
    pub luma_offset: [i16; 15],
    pub delta_chroma_weight: [[i8; 2]; 15],
    pub delta_chroma_offset: [[i16; 2]; 15],
}

impl ListWeights {
    /// The weights of list 0.
    pub fn list0(x: &PredWeightTable) -> ListWeights
        ensures { own.plain_list_weights result ≡ own.list0_of (plain_pred_weight_table x.now) }
    {
        ListWeights {
            luma_weight_flag: x.luma_weight_l0_flag,
            chroma_weight_flag: x.chroma_weight_l0_flag,
            delta_luma_weight: x.delta_luma_weight_l0,
            luma_offset: x.luma_offset_l0,
            delta_chroma_weight: x.delta_chroma_weight_l0,
            delta_chroma_offset: x.delta_chroma_offset_l0,
        }
    }

    /// The weights of list 1.
    pub fn list1(x: &PredWeightTable) -> ListWeights
        ensures { own.plain_list_weights result ≡ own.list1_of (plain_pred_weight_table x.now) }
    {
        ListWeights {
            luma_weight_flag: x.luma_weight_l1_flag,
            chroma_weight_flag: x.chroma_weight_l1_flag,
            delta_luma_weight: x.delta_luma_weight_l1,
            luma_offset: x.luma_offset_l1,
            delta_chroma_weight: x.delta_chroma_weight_l1,
            delta_chroma_offset: x.delta_chroma_offset_l1,
        }
    }
}

/// Rows 3 to 8 of table 16, of so many places, where they are present.
pub(crate) fn write_list_weights_if(
    w: &mut BitWriter,
    present: bool,
    chroma: bool,
    count: usize,
    x: &ListWeights,
) -> Result<(), AllocError>
    requires { count ≤ 15 }
    ensures { OnOk result ((sps : PlainSps) (list : ℕ) → table.has_chroma sps ≡ chroma
        → WritesIf present (WritesTable (table.list_weights sps list count)
        (own.plain_list_weights x.now)) w.old w.new) }
{
    if present {
        write_list_weights(w, chroma, count, x)?;
    }
    Ok(())
}

/// Rows 3 to 8 of table 16, of so many places.
pub(crate) fn write_list_weights(
    w: &mut BitWriter,
    chroma: bool,
    count: usize,
    x: &ListWeights,
) -> Result<(), AllocError>
    requires { count ≤ 15 }
    ensures { OnOk result ((sps : PlainSps) (list : ℕ) → table.has_chroma sps ≡ chroma
        → WritesTable (table.list_weights sps list count) (own.plain_list_weights x.now)
        w.old w.new) }
{
    write_luma_flags(w, count, x)?;
    write_chroma_flags_if(w, chroma, count, x)?;
    write_weights(w, count, x)?;
    Ok(())
}

/// Row 3 of table 16, of so many places.
fn write_luma_flags(w: &mut BitWriter, count: usize, x: &ListWeights) -> Result<(), AllocError>
    requires { count ≤ 15 }
    ensures { (list : ℕ) → OnOk result (Writes (table.luma_flags list count) own.luma_flags_of
        (own.plain_list_weights x.now) w.old w.new) }
{
    for i in 0..count {
        write_luma_flag(w, i, x)?;
    }
    Ok(())
}

/// Row 3 of table 16, of one place.
fn write_luma_flag(w: &mut BitWriter, i: usize, x: &ListWeights) -> Result<(), AllocError>
    requires { i < 15 }
    ensures { (list : ℕ) → OnOk result (WritesTurn (table.luma_flag list)
        (own.same_luma_flags (own.plain_list_weights x.now)) i w.old w.new) }
{
    flag(w, x.luma_weight_flag[i])?; // Row(16, 3), Row(16, 9)
    Ok(())
}

/// Row 4 of table 16, of so many places, where it is present.
fn write_chroma_flags_if(
    w: &mut BitWriter,
    present: bool,
    count: usize,
    x: &ListWeights,
) -> Result<(), AllocError>
    requires { count ≤ 15 }
    ensures { OnOk result ((list : ℕ) → WritesIf present
        (Writes (table.chroma_flags list count) own.chroma_flags_of (own.plain_list_weights x.now))
        w.old w.new) }
{
    if present {
        write_chroma_flags(w, count, x)?;
    }
    Ok(())
}

/// Row 4 of table 16, of so many places.
fn write_chroma_flags(w: &mut BitWriter, count: usize, x: &ListWeights) -> Result<(), AllocError>
    requires { count ≤ 15 }
    ensures { (list : ℕ) → OnOk result (Writes (table.chroma_flags list count) own.chroma_flags_of
        (own.plain_list_weights x.now) w.old w.new) }
{
    for i in 0..count {
        write_chroma_flag(w, i, x)?;
    }
    Ok(())
}

/// Row 4 of table 16, of one place.
fn write_chroma_flag(w: &mut BitWriter, i: usize, x: &ListWeights) -> Result<(), AllocError>
    requires { i < 15 }
    ensures { (list : ℕ) → OnOk result (WritesTurn (table.chroma_flag list)
        (own.same_chroma_flags (own.plain_list_weights x.now)) i w.old w.new) }
{
    flag(w, x.chroma_weight_flag[i])?; // Row(16, 4), Row(16, 10)
    Ok(())
}

/// Rows 5 to 8 of table 16, of so many places.
fn write_weights(w: &mut BitWriter, count: usize, x: &ListWeights) -> Result<(), AllocError>
    requires { count ≤ 15 }
    ensures { (sps : PlainSps) (list : ℕ) → OnOk result
        (Writes (table.weights sps list count) own.weights_with_inputs_of
        (own.plain_list_weights x.now) w.old w.new) }
{
    for i in 0..count {
        write_place(w, i, x)?;
    }
    Ok(())
}

/// Rows 5 to 8 of table 16, of one place.
fn write_place(w: &mut BitWriter, i: usize, x: &ListWeights) -> Result<(), AllocError>
    requires { i < 15 }
    ensures { (sps : PlainSps) (list : ℕ) → OnOk result
        (WritesTurn (table.place_weights sps list)
        (own.SameWeights (own.plain_list_weights x.now)) i w.old w.new) }
{
    write_luma_weight_if(w, x.luma_weight_flag[i], i, x)?;
    write_chroma_weight_if(w, x.chroma_weight_flag[i], i, x)?;
    Ok(())
}

/// Rows 5 and 6 of table 16, of one place, where they are present.
fn write_luma_weight_if(
    w: &mut BitWriter,
    present: bool,
    i: usize,
    x: &ListWeights,
) -> Result<(), AllocError>
    requires { i < 15 }
    ensures { OnOk result ((sps : PlainSps) (list : ℕ) → WritesIf present
        (WritesTurn (table.luma_weight sps list)
        (own.same_luma (own.plain_list_weights x.now)) i) w.old w.new) }
{
    if !present {
        return Ok(());
    }
    se_i8(w, x.delta_luma_weight[i])?; // Row(16, 5), Row(16, 11)
    se_i16(w, x.luma_offset[i])?; // Row(16, 6), Row(16, 12)
    Ok(())
}

/// Rows 7 and 8 of table 16, of one place, where they are present.
fn write_chroma_weight_if(
    w: &mut BitWriter,
    present: bool,
    i: usize,
    x: &ListWeights,
) -> Result<(), AllocError>
    requires { i < 15 }
    ensures { OnOk result ((sps : PlainSps) (list : ℕ) → WritesIf present
        (WritesTurn (table.chroma_weight sps list)
        (own.same_chroma (own.plain_list_weights x.now)) i) w.old w.new) }
{
    if !present {
        return Ok(());
    }
    let weights = &x.delta_chroma_weight[i];
    let offsets = &x.delta_chroma_offset[i];
    are_pairs(weights, offsets);
    se_i8(w, weights[0])?; // Row(16, 7), Row(16, 13)
    se_i16(w, offsets[0])?; // Row(16, 8), Row(16, 14)
    se_i8(w, weights[1])?; // Row(16, 7), Row(16, 13)
    se_i16(w, offsets[1])?; // Row(16, 8), Row(16, 14)
    Ok(())
}

/// There is one number for Cb, and one for Cr.
fn are_pairs(weights: &[i8; 2], offsets: &[i16; 2])
    ensures { (length weights.now ≡ 2) × (length offsets.now ≡ 2) }
{}
