//! Weighted prediction (7.3.6.3, table 16).
ghost use Rattle.std.specs.Prelude.{◌≡◌, ◌≤◌, OnOk};
ghost use Rattle.hevc_records.specs.Sps.{PlainSps};
ghost use Rattle.hevc_tables.specs.WeightedPredictionTable as table;
ghost use Rattle.hevc_video_set.specs.PredWeightTable.{plain_pred_weight_table};
ghost use Rattle.hevc_write_slice_parts.specs.WeightParts as own;
ghost use Rattle.hevc_write_elements.specs.Filling.{Writes, WritesTable};

use crate::list_weights::{ListWeights, write_list_weights, write_list_weights_if};
use hevc_bit_writer::BitWriter;
use hevc_video_set::PredWeightTable;
use hevc_write_elements::rows::{se_i8_if, ue_u8};
use std::alloc::AllocError;

/// Table 16: with chroma planes that are coded with luma or not (ChromaArrayType isn't 0), of a B
/// slice or not, and the active places
/// of both lists, less 1. Only a B slice has a list 1.
pub fn write_pred_weight_table(
    w: &mut BitWriter,
    chroma: bool,
    is_b: bool,
    num_ref_idx_l0_active_minus1: u8,
    num_ref_idx_l1_active_minus1: u8,
    x: &PredWeightTable,
) -> Result<(), AllocError>
    requires { (num_ref_idx_l0_active_minus1 ≤ 14) × (num_ref_idx_l1_active_minus1 ≤ 14) }
    ensures { OnOk result ((sps : PlainSps) → table.has_chroma sps ≡ chroma → WritesTable
        (table.pred_weight_table sps is_b
        num_ref_idx_l0_active_minus1 num_ref_idx_l1_active_minus1)
        (plain_pred_weight_table x.now) w.old w.new) }
{
    let list0 = ListWeights::list0(x);
    let list1 = ListWeights::list1(x);
    let count0 = usize::from(num_ref_idx_l0_active_minus1) + 1;
    let count1 = usize::from(num_ref_idx_l1_active_minus1) + 1;
    write_denominators(w, chroma, x)?;
    write_list_weights(w, chroma, count0, &list0)?;
    write_list_weights_if(w, is_b, chroma, count1, &list1)?;
    Ok(())
}

/// Rows 1 and 2 of table 16.
fn write_denominators(
    w: &mut BitWriter,
    chroma: bool,
    x: &PredWeightTable,
) -> Result<(), AllocError>
    ensures { OnOk result ((sps : PlainSps) → table.has_chroma sps ≡ chroma
        → Writes (table.denominators sps) own.denominators_of (plain_pred_weight_table x.now)
        w.old w.new) }
{
    ue_u8(w, x.luma_log2_weight_denom)?; // Row(16, 1)
    se_i8_if(w, chroma, x.delta_chroma_log2_weight_denom)?; // Row(16, 2)
    Ok(())
}
