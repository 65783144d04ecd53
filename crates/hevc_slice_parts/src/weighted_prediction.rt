//! Weighted prediction (7.3.6.3, table 16).
ghost use Rattle.std.specs.Prelude.{◌≡◌, ◌≤◌, ◌+◌, pos, neg_ℤ, ◌+ℤ◌, IfOk, ◌≤ℤ◌, if◌then◌else◌};
ghost use Rattle.std.specs.Prelude.{unsigned_abs};
ghost use Rattle.hevc_spec.specs.Rows.{row, se_row};
ghost use Rattle.hevc_elements.specs.Words.{when, Reads, Fills, ReadsTable};
ghost use Rattle.hevc_tables.specs.WeightedPredictionTable as table;
ghost use Rattle.hevc_video_set.specs.PredWeightTable.{plain_pred_weight_table};
ghost use Rattle.hevc_sequence_set.specs.Sps.{plain_sps};
ghost use Rattle.hevc_slice_parts.specs.Projections.{plain_list_weights};

use crate::list_weights::{has_chroma, no_weights, read_list_weights};
use crate::records::ListWeights;
use hevc_elements::rows::{se_i8, ue_u8};
use hevc_elements::{ElementReader, ParseError};
use hevc_sequence_set::Sps;
use hevc_spec::Row;
use hevc_video_set::PredWeightTable;

/// Reads the weights of predictions of a P or B slice, by table 16 (7.3.6.3), with the sequence set
/// of its picture.
///
/// The counts are those of active places, less 1, 0 to 14. Only a B slice has a list 1. A flag
/// stands for every active place.
///
/// Errors: `OutOfBits` where the payload ends within an element, and `OutOfRange` with table and
/// row of the first element that isn't allowed. The reader then is where that element begins.
#[tactic(auto, using(hevc_elements::proofs::Meaning::meanings))]
pub fn read_pred_weight_table(
    r: &mut ElementReader<'_>,
    sps: &Sps,
    is_b: bool,
    num_ref_idx_l0_active_minus1: u8,
    num_ref_idx_l1_active_minus1: u8,
) -> Result<PredWeightTable, ParseError>
    requires places { (num_ref_idx_l0_active_minus1 ≤ 14) × (num_ref_idx_l1_active_minus1 ≤ 14) }
    ensures rows { ReadsTable plain_pred_weight_table (table.pred_weight_table (plain_sps sps.now)
        is_b num_ref_idx_l0_active_minus1 num_ref_idx_l1_active_minus1) result r.old r.new }
{
    read_rows(
        r,
        sps,
        is_b,
        num_ref_idx_l0_active_minus1,
        num_ref_idx_l1_active_minus1,
    )
}

/// Rows 1 to 14 of table 16.
#[tactic(auto, unfolding(hevc_tables::specs::WeightedPredictionTable::pred_weight_table))]
fn read_rows(
    r: &mut ElementReader<'_>,
    sps: &Sps,
    is_b: bool,
    active_l0: u8,
    active_l1: u8,
) -> Result<PredWeightTable, ParseError>
    requires places { (active_l0 ≤ 14) × (active_l1 ≤ 14) }
    ensures read { Reads plain_pred_weight_table
        (table.pred_weight_table (plain_sps sps.now) is_b active_l0 active_l1) result r.old r.new }
{
    let mut t = PredWeightTable::new();
    read_denominators(r, sps, &mut t)?;
    let l0 = read_list_weights(r, sps, 0, usize::from(active_l0) + 1)?;
    set_list0(&mut t, &l0);
    let l1 = read_list1(r, sps, is_b, usize::from(active_l1) + 1)?;
    set_list1(&mut t, &l1);
    Ok(t)
}

/// Rows 1 and 2 of table 16.
#[tactic(auto, unfolding(hevc_tables::specs::WeightedPredictionTable::denominators))]
fn read_denominators(
    r: &mut ElementReader<'_>,
    sps: &Sps,
    t: &mut PredWeightTable,
) -> Result<(), ParseError>
    ensures { Fills plain_pred_weight_table
        (table.denominators (plain_sps sps.now)) result t.old t.new r.old r.new }
{
    let luma = ue_u8(r, Row(16, 1), 0, 7)?;
    let delta = read_delta_if(r, has_chroma(sps), luma)?;
    t.luma_log2_weight_denom = luma;
    t.delta_chroma_log2_weight_denom = delta;
    t.chroma_log2_weight_denom = chroma_denominator(has_chroma(sps), luma, delta);
    Ok(())
}

/// Row 2 of table 16, where it is present.
#[tactic(auto, unfolding(hevc_spec::specs::Rows::when))]
fn read_delta_if(r: &mut ElementReader<'_>, present: bool, luma: u8) -> Result<i8, ParseError>
    requires { luma ≤ 7 }
    ensures read { Reads (λ n. n)
        (when present (pos 0) (se_row (row 16 2) (neg_ℤ (pos luma)) (pos 127))) result r.old r.new }
    ensures least { IfOk result (λ n. pos 0 ≤ℤ (pos luma +ℤ n)) }
{
    if present {
        se_i8(r, Row(16, 2), -(luma as i8), 127)
    } else {
        Ok(0)
    }
}

/// ChromaLog2WeightDenom (7.4.7.3), and 0 without chroma.
fn chroma_denominator(present: bool, luma: u8, delta: i8) -> u8
    requires luma { luma ≤ 7 }
    requires least { pos 0 ≤ℤ (pos luma +ℤ delta) }
    ensures { result ≡ (if present then unsigned_abs (pos luma +ℤ delta) else 0) }
{
    if present {
        (i16::from(luma) + i16::from(delta)) as u8
    } else {
        0
    }
}

/// Rows 9 to 14 of table 16, of a B slice; else no weights.
#[tactic(auto, unfolding(hevc_spec::specs::Rows::when))]
fn read_list1(
    r: &mut ElementReader<'_>,
    sps: &Sps,
    is_b: bool,
    count: usize,
) -> Result<ListWeights, ParseError>
    requires { count ≤ 15 }
    ensures read { Reads plain_list_weights
        (when is_b table.no_weights (table.list_weights (plain_sps sps.now) 1 count)) result r.old
        r.new }
{
    if is_b {
        read_list_weights(r, sps, 1, count)
    } else {
        Ok(no_weights())
    }
}

/// Sets the weights of list 0.
#[tactic(auto, unfolding(hevc_tables::specs::WeightedPredictionTable::with_list0))]
fn set_list0(t: &mut PredWeightTable, w: &ListWeights)
    ensures { plain_pred_weight_table t.new
        ≡ table.with_list0 (plain_pred_weight_table t.old) (plain_list_weights w.now) }
{
    t.luma_weight_l0_flag = w.luma_weight_flag;
    t.chroma_weight_l0_flag = w.chroma_weight_flag;
    t.delta_luma_weight_l0 = w.delta_luma_weight;
    t.luma_offset_l0 = w.luma_offset;
    t.delta_chroma_weight_l0 = w.delta_chroma_weight;
    t.delta_chroma_offset_l0 = w.delta_chroma_offset;
}

/// Sets the weights of list 1.
#[tactic(auto, unfolding(hevc_tables::specs::WeightedPredictionTable::with_list1))]
fn set_list1(t: &mut PredWeightTable, w: &ListWeights)
    ensures { plain_pred_weight_table t.new
        ≡ table.with_list1 (plain_pred_weight_table t.old) (plain_list_weights w.now) }
{
    t.luma_weight_l1_flag = w.luma_weight_flag;
    t.chroma_weight_l1_flag = w.chroma_weight_flag;
    t.delta_luma_weight_l1 = w.delta_luma_weight;
    t.luma_offset_l1 = w.luma_offset;
    t.delta_chroma_weight_l1 = w.delta_chroma_weight;
    t.delta_chroma_offset_l1 = w.delta_chroma_offset;
}
