//! Prediction from other pictures (7.3.6.1, rows 24 to 34 of table 14).
ghost use Rattle.std.specs.Prelude.{OnOk};
ghost use Rattle.hevc_tables.specs.SliceTypes.{is_b as is_b_of};
ghost use Rattle.hevc_tables.specs.WeightedPredictionTable.{pred_weight_table};
ghost use Rattle.hevc_set_parts.specs.SliceType.{slice_type_number};
ghost use Rattle.hevc_video_set.specs.PredWeightTable.{plain_pred_weight_table};
ghost use Rattle.hevc_tables.specs.SliceHeaderTable as table;
ghost use Rattle.hevc_sequence_set.specs.Sps.{plain_sps};
ghost use Rattle.hevc_picture_slice.specs.Pps.{plain_pps};
ghost use Rattle.hevc_picture_slice.specs.SliceHeader.{plain_slice_header};
ghost use Rattle.hevc_write_slice_header.specs.HeaderParts as own;
ghost use Rattle.hevc_write_elements.specs.Filling.{Writes, WritesIf, WritesTable};

use crate::lists::write_reference_lists;
use crate::rows::{has_chroma, has_collocated_index, has_collocated_list, is_b, is_weighted};
use hevc_bit_writer::BitWriter;
use hevc_picture_slice::{Pps, SliceHeader};
use hevc_sequence_set::Sps;
use hevc_write_elements::rows::{flag_if, ue_u8, ue_u8_if};
use hevc_write_slice_parts::write_pred_weight_table;
use std::alloc::AllocError;

/// Rows 24 to 34 of table 14, where they are present.
pub(crate) fn write_prediction_if(
    w: &mut BitWriter,
    present: bool,
    sps: &Sps,
    pps: &Pps,
    x: &SliceHeader,
) -> Result<(), AllocError>
    ensures { OnOk result (WritesIf present
        (Writes (table.prediction (plain_sps sps.now) (plain_pps pps.now))
        own.prediction_with_inputs_of (plain_slice_header x.now)) w.old w.new) }
{
    if !present {
        return Ok(());
    }
    write_reference_lists(w, sps, pps, x)?;
    write_motion(w, pps, x)?;
    write_weights(w, sps, pps, x)?;
    Ok(())
}

/// Rows 28 to 31 of table 14.
fn write_motion(w: &mut BitWriter, pps: &Pps, x: &SliceHeader) -> Result<(), AllocError>
    ensures { OnOk result (Writes (table.motion (plain_pps pps.now))
        own.motion_with_inputs_of (plain_slice_header x.now) w.old w.new) }
{
    flag_if(w, is_b(x), x.mvd_l1_zero_flag)?; // Row(14, 28)
    flag_if(w, pps.cabac_init_present_flag, x.cabac_init_flag)?; // Row(14, 29)
    flag_if(w, has_collocated_list(x), x.collocated_from_l0_flag)?; // Row(14, 30)
    ue_u8_if(w, has_collocated_index(x), x.collocated_ref_idx)?; // Row(14, 31)
    Ok(())
}

/// Rows 32 to 34 of table 14.
fn write_weights(w: &mut BitWriter, sps: &Sps, pps: &Pps, x: &SliceHeader) -> Result<(), AllocError>
    ensures { OnOk result (Writes (table.weights (plain_sps sps.now) (plain_pps pps.now))
        own.weights_with_inputs_of (plain_slice_header x.now) w.old w.new) }
{
    write_pred_weight_table_if(w, is_weighted(pps, x), sps, x)?;
    ue_u8(w, x.five_minus_max_num_merge_cand)?; // Row(14, 33)
    flag_if(
        w,
        sps.scc_extension.motion_vector_resolution_control_idc == 2,
        x.use_integer_mv_flag,
    )?; // Row(14, 34)
    Ok(())
}

/// Row 32 of table 14, where it is present.
fn write_pred_weight_table_if(
    w: &mut BitWriter,
    present: bool,
    sps: &Sps,
    x: &SliceHeader,
) -> Result<(), AllocError>
    ensures { OnOk result (WritesIf present (WritesTable
        (pred_weight_table (plain_sps sps.now) (is_b_of (slice_type_number x.now.type_))
        x.now.num_ref_idx_l0_active_minus1 x.now.num_ref_idx_l1_active_minus1)
        (plain_pred_weight_table x.now.pred_weight_table)) w.old w.new) }
{
    if present {
        write_pred_weight_table(
            w,
            has_chroma(sps),
            is_b(x),
            x.num_ref_idx_l0_active_minus1,
            x.num_ref_idx_l1_active_minus1,
            &x.pred_weight_table,
        )?; // Row(14, 32)
    }
    Ok(())
}
