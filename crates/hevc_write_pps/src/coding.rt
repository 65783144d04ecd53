//! How pictures are coded (7.3.2.3.1, rows 3 to 28 of table 11).
ghost use Rattle.std.specs.Prelude.{OnOk};
ghost use Rattle.hevc_records.specs.Sps.{PlainSps};
ghost use Rattle.hevc_tables.specs.PpsTable as table;
ghost use Rattle.hevc_tables.specs.ScalingListTable.{scaling_list_data};
ghost use Rattle.hevc_set_parts.specs.ScalingLists.{plain_scaling_lists};
ghost use Rattle.hevc_picture_slice.specs.Pps.{plain_pps};
ghost use Rattle.hevc_write_pps.specs.PpsParts as own;
ghost use Rattle.hevc_write_elements.specs.Filling.{Writes, WritesIf, WritesTable};

use crate::tiles::write_tiles_if;
use hevc_bit_writer::BitWriter;
use hevc_picture_slice::Pps;
use hevc_write_elements::rows::{bits_u8, flag, se_i8, ue_u8, ue_u8_if};
use hevc_write_scaling::write_scaling_list_data;
use std::alloc::AllocError;

/// Rows 3 to 19 of table 11.
pub(crate) fn write_coding(w: &mut BitWriter, x: &Pps) -> Result<(), AllocError>
    ensures { (sps : PlainSps) → OnOk result (Writes (table.coding sps)
        own.coding_elements_of (plain_pps x.now) w.old w.new) }
{
    write_presence(w, x)?;
    write_quantiser(w, x)?;
    write_tools(w, x)?;
    write_tiles_if(w, x.tiles_enabled_flag, x)?;
    Ok(())
}

/// Rows 3 to 7 of table 11.
fn write_presence(w: &mut BitWriter, x: &Pps) -> Result<(), AllocError>
    ensures { OnOk result (Writes table.presence
        own.presence_of (plain_pps x.now) w.old w.new) }
{
    flag(w, x.dependent_slice_segments_enabled_flag)?; // Row(11, 3)
    flag(w, x.output_flag_present_flag)?; // Row(11, 3)
    bits_u8(w, 3, x.num_extra_slice_header_bits)?; // Row(11, 4)
    flag(w, x.sign_data_hiding_enabled_flag)?; // Row(11, 5)
    flag(w, x.cabac_init_present_flag)?; // Row(11, 5)
    ue_u8(w, x.num_ref_idx_l0_default_active_minus1)?; // Row(11, 6)
    ue_u8(w, x.num_ref_idx_l1_default_active_minus1)?; // Row(11, 7)
    Ok(())
}

/// Rows 8 to 12 of table 11.
fn write_quantiser(w: &mut BitWriter, x: &Pps) -> Result<(), AllocError>
    ensures { (sps : PlainSps) → OnOk result (Writes (table.quantiser sps)
        own.quantiser_elements_of (plain_pps x.now) w.old w.new) }
{
    se_i8(w, x.init_qp_minus26)?; // Row(11, 8)
    flag(w, x.constrained_intra_pred_flag)?; // Row(11, 9)
    flag(w, x.transform_skip_enabled_flag)?; // Row(11, 9)
    flag(w, x.cu_qp_delta_enabled_flag)?; // Row(11, 9)
    ue_u8_if(w, x.cu_qp_delta_enabled_flag, x.diff_cu_qp_delta_depth)?; // Row(11, 10)
    se_i8(w, x.cb_qp_offset)?; // Row(11, 11)
    se_i8(w, x.cr_qp_offset)?; // Row(11, 12)
    Ok(())
}

/// Row 13 of table 11.
fn write_tools(w: &mut BitWriter, x: &Pps) -> Result<(), AllocError>
    ensures { OnOk result (Writes table.tools
        own.tools_of (plain_pps x.now) w.old w.new) }
{
    flag(w, x.slice_chroma_qp_offsets_present_flag)?; // Row(11, 13)
    flag(w, x.weighted_pred_flag)?; // Row(11, 13)
    flag(w, x.weighted_bipred_flag)?; // Row(11, 13)
    flag(w, x.transquant_bypass_enabled_flag)?; // Row(11, 13)
    flag(w, x.tiles_enabled_flag)?; // Row(11, 13)
    flag(w, x.entropy_coding_sync_enabled_flag)?; // Row(11, 13)
    Ok(())
}

/// Rows 24 and 25 of table 11.
pub(crate) fn write_scaling(w: &mut BitWriter, x: &Pps) -> Result<(), AllocError>
    ensures { OnOk result (Writes table.scaling
        own.scaling_of (plain_pps x.now) w.old w.new) }
{
    flag(w, x.scaling_list_data_present_flag)?; // Row(11, 24)
    write_scaling_lists_if(w, x.scaling_list_data_present_flag, x)?;
    Ok(())
}

/// Rows 26 to 28 of table 11, but for the last flag.
pub(crate) fn write_merging(w: &mut BitWriter, x: &Pps) -> Result<(), AllocError>
    ensures { (sps : PlainSps) → OnOk result (Writes (table.merging sps)
        own.merging_of (plain_pps x.now) w.old w.new) }
{
    flag(w, x.lists_modification_present_flag)?; // Row(11, 26)
    ue_u8(w, x.log2_parallel_merge_level_minus2)?; // Row(11, 27)
    flag(w, x.slice_segment_header_extension_present_flag)?; // Row(11, 28)
    Ok(())
}

/// Row 25 of table 11, where it is present.
fn write_scaling_lists_if(w: &mut BitWriter, present: bool, x: &Pps) -> Result<(), AllocError>
    ensures { OnOk result (WritesIf present (WritesTable scaling_list_data
        (plain_scaling_lists x.now.scaling_list)) w.old w.new) }
{
    if present {
        write_scaling_list_data(w, &x.scaling_list) // Row(11, 25)
    } else {
        Ok(())
    }
}
