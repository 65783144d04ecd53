//! The range extension (7.3.2.3.2, table 12).
ghost use Rattle.std.specs.Prelude.{◌≤◌, ◌<◌, OnOk};
ghost use Rattle.hevc_records.specs.Sps.{PlainSps};
ghost use Rattle.hevc_tables.specs.PpsRangeExtensionTable as table;
ghost use Rattle.hevc_set_parts.specs.PpsRangeExtension.{plain_pps_range_extension};
ghost use Rattle.hevc_write_extensions.specs.PpsRangeExtensionParts.{offset_lists_of};
ghost use Rattle.hevc_write_extensions.specs.PpsRangeExtensionParts.{offset_pairs_of, same_pairs};
ghost use Rattle.hevc_write_elements.specs.Filling.{Writes, WritesIf, WritesTable, WritesTurn};

use hevc_bit_writer::BitWriter;
use hevc_set_parts::PpsRangeExtension;
use hevc_write_elements::rows::{flag, se, ue, ue_if};
use std::alloc::AllocError;

/// Table 12, of a set that allows skipped transforms or not.
pub fn write_pps_range_extension(
    w: &mut BitWriter,
    transform_skip: bool,
    x: &PpsRangeExtension,
) -> Result<(), AllocError>
    ensures { (sps : PlainSps) → OnOk result
        (WritesTable (table.pps_range_extension sps transform_skip)
        (plain_pps_range_extension x.now) w.old w.new) }
{
    ue_if(
        w,
        transform_skip,
        x.log2_max_transform_skip_block_size_minus2,
    )?; // Row(12, 1)
    flag(w, x.cross_component_prediction_enabled_flag)?; // Row(12, 2)
    flag(w, x.chroma_qp_offset_list_enabled_flag)?; // Row(12, 2)
    write_offset_lists_if(w, x.chroma_qp_offset_list_enabled_flag, x)?;
    ue(w, x.log2_sao_offset_scale_luma)?; // Row(12, 6)
    ue(w, x.log2_sao_offset_scale_chroma)?; // Row(12, 7)
    Ok(())
}

/// Rows 3 to 5 of table 12, where they are present.
fn write_offset_lists_if(
    w: &mut BitWriter,
    present: bool,
    x: &PpsRangeExtension,
) -> Result<(), AllocError>
    ensures { OnOk result (WritesIf present (Writes table.offset_lists offset_lists_of
        (plain_pps_range_extension x.now)) w.old w.new) }
{
    if !present {
        return Ok(());
    }
    ue(w, x.diff_cu_chroma_qp_offset_depth)?; // Row(12, 3)
    ue(w, x.chroma_qp_offset_list_len_minus1)?; // Row(12, 4)
    let count = x.chroma_qp_offset_list_len_minus1.min(5) as usize + 1;
    write_offset_pairs(w, count, x)?;
    Ok(())
}

/// Row 5 of table 12, for each pair.
#[tactic(auto, using(hevc_write_elements::proofs::Loops::turns, crate::proofs::PpsRangeExtensionKeeps::offset_pairs_written))]
fn write_offset_pairs(
    w: &mut BitWriter,
    count: usize,
    x: &PpsRangeExtension,
) -> Result<(), AllocError>
    requires { count ≤ 6 }
    ensures { OnOk result (Writes (table.offset_pairs count) offset_pairs_of
        (plain_pps_range_extension x.now) w.old w.new) }
{
    for i in 0..count {
        write_offset_pair(w, i, x)?;
    }
    Ok(())
}

/// Row 5 of table 12, for one pair.
fn write_offset_pair(w: &mut BitWriter, i: usize, x: &PpsRangeExtension) -> Result<(), AllocError>
    requires { i < 6 }
    ensures { OnOk result (WritesTurn table.offset_pair
        (same_pairs (plain_pps_range_extension x.now)) i w.old w.new) }
{
    se(w, x.cb_qp_offset_list[i])?; // Row(12, 5)
    se(w, x.cr_qp_offset_list[i])?; // Row(12, 5)
    Ok(())
}
