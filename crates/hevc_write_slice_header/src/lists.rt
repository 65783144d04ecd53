//! The reference picture lists (7.3.6.1, rows 24 to 27 of table 14).
ghost use Rattle.std.specs.Prelude.{OnOk};
ghost use Rattle.hevc_tables.specs.SliceHeaderTable as table;
ghost use Rattle.hevc_sequence_set.specs.Sps.{plain_sps};
ghost use Rattle.hevc_picture_slice.specs.Pps.{plain_pps};
ghost use Rattle.hevc_picture_slice.specs.SliceHeader.{plain_slice_header};
ghost use Rattle.hevc_write_slice_header.specs.HeaderParts as own;
ghost use Rattle.hevc_write_elements.specs.Filling.{Writes, WritesIf};

use crate::rows::{has_list_modification, is_b};
use hevc_bit_writer::BitWriter;
use hevc_picture_slice::{Pps, SliceHeader};
use hevc_sequence_set::Sps;
use hevc_write_elements::rows::{flag, ue_u8, ue_u8_if};
use hevc_write_slice_parts::write_ref_pic_list_modification;
use std::alloc::AllocError;

/// Rows 24 to 27 of table 14.
pub(crate) fn write_reference_lists(
    w: &mut BitWriter,
    sps: &Sps,
    pps: &Pps,
    x: &SliceHeader,
) -> Result<(), AllocError>
    ensures { OnOk result (Writes (table.reference_lists (plain_sps sps.now) (plain_pps pps.now))
        own.reference_lists_with_inputs_of (plain_slice_header x.now) w.old w.new) }
{
    write_active_counts(w, pps, x)?;
    write_list_modification_if(w, has_list_modification(pps, x), x)?;
    Ok(())
}

/// Rows 24 to 26 of table 14.
fn write_active_counts(w: &mut BitWriter, pps: &Pps, x: &SliceHeader) -> Result<(), AllocError>
    ensures { OnOk result (Writes (table.active_counts (plain_pps pps.now))
        own.active_counts_with_inputs_of (plain_slice_header x.now) w.old w.new) }
{
    flag(w, x.num_ref_idx_active_override_flag)?; // Row(14, 24)
    write_own_active_counts_if(w, x.num_ref_idx_active_override_flag, x)?;
    Ok(())
}

/// Rows 25 and 26 of table 14, where they are present.
fn write_own_active_counts_if(
    w: &mut BitWriter,
    present: bool,
    x: &SliceHeader,
) -> Result<(), AllocError>
    ensures { OnOk result (WritesIf present
        (Writes table.own_active_counts
        own.own_active_counts_with_inputs_of (plain_slice_header x.now)) w.old w.new) }
{
    if !present {
        return Ok(());
    }
    ue_u8(w, x.num_ref_idx_l0_active_minus1)?; // Row(14, 25)
    ue_u8_if(w, is_b(x), x.num_ref_idx_l1_active_minus1)?; // Row(14, 26)
    Ok(())
}

/// Row 27 of table 14, where it is present.
fn write_list_modification_if(
    w: &mut BitWriter,
    present: bool,
    x: &SliceHeader,
) -> Result<(), AllocError>
    ensures { OnOk result (WritesIf present
        (Writes table.list_modification
        own.list_modification_with_inputs_of (plain_slice_header x.now)) w.old w.new) }
{
    if !present {
        return Ok(());
    }
    write_ref_pic_list_modification(
        w,
        is_b(x),
        x.num_pic_total_curr,
        &x.ref_pic_list_modification,
    )?; // Row(14, 27)
    Ok(())
}
