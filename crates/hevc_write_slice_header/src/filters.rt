//! Filters (7.3.6.1, rows 22, 23 and 43 to 47 of table 14).
ghost use Rattle.std.specs.Prelude.{OnOk};
ghost use Rattle.hevc_tables.specs.SliceHeaderTable as table;
ghost use Rattle.hevc_sequence_set.specs.Sps.{plain_sps};
ghost use Rattle.hevc_picture_slice.specs.Pps.{plain_pps};
ghost use Rattle.hevc_picture_slice.specs.SliceHeader.{plain_slice_header};
ghost use Rattle.hevc_write_slice_header.specs.HeaderParts as own;
ghost use Rattle.hevc_write_elements.specs.Filling.{Writes, WritesIf};

use crate::rows::{goes_across, has_chroma_offset};
use hevc_bit_writer::BitWriter;
use hevc_picture_slice::{Pps, SliceHeader};
use hevc_sequence_set::Sps;
use hevc_write_elements::rows::{flag, flag_if, se_i8};
use std::alloc::AllocError;

/// Rows 22 and 23 of table 14.
pub(crate) fn write_adaptive_offset(
    w: &mut BitWriter,
    sps: &Sps,
    x: &SliceHeader,
) -> Result<(), AllocError>
    ensures { OnOk result (Writes (table.adaptive_offset (plain_sps sps.now))
        own.adaptive_offset_of (plain_slice_header x.now) w.old w.new) }
{
    flag_if(w, sps.sample_adaptive_offset_enabled_flag, x.sao_luma_flag)?; // Row(14, 22)
    flag_if(w, has_chroma_offset(sps), x.sao_chroma_flag)?; // Row(14, 23)
    Ok(())
}

/// Rows 43 to 47 of table 14.
pub(crate) fn write_filters(w: &mut BitWriter, pps: &Pps, x: &SliceHeader) -> Result<(), AllocError>
    ensures { OnOk result (Writes (table.filters (plain_pps pps.now))
        own.filters_with_inputs_of (plain_slice_header x.now) w.old w.new) }
{
    flag_if(
        w,
        pps.deblocking_filter_override_enabled_flag,
        x.deblocking_filter_override_flag,
    )?; // Row(14, 43)
    write_own_deblocking_if(w, x.deblocking_filter_override_flag, x)?;
    write_across_slices(w, pps, x)?;
    Ok(())
}

/// Rows 44 to 46 of table 14, where they are present.
fn write_own_deblocking_if(
    w: &mut BitWriter,
    present: bool,
    x: &SliceHeader,
) -> Result<(), AllocError>
    ensures { OnOk result (WritesIf present
        (Writes table.own_deblocking own.own_deblocking_of (plain_slice_header x.now))
        w.old w.new) }
{
    if !present {
        return Ok(());
    }
    flag(w, x.deblocking_filter_disabled_flag)?; // Row(14, 44)
    write_filter_offsets_if(w, !x.deblocking_filter_disabled_flag, x)?;
    Ok(())
}

/// Rows 45 and 46 of table 14, where they are present.
fn write_filter_offsets_if(
    w: &mut BitWriter,
    present: bool,
    x: &SliceHeader,
) -> Result<(), AllocError>
    ensures { OnOk result (WritesIf present
        (Writes table.filter_offsets own.filter_offsets_of (plain_slice_header x.now))
        w.old w.new) }
{
    if !present {
        return Ok(());
    }
    se_i8(w, x.beta_offset_div2)?; // Row(14, 45)
    se_i8(w, x.tc_offset_div2)?; // Row(14, 46)
    Ok(())
}

/// Row 47 of table 14.
fn write_across_slices(w: &mut BitWriter, pps: &Pps, x: &SliceHeader) -> Result<(), AllocError>
    ensures { OnOk result (Writes (table.across_slices (plain_pps pps.now))
        own.across_slices_with_inputs_of (plain_slice_header x.now) w.old w.new) }
{
    flag_if(
        w,
        goes_across(pps, x),
        x.loop_filter_across_slices_enabled_flag,
    )?; // Row(14, 47)
    Ok(())
}
