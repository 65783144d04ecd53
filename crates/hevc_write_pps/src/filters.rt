//! Filters (7.3.2.3.1, rows 20 to 23 of table 11).
ghost use Rattle.std.specs.Prelude.{OnOk};
ghost use Rattle.hevc_tables.specs.PpsTable as table;
ghost use Rattle.hevc_picture_slice.specs.Pps.{plain_pps};
ghost use Rattle.hevc_write_pps.specs.PpsParts as own;
ghost use Rattle.hevc_write_elements.specs.Filling.{Writes, WritesIf};

use hevc_bit_writer::BitWriter;
use hevc_picture_slice::Pps;
use hevc_write_elements::rows::{flag, se_i8};
use std::alloc::AllocError;

/// Rows 20 to 23 of table 11.
pub(crate) fn write_filters(w: &mut BitWriter, x: &Pps) -> Result<(), AllocError>
    ensures { OnOk result (Writes table.filters
        own.filters_of (plain_pps x.now) w.old w.new) }
{
    flag(w, x.loop_filter_across_slices_enabled_flag)?; // Row(11, 20)
    flag(w, x.deblocking_filter_control_present_flag)?; // Row(11, 20)
    write_deblocking_if(w, x.deblocking_filter_control_present_flag, x)?;
    Ok(())
}

/// Rows 21 to 23 of table 11, where they are present.
fn write_deblocking_if(w: &mut BitWriter, present: bool, x: &Pps) -> Result<(), AllocError>
    ensures { OnOk result (WritesIf present
        (Writes table.deblocking own.deblocking_of (plain_pps x.now)) w.old w.new) }
{
    if !present {
        return Ok(());
    }
    flag(w, x.deblocking_filter_override_enabled_flag)?; // Row(11, 21)
    flag(w, x.deblocking_filter_disabled_flag)?; // Row(11, 21)
    write_filter_offsets_if(w, !x.deblocking_filter_disabled_flag, x)?;
    Ok(())
}

/// Rows 22 and 23 of table 11, where they are present.
fn write_filter_offsets_if(w: &mut BitWriter, present: bool, x: &Pps) -> Result<(), AllocError>
    ensures { OnOk result (WritesIf present
        (Writes table.filter_offsets own.filter_offsets_of (plain_pps x.now)) w.old w.new) }
{
    if !present {
        return Ok(());
    }
    se_i8(w, x.beta_offset_div2)?; // Row(11, 22)
    se_i8(w, x.tc_offset_div2)?; // Row(11, 23)
    Ok(())
}
