//! Extensions (7.3.2.3.1, rows 28 to 35 of table 11).
ghost use Rattle.std.specs.Prelude.{OnOk};
ghost use Rattle.hevc_records.specs.Sps.{PlainSps};
ghost use Rattle.hevc_tables.specs.PpsTable as table;
ghost use Rattle.hevc_sequence_set.specs.Sps.{plain_sps};
ghost use Rattle.hevc_picture_slice.specs.Pps.{plain_pps};
ghost use Rattle.hevc_write_pps.specs.PpsParts as own;
ghost use Rattle.hevc_write_elements.specs.Filling.{Writes, WritesIf};

use hevc_bit_writer::BitWriter;
use hevc_picture_slice::Pps;
use hevc_sequence_set::Sps;
use hevc_write_elements::rows::{flag, zeros};
use hevc_write_extensions::{write_pps_range_extension, write_pps_scc_extension};
use std::alloc::AllocError;

/// The last flag of row 28, and rows 29 to 35 of table 11.
pub(crate) fn write_extensions(w: &mut BitWriter, sps: &Sps, x: &Pps) -> Result<(), AllocError>
    ensures { OnOk result (Writes (table.extensions (plain_sps sps.now))
        own.extensions_with_inputs_of (plain_pps x.now) w.old w.new) }
{
    flag(w, x.extension_present_flag)?; // Row(11, 28)
    write_extension_data_if(w, x.extension_present_flag, sps, x)?;
    Ok(())
}

/// Rows 29 to 35 of table 11, where they are present.
fn write_extension_data_if(
    w: &mut BitWriter,
    present: bool,
    sps: &Sps,
    x: &Pps,
) -> Result<(), AllocError>
    ensures { OnOk result (WritesIf present
        (Writes (table.extension_data (plain_sps sps.now)) own.extension_data_with_inputs_of
        (plain_pps x.now)) w.old w.new) }
{
    if !present {
        return Ok(());
    }
    write_extension_flags(w, x)?;
    write_range_extension_if(w, x.range_extension_flag, x)?;
    write_scc_extension_if(w, x.scc_extension_flag, sps, x)?;
    Ok(())
}

/// Rows 29 to 33 of table 11.
fn write_extension_flags(w: &mut BitWriter, x: &Pps) -> Result<(), AllocError>
    ensures { OnOk result (Writes table.extension_flags
        own.extension_flags_of (plain_pps x.now) w.old w.new) }
{
    flag(w, x.range_extension_flag)?; // Row(11, 29)
    flag(w, false)?; // Row(11, 30)
    flag(w, false)?; // Row(11, 31)
    flag(w, x.scc_extension_flag)?; // Row(11, 32)
    zeros(w, 4)?; // Row(11, 33)
    Ok(())
}

/// Row 34 of table 11, where it is present.
fn write_range_extension_if(w: &mut BitWriter, present: bool, x: &Pps) -> Result<(), AllocError>
    ensures { OnOk result ((sps : PlainSps) → WritesIf present
        (Writes (table.range_extension sps) own.range_extension_with_inputs_of (plain_pps x.now))
        w.old w.new) }
{
    if !present {
        return Ok(());
    }
    write_pps_range_extension(w, x.transform_skip_enabled_flag, &x.range_extension)?; // Row(11, 34)
    Ok(())
}

/// Row 35 of table 11, where it is present.
fn write_scc_extension_if(
    w: &mut BitWriter,
    present: bool,
    sps: &Sps,
    x: &Pps,
) -> Result<(), AllocError>
    ensures { OnOk result (WritesIf present
        (Writes (table.scc_extension (plain_sps sps.now)) own.scc_extension_of (plain_pps x.now))
        w.old w.new) }
{
    if !present {
        return Ok(());
    }
    write_pps_scc_extension(w, sps, &x.scc_extension)?; // Row(11, 35)
    Ok(())
}
