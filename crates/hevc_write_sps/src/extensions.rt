//! Extensions (7.3.2.2.1, rows 43 to 50 of table 5).
ghost use Rattle.std.specs.Prelude.{OnOk};
ghost use Rattle.hevc_tables.specs.SpsTable as table;
ghost use Rattle.hevc_sequence_set.specs.Sps.{plain_sps};
ghost use Rattle.hevc_write_sps.specs.SpsParts as own;
ghost use Rattle.hevc_write_elements.specs.Filling.{Writes, WritesIf};

use hevc_bit_writer::BitWriter;
use hevc_sequence_set::Sps;
use hevc_write_elements::rows::{flag, zeros};
use hevc_write_extensions::{write_sps_range_extension, write_sps_scc_extension};
use std::alloc::AllocError;

/// Rows 43 to 50 of table 5.
pub(crate) fn write_extensions(w: &mut BitWriter, x: &Sps) -> Result<(), AllocError>
    ensures { OnOk result (Writes table.extensions
        own.extensions_with_inputs_of (plain_sps x.now) w.old w.new) }
{
    flag(w, x.extension_present_flag)?; // Row(5, 43)
    write_extension_data_if(w, x.extension_present_flag, x)?;
    Ok(())
}

/// Rows 44 to 50 of table 5, where they are present.
fn write_extension_data_if(w: &mut BitWriter, present: bool, x: &Sps) -> Result<(), AllocError>
    ensures { OnOk result (WritesIf present
        (Writes table.extension_data own.extension_data_with_inputs_of (plain_sps x.now))
        w.old w.new) }
{
    if !present {
        return Ok(());
    }
    write_extension_flags(w, x)?;
    write_range_extension_if(w, x.range_extension_flag, x)?;
    write_scc_extension_if(w, x.scc_extension_flag, x)?;
    Ok(())
}

/// Rows 44 to 48 of table 5.
fn write_extension_flags(w: &mut BitWriter, x: &Sps) -> Result<(), AllocError>
    ensures { OnOk result (Writes table.extension_flags
        own.extension_flags_of (plain_sps x.now) w.old w.new) }
{
    flag(w, x.range_extension_flag)?; // Row(5, 44)
    flag(w, false)?; // Row(5, 45)
    flag(w, false)?; // Row(5, 46)
    flag(w, x.scc_extension_flag)?; // Row(5, 47)
    zeros(w, 4)?; // Row(5, 48)
    Ok(())
}

/// Row 49 of table 5, where it is present.
fn write_range_extension_if(w: &mut BitWriter, present: bool, x: &Sps) -> Result<(), AllocError>
    ensures { OnOk result (WritesIf present
        (Writes table.range_extension own.range_extension_elements_of (plain_sps x.now))
        w.old w.new) }
{
    if !present {
        return Ok(());
    }
    write_sps_range_extension(w, &x.range_extension)?; // Row(5, 49)
    Ok(())
}

/// Row 50 of table 5, where it is present.
fn write_scc_extension_if(w: &mut BitWriter, present: bool, x: &Sps) -> Result<(), AllocError>
    ensures { OnOk result (WritesIf present
        (Writes table.scc_extension own.scc_extension_with_inputs_of (plain_sps x.now))
        w.old w.new) }
{
    if !present {
        return Ok(());
    }
    write_sps_scc_extension(w, x)?; // Row(5, 50)
    Ok(())
}
