//! Sequence parameter sets (7.3.2.2.1, table 5).
ghost use Rattle.std.specs.Prelude.{OnOk};
ghost use Rattle.hevc_tables.specs.SpsTable as table;
ghost use Rattle.hevc_sequence_set.specs.Sps.{plain_sps};
ghost use Rattle.hevc_write_sps.specs.SpsParts as own;
ghost use Rattle.hevc_write_elements.specs.Filling.{Writes, WritesTable};

use crate::coding::{write_scaling, write_tools, write_usability};
use crate::extensions::write_extensions;
use crate::format::{write_blocks, write_depths, write_framing, write_identity};
use crate::orderings::write_orderings;
use crate::pictures::{write_long_term, write_short_term};
use hevc_bit_writer::BitWriter;
use hevc_sequence_set::Sps;
use std::alloc::AllocError;

/// Table 5.
pub fn write_sps(w: &mut BitWriter, x: &Sps) -> Result<(), AllocError>
    ensures { OnOk result
        (WritesTable table.sequence_parameter_set (plain_sps x.now) w.old w.new) }
{
    write_format(w, x)?;
    write_coding(w, x)?;
    Ok(())
}

/// Rows 1 to 24 of table 5: the format of pictures.
fn write_format(w: &mut BitWriter, x: &Sps) -> Result<(), AllocError>
    ensures { OnOk result (Writes table.format
        own.format_elements_of (plain_sps x.now) w.old w.new) }
{
    write_identity(w, x)?;
    write_framing(w, x)?;
    write_depths(w, x)?;
    write_orderings(w, x)?;
    write_blocks(w, x)?;
    Ok(())
}

/// Rows 25 to 50 of table 5: how pictures are coded.
fn write_coding(w: &mut BitWriter, x: &Sps) -> Result<(), AllocError>
    ensures { OnOk result (Writes table.coding
        own.coding_with_inputs_of (plain_sps x.now) w.old w.new) }
{
    write_scaling(w, x)?;
    write_tools(w, x)?;
    write_short_term(w, x)?;
    write_long_term(w, x)?;
    write_usability(w, x)?;
    write_extensions(w, x)?;
    Ok(())
}
