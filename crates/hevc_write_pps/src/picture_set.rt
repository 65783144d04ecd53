//! Picture parameter sets (7.3.2.3.1, table 11).
ghost use Rattle.std.specs.Prelude.{◌≡◌, ℕ, Option, Some, OnOk};
ghost use Rattle.hevc_records.specs.Sps.{PlainSps};
ghost use Rattle.hevc_tables.specs.PpsTable as table;
ghost use Rattle.hevc_sequence_set.specs.Sps.{plain_sps};
ghost use Rattle.hevc_picture_slice.specs.Pps.{plain_pps};
ghost use Rattle.hevc_write_pps.specs.PpsParts as own;
ghost use Rattle.hevc_write_elements.specs.Filling.{Writes, WritesTable};

use crate::coding::{write_coding, write_merging, write_scaling};
use crate::extensions::write_extensions;
use crate::filters::write_filters;
use hevc_bit_writer::BitWriter;
use hevc_picture_slice::Pps;
use hevc_sequence_set::Sps;
use hevc_write_elements::rows::ue_u8;
use std::alloc::AllocError;

/// Table 11, with the sequence set that the set names.
pub fn write_pps(w: &mut BitWriter, sps: &Sps, x: &Pps) -> Result<(), AllocError>
    ensures { (temporal_id : ℕ) (kept : ℕ → Option PlainSps)
        → kept x.now.seq_parameter_set_id ≡ Some (plain_sps sps.now)
        → OnOk result (WritesTable (table.picture_parameter_set temporal_id kept)
        (plain_pps x.now) w.old w.new) }
{
    write_ids(w, x)?;
    write_picture_set_of(w, sps, x)?;
    Ok(())
}

/// Rows 1 and 2 of table 11.
fn write_ids(w: &mut BitWriter, x: &Pps) -> Result<(), AllocError>
    ensures { OnOk result (Writes table.ids
        own.ids_of (plain_pps x.now) w.old w.new) }
{
    ue_u8(w, x.pic_parameter_set_id)?; // Row(11, 1)
    ue_u8(w, x.seq_parameter_set_id)?; // Row(11, 2)
    Ok(())
}

/// Rows 3 to 35 of table 11.
fn write_picture_set_of(w: &mut BitWriter, sps: &Sps, x: &Pps) -> Result<(), AllocError>
    ensures { OnOk result (Writes (table.picture_set_of (plain_sps sps.now))
        own.body_elements_of (plain_pps x.now) w.old w.new) }
{
    write_coding(w, x)?;
    write_filters(w, x)?;
    write_scaling(w, x)?;
    write_merging(w, x)?;
    write_extensions(w, sps, x)?;
    Ok(())
}
