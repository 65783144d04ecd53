//! Tiles (7.3.2.3.1, rows 14 to 19 of table 11).
ghost use Rattle.std.specs.Prelude.{◌≡◌, ◌<◌, ℕ, None, length, OnOk};
ghost use Rattle.hevc_spec.specs.declared.Row.{Row};
ghost use Rattle.hevc_records.specs.Sps.{PlainSps};
ghost use Rattle.hevc_tables.specs.PpsTable as table;
ghost use Rattle.hevc_picture_slice.specs.Pps.{plain_pps};
ghost use Rattle.hevc_write_pps.specs.PpsParts as own;
ghost use Rattle.hevc_write_elements.specs.Choices.{chosen_value};
ghost use Rattle.hevc_write_elements.specs.Filling.{Writes, WritesIf, WritesTable};

use hevc_bit_writer::BitWriter;
use hevc_picture_slice::Pps;
use hevc_write_elements::rows::{flag, ue, ue_u8};
use std::alloc::AllocError;

/// Rows 14 to 19 of table 11, where they are present.
pub(crate) fn write_tiles_if(w: &mut BitWriter, present: bool, x: &Pps) -> Result<(), AllocError>
    ensures { OnOk result ((sps : PlainSps) → WritesIf present
        (Writes (table.tiles sps) own.tiles_of (plain_pps x.now)) w.old w.new) }
{
    if !present {
        return Ok(());
    }
    write_tile_counts(w, x)?;
    write_told_tiles_if(w, !x.uniform_spacing_flag, x)?;
    flag(w, x.loop_filter_across_tiles_enabled_flag)?; // Row(11, 19)
    Ok(())
}

/// Rows 14 to 16 of table 11.
fn write_tile_counts(w: &mut BitWriter, x: &Pps) -> Result<(), AllocError>
    ensures { (sps : PlainSps) → OnOk result (Writes (table.tile_counts sps)
        own.tile_counts_of (plain_pps x.now) w.old w.new) }
{
    ue_u8(w, x.num_tile_columns_minus1)?; // Row(11, 14)
    ue_u8(w, x.num_tile_rows_minus1)?; // Row(11, 15)
    flag(w, x.uniform_spacing_flag)?; // Row(11, 16)
    Ok(())
}

/// Rows 17 and 18 of table 11, where they are present.
fn write_told_tiles_if(w: &mut BitWriter, present: bool, x: &Pps) -> Result<(), AllocError>
    ensures { OnOk result ((sps : PlainSps) → WritesIf present
        (Writes (table.told_tiles sps) own.told_tiles_with_inputs_of (plain_pps x.now))
        w.old w.new) }
{
    if !present {
        return Ok(());
    }
    write_told_sizes(w, &x.column_width_minus1, x.num_tile_columns_minus1)?; // Row(11, 17)
    write_told_sizes(w, &x.row_height_minus1, x.num_tile_rows_minus1)?; // Row(11, 18)
    Ok(())
}

/// Row 17 or 18 of table 11: the sizes of all columns or rows but the last one's, which takes what
/// is left.
fn write_told_sizes(w: &mut BitWriter, sizes: &[u32], last: u8) -> Result<(), AllocError>
    requires { last < length sizes.now }
    ensures { (r : Row) → chosen_value r ≡ None → (places blocks : ℕ) → OnOk result
        (WritesTable (table.told_sizes r places blocks last) sizes.now w.old w.new) }
{
    for i in 0..usize::from(last) {
        ue(w, sizes[i])?;
    }
    Ok(())
}
