//! Tiles (6.5.1; 7.3.2.3.1, rows 14 to 19 of table 11).
ghost use Rattle.std.specs.Prelude.{◌≡◌, ◌≤◌, OnOk};
ghost use Rattle.hevc_elements.specs.Words.{Fills};
ghost use Rattle.hevc_tables.specs.PpsTable as table;
ghost use Rattle.hevc_sequence_set.specs.Sps.{plain_sps};
ghost use Rattle.hevc_picture_slice.specs.Pps.{plain_pps};
ghost use Rattle.hevc_pps.specs.Tiling.{HaveBlocks, AddUp};

use crate::tile_sizes::{even_sizes, read_told_sizes};
use hevc_elements::rows::{flag, ue_u8};
use hevc_elements::{ElementReader, ParseError};
use hevc_picture_slice::Pps;
use hevc_sequence_set::Sps;
use hevc_spec::Row;

/// Rows 14 to 19 of table 11, of a set with tiles.
#[tactic(auto, unfolding(hevc_tables::specs::PpsTable::tiles, hevc_spec::specs::Rows::either))]
pub(crate) fn read_tiles(
    r: &mut ElementReader<'_>,
    sps: &Sps,
    pps: &mut Pps,
) -> Result<(), ParseError>
    ensures fills { Fills plain_pps
        (table.tiles (plain_sps sps.now)) result pps.old pps.new r.old r.new }
    ensures same_sps { pps.new.seq_parameter_set_id ≡ pps.old.seq_parameter_set_id }
    ensures all { OnOk result (AddUp (plain_sps sps.now) (plain_pps pps.new)) }
{
    read_tile_counts(r, sps, pps)?;
    if pps.uniform_spacing_flag {
        set_even_tiles(sps, pps);
    } else {
        read_told_tiles(r, sps, pps)?;
    }
    let across = flag(r, Row(11, 19))?;
    set_filter_across_tiles(pps, across);
    Ok(())
}

/// Fills in row 19.
fn set_filter_across_tiles(pps: &mut Pps, across: bool)
    ensures { plain_pps pps.new ≡ record (plain_pps pps.old) { loop_filter_across_tiles_enabled_flag = across } }
{
    pps.loop_filter_across_tiles_enabled_flag = across;
}

/// Rows 14 to 16 of table 11.
#[tactic(auto, unfolding(hevc_tables::specs::PpsTable::tile_counts))]
fn read_tile_counts(r: &mut ElementReader<'_>, sps: &Sps, pps: &mut Pps) -> Result<(), ParseError>
    ensures fills { Fills plain_pps
        (table.tile_counts (plain_sps sps.now)) result pps.old pps.new r.old r.new }
    ensures same_sps { pps.new.seq_parameter_set_id ≡ pps.old.seq_parameter_set_id }
    ensures counts { OnOk result (HaveBlocks (plain_sps sps.now) (plain_pps pps.new)) }
{
    let most_columns = (width_in_blocks(sps) - 1).min(19) as u8;
    let most_rows = (height_in_blocks(sps) - 1).min(21) as u8;
    let columns = ue_u8(r, Row(11, 14), 0, most_columns)?;
    let rows = ue_u8(r, Row(11, 15), 0, most_rows)?;
    let uniform = flag(r, Row(11, 16))?;
    set_tile_counts(pps, columns, rows, uniform);
    Ok(())
}

/// Fills in rows 14 to 16.
fn set_tile_counts(pps: &mut Pps, columns_minus1: u8, rows_minus1: u8, uniform: bool)
    requires columns { columns_minus1 ≤ 19 }
    requires rows { rows_minus1 ≤ 21 }
    ensures { plain_pps pps.new ≡ record (plain_pps pps.old) {
      num_tile_columns_minus1 = columns_minus1;
      num_tile_rows_minus1 = rows_minus1;
      uniform_spacing_flag = uniform;
    } }
{
    pps.num_tile_columns_minus1 = columns_minus1;
    pps.num_tile_rows_minus1 = rows_minus1;
    pps.uniform_spacing_flag = uniform;
}

/// The width of a picture in coding tree blocks.
#[tactic(auto, using(crate::proofs::Blocks::some_blocks))]
fn width_in_blocks(sps: &Sps) -> u32
    ensures value { result ≡ (plain_sps sps.now).pic_width_in_ctbs_y }
    ensures range { (1 ≤ result) × (result ≤ 16888) }
{
    sps.pic_width_in_ctbs_y
}

/// The height of a picture in coding tree blocks.
#[tactic(auto, using(crate::proofs::Blocks::some_blocks))]
fn height_in_blocks(sps: &Sps) -> u32
    ensures value { result ≡ (plain_sps sps.now).pic_height_in_ctbs_y }
    ensures range { (1 ≤ result) × (result ≤ 16888) }
{
    sps.pic_height_in_ctbs_y
}

/// Columns and rows that are spread evenly.
#[tactic(auto, unfolding(hevc_tables::specs::PpsTable::with_even_tiles))]
fn set_even_tiles(sps: &Sps, pps: &mut Pps)
    requires { HaveBlocks (plain_sps sps.now) (plain_pps pps.old) }
    ensures set { plain_pps pps.new
        ≡ table.with_even_tiles (plain_sps sps.now) (plain_pps pps.old) }
    ensures same_sps { pps.new.seq_parameter_set_id ≡ pps.old.seq_parameter_set_id }
    ensures all { AddUp (plain_sps sps.now) (plain_pps pps.new) }
{
    let columns = u32::from(pps.num_tile_columns_minus1) + 1;
    let rows = u32::from(pps.num_tile_rows_minus1) + 1;
    pps.column_width_minus1 = even_sizes(width_in_blocks(sps), columns);
    pps.row_height_minus1 = even_sizes(height_in_blocks(sps), rows);
}

/// Rows 17 and 18 of table 11.
#[tactic(auto, unfolding(hevc_tables::specs::PpsTable::told_tiles))]
fn read_told_tiles(r: &mut ElementReader<'_>, sps: &Sps, pps: &mut Pps) -> Result<(), ParseError>
    ensures fills { Fills plain_pps
        (table.told_tiles (plain_sps sps.now)) result pps.old pps.new r.old r.new }
    ensures same_sps { pps.new.seq_parameter_set_id ≡ pps.old.seq_parameter_set_id }
    ensures all { OnOk result (AddUp (plain_sps sps.now) (plain_pps pps.new)) }
{
    let columns_minus1 = usize::from(pps.num_tile_columns_minus1);
    let rows_minus1 = usize::from(pps.num_tile_rows_minus1);
    let widths = read_told_sizes(r, Row(11, 17), width_in_blocks(sps), columns_minus1)?;
    let heights = read_told_sizes(r, Row(11, 18), height_in_blocks(sps), rows_minus1)?;
    pps.column_width_minus1 = widths;
    pps.row_height_minus1 = heights;
    Ok(())
}
