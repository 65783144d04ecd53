//! The sizes of blocks (7.3.2.2.1, rows 20 to 24 of table 5).
ghost use Rattle.std.specs.Prelude.{◌≡◌, ◌≤◌, ◌+◌, min};
ghost use Rattle.hevc_elements.specs.Words.{Fills};
ghost use Rattle.hevc_tables.specs.SpsTable as table;
ghost use Rattle.hevc_sequence_set.specs.Sps.{plain_sps};

use hevc_elements::rows::{check, ue_u8};
use hevc_elements::{ElementReader, ParseError};
use hevc_sequence_set::Sps;
use hevc_spec::Row;

/// Rows 20 to 24 of table 5.
#[tactic(auto, unfolding(hevc_tables::specs::SpsTable::blocks, hevc_tables::specs::SpsTable::with_block_sizes, hevc_tables::specs::SpsTable::with_picture_size))]
pub(crate) fn read_blocks(r: &mut ElementReader<'_>, sps: &mut Sps) -> Result<(), ParseError>
    ensures { Fills plain_sps table.blocks result sps.old sps.new r.old r.new }
{
    let min_cb_minus3 = ue_u8(r, Row(5, 20), 0, 3)?;
    let diff_cb = ue_u8(r, Row(5, 21), 0, 6)?;
    let min_tb_minus2 = ue_u8(r, Row(5, 22), 0, 3)?;
    let diff_tb = ue_u8(r, Row(5, 23), 0, 3)?;
    let min_cb = u32::from(min_cb_minus3) + 3;
    let ctb = min_cb + u32::from(diff_cb);
    let max_tb = u32::from(min_tb_minus2) + 2 + u32::from(diff_tb);
    check(r, Row(5, 24), max_tb <= ctb.min(5))?;
    set_blocks(sps, min_cb_minus3, diff_cb, min_tb_minus2, diff_tb);
    Ok(())
}

/// The sizes of blocks, and what follows from them.
#[tactic(auto, unfolding(hevc_tables::specs::SpsTable::with_block_sizes, hevc_tables::specs::SpsTable::with_picture_size))]
fn set_blocks(sps: &mut Sps, min_cb_minus3: u8, diff_cb: u8, min_tb_minus2: u8, diff_tb: u8)
    requires least_cb { min_cb_minus3 ≤ 3 }
    requires more_cb { diff_cb ≤ 6 }
    requires least_tb { min_tb_minus2 ≤ 3 }
    requires more_tb { diff_tb ≤ 3 }
    requires within { min_tb_minus2 + 2 + diff_tb ≤ min (min_cb_minus3 + 3 + diff_cb) 5 }
    ensures { plain_sps sps.new ≡ table.with_block_sizes (record (plain_sps sps.old) {
      log2_min_luma_coding_block_size_minus3 = min_cb_minus3;
      log2_diff_max_min_luma_coding_block_size = diff_cb;
      log2_min_luma_transform_block_size_minus2 = min_tb_minus2;
      log2_diff_max_min_luma_transform_block_size = diff_tb;
    }) }
{
    let min_cb = u32::from(min_cb_minus3) + 3;
    let ctb = min_cb + u32::from(diff_cb);
    let max_tb = u32::from(min_tb_minus2) + 2 + u32::from(diff_tb);
    let across = u32::from(sps.pic_width_in_luma_samples).div_ceil(1 << ctb);
    let down = u32::from(sps.pic_height_in_luma_samples).div_ceil(1 << ctb);
    sps.log2_min_luma_coding_block_size_minus3 = min_cb_minus3;
    sps.log2_diff_max_min_luma_coding_block_size = diff_cb;
    sps.log2_min_luma_transform_block_size_minus2 = min_tb_minus2;
    sps.log2_diff_max_min_luma_transform_block_size = diff_tb;
    sps.min_cb_log2_size_y = min_cb;
    sps.ctb_log2_size_y = ctb;
    sps.ctb_size_y = 1 << ctb;
    sps.pic_width_in_ctbs_y = across;
    sps.pic_height_in_ctbs_y = down;
    sps.pic_size_in_ctbs_y = across * down;
    sps.max_tb_log2_size_y = max_tb;
}
