//! The format of pictures (7.3.2.2.1, rows 1 to 24 of table 5).
ghost use Rattle.std.specs.Prelude.{OnOk};
ghost use Rattle.hevc_tables.specs.SpsTable as table;
ghost use Rattle.hevc_sequence_set.specs.Sps.{plain_sps};
ghost use Rattle.hevc_write_sps.specs.SpsParts as own;
ghost use Rattle.hevc_write_elements.specs.Filling.{Writes, WritesIf};

use hevc_bit_writer::BitWriter;
use hevc_sequence_set::Sps;
use hevc_write_elements::rows::{bits_u8, flag, flag_if, ue, ue_u8, ue_u16};
use hevc_write_set_parts::write_profile_tier_level;
use std::alloc::AllocError;

/// Rows 1 to 5 of table 5.
pub(crate) fn write_identity(w: &mut BitWriter, x: &Sps) -> Result<(), AllocError>
    ensures { OnOk result (Writes table.identity
        own.identity_of (plain_sps x.now) w.old w.new) }
{
    bits_u8(w, 4, x.video_parameter_set_id)?; // Row(5, 1)
    bits_u8(w, 3, x.max_sub_layers_minus1)?; // Row(5, 2)
    flag(w, x.temporal_id_nesting_flag)?; // Row(5, 3)
    write_profile_tier_level(w, x.max_sub_layers_minus1, &x.profile_tier_level)?; // Row(5, 4)
    ue_u8(w, x.seq_parameter_set_id)?; // Row(5, 5)
    Ok(())
}

/// Rows 6 to 12 of table 5: the size, and what of it is shown.
pub(crate) fn write_framing(w: &mut BitWriter, x: &Sps) -> Result<(), AllocError>
    ensures { OnOk result (Writes own.framing_rows
        own.framing_elements_of (plain_sps x.now) w.old w.new) }
{
    ue_u8(w, x.chroma_format_idc)?; // Row(5, 6)
    flag_if(w, x.chroma_format_idc == 3, x.separate_colour_plane_flag)?; // Row(5, 7)
    ue_u16(w, x.pic_width_in_luma_samples)?; // Row(5, 8)
    ue_u16(w, x.pic_height_in_luma_samples)?; // Row(5, 9)
    flag(w, x.conformance_window_flag)?; // Row(5, 10)
    write_window_if(w, x.conformance_window_flag, x)?;
    Ok(())
}

/// Rows 11 and 12 of table 5, where they are present.
fn write_window_if(w: &mut BitWriter, present: bool, x: &Sps) -> Result<(), AllocError>
    ensures { OnOk result (WritesIf present
        (Writes table.window own.window_elements_of (plain_sps x.now)) w.old w.new) }
{
    if !present {
        return Ok(());
    }
    ue(w, x.conf_win_left_offset)?; // Row(5, 11)
    ue(w, x.conf_win_right_offset)?; // Row(5, 11)
    ue(w, x.conf_win_top_offset)?; // Row(5, 11)
    ue(w, x.conf_win_bottom_offset)?; // Row(5, 11)
    Ok(())
}

/// Rows 13 to 15 of table 5.
pub(crate) fn write_depths(w: &mut BitWriter, x: &Sps) -> Result<(), AllocError>
    ensures { OnOk result (Writes table.depths
        own.depths_elements_of (plain_sps x.now) w.old w.new) }
{
    ue_u8(w, x.bit_depth_luma_minus8)?; // Row(5, 13)
    ue_u8(w, x.bit_depth_chroma_minus8)?; // Row(5, 14)
    ue_u8(w, x.log2_max_pic_order_cnt_lsb_minus4)?; // Row(5, 15)
    Ok(())
}

/// Rows 20 to 24 of table 5.
pub(crate) fn write_blocks(w: &mut BitWriter, x: &Sps) -> Result<(), AllocError>
    ensures { OnOk result (Writes table.blocks
        own.blocks_elements_of (plain_sps x.now) w.old w.new) }
{
    ue_u8(w, x.log2_min_luma_coding_block_size_minus3)?; // Row(5, 20)
    ue_u8(w, x.log2_diff_max_min_luma_coding_block_size)?; // Row(5, 21)
    ue_u8(w, x.log2_min_luma_transform_block_size_minus2)?; // Row(5, 22)
    ue_u8(w, x.log2_diff_max_min_luma_transform_block_size)?; // Row(5, 23)
    Ok(())
}
