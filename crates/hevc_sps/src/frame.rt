//! The size and the depth of pictures (7.3.2.2.1, rows 6 to 15 of table 5).
ghost use Rattle.std.specs.Prelude.{◌≡◌, ◌≤◌, ◌<◌, if◌then◌else◌, true, false, IsTrue};
ghost use Rattle.hevc_elements.specs.Words.{Fills};
ghost use Rattle.hevc_records.specs.SpsSizes.{leaves_some, sub_width_c, sub_height_c};
ghost use Rattle.hevc_records.specs.SpsSizes.{wp_offset_half_range};
ghost use Rattle.hevc_tables.specs.SpsTable as table;
ghost use Rattle.hevc_sequence_set.specs.Sps.{plain_sps};

use hevc_elements::rows::{check, flag, flag_if, ue, ue_u8, ue_u16};
use hevc_elements::{ElementReader, ParseError};
use hevc_sequence_set::Sps;
use hevc_spec::Row;

/// Rows 6 to 9 of table 5.
#[tactic(auto, unfolding(hevc_tables::specs::SpsTable::samples))]
pub(crate) fn read_samples(r: &mut ElementReader<'_>, sps: &mut Sps) -> Result<(), ParseError>
    ensures { Fills plain_sps table.samples result sps.old sps.new r.old r.new }
{
    let chroma_format_idc = ue_u8(r, Row(5, 6), 0, 3)?;
    let separate = flag_if(r, chroma_format_idc == 3, Row(5, 7))?;
    let width = ue_u16(r, Row(5, 8), 1, 16_888)?;
    let height = ue_u16(r, Row(5, 9), 1, 16_888)?;
    set_samples(sps, chroma_format_idc, separate, width, height);
    Ok(())
}

/// Fills in rows 6 to 9, and what follows from them.
#[tactic(auto, unfolding(hevc_tables::specs::SpsTable::with_picture_size))]
fn set_samples(sps: &mut Sps, chroma_format_idc: u8, separate: bool, width: u16, height: u16)
    requires format { chroma_format_idc ≤ 3 }
    requires some_width { 1 ≤ width }
    requires most_width { width ≤ 16888 }
    requires some_height { 1 ≤ height }
    requires most_height { height ≤ 16888 }
    ensures { plain_sps sps.new ≡ table.with_picture_size (record (plain_sps sps.old) {
      chroma_format_idc = chroma_format_idc;
      separate_colour_plane_flag = separate;
      pic_width_in_luma_samples = width;
      pic_height_in_luma_samples = height;
      conformance_window_flag = false;
      chroma_array_type = if separate then 0 else chroma_format_idc;
    }) }
{
    let across = u32::from(width).div_ceil(sps.ctb_size_y);
    let down = u32::from(height).div_ceil(sps.ctb_size_y);
    sps.chroma_format_idc = chroma_format_idc;
    sps.separate_colour_plane_flag = separate;
    sps.pic_width_in_luma_samples = width;
    sps.pic_height_in_luma_samples = height;
    sps.conformance_window_flag = false;
    sps.chroma_array_type = if separate { 0 } else { chroma_format_idc };
    sps.pic_width_in_ctbs_y = across;
    sps.pic_height_in_ctbs_y = down;
    sps.pic_size_in_ctbs_y = across * down;
    sps.pic_size_in_samples_y = u32::from(width) * u32::from(height);
}

/// Rows 10 to 12 of table 5.
#[tactic(auto, unfolding(hevc_tables::specs::SpsTable::cropping, hevc_spec::specs::Rows::when))]
pub(crate) fn read_cropping(r: &mut ElementReader<'_>, sps: &mut Sps) -> Result<(), ParseError>
    ensures { Fills plain_sps table.cropping result sps.old sps.new r.old r.new }
{
    if flag(r, Row(5, 10))? {
        read_window(r, sps)?;
    }
    Ok(())
}

/// Rows 11 and 12 of table 5.
#[tactic(auto, unfolding(hevc_tables::specs::SpsTable::window))]
fn read_window(r: &mut ElementReader<'_>, sps: &mut Sps) -> Result<(), ParseError>
    ensures { Fills plain_sps table.window result sps.old sps.new r.old r.new }
{
    let left = ue(r, Row(5, 11), 0, 2_147_483_647)?;
    let right = ue(r, Row(5, 11), 0, 2_147_483_647)?;
    let top = ue(r, Row(5, 11), 0, 2_147_483_647)?;
    let bottom = ue(r, Row(5, 11), 0, 2_147_483_647)?;
    check(r, Row(5, 12), leaves_part(sps, left, right, top, bottom))?;
    set_window(sps, left, right, top, bottom);
    Ok(())
}

/// Fills in row 11.
fn set_window(sps: &mut Sps, left: u32, right: u32, top: u32, bottom: u32)
    requires { IsTrue (leaves_some sps.old.chroma_array_type
        sps.old.pic_width_in_luma_samples sps.old.pic_height_in_luma_samples left right top bottom) }
    ensures { plain_sps sps.new ≡ record (plain_sps sps.old) {
      conformance_window_flag = true;
      conf_win_left_offset = left;
      conf_win_right_offset = right;
      conf_win_top_offset = top;
      conf_win_bottom_offset = bottom;
    } }
{
    sps.conformance_window_flag = true;
    sps.conf_win_left_offset = left;
    sps.conf_win_right_offset = right;
    sps.conf_win_top_offset = top;
    sps.conf_win_bottom_offset = bottom;
}

/// Whether the conformance cropping window leaves some of the picture.
#[tactic(auto, unfolding(hevc_records::specs::SpsSizes::leaves_some))]
fn leaves_part(sps: &Sps, left: u32, right: u32, top: u32, bottom: u32) -> bool
    ensures { result ≡ leaves_some sps.now.chroma_array_type
        sps.now.pic_width_in_luma_samples sps.now.pic_height_in_luma_samples left right top bottom }
{
    let width = u64::from(sps.pic_width_in_luma_samples);
    let height = u64::from(sps.pic_height_in_luma_samples);
    sub_width(sps.chroma_array_type) * (u64::from(left) + u64::from(right)) < width
        && sub_height(sps.chroma_array_type) * (u64::from(top) + u64::from(bottom)) < height
}

/// SubWidthC (Table 6-1), 1 where the planes are coded apart.
fn sub_width(chroma_array_type: u8) -> u64
    ensures value { result ≡ sub_width_c chroma_array_type }
    ensures small { result ≤ 2 }
{
    if chroma_array_type == 1 || chroma_array_type == 2 {
        2
    } else {
        1
    }
}

/// SubHeightC (Table 6-1), 1 where the planes are coded apart.
fn sub_height(chroma_array_type: u8) -> u64
    ensures value { result ≡ sub_height_c chroma_array_type }
    ensures small { result ≤ 2 }
{
    if chroma_array_type == 1 { 2 } else { 1 }
}

/// Rows 13 to 15 of table 5.
#[tactic(auto, unfolding(hevc_tables::specs::SpsTable::depths))]
pub(crate) fn read_depths(r: &mut ElementReader<'_>, sps: &mut Sps) -> Result<(), ParseError>
    ensures { Fills plain_sps table.depths result sps.old sps.new r.old r.new }
{
    let luma = ue_u8(r, Row(5, 13), 0, 6)?;
    let chroma = ue_u8(r, Row(5, 14), 0, 6)?;
    let order_count_bits = ue_u8(r, Row(5, 15), 0, 12)?;
    set_depths(sps, luma, chroma, order_count_bits);
    Ok(())
}

/// Fills in rows 13 to 15, and what follows from them.
#[tactic(auto, unfolding(hevc_tables::specs::SpsTable::with_half_ranges))]
fn set_depths(sps: &mut Sps, luma: u8, chroma: u8, order_count_bits: u8)
    requires luma { luma ≤ 6 }
    requires chroma { chroma ≤ 6 }
    requires order_count { order_count_bits ≤ 12 }
    ensures { plain_sps sps.new ≡ table.with_half_ranges (record (plain_sps sps.old) {
      bit_depth_luma_minus8 = luma;
      bit_depth_chroma_minus8 = chroma;
      log2_max_pic_order_cnt_lsb_minus4 = order_count_bits;
    }) }
{
    let precise = sps.range_extension.high_precision_offsets_enabled_flag;
    sps.bit_depth_luma_minus8 = luma;
    sps.bit_depth_chroma_minus8 = chroma;
    sps.log2_max_pic_order_cnt_lsb_minus4 = order_count_bits;
    sps.wp_offset_half_range_y = half_range(precise, luma);
    sps.wp_offset_half_range_c = half_range(precise, chroma);
}

/// Half the range of offsets in weighted prediction, of samples of this bit depth less 8.
pub(crate) fn half_range(precise: bool, depth_minus8: u8) -> u32
    requires { depth_minus8 < 7 }
    ensures { result ≡ wp_offset_half_range precise depth_minus8 }
{
    if precise {
        1u32 << (u32::from(depth_minus8) + 7)
    } else {
        128
    }
}
