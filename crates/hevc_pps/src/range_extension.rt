//! The range extension (7.3.2.3.2, table 12).
ghost use Rattle.std.specs.Prelude.{◌≤◌, ◌<◌};
ghost use Rattle.hevc_elements.specs.Words.{Reads, Fills};
ghost use Rattle.hevc_tables.specs.PpsRangeExtensionTable as table;
ghost use Rattle.hevc_set_parts.specs.PpsRangeExtension.{plain_pps_range_extension};
ghost use Rattle.hevc_sequence_set.specs.Sps.{plain_sps};

use hevc_elements::rows::{flag, se, ue, ue_if};
use hevc_elements::{ElementReader, ParseError};
use hevc_sequence_set::Sps;
use hevc_set_parts::PpsRangeExtension;
use hevc_spec::Row;

/// Table 12, of a set that allows skipped transforms or not.
#[tactic(auto, unfolding(hevc_tables::specs::PpsRangeExtensionTable::pps_range_extension, hevc_spec::specs::Rows::when))]
pub(crate) fn read_pps_range_extension(
    r: &mut ElementReader<'_>,
    sps: &Sps,
    transform_skip: bool,
) -> Result<PpsRangeExtension, ParseError>
    ensures read { Reads plain_pps_range_extension
        (table.pps_range_extension (plain_sps sps.now) transform_skip) result r.old r.new }
{
    let most_size = sps.max_tb_log2_size_y - 2;
    let most_luma = u32::from(sps.bit_depth_luma_minus8.saturating_sub(2));
    let most_chroma = u32::from(sps.bit_depth_chroma_minus8.saturating_sub(2));
    let mut x = PpsRangeExtension::new();
    x.log2_max_transform_skip_block_size_minus2 = ue_if(
        r,
        transform_skip,
        Row(12, 1),
        0,
        most_size,
    )?;
    x.cross_component_prediction_enabled_flag = flag(r, Row(12, 2))?;
    x.chroma_qp_offset_list_enabled_flag = flag(r, Row(12, 2))?;
    if x.chroma_qp_offset_list_enabled_flag {
        read_offset_lists(r, &mut x)?;
    }
    x.log2_sao_offset_scale_luma = ue(r, Row(12, 6), 0, most_luma)?;
    x.log2_sao_offset_scale_chroma = ue(r, Row(12, 7), 0, most_chroma)?;
    Ok(x)
}

/// Rows 3 to 5 of table 12.
#[tactic(auto, unfolding(hevc_tables::specs::PpsRangeExtensionTable::offset_lists))]
fn read_offset_lists(r: &mut ElementReader<'_>, x: &mut PpsRangeExtension) -> Result<(), ParseError>
    ensures { Fills plain_pps_range_extension table.offset_lists result x.old x.new r.old r.new }
{
    x.diff_cu_chroma_qp_offset_depth = ue(r, Row(12, 3), 0, 2_147_483_647)?;
    let last = ue(r, Row(12, 4), 0, 5)?;
    x.chroma_qp_offset_list_len_minus1 = last;
    read_offset_pairs(r, last as usize + 1, x)
}

/// Row 5 of table 12, for each pair.
#[tactic(auto, using(hevc_elements::proofs::Loops::loops), unfolding(hevc_tables::specs::PpsRangeExtensionTable::offset_pairs))]
fn read_offset_pairs(
    r: &mut ElementReader<'_>,
    count: usize,
    x: &mut PpsRangeExtension,
) -> Result<(), ParseError>
    requires { count ≤ 6 }
    ensures { Fills plain_pps_range_extension
        (table.offset_pairs count) result x.old x.new r.old r.new }
{
    for i in 0..count {
        read_offset_pair(r, i, x)?;
    }
    Ok(())
}

/// Row 5 of table 12, for one pair.
#[tactic(auto, unfolding(hevc_tables::specs::PpsRangeExtensionTable::offset_pair))]
fn read_offset_pair(
    r: &mut ElementReader<'_>,
    i: usize,
    x: &mut PpsRangeExtension,
) -> Result<(), ParseError>
    requires { i < 6 }
    ensures { Fills plain_pps_range_extension (table.offset_pair i) result x.old x.new r.old r.new }
{
    let cb = se(r, Row(12, 5), -12, 12)?;
    let cr = se(r, Row(12, 5), -12, 12)?;
    x.cb_qp_offset_list[i] = cb;
    x.cr_qp_offset_list[i] = cr;
    Ok(())
}
