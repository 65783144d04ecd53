//! Tools of coding (7.3.2.2.1, rows 25 to 34 of table 5).
ghost use Rattle.std.specs.Prelude.{◌≡◌};
ghost use Rattle.hevc_elements.specs.Words.{Fills};
ghost use Rattle.hevc_tables.specs.SpsTable as table;
ghost use Rattle.hevc_set_parts.specs.ScalingLists.{plain_scaling_lists};
ghost use Rattle.hevc_sequence_set.specs.Sps.{plain_sps};

use hevc_elements::rows::{bits_u8, flag, flag_if, ue_u8};
use hevc_elements::{ElementReader, ParseError};
use hevc_scaling::read_scaling_list_data;
use hevc_sequence_set::Sps;
use hevc_set_parts::ScalingLists;
use hevc_spec::Row;

/// Rows 25 to 29 of table 5.
#[tactic(auto, unfolding(hevc_tables::specs::SpsTable::scaling, hevc_spec::specs::Rows::when))]
pub(crate) fn read_scaling(r: &mut ElementReader<'_>, sps: &mut Sps) -> Result<(), ParseError>
    ensures { Fills plain_sps table.scaling result sps.old sps.new r.old r.new }
{
    let inter = ue_u8(r, Row(5, 25), 0, 4)?;
    let intra = ue_u8(r, Row(5, 26), 0, 4)?;
    let enabled = flag(r, Row(5, 27))?;
    let present = flag_if(r, enabled, Row(5, 28))?;
    set_scaling(sps, inter, intra, enabled, present);
    if present {
        read_scaling_lists(r, sps)
    } else {
        Ok(())
    }
}

/// Fills in rows 25 to 28.
fn set_scaling(sps: &mut Sps, inter: u8, intra: u8, enabled: bool, present: bool)
    ensures { plain_sps sps.new ≡ record (plain_sps sps.old) {
      max_transform_hierarchy_depth_inter = inter;
      max_transform_hierarchy_depth_intra = intra;
      scaling_list_enabled_flag = enabled;
      scaling_list_data_present_flag = present;
    } }
{
    sps.max_transform_hierarchy_depth_inter = inter;
    sps.max_transform_hierarchy_depth_intra = intra;
    sps.scaling_list_enabled_flag = enabled;
    sps.scaling_list_data_present_flag = present;
}

/// Row 29 of table 5.
#[tactic(auto, unfolding(hevc_tables::specs::SpsTable::scaling_lists))]
fn read_scaling_lists(r: &mut ElementReader<'_>, sps: &mut Sps) -> Result<(), ParseError>
    ensures { Fills plain_sps table.scaling_lists result sps.old sps.new r.old r.new }
{
    let scaling_list = read_scaling_list_data(r)?;
    set_scaling_lists(sps, scaling_list);
    Ok(())
}

/// Fills in row 29.
fn set_scaling_lists(sps: &mut Sps, scaling_list: ScalingLists)
    ensures { plain_sps sps.new ≡ record (plain_sps sps.old) {
      scaling_list = plain_scaling_lists scaling_list;
    } }
{
    sps.scaling_list = scaling_list;
}

/// Rows 30 to 34 of table 5.
#[tactic(auto, unfolding(hevc_tables::specs::SpsTable::tools, hevc_spec::specs::Rows::when))]
pub(crate) fn read_tools(r: &mut ElementReader<'_>, sps: &mut Sps) -> Result<(), ParseError>
    ensures { Fills plain_sps table.tools result sps.old sps.new r.old r.new }
{
    let amp = flag(r, Row(5, 30))?;
    let sample_adaptive_offset = flag(r, Row(5, 30))?;
    let pcm = flag(r, Row(5, 30))?;
    set_tools(sps, amp, sample_adaptive_offset, pcm);
    if pcm {
        read_pulse_code_modulation(r, sps)
    } else {
        Ok(())
    }
}

/// Fills in row 30.
fn set_tools(sps: &mut Sps, amp: bool, sample_adaptive_offset: bool, pcm: bool)
    ensures { plain_sps sps.new ≡ record (plain_sps sps.old) {
      amp_enabled_flag = amp;
      sample_adaptive_offset_enabled_flag = sample_adaptive_offset;
      pcm_enabled_flag = pcm;
    } }
{
    sps.amp_enabled_flag = amp;
    sps.sample_adaptive_offset_enabled_flag = sample_adaptive_offset;
    sps.pcm_enabled_flag = pcm;
}

/// Rows 31 to 34 of table 5.
#[tactic(auto, unfolding(hevc_tables::specs::SpsTable::pulse_code_modulation))]
fn read_pulse_code_modulation(r: &mut ElementReader<'_>, sps: &mut Sps) -> Result<(), ParseError>
    ensures { Fills plain_sps table.pulse_code_modulation result sps.old sps.new r.old r.new }
{
    let luma = bits_u8(r, Row(5, 31), 4, 0, 15)?;
    let chroma = bits_u8(r, Row(5, 31), 4, 0, 15)?;
    let min_size = ue_u8(r, Row(5, 32), 0, 2)?;
    let diff_size = ue_u8(r, Row(5, 33), 0, 2)?;
    let unfiltered = flag(r, Row(5, 34))?;
    set_pulse_code_modulation(sps, luma, chroma, min_size, diff_size, unfiltered);
    Ok(())
}

/// Fills in rows 31 to 34.
fn set_pulse_code_modulation(
    sps: &mut Sps,
    luma: u8,
    chroma: u8,
    min_size: u8,
    diff_size: u8,
    unfiltered: bool,
)
    ensures { plain_sps sps.new ≡ record (plain_sps sps.old) {
      pcm_sample_bit_depth_luma_minus1 = luma;
      pcm_sample_bit_depth_chroma_minus1 = chroma;
      log2_min_pcm_luma_coding_block_size_minus3 = min_size;
      log2_diff_max_min_pcm_luma_coding_block_size = diff_size;
      pcm_loop_filter_disabled_flag = unfiltered;
    } }
{
    sps.pcm_sample_bit_depth_luma_minus1 = luma;
    sps.pcm_sample_bit_depth_chroma_minus1 = chroma;
    sps.log2_min_pcm_luma_coding_block_size_minus3 = min_size;
    sps.log2_diff_max_min_pcm_luma_coding_block_size = diff_size;
    sps.pcm_loop_filter_disabled_flag = unfiltered;
}
