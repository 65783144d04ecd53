//! Filters, scaling lists, and what slice headers may have (7.3.2.3.1, rows 20 to 28 of table 11).
ghost use Rattle.std.specs.Prelude.{◌≡◌, ◌≤ℤ◌, pos, neg_ℤ};
ghost use Rattle.hevc_spec.specs.Rows.{when};
ghost use Rattle.hevc_elements.specs.Words.{Reads, Fills};
ghost use Rattle.hevc_records.specs.DefaultScalingLists.{default_lists};
ghost use Rattle.hevc_tables.specs.PpsTable as table;
ghost use Rattle.hevc_tables.specs.ScalingListTable.{scaling_list_data};
ghost use Rattle.hevc_set_parts.specs.ScalingLists.{plain_scaling_lists};
ghost use Rattle.hevc_sequence_set.specs.Sps.{plain_sps};
ghost use Rattle.hevc_picture_slice.specs.Pps.{plain_pps};
ghost use Rattle.hevc_pps.specs.Tiling.{KeepsTiles};

use hevc_elements::rows::{flag, se_i8, ue_u8};
use hevc_elements::{ElementReader, ParseError};
use hevc_picture_slice::Pps;
use hevc_scaling::{default_scaling_lists, read_scaling_list_data};
use hevc_sequence_set::Sps;
use hevc_set_parts::ScalingLists;
use hevc_spec::Row;

/// Rows 20 to 23 of table 11.
#[tactic(auto, unfolding(hevc_tables::specs::PpsTable::filters, hevc_spec::specs::Rows::when))]
pub(crate) fn read_filters(r: &mut ElementReader<'_>, pps: &mut Pps) -> Result<(), ParseError>
    ensures fills { Fills plain_pps table.filters result pps.old pps.new r.old r.new }
    ensures same { KeepsTiles pps.old pps.new }
{
    let across_slices = flag(r, Row(11, 20))?;
    let control = flag(r, Row(11, 20))?;
    set_filters(pps, across_slices, control);
    if control {
        read_deblocking(r, pps)
    } else {
        Ok(())
    }
}

/// Fills in row 20.
fn set_filters(pps: &mut Pps, across_slices: bool, control: bool)
    ensures { plain_pps pps.new ≡ record (plain_pps pps.old) {
      loop_filter_across_slices_enabled_flag = across_slices;
      deblocking_filter_control_present_flag = control;
    } }
{
    pps.loop_filter_across_slices_enabled_flag = across_slices;
    pps.deblocking_filter_control_present_flag = control;
}

/// Rows 21 to 23 of table 11.
#[tactic(auto, unfolding(hevc_tables::specs::PpsTable::deblocking, hevc_spec::specs::Rows::when))]
fn read_deblocking(r: &mut ElementReader<'_>, pps: &mut Pps) -> Result<(), ParseError>
    ensures fills { Fills plain_pps table.deblocking result pps.old pps.new r.old r.new }
    ensures same { KeepsTiles pps.old pps.new }
{
    let overridden = flag(r, Row(11, 21))?;
    let disabled = flag(r, Row(11, 21))?;
    set_deblocking(pps, overridden, disabled);
    if disabled {
        Ok(())
    } else {
        read_filter_offsets(r, pps)
    }
}

/// Fills in row 21.
fn set_deblocking(pps: &mut Pps, overridden: bool, disabled: bool)
    ensures { plain_pps pps.new ≡ record (plain_pps pps.old) {
      deblocking_filter_override_enabled_flag = overridden;
      deblocking_filter_disabled_flag = disabled;
    } }
{
    pps.deblocking_filter_override_enabled_flag = overridden;
    pps.deblocking_filter_disabled_flag = disabled;
}

/// Rows 22 and 23 of table 11.
#[tactic(auto, unfolding(hevc_tables::specs::PpsTable::filter_offsets))]
fn read_filter_offsets(r: &mut ElementReader<'_>, pps: &mut Pps) -> Result<(), ParseError>
    ensures fills { Fills plain_pps table.filter_offsets result pps.old pps.new r.old r.new }
    ensures same { KeepsTiles pps.old pps.new }
{
    let beta_div2 = se_i8(r, Row(11, 22), -6, 6)?;
    let tc_div2 = se_i8(r, Row(11, 23), -6, 6)?;
    set_filter_offsets(pps, beta_div2, tc_div2);
    Ok(())
}

/// Fills in rows 22 and 23.
fn set_filter_offsets(pps: &mut Pps, beta_div2: i8, tc_div2: i8)
    requires beta_least { neg_ℤ (pos 6) ≤ℤ beta_div2 }
    requires beta_most { beta_div2 ≤ℤ pos 6 }
    requires tc_least { neg_ℤ (pos 6) ≤ℤ tc_div2 }
    requires tc_most { tc_div2 ≤ℤ pos 6 }
    ensures { plain_pps pps.new ≡ record (plain_pps pps.old) {
      beta_offset_div2 = beta_div2;
      tc_offset_div2 = tc_div2;
    } }
{
    pps.beta_offset_div2 = beta_div2;
    pps.tc_offset_div2 = tc_div2;
}

/// Rows 24 and 25 of table 11.
#[tactic(auto, unfolding(hevc_tables::specs::PpsTable::scaling))]
pub(crate) fn read_scaling(r: &mut ElementReader<'_>, pps: &mut Pps) -> Result<(), ParseError>
    ensures fills { Fills plain_pps table.scaling result pps.old pps.new r.old r.new }
    ensures same { KeepsTiles pps.old pps.new }
{
    let present = flag(r, Row(11, 24))?;
    let scaling_list = read_scaling_lists(r, present)?;
    set_scaling(pps, present, scaling_list);
    Ok(())
}

/// Fills in rows 24 and 25.
fn set_scaling(pps: &mut Pps, present: bool, scaling_list: ScalingLists)
    ensures { plain_pps pps.new ≡ record (plain_pps pps.old) {
      scaling_list_data_present_flag = present;
      scaling_list = plain_scaling_lists scaling_list;
    } }
{
    pps.scaling_list_data_present_flag = present;
    pps.scaling_list = scaling_list;
}

/// Row 25 of table 11, where it is present.
#[tactic(auto, unfolding(hevc_spec::specs::Rows::when))]
fn read_scaling_lists(r: &mut ElementReader<'_>, present: bool) -> Result<ScalingLists, ParseError>
    ensures read { Reads plain_scaling_lists (when present default_lists scaling_list_data) result
        r.old r.new }
{
    if present {
        read_scaling_list_data(r)
    } else {
        Ok(default_scaling_lists())
    }
}

/// Rows 26 to 28 of table 11, but for the last flag.
#[tactic(auto, unfolding(hevc_tables::specs::PpsTable::merging))]
pub(crate) fn read_merging(
    r: &mut ElementReader<'_>,
    sps: &Sps,
    pps: &mut Pps,
) -> Result<(), ParseError>
    ensures fills { Fills plain_pps
        (table.merging (plain_sps sps.now)) result pps.old pps.new r.old r.new }
    ensures same { KeepsTiles pps.old pps.new }
{
    let modification = flag(r, Row(11, 26))?;
    let most = sps.ctb_log2_size_y.saturating_sub(2) as u8;
    let level_minus2 = ue_u8(r, Row(11, 27), 0, most)?;
    let extension = flag(r, Row(11, 28))?;
    set_merging(pps, modification, level_minus2, extension);
    Ok(())
}

/// Fills in rows 26 to 28, but for the last flag.
fn set_merging(pps: &mut Pps, modification: bool, level_minus2: u8, extension: bool)
    ensures { plain_pps pps.new ≡ record (plain_pps pps.old) {
      lists_modification_present_flag = modification;
      log2_parallel_merge_level_minus2 = level_minus2;
      slice_segment_header_extension_present_flag = extension;
    } }
{
    pps.lists_modification_present_flag = modification;
    pps.log2_parallel_merge_level_minus2 = level_minus2;
    pps.slice_segment_header_extension_present_flag = extension;
}
