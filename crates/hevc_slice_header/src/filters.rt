//! The filters of a slice (7.3.6.1, rows 43 to 47 of table 14).
ghost use Rattle.std.specs.Prelude.{◌≡◌};
ghost use Rattle.hevc_elements.specs.Words.{Fills};
ghost use Rattle.hevc_tables.specs.SliceHeaderTable as table;
ghost use Rattle.hevc_picture_slice.specs.Pps.{plain_pps};
ghost use Rattle.hevc_picture_slice.specs.SliceHeader.{plain_slice_header};

use hevc_elements::rows::{flag, flag_if, flag_or, se_i8};
use hevc_elements::{ElementReader, ParseError};
use hevc_picture_slice::{Pps, SliceHeader};
use hevc_spec::Row;

/// Rows 43 to 47 of table 14.
#[tactic(auto, unfolding(hevc_tables::specs::SliceHeaderTable::filters, hevc_spec::specs::Rows::when))]
pub(crate) fn read_filters(
    r: &mut ElementReader<'_>,
    pps: &Pps,
    h: &mut SliceHeader,
) -> Result<(), ParseError>
    ensures { Fills plain_slice_header
        (table.filters (plain_pps pps.now)) result h.old h.new r.old r.new }
{
    let overrides = flag_if(r, pps.deblocking_filter_override_enabled_flag, Row(14, 43))?;
    h.deblocking_filter_override_flag = overrides;
    if overrides {
        read_own_deblocking(r, h)?;
    }
    read_across_slices(r, pps, h)
}

/// Rows 44 to 46 of table 14.
#[tactic(auto, unfolding(hevc_tables::specs::SliceHeaderTable::own_deblocking, hevc_spec::specs::Rows::when))]
fn read_own_deblocking(r: &mut ElementReader<'_>, h: &mut SliceHeader) -> Result<(), ParseError>
    ensures { Fills plain_slice_header table.own_deblocking result h.old h.new r.old r.new }
{
    let disabled = flag(r, Row(14, 44))?;
    h.deblocking_filter_disabled_flag = disabled;
    if disabled {
        Ok(())
    } else {
        read_filter_offsets(r, h)
    }
}

/// Rows 45 and 46 of table 14.
#[tactic(auto, unfolding(hevc_tables::specs::SliceHeaderTable::filter_offsets))]
fn read_filter_offsets(r: &mut ElementReader<'_>, h: &mut SliceHeader) -> Result<(), ParseError>
    ensures { Fills plain_slice_header table.filter_offsets result h.old h.new r.old r.new }
{
    let beta = se_i8(r, Row(14, 45), -6, 6)?;
    let tc = se_i8(r, Row(14, 46), -6, 6)?;
    set_filter_offsets(h, beta, tc);
    Ok(())
}

/// Fills in rows 45 and 46.
fn set_filter_offsets(h: &mut SliceHeader, beta: i8, tc: i8)
    ensures { plain_slice_header h.new ≡ record (plain_slice_header h.old) {
      beta_offset_div2 = beta;
      tc_offset_div2 = tc;
    } }
{
    h.beta_offset_div2 = beta;
    h.tc_offset_div2 = tc;
}

/// Row 47 of table 14.
#[tactic(auto, unfolding(hevc_tables::specs::SliceHeaderTable::across_slices))]
fn read_across_slices(
    r: &mut ElementReader<'_>,
    pps: &Pps,
    h: &mut SliceHeader,
) -> Result<(), ParseError>
    ensures { Fills plain_slice_header
        (table.across_slices (plain_pps pps.now)) result h.old h.new r.old r.new }
{
    let inherited = h.loop_filter_across_slices_enabled_flag;
    let told = pps.loop_filter_across_slices_enabled_flag && has_filters(h);
    h.loop_filter_across_slices_enabled_flag = flag_or(r, told, inherited, Row(14, 47))?;
    Ok(())
}

/// Whether the slice has filters that row 47 speaks of.
fn has_filters(h: &SliceHeader) -> bool
    ensures { result ≡ table.has_filters (plain_slice_header h.now) }
{
    h.sao_luma_flag || h.sao_chroma_flag || !h.deblocking_filter_disabled_flag
}
