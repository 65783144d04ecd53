//! The extensions of a set (7.3.2.2.1, rows 43 to 50 of table 5).
ghost use Rattle.std.specs.Prelude.{◌≡◌};
ghost use Rattle.hevc_elements.specs.Words.{Fills, when};
ghost use Rattle.hevc_tables.specs.SpsTable as table;
ghost use Rattle.hevc_sequence_set.specs.Sps.{plain_sps};
ghost use Rattle.hevc_sequence_set.specs.SpsRangeExtension.{plain_sps_range_extension};
ghost use Rattle.hevc_sequence_set.specs.SpsSccExtension.{plain_sps_scc_extension};

use crate::frame::half_range;
use crate::range_extension::read_sps_range_extension;
use crate::sample_format::SampleFormat;
use crate::scc_extension::read_sps_scc_extension;
use hevc_elements::rows::{flag, skip, zero};
use hevc_elements::{ElementReader, ParseError};
use hevc_sequence_set::{Sps, SpsRangeExtension, SpsSccExtension};
use hevc_spec::Row;

/// Rows 43 to 50 of table 5.
#[tactic(auto, unfolding(hevc_tables::specs::SpsTable::extensions, hevc_spec::specs::Rows::when))]
pub(crate) fn read_extensions(r: &mut ElementReader<'_>, sps: &mut Sps) -> Result<(), ParseError>
    ensures { Fills plain_sps table.extensions result sps.old sps.new r.old r.new }
{
    let present = flag(r, Row(5, 43))?;
    set_extension_present(sps, present);
    if present {
        read_extension_data(r, sps)
    } else {
        Ok(())
    }
}

/// Fills in row 43.
fn set_extension_present(sps: &mut Sps, present: bool)
    ensures { plain_sps sps.new ≡ record (plain_sps sps.old) { extension_present_flag = present } }
{
    sps.extension_present_flag = present;
}

/// Rows 44 to 50 of table 5.
#[tactic(auto, unfolding(hevc_tables::specs::SpsTable::extension_data))]
fn read_extension_data(r: &mut ElementReader<'_>, sps: &mut Sps) -> Result<(), ParseError>
    ensures { Fills plain_sps table.extension_data result sps.old sps.new r.old r.new }
{
    read_extension_flags(r, sps)?;
    read_range_extension_if_present(r, sps)?;
    read_scc_extension_if_present(r, sps)
}

/// Row 49 of table 5, where its flag is set.
#[tactic(auto, unfolding(hevc_spec::specs::Rows::when))]
fn read_range_extension_if_present(
    r: &mut ElementReader<'_>,
    sps: &mut Sps,
) -> Result<(), ParseError>
    ensures { Fills plain_sps (λ s. when s.range_extension_flag s (table.range_extension s))
        result sps.old sps.new r.old r.new }
{
    if sps.range_extension_flag {
        read_range_extension(r, sps)
    } else {
        Ok(())
    }
}

/// Row 50 of table 5, where its flag is set.
#[tactic(auto, unfolding(hevc_spec::specs::Rows::when))]
fn read_scc_extension_if_present(r: &mut ElementReader<'_>, sps: &mut Sps) -> Result<(), ParseError>
    ensures { Fills plain_sps (λ s. when s.scc_extension_flag s (table.scc_extension s))
        result sps.old sps.new r.old r.new }
{
    if sps.scc_extension_flag {
        read_scc_extension(r, sps)
    } else {
        Ok(())
    }
}

/// Rows 44 to 48 of table 5.
#[tactic(auto, unfolding(hevc_tables::specs::SpsTable::extension_flags))]
fn read_extension_flags(r: &mut ElementReader<'_>, sps: &mut Sps) -> Result<(), ParseError>
    ensures { Fills plain_sps table.extension_flags result sps.old sps.new r.old r.new }
{
    let range = flag(r, Row(5, 44))?;
    zero(r, Row(5, 45))?;
    zero(r, Row(5, 46))?;
    let screen_content = flag(r, Row(5, 47))?;
    skip(r, Row(5, 48), 4)?;
    set_extension_flags(sps, range, screen_content);
    Ok(())
}

/// Fills in rows 44 and 47.
fn set_extension_flags(sps: &mut Sps, range: bool, screen_content: bool)
    ensures { plain_sps sps.new ≡ record (plain_sps sps.old) {
      range_extension_flag = range;
      scc_extension_flag = screen_content;
    } }
{
    sps.range_extension_flag = range;
    sps.scc_extension_flag = screen_content;
}

/// Row 49 of table 5.
#[tactic(auto, unfolding(hevc_tables::specs::SpsTable::range_extension))]
fn read_range_extension(r: &mut ElementReader<'_>, sps: &mut Sps) -> Result<(), ParseError>
    ensures { Fills plain_sps table.range_extension result sps.old sps.new r.old r.new }
{
    let range_extension = read_sps_range_extension(r)?;
    set_range_extension(sps, range_extension);
    Ok(())
}

/// Fills in the range extension, and what follows from it.
#[tactic(auto, unfolding(hevc_tables::specs::SpsTable::with_half_ranges))]
fn set_range_extension(sps: &mut Sps, range_extension: SpsRangeExtension)
    ensures { plain_sps sps.new ≡ table.with_half_ranges (record (plain_sps sps.old) {
      range_extension = plain_sps_range_extension range_extension;
    }) }
{
    let precise = range_extension.high_precision_offsets_enabled_flag;
    sps.range_extension = range_extension;
    sps.wp_offset_half_range_y = half_range(precise, sps.bit_depth_luma_minus8);
    sps.wp_offset_half_range_c = half_range(precise, sps.bit_depth_chroma_minus8);
}

/// Row 50 of table 5.
#[tactic(auto, unfolding(hevc_tables::specs::SpsTable::scc_extension))]
fn read_scc_extension(r: &mut ElementReader<'_>, sps: &mut Sps) -> Result<(), ParseError>
    ensures { Fills plain_sps table.scc_extension result sps.old sps.new r.old r.new }
{
    let format = SampleFormat {
        chroma_format_idc: sps.chroma_format_idc,
        bit_depth_luma_minus8: sps.bit_depth_luma_minus8,
        bit_depth_chroma_minus8: sps.bit_depth_chroma_minus8,
    };
    let scc_extension = read_sps_scc_extension(r, format)?;
    set_scc_extension(sps, scc_extension);
    Ok(())
}

/// Fills in the screen content coding extension.
fn set_scc_extension(sps: &mut Sps, scc_extension: SpsSccExtension)
    ensures { plain_sps sps.new ≡ record (plain_sps sps.old) {
      scc_extension = plain_sps_scc_extension scc_extension;
    } }
{
    sps.scc_extension = scc_extension;
}
