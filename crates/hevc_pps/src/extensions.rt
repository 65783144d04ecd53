//! The extensions of a set (7.3.2.3.1, rows 28 to 35 of table 11).
ghost use Rattle.std.specs.Prelude.{◌≡◌};
ghost use Rattle.hevc_elements.specs.Words.{Fills, when};
ghost use Rattle.hevc_tables.specs.PpsTable as table;
ghost use Rattle.hevc_set_parts.specs.PpsRangeExtension.{plain_pps_range_extension};
ghost use Rattle.hevc_set_parts.specs.PpsSccExtension.{plain_pps_scc_extension};
ghost use Rattle.hevc_sequence_set.specs.Sps.{plain_sps};
ghost use Rattle.hevc_picture_slice.specs.Pps.{plain_pps};
ghost use Rattle.hevc_pps.specs.Tiling.{KeepsTiles};

use crate::range_extension::read_pps_range_extension;
use crate::scc_extension::read_pps_scc_extension;
use hevc_elements::rows::{flag, skip, zero};
use hevc_elements::{ElementReader, ParseError};
use hevc_picture_slice::Pps;
use hevc_sequence_set::Sps;
use hevc_set_parts::{PpsRangeExtension, PpsSccExtension};
use hevc_spec::Row;

/// The last flag of row 28, and rows 29 to 35 of table 11.
#[tactic(auto, unfolding(hevc_tables::specs::PpsTable::extensions, hevc_spec::specs::Rows::when))]
pub(crate) fn read_extensions(
    r: &mut ElementReader<'_>,
    sps: &Sps,
    pps: &mut Pps,
) -> Result<(), ParseError>
    ensures fills { Fills plain_pps
        (table.extensions (plain_sps sps.now)) result pps.old pps.new r.old r.new }
    ensures same { KeepsTiles pps.old pps.new }
{
    let present = flag(r, Row(11, 28))?;
    set_extension_present(pps, present);
    if present {
        read_extension_data(r, sps, pps)
    } else {
        Ok(())
    }
}

/// Fills in the last flag of row 28.
fn set_extension_present(pps: &mut Pps, present: bool)
    ensures { plain_pps pps.new ≡ record (plain_pps pps.old) { extension_present_flag = present } }
{
    pps.extension_present_flag = present;
}

/// Rows 29 to 35 of table 11.
#[tactic(auto, unfolding(hevc_tables::specs::PpsTable::extension_data))]
fn read_extension_data(
    r: &mut ElementReader<'_>,
    sps: &Sps,
    pps: &mut Pps,
) -> Result<(), ParseError>
    ensures fills { Fills plain_pps
        (table.extension_data (plain_sps sps.now)) result pps.old pps.new r.old r.new }
    ensures same { KeepsTiles pps.old pps.new }
{
    read_extension_flags(r, pps)?;
    read_range_extension_if_present(r, sps, pps)?;
    read_scc_extension_if_present(r, sps, pps)
}

/// Row 34 of table 11, where its flag is set.
#[tactic(auto, unfolding(hevc_spec::specs::Rows::when))]
fn read_range_extension_if_present(
    r: &mut ElementReader<'_>,
    sps: &Sps,
    pps: &mut Pps,
) -> Result<(), ParseError>
    ensures fills { Fills plain_pps
        (λ p. when p.range_extension_flag p (table.range_extension (plain_sps sps.now) p))
        result pps.old pps.new r.old r.new }
    ensures same { KeepsTiles pps.old pps.new }
{
    if pps.range_extension_flag {
        read_range_extension(r, sps, pps)
    } else {
        Ok(())
    }
}

/// Row 35 of table 11, where its flag is set.
#[tactic(auto, unfolding(hevc_spec::specs::Rows::when))]
fn read_scc_extension_if_present(
    r: &mut ElementReader<'_>,
    sps: &Sps,
    pps: &mut Pps,
) -> Result<(), ParseError>
    ensures fills { Fills plain_pps
        (λ p. when p.scc_extension_flag p (table.scc_extension (plain_sps sps.now) p))
        result pps.old pps.new r.old r.new }
    ensures same { KeepsTiles pps.old pps.new }
{
    if pps.scc_extension_flag {
        read_scc_extension(r, sps, pps)
    } else {
        Ok(())
    }
}

/// Rows 29 to 33 of table 11.
#[tactic(auto, unfolding(hevc_tables::specs::PpsTable::extension_flags))]
fn read_extension_flags(r: &mut ElementReader<'_>, pps: &mut Pps) -> Result<(), ParseError>
    ensures fills { Fills plain_pps table.extension_flags result pps.old pps.new r.old r.new }
    ensures same { KeepsTiles pps.old pps.new }
{
    let range = flag(r, Row(11, 29))?;
    zero(r, Row(11, 30))?;
    zero(r, Row(11, 31))?;
    let screen_content = flag(r, Row(11, 32))?;
    skip(r, Row(11, 33), 4)?;
    set_extension_flags(pps, range, screen_content);
    Ok(())
}

/// Fills in rows 29 and 32.
fn set_extension_flags(pps: &mut Pps, range: bool, screen_content: bool)
    ensures { plain_pps pps.new ≡ record (plain_pps pps.old) {
      range_extension_flag = range;
      scc_extension_flag = screen_content;
    } }
{
    pps.range_extension_flag = range;
    pps.scc_extension_flag = screen_content;
}

/// Row 34 of table 11.
#[tactic(auto, unfolding(hevc_tables::specs::PpsTable::range_extension))]
fn read_range_extension(
    r: &mut ElementReader<'_>,
    sps: &Sps,
    pps: &mut Pps,
) -> Result<(), ParseError>
    ensures fills { Fills plain_pps
        (table.range_extension (plain_sps sps.now)) result pps.old pps.new r.old r.new }
    ensures same { KeepsTiles pps.old pps.new }
{
    let range_extension = read_pps_range_extension(r, sps, pps.transform_skip_enabled_flag)?;
    set_range_extension(pps, range_extension);
    Ok(())
}

/// Fills in row 34.
fn set_range_extension(pps: &mut Pps, range_extension: PpsRangeExtension)
    ensures { plain_pps pps.new ≡ record (plain_pps pps.old) {
      range_extension = plain_pps_range_extension range_extension;
    } }
{
    pps.range_extension = range_extension;
}

/// Row 35 of table 11.
#[tactic(auto, unfolding(hevc_tables::specs::PpsTable::scc_extension))]
fn read_scc_extension(r: &mut ElementReader<'_>, sps: &Sps, pps: &mut Pps) -> Result<(), ParseError>
    ensures fills { Fills plain_pps
        (table.scc_extension (plain_sps sps.now)) result pps.old pps.new r.old r.new }
    ensures same { KeepsTiles pps.old pps.new }
{
    let scc_extension = read_pps_scc_extension(r, sps)?;
    set_scc_extension(pps, scc_extension);
    Ok(())
}

/// Fills in row 35.
fn set_scc_extension(pps: &mut Pps, scc_extension: PpsSccExtension)
    ensures { plain_pps pps.new ≡ record (plain_pps pps.old) {
      scc_extension = plain_pps_scc_extension scc_extension;
    } }
{
    pps.scc_extension = scc_extension;
}
