//! More tools, and usability information (7.3.2.2.1, rows 41 and 42 of table 5).
ghost use Rattle.std.specs.Prelude.{◌≡◌};
ghost use Rattle.hevc_elements.specs.Words.{Fills};
ghost use Rattle.hevc_tables.specs.SpsTable as table;
ghost use Rattle.hevc_sequence_set.specs.Sps.{plain_sps};

use hevc_elements::rows::flag;
use hevc_elements::{ElementReader, ParseError};
use hevc_sequence_set::Sps;
use hevc_spec::Row;
use hevc_vui::read_vui_parameters;

/// Rows 41 and 42 of table 5.
#[tactic(auto, unfolding(hevc_tables::specs::SpsTable::usability, hevc_spec::specs::Rows::when))]
pub(crate) fn read_usability(r: &mut ElementReader<'_>, sps: &mut Sps) -> Result<(), ParseError>
    ensures { Fills plain_sps table.usability result sps.old sps.new r.old r.new }
{
    let temporal = flag(r, Row(5, 41))?;
    let strong = flag(r, Row(5, 41))?;
    let present = flag(r, Row(5, 41))?;
    set_usability(sps, temporal, strong, present);
    if present {
        read_information(r, sps)
    } else {
        Ok(())
    }
}

/// Fills in row 41.
fn set_usability(sps: &mut Sps, temporal: bool, strong: bool, present: bool)
    ensures { plain_sps sps.new ≡ record (plain_sps sps.old) {
      temporal_mvp_enabled_flag = temporal;
      strong_intra_smoothing_enabled_flag = strong;
      vui_parameters_present_flag = present;
    } }
{
    sps.temporal_mvp_enabled_flag = temporal;
    sps.strong_intra_smoothing_enabled_flag = strong;
    sps.vui_parameters_present_flag = present;
}

/// Row 42 of table 5.
#[tactic(auto, unfolding(hevc_tables::specs::SpsTable::usability_information))]
fn read_information(r: &mut ElementReader<'_>, sps: &mut Sps) -> Result<(), ParseError>
    ensures { Fills plain_sps table.usability_information result sps.old sps.new r.old r.new }
{
    let highest = sps.max_sub_layers_minus1;
    read_vui_parameters(r, highest, &mut sps.vui_parameters)
}
