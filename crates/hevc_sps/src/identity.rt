//! The ids, the sub-layers and the profile (7.3.2.2.1, rows 1 to 5 of table 5).
ghost use Rattle.std.specs.Prelude.{◌≡◌, ◌≤◌};
ghost use Rattle.hevc_elements.specs.Words.{Fills};
ghost use Rattle.hevc_tables.specs.SpsTable as table;
ghost use Rattle.hevc_set_parts.specs.ProfileTierLevel.{plain_profile_tier_level};
ghost use Rattle.hevc_sequence_set.specs.Sps.{plain_sps};

use hevc_elements::rows::{bits_u8, flag, ue_u8};
use hevc_elements::{ElementReader, ParseError};
use hevc_profile::read_profile_tier_level;
use hevc_sequence_set::Sps;
use hevc_set_parts::ProfileTierLevel;
use hevc_spec::Row;

/// Rows 1 to 5 of table 5.
#[tactic(auto, unfolding(hevc_tables::specs::SpsTable::identity))]
pub(crate) fn read_identity(r: &mut ElementReader<'_>, sps: &mut Sps) -> Result<(), ParseError>
    ensures { Fills plain_sps table.identity result sps.old sps.new r.old r.new }
{
    let video_parameter_set_id = bits_u8(r, Row(5, 1), 4, 0, 15)?;
    let top = bits_u8(r, Row(5, 2), 3, 0, 6)?;
    let temporal_id_nesting_flag = flag(r, Row(5, 3))?;
    let profile_tier_level = read_profile_tier_level(r, top)?;
    let seq_parameter_set_id = ue_u8(r, Row(5, 5), 0, 15)?;
    set_sub_layers(sps, top, temporal_id_nesting_flag, profile_tier_level);
    set_ids(sps, video_parameter_set_id, seq_parameter_set_id);
    Ok(())
}

/// Fills in rows 2 to 4.
fn set_sub_layers(sps: &mut Sps, top: u8, nesting: bool, profile_tier_level: ProfileTierLevel)
    requires { top ≤ 6 }
    ensures { plain_sps sps.new ≡ record (plain_sps sps.old) {
      max_sub_layers_minus1 = top;
      temporal_id_nesting_flag = nesting;
      profile_tier_level = plain_profile_tier_level profile_tier_level;
    } }
{
    sps.max_sub_layers_minus1 = top;
    sps.temporal_id_nesting_flag = nesting;
    sps.profile_tier_level = profile_tier_level;
}

/// Fills in rows 1 and 5.
fn set_ids(sps: &mut Sps, video_parameter_set_id: u8, seq_parameter_set_id: u8)
    ensures { plain_sps sps.new ≡ record (plain_sps sps.old) {
      video_parameter_set_id = video_parameter_set_id;
      seq_parameter_set_id = seq_parameter_set_id;
    } }
{
    sps.video_parameter_set_id = video_parameter_set_id;
    sps.seq_parameter_set_id = seq_parameter_set_id;
}
