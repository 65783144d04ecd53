//! Profile, tier and level (7.3.3, table 2).
ghost use Rattle.std.specs.Prelude.{◌≤◌};
ghost use Rattle.hevc_elements.specs.Words.{Reads, Fills, ReadsTable};
ghost use Rattle.hevc_tables.specs.ProfileTierLevelTable as table;
ghost use Rattle.hevc_tables.specs.ProfileTierLevelTable.{profile_tier_level};
ghost use Rattle.hevc_set_parts.specs.ProfileTierLevel.{plain_profile_tier_level};

use crate::layer::read_layer_profile;
use crate::layer_profile::put_general_profile;
use crate::level::read_level;
use crate::scope::Scope;
use crate::sub_layers::{read_presence, read_sub_layers, skip_absent_layers};
use hevc_elements::{ElementReader, ParseError};
use hevc_set_parts::ProfileTierLevel;
use hevc_spec::Row;

/// Reads profile, tier and level of a set whose highest sub-layer is `max_sub_layers_minus1`, by
/// table 2 (7.3.3).
///
/// An element that is absent has its value of `ProfileTierLevel::new`.
///
/// Errors: `OutOfBits` where the payload ends within an element, and `OutOfRange` with table 2 and
/// the row where a level isn't one of Table A.8. The reader then is where that element begins.
#[tactic(auto, using(hevc_elements::proofs::Meaning::meanings))]
pub fn read_profile_tier_level(
    r: &mut ElementReader<'_>,
    max_sub_layers_minus1: u8,
) -> Result<ProfileTierLevel, ParseError>
    requires { max_sub_layers_minus1 ≤ 6 }
    ensures rows { ReadsTable plain_profile_tier_level (profile_tier_level max_sub_layers_minus1)
        result r.old r.new }
{
    read_rows(r, max_sub_layers_minus1)
}

/// Rows 1 to 31 of table 2.
#[tactic(auto, unfolding(hevc_tables::specs::ProfileTierLevelTable::profile_tier_level))]
fn read_rows(
    r: &mut ElementReader<'_>,
    max_sub_layers_minus1: u8,
) -> Result<ProfileTierLevel, ParseError>
    requires { max_sub_layers_minus1 ≤ 6 }
    ensures read { Reads plain_profile_tier_level (profile_tier_level max_sub_layers_minus1) result
        r.old r.new }
{
    let mut all = ProfileTierLevel::new();
    read_general_rows(r, &mut all)?;
    read_presence(r, max_sub_layers_minus1, &mut all)?;
    skip_absent_layers(r, max_sub_layers_minus1)?;
    read_sub_layers(r, max_sub_layers_minus1, &mut all)?;
    Ok(all)
}

/// Rows 1 to 27 of table 2.
#[tactic(auto, unfolding(hevc_tables::specs::ProfileTierLevelTable::general_rows))]
fn read_general_rows(
    r: &mut ElementReader<'_>,
    all: &mut ProfileTierLevel,
) -> Result<(), ParseError>
    ensures { Fills plain_profile_tier_level table.general_rows result all.old all.new r.old r.new }
{
    let layer = read_layer_profile(r, Scope::General)?;
    put_general_profile(all, &layer);
    all.general_level_idc = read_level(r, Row(2, 27))?;
    Ok(())
}
