//! The sub-layers below the highest (7.3.3, rows 28 to 31 of table 2).
ghost use Rattle.std.specs.Prelude.{◌≤◌, ◌<◌};
ghost use Rattle.hevc_elements.specs.Words.{when, Reads, Fills};
ghost use Rattle.hevc_tables.specs.ProfileTierLevelTable as table;
ghost use Rattle.hevc_set_parts.specs.ProfileTierLevel.{plain_profile_tier_level};

use crate::layer::read_layer_profile;
use crate::layer_profile::put_sub_layer_profile;
use crate::level::read_level;
use crate::scope::Scope;
use hevc_elements::rows::{flag, skip};
use hevc_elements::{ElementReader, ParseError};
use hevc_set_parts::ProfileTierLevel;
use hevc_spec::Row;

/// Row 28 of table 2, for each sub-layer below the highest.
#[tactic(auto, using(hevc_elements::proofs::Loops::loops), unfolding(hevc_tables::specs::ProfileTierLevelTable::presence))]
pub(crate) fn read_presence(
    r: &mut ElementReader<'_>,
    max_sub_layers_minus1: u8,
    all: &mut ProfileTierLevel,
) -> Result<(), ParseError>
    requires { max_sub_layers_minus1 ≤ 6 }
    ensures { Fills plain_profile_tier_level
        (table.presence max_sub_layers_minus1) result all.old all.new r.old r.new }
{
    let count = usize::from(max_sub_layers_minus1);
    for i in 0..count {
        read_next_presence(r, i, all)?;
    }
    Ok(())
}

/// Row 28 of table 2, for one sub-layer.
#[tactic(auto, unfolding(hevc_tables::specs::ProfileTierLevelTable::next_presence))]
fn read_next_presence(
    r: &mut ElementReader<'_>,
    i: usize,
    all: &mut ProfileTierLevel,
) -> Result<(), ParseError>
    requires { i < 6 }
    ensures { Fills plain_profile_tier_level
        (table.next_presence i) result all.old all.new r.old r.new }
{
    all.sub_layer_profile_present_flag[i] = flag(r, Row(2, 28))?;
    all.sub_layer_level_present_flag[i] = flag(r, Row(2, 28))?;
    Ok(())
}

/// Row 29 of table 2.
#[tactic(auto, unfolding(hevc_tables::specs::ProfileTierLevelTable::absent_layers, hevc_spec::specs::Rows::when))]
pub(crate) fn skip_absent_layers(
    r: &mut ElementReader<'_>,
    max_sub_layers_minus1: u8,
) -> Result<(), ParseError>
    requires { max_sub_layers_minus1 ≤ 6 }
    ensures read { Reads (λ _. 0) (table.absent_layers max_sub_layers_minus1) result r.old r.new }
{
    if max_sub_layers_minus1 > 0 {
        skip(r, Row(2, 29), 2 * (8 - usize::from(max_sub_layers_minus1)))?;
    }
    Ok(())
}

/// Rows 30 and 31 of table 2, for each sub-layer below the highest.
#[tactic(auto, using(hevc_elements::proofs::Loops::loops), unfolding(hevc_tables::specs::ProfileTierLevelTable::sub_layers))]
pub(crate) fn read_sub_layers(
    r: &mut ElementReader<'_>,
    max_sub_layers_minus1: u8,
    all: &mut ProfileTierLevel,
) -> Result<(), ParseError>
    requires { max_sub_layers_minus1 ≤ 6 }
    ensures { Fills plain_profile_tier_level
        (table.sub_layers max_sub_layers_minus1) result all.old all.new r.old r.new }
{
    let count = usize::from(max_sub_layers_minus1);
    for i in 0..count {
        read_next_sub_layer(r, i, all)?;
    }
    Ok(())
}

/// Rows 30 and 31 of table 2, for one sub-layer.
#[tactic(auto, unfolding(hevc_tables::specs::ProfileTierLevelTable::next_sub_layer))]
fn read_next_sub_layer(
    r: &mut ElementReader<'_>,
    i: usize,
    all: &mut ProfileTierLevel,
) -> Result<(), ParseError>
    requires { i < 6 }
    ensures { Fills plain_profile_tier_level
        (table.next_sub_layer i) result all.old all.new r.old r.new }
{
    read_profile_if_present(r, i, all)?;
    read_level_if_present(r, i, all)
}

/// Row 30 of table 2, where its flag is set.
#[tactic(auto, unfolding(hevc_spec::specs::Rows::when))]
fn read_profile_if_present(
    r: &mut ElementReader<'_>,
    i: usize,
    all: &mut ProfileTierLevel,
) -> Result<(), ParseError>
    requires { i < 6 }
    ensures { Fills plain_profile_tier_level
        (λ t. when (table.flag_of t.sub_layer_profile_present_flag i) t (table.sub_layer_profile i t))
        result all.old all.new r.old r.new }
{
    if all.sub_layer_profile_present_flag[i] {
        read_sub_layer_profile(r, i, all)
    } else {
        Ok(())
    }
}

/// Row 31 of table 2, where its flag is set.
#[tactic(auto, unfolding(hevc_spec::specs::Rows::when))]
fn read_level_if_present(
    r: &mut ElementReader<'_>,
    i: usize,
    all: &mut ProfileTierLevel,
) -> Result<(), ParseError>
    requires { i < 6 }
    ensures { Fills plain_profile_tier_level
        (λ t. when (table.flag_of t.sub_layer_level_present_flag i) t (table.sub_layer_level i t))
        result all.old all.new r.old r.new }
{
    if all.sub_layer_level_present_flag[i] {
        read_sub_layer_level(r, i, all)
    } else {
        Ok(())
    }
}

/// Row 30 of table 2.
#[tactic(auto, unfolding(hevc_tables::specs::ProfileTierLevelTable::sub_layer_profile))]
fn read_sub_layer_profile(
    r: &mut ElementReader<'_>,
    i: usize,
    all: &mut ProfileTierLevel,
) -> Result<(), ParseError>
    requires { i < 6 }
    ensures { Fills plain_profile_tier_level
        (table.sub_layer_profile i) result all.old all.new r.old r.new }
{
    let layer = read_layer_profile(r, Scope::SubLayer)?;
    put_sub_layer_profile(all, i, &layer);
    Ok(())
}

/// Row 31 of table 2.
#[tactic(auto, using(crate::proofs::ArrayPlaces::places), unfolding(hevc_tables::specs::ProfileTierLevelTable::sub_layer_level))]
fn read_sub_layer_level(
    r: &mut ElementReader<'_>,
    i: usize,
    all: &mut ProfileTierLevel,
) -> Result<(), ParseError>
    requires { i < 6 }
    ensures { Fills plain_profile_tier_level
        (table.sub_layer_level i) result all.old all.new r.old r.new }
{
    all.sub_layer_level_idc[i] = read_level(r, Row(2, 31))?;
    Ok(())
}
