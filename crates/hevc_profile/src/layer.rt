//! The profile of the whole stream, or of a sub-layer (7.3.3, rows 1 to 5, 14 and 15 of table 2).
ghost use Rattle.std.specs.Prelude.{◌<◌};
ghost use Rattle.hevc_elements.specs.Words.{Reads, Fills};
ghost use Rattle.hevc_tables.specs.ProfileTierLevelTable as table;
ghost use Rattle.hevc_profile.specs.LayerProfile.{plain_layer_profile};
ghost use Rattle.hevc_profile.specs.Scopes.{plain_scope};

use crate::conformance::has_inbld;
use crate::constraints::read_constraints;
use crate::layer_profile::LayerProfile;
use crate::scope::{Scope, row_of};
use hevc_elements::rows::{bits_u8, flag, flag_if, skip};
use hevc_elements::{ElementReader, ParseError};

/// Rows 1 to 15 of table 2.
#[tactic(auto, unfolding(hevc_tables::specs::ProfileTierLevelTable::layer_profile))]
pub(crate) fn read_layer_profile(
    r: &mut ElementReader<'_>,
    scope: Scope,
) -> Result<LayerProfile, ParseError>
    ensures read { Reads plain_layer_profile (table.layer_profile (plain_scope scope)) result r.old
        r.new }
{
    let mut layer = LayerProfile::new();
    read_profiles(r, scope, &mut layer)?;
    read_source(r, scope, &mut layer)?;
    read_constraints(r, scope, &mut layer)?;
    read_inbld(r, scope, &mut layer)?;
    Ok(layer)
}

/// Rows 1 to 4 of table 2.
#[tactic(auto, unfolding(hevc_tables::specs::ProfileTierLevelTable::profiles))]
fn read_profiles(
    r: &mut ElementReader<'_>,
    scope: Scope,
    layer: &mut LayerProfile,
) -> Result<(), ParseError>
    ensures { Fills plain_layer_profile
        (table.profiles (plain_scope scope)) result layer.old layer.new r.old r.new }
{
    layer.profile_space = bits_u8(r, row_of(scope, 1), 2, 0, 3)?;
    layer.tier_flag = flag(r, row_of(scope, 2))?;
    layer.profile_idc = bits_u8(r, row_of(scope, 3), 5, 0, 31)?;
    read_compatibility_flags(r, scope, layer)
}

/// Row 4 of table 2.
#[tactic(auto, using(hevc_elements::proofs::Loops::loops), unfolding(hevc_tables::specs::ProfileTierLevelTable::compatibility_flags))]
fn read_compatibility_flags(
    r: &mut ElementReader<'_>,
    scope: Scope,
    layer: &mut LayerProfile,
) -> Result<(), ParseError>
    ensures { Fills plain_layer_profile
        (table.compatibility_flags (plain_scope scope)) result layer.old layer.new r.old r.new }
{
    for i in 0..32usize {
        read_compatibility_flag(r, scope, i, layer)?;
    }
    Ok(())
}

/// Row 4 of table 2, for one profile.
#[tactic(auto, unfolding(hevc_tables::specs::ProfileTierLevelTable::compatibility_flag))]
fn read_compatibility_flag(
    r: &mut ElementReader<'_>,
    scope: Scope,
    i: usize,
    layer: &mut LayerProfile,
) -> Result<(), ParseError>
    requires { i < 32 }
    ensures { Fills plain_layer_profile
        (table.compatibility_flag (plain_scope scope) i) result layer.old layer.new r.old r.new }
{
    layer.profile_compatibility_flag[i] = flag(r, row_of(scope, 4))?;
    Ok(())
}

/// Row 5 of table 2.
#[tactic(auto, unfolding(hevc_tables::specs::ProfileTierLevelTable::source))]
fn read_source(
    r: &mut ElementReader<'_>,
    scope: Scope,
    layer: &mut LayerProfile,
) -> Result<(), ParseError>
    ensures { Fills plain_layer_profile
        (table.source (plain_scope scope)) result layer.old layer.new r.old r.new }
{
    let row = row_of(scope, 5);
    layer.progressive_source_flag = flag(r, row)?;
    layer.interlaced_source_flag = flag(r, row)?;
    layer.non_packed_constraint_flag = flag(r, row)?;
    layer.frame_only_constraint_flag = flag(r, row)?;
    Ok(())
}

/// Rows 14 and 15 of table 2.
#[tactic(auto, unfolding(hevc_tables::specs::ProfileTierLevelTable::inbld, hevc_spec::specs::Rows::when))]
fn read_inbld(
    r: &mut ElementReader<'_>,
    scope: Scope,
    layer: &mut LayerProfile,
) -> Result<(), ParseError>
    ensures { Fills plain_layer_profile
        (table.inbld (plain_scope scope)) result layer.old layer.new r.old r.new }
{
    let present = has_inbld(layer);
    layer.inbld_flag = flag_if(r, present, row_of(scope, 14))?;
    if !present {
        skip(r, row_of(scope, 15), 1)?;
    }
    Ok(())
}
