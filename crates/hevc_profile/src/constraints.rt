//! What is constrained beside the profile (7.3.3, rows 6 to 13 of table 2).
ghost use Rattle.hevc_elements.specs.Words.{Fills};
ghost use Rattle.hevc_tables.specs.ProfileTierLevelTable as table;
ghost use Rattle.hevc_profile.specs.LayerProfile.{plain_layer_profile};
ghost use Rattle.hevc_profile.specs.Scopes.{plain_scope};

use crate::conformance::{has_14bit, has_extensions, layer_conforms_to};
use crate::layer_profile::LayerProfile;
use crate::scope::{Scope, row_of};
use hevc_elements::rows::{flag, flag_if, skip};
use hevc_elements::{ElementReader, ParseError};

/// Rows 6 to 13 of table 2.
#[tactic(auto, unfolding(hevc_tables::specs::ProfileTierLevelTable::constraints, hevc_spec::specs::Rows::either))]
pub(crate) fn read_constraints(
    r: &mut ElementReader<'_>,
    scope: Scope,
    layer: &mut LayerProfile,
) -> Result<(), ParseError>
    ensures { Fills plain_layer_profile
        (table.constraints (plain_scope scope)) result layer.old layer.new r.old r.new }
{
    if has_extensions(layer) {
        read_extensions(r, scope, layer)
    } else if layer_conforms_to(layer, 2) {
        read_main_10(r, scope, layer)
    } else {
        skip_reserved_bits(r, scope, layer)
    }
}

/// Rows 6 to 9 of table 2.
#[tactic(auto, unfolding(hevc_tables::specs::ProfileTierLevelTable::range_extensions_flags))]
fn read_extensions(
    r: &mut ElementReader<'_>,
    scope: Scope,
    layer: &mut LayerProfile,
) -> Result<(), ParseError>
    ensures { Fills plain_layer_profile
        (table.range_extensions_flags (plain_scope scope)) result layer.old layer.new r.old r.new }
{
    read_formats(r, scope, layer)?;
    read_bit_depth_flag(r, scope, layer)
}

/// Row 6 of table 2.
#[tactic(auto, unfolding(hevc_tables::specs::ProfileTierLevelTable::formats))]
fn read_formats(
    r: &mut ElementReader<'_>,
    scope: Scope,
    layer: &mut LayerProfile,
) -> Result<(), ParseError>
    ensures { Fills plain_layer_profile
        (table.formats (plain_scope scope)) result layer.old layer.new r.old r.new }
{
    let row = row_of(scope, 6);
    layer.max_12bit_constraint_flag = flag(r, row)?;
    layer.max_10bit_constraint_flag = flag(r, row)?;
    layer.max_8bit_constraint_flag = flag(r, row)?;
    layer.max_422chroma_constraint_flag = flag(r, row)?;
    layer.max_420chroma_constraint_flag = flag(r, row)?;
    layer.max_monochrome_constraint_flag = flag(r, row)?;
    layer.intra_constraint_flag = flag(r, row)?;
    layer.one_picture_only_constraint_flag = flag(r, row)?;
    layer.lower_bit_rate_constraint_flag = flag(r, row)?;
    Ok(())
}

/// Rows 7 to 9 of table 2.
#[tactic(auto, unfolding(hevc_tables::specs::ProfileTierLevelTable::bit_depth_flag, hevc_spec::specs::Rows::either))]
fn read_bit_depth_flag(
    r: &mut ElementReader<'_>,
    scope: Scope,
    layer: &mut LayerProfile,
) -> Result<(), ParseError>
    ensures { Fills plain_layer_profile
        (table.bit_depth_flag (plain_scope scope)) result layer.old layer.new r.old r.new }
{
    let present = has_14bit(layer);
    layer.max_14bit_constraint_flag = flag_if(r, present, row_of(scope, 7))?;
    if present {
        skip(r, row_of(scope, 8), 33)
    } else {
        skip(r, row_of(scope, 9), 34)
    }
}

/// Rows 10 to 12 of table 2.
#[tactic(auto, unfolding(hevc_tables::specs::ProfileTierLevelTable::main_10_flags))]
fn read_main_10(
    r: &mut ElementReader<'_>,
    scope: Scope,
    layer: &mut LayerProfile,
) -> Result<(), ParseError>
    ensures { Fills plain_layer_profile
        (table.main_10_flags (plain_scope scope)) result layer.old layer.new r.old r.new }
{
    skip(r, row_of(scope, 10), 7)?;
    layer.one_picture_only_constraint_flag = flag(r, row_of(scope, 11))?;
    skip(r, row_of(scope, 12), 35)
}

/// Row 13 of table 2.
#[tactic(auto, unfolding(hevc_tables::specs::ProfileTierLevelTable::reserved_bits))]
fn skip_reserved_bits(
    r: &mut ElementReader<'_>,
    scope: Scope,
    layer: &mut LayerProfile,
) -> Result<(), ParseError>
    ensures { Fills plain_layer_profile
        (table.reserved_bits (plain_scope scope)) result layer.old layer.new r.old r.new }
{
    let _ = layer;
    skip(r, row_of(scope, 13), 43)
}
