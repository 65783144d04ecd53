//! Profile, tier and level (7.3.3, table 2).
ghost use Rattle.std.specs.Prelude.{◌≤◌, ◌-◌, ◌*◌, nat_lt, OnOk};
ghost use Rattle.hevc_tables.specs.ProfileTierLevelTable as table;
ghost use Rattle.hevc_set_parts.specs.ProfileTierLevel.{plain_profile_tier_level};
ghost use Rattle.hevc_write_set_parts.specs.ProfileParts as own;
ghost use Rattle.hevc_write_elements.specs.Filling.{Writes, WritesIf, WritesTable, WritesZeros};

use crate::general_profile::general_profile;
use crate::layer::write_layer_profile;
use crate::sub_layers::{write_presence, write_sub_layers};
use hevc_bit_writer::BitWriter;
use hevc_set_parts::ProfileTierLevel;
use hevc_write_elements::rows::{bits_u8, zeros_if};
use std::alloc::AllocError;

/// Table 2, of a set of so many sub-layers.
pub fn write_profile_tier_level(
    w: &mut BitWriter,
    max_sub_layers_minus1: u8,
    x: &ProfileTierLevel,
) -> Result<(), AllocError>
    requires { max_sub_layers_minus1 ≤ 6 }
    ensures { OnOk result (WritesTable (table.profile_tier_level max_sub_layers_minus1)
        (plain_profile_tier_level x.now) w.old w.new) }
{
    write_general(w, x)?;
    write_presence(w, max_sub_layers_minus1, x)?;
    write_absent_layers(w, max_sub_layers_minus1)?;
    write_sub_layers(w, max_sub_layers_minus1, x)?;
    Ok(())
}

/// Row 29 of table 2: two zeros for each sub-layer up to 8 that isn't there.
fn write_absent_layers(w: &mut BitWriter, max_sub_layers_minus1: u8) -> Result<(), AllocError>
    requires { max_sub_layers_minus1 ≤ 6 }
    ensures { OnOk result (WritesIf (nat_lt 0 max_sub_layers_minus1)
        (WritesZeros (2 * (8 - max_sub_layers_minus1))) w.old w.new) }
{
    zeros_if(
        w,
        max_sub_layers_minus1 > 0,
        2 * (8 - u32::from(max_sub_layers_minus1)),
    ) // Row(2, 29)
}

/// Rows 1 to 27 of table 2.
fn write_general(w: &mut BitWriter, x: &ProfileTierLevel) -> Result<(), AllocError>
    ensures { OnOk result (Writes table.general_rows own.general_rows_of
        (plain_profile_tier_level x.now) w.old w.new) }
{
    let layer = general_profile(x);
    write_layer_profile(w, &layer)?;
    bits_u8(w, 8, x.general_level_idc.number())?; // Row(2, 27)
    Ok(())
}
