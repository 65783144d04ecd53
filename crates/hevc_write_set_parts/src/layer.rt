//! The profile of the whole stream, or of a sub-layer (7.3.3, rows 1 to 5, 14 and 15 of table 2).
ghost use Rattle.std.specs.Prelude.{◌<◌, OnOk};
ghost use Rattle.hevc_tables.specs.ProfileTierLevelTable as table;
ghost use Rattle.hevc_write_set_parts.specs.LayerParts as own;
ghost use Rattle.hevc_profile.specs.LayerProfile.{plain_layer_profile};
ghost use Rattle.hevc_write_elements.specs.Filling.{Writes, WritesTable, WritesTurn};

use crate::constraints::write_constraints;
use hevc_bit_writer::BitWriter;
use hevc_profile::{LayerProfile, has_inbld};
use hevc_write_elements::rows::{bits_u8, flag, flag_if, zeros_if};
use std::alloc::AllocError;

/// Rows 1 to 15 of table 2.
pub(crate) fn write_layer_profile(w: &mut BitWriter, layer: &LayerProfile) -> Result<(), AllocError>
    ensures { (scope : table.Scope) → OnOk result (WritesTable (table.layer_profile scope)
        (plain_layer_profile layer.now) w.old w.new) }
{
    write_profiles(w, layer)?;
    write_source(w, layer)?;
    write_constraints(w, layer)?;
    write_inbld(w, layer)?;
    Ok(())
}

/// Rows 1 to 4 of table 2.
fn write_profiles(w: &mut BitWriter, layer: &LayerProfile) -> Result<(), AllocError>
    ensures { (scope : table.Scope) → OnOk result
        (Writes (table.profiles scope) own.profiles_of (plain_layer_profile layer.now)
        w.old w.new) }
{
    bits_u8(w, 2, layer.profile_space)?; // Row(2, 1)
    flag(w, layer.tier_flag)?; // Row(2, 2)
    bits_u8(w, 5, layer.profile_idc)?; // Row(2, 3)
    write_compatibility_flags(w, layer)?;
    Ok(())
}

/// Row 4 of table 2.
fn write_compatibility_flags(w: &mut BitWriter, layer: &LayerProfile) -> Result<(), AllocError>
    ensures { (scope : table.Scope) → OnOk result
        (Writes (table.compatibility_flags scope) own.compatibility_flags_of
        (plain_layer_profile layer.now) w.old w.new) }
{
    for i in 0..32usize {
        write_compatibility_flag(w, i, layer)?;
    }
    Ok(())
}

/// Row 4 of table 2, for one profile.
fn write_compatibility_flag(
    w: &mut BitWriter,
    i: usize,
    layer: &LayerProfile,
) -> Result<(), AllocError>
    requires { i < 32 }
    ensures { (scope : table.Scope) → OnOk result
        (WritesTurn (table.compatibility_flag scope)
        (own.same_flags (plain_layer_profile layer.now)) i w.old w.new) }
{
    flag(w, layer.profile_compatibility_flag[i])?; // Row(2, 4)
    Ok(())
}

/// Row 5 of table 2.
fn write_source(w: &mut BitWriter, layer: &LayerProfile) -> Result<(), AllocError>
    ensures { (scope : table.Scope) → OnOk result
        (Writes (table.source scope) own.source_of (plain_layer_profile layer.now) w.old w.new) }
{
    flag(w, layer.progressive_source_flag)?; // Row(2, 5)
    flag(w, layer.interlaced_source_flag)?; // Row(2, 5)
    flag(w, layer.non_packed_constraint_flag)?; // Row(2, 5)
    flag(w, layer.frame_only_constraint_flag)?; // Row(2, 5)
    Ok(())
}

/// Rows 14 and 15 of table 2.
fn write_inbld(w: &mut BitWriter, layer: &LayerProfile) -> Result<(), AllocError>
    ensures { (scope : table.Scope) → OnOk result
        (Writes (table.inbld scope) own.inbld_with_inputs_of (plain_layer_profile layer.now)
        w.old w.new) }
{
    let present = has_inbld(layer);
    flag_if(w, present, layer.inbld_flag)?; // Row(2, 14)
    zeros_if(w, !present, 1)?; // Row(2, 15)
    Ok(())
}
