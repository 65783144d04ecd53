//! What is told of each sub-layer below the highest (7.3.3, rows 28, 30 and 31 of table 2).
ghost use Rattle.std.specs.Prelude.{◌≤◌, ◌<◌, OnOk};
ghost use Rattle.hevc_tables.specs.ProfileTierLevelTable as table;
ghost use Rattle.hevc_set_parts.specs.ProfileTierLevel.{plain_profile_tier_level};
ghost use Rattle.hevc_write_set_parts.specs.ProfileParts as own;
ghost use Rattle.hevc_write_elements.specs.Filling.{Writes, WritesIf, WritesTurn};

use crate::layer::write_layer_profile;
use hevc_bit_writer::BitWriter;
use hevc_profile::LayerProfile;
use hevc_set_parts::ProfileTierLevel;
use hevc_write_elements::rows::{bits_u8, flag};
use std::alloc::AllocError;

/// Row 28 of table 2, for each sub-layer.
#[tactic(auto, using(hevc_write_elements::proofs::Loops::turns, crate::proofs::ProfileKeeps::presence_written))]
pub(crate) fn write_presence(
    w: &mut BitWriter,
    max_sub_layers_minus1: u8,
    x: &ProfileTierLevel,
) -> Result<(), AllocError>
    requires { max_sub_layers_minus1 ≤ 6 }
    ensures { OnOk result (Writes (table.presence max_sub_layers_minus1) own.presence_of
        (plain_profile_tier_level x.now) w.old w.new) }
{
    let count = usize::from(max_sub_layers_minus1);
    for i in 0..count {
        write_next_presence(w, i, x)?;
    }
    Ok(())
}

/// Row 28 of table 2, for one sub-layer.
fn write_next_presence(w: &mut BitWriter, i: usize, x: &ProfileTierLevel) -> Result<(), AllocError>
    requires { i < 6 }
    ensures { OnOk result (WritesTurn table.next_presence
        (own.same_presence (plain_profile_tier_level x.now)) i w.old w.new) }
{
    flag(w, x.sub_layer_profile_present_flag[i])?; // Row(2, 28)
    flag(w, x.sub_layer_level_present_flag[i])?; // Row(2, 28)
    Ok(())
}

/// Rows 30 and 31 of table 2, for each sub-layer.
#[tactic(auto, using(hevc_write_elements::proofs::Loops::turns, crate::proofs::ProfileKeeps::sub_layers_written))]
pub(crate) fn write_sub_layers(
    w: &mut BitWriter,
    max_sub_layers_minus1: u8,
    x: &ProfileTierLevel,
) -> Result<(), AllocError>
    requires { max_sub_layers_minus1 ≤ 6 }
    ensures { OnOk result (Writes (table.sub_layers max_sub_layers_minus1)
        own.sub_layers_with_inputs_of (plain_profile_tier_level x.now) w.old w.new) }
{
    let count = usize::from(max_sub_layers_minus1);
    for i in 0..count {
        write_next_sub_layer(w, i, x)?;
    }
    Ok(())
}

/// Rows 30 and 31 of table 2, for one sub-layer.
fn write_next_sub_layer(w: &mut BitWriter, i: usize, x: &ProfileTierLevel) -> Result<(), AllocError>
    requires { i < 6 }
    ensures { OnOk result (WritesTurn table.next_sub_layer
        (own.SameSubLayers (plain_profile_tier_level x.now)) i w.old w.new) }
{
    write_profile_if(w, x.sub_layer_profile_present_flag[i], i, x)?;
    write_level_if(w, x.sub_layer_level_present_flag[i], i, x)?;
    Ok(())
}

/// Row 30 of table 2, for one sub-layer, where it is present.
fn write_profile_if(
    w: &mut BitWriter,
    present: bool,
    i: usize,
    x: &ProfileTierLevel,
) -> Result<(), AllocError>
    requires { i < 6 }
    ensures { OnOk result (WritesIf present (WritesTurn table.sub_layer_profile
        (own.same_profiles (plain_profile_tier_level x.now)) i) w.old w.new) }
{
    if !present {
        return Ok(());
    }
    let layer = LayerProfile {
        profile_space: x.sub_layer_profile_space[i],
        tier_flag: x.sub_layer_tier_flag[i],
        profile_idc: x.sub_layer_profile_idc[i],
        profile_compatibility_flag: x.sub_layer_profile_compatibility_flag[i],
        progressive_source_flag: x.sub_layer_progressive_source_flag[i],
        interlaced_source_flag: x.sub_layer_interlaced_source_flag[i],
        non_packed_constraint_flag: x.sub_layer_non_packed_constraint_flag[i],
        frame_only_constraint_flag: x.sub_layer_frame_only_constraint_flag[i],
        max_12bit_constraint_flag: x.sub_layer_max_12bit_constraint_flag[i],
        max_10bit_constraint_flag: x.sub_layer_max_10bit_constraint_flag[i],
        max_8bit_constraint_flag: x.sub_layer_max_8bit_constraint_flag[i],
        max_422chroma_constraint_flag: x.sub_layer_max_422chroma_constraint_flag[i],
        max_420chroma_constraint_flag: x.sub_layer_max_420chroma_constraint_flag[i],
        max_monochrome_constraint_flag: x.sub_layer_max_monochrome_constraint_flag[i],
        intra_constraint_flag: x.sub_layer_intra_constraint_flag[i],
        one_picture_only_constraint_flag: x.sub_layer_one_picture_only_constraint_flag[i],
        lower_bit_rate_constraint_flag: x.sub_layer_lower_bit_rate_constraint_flag[i],
        max_14bit_constraint_flag: x.sub_layer_max_14bit_constraint_flag[i],
        inbld_flag: x.sub_layer_inbld_flag[i],
    };
    write_layer_profile(w, &layer)?; // Row(2, 30)
    Ok(())
}

/// Row 31 of table 2, for one sub-layer, where it is present.
fn write_level_if(
    w: &mut BitWriter,
    present: bool,
    i: usize,
    x: &ProfileTierLevel,
) -> Result<(), AllocError>
    requires { i < 6 }
    ensures { OnOk result (WritesIf present (WritesTurn table.sub_layer_level
        (own.same_levels (plain_profile_tier_level x.now)) i) w.old w.new) }
{
    if !present {
        return Ok(());
    }
    bits_u8(w, 8, x.sub_layer_level_idc[i].number())?; // Row(2, 31)
    Ok(())
}
