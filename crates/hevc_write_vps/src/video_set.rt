//! Video parameter sets (7.3.2.1, table 1).
ghost use Rattle.std.specs.Prelude.{◌≡◌, ◌≤◌, ◌+◌, ◌*◌, OnOk};
ghost use Rattle.hevc_tables.specs.VpsTable as table;
ghost use Rattle.hevc_video_set.specs.Vps.{plain_vps};
ghost use Rattle.hevc_write_vps.specs.VpsParts as own;
ghost use Rattle.hevc_write_elements.specs.Filling.{Writes, WritesTable};

use crate::orderings::write_orderings;
use crate::timing::write_timing_info;
use hevc_bit_writer::BitWriter;
use hevc_video_set::Vps;
use hevc_write_elements::rows::{bits, bits_u8, flag, ue, zeros};
use hevc_write_set_parts::write_profile_tier_level;
use std::alloc::AllocError;

/// Table 1.
pub fn write_vps(w: &mut BitWriter, x: &Vps) -> Result<(), AllocError>
    ensures { OnOk result (WritesTable table.video_parameter_set (plain_vps x.now) w.old w.new) }
{
    write_identity(w, x)?;
    write_orderings(w, x)?;
    write_layer_sets(w, x)?;
    write_timing_info(w, x)?;
    write_extension(w, x)?;
    Ok(())
}

/// Rows 1 to 7 of table 1.
fn write_identity(w: &mut BitWriter, x: &Vps) -> Result<(), AllocError>
    ensures { OnOk result (Writes table.identity
        own.identity_of (plain_vps x.now) w.old w.new) }
{
    bits_u8(w, 4, x.video_parameter_set_id)?; // Row(1, 1)
    flag(w, x.base_layer_internal_flag)?; // Row(1, 2)
    flag(w, x.base_layer_available_flag)?; // Row(1, 2)
    bits_u8(w, 6, x.max_layers_minus1)?; // Row(1, 3)
    bits_u8(w, 3, x.max_sub_layers_minus1)?; // Row(1, 4)
    flag(w, x.temporal_id_nesting_flag)?; // Row(1, 5)
    bits(w, 16, 0xFFFF)?; // Row(1, 6)
    write_profile_tier_level(w, x.max_sub_layers_minus1, &x.profile_tier_level)?; // Row(1, 7)
    Ok(())
}

/// Rows 14 to 16 of table 1.
fn write_layer_sets(w: &mut BitWriter, x: &Vps) -> Result<(), AllocError>
    ensures { OnOk result (Writes table.layer_sets
        own.layer_sets_of (plain_vps x.now) w.old w.new) }
{
    bits_u8(w, 6, x.max_layer_id)?; // Row(1, 14)
    ue(w, x.num_layer_sets_minus1)?; // Row(1, 15)
    zeros(w, num_layer_flags(x))?; // Row(1, 16)
    Ok(())
}

/// Row 25 of table 1.
fn write_extension(w: &mut BitWriter, x: &Vps) -> Result<(), AllocError>
    ensures { OnOk result (Writes table.extension
        own.extension_of (plain_vps x.now) w.old w.new) }
{
    flag(w, x.extension_flag)?; // Row(1, 25)
    Ok(())
}

/// How many flags the layer sets have, each but the first one for each layer. Of more than a table
/// allows there are none.
fn num_layer_flags(x: &Vps) -> u32
    ensures { x.now.max_layer_id ≤ 62 → x.now.num_layer_sets_minus1 ≤ 1023
        → result ≡ (x.now.max_layer_id + 1) * x.now.num_layer_sets_minus1 }
{
    if x.max_layer_id <= 62 && x.num_layer_sets_minus1 <= 1023 {
        (u32::from(x.max_layer_id) + 1) * x.num_layer_sets_minus1
    } else {
        0
    }
}
