//! What is constrained beside the profile (7.3.3, rows 6 to 13 of table 2).
ghost use Rattle.std.specs.Prelude.{OnOk};
ghost use Rattle.hevc_records.specs.ProfileConformance.{has_range_extensions_flags};
ghost use Rattle.hevc_tables.specs.ProfileTierLevelTable as table;
ghost use Rattle.hevc_write_set_parts.specs.LayerParts as own;
ghost use Rattle.hevc_profile.specs.LayerProfile.{plain_layer_profile};
ghost use Rattle.hevc_write_elements.specs.Filling.{Writes, WritesEither, WritesZeros};

use hevc_bit_writer::BitWriter;
use hevc_profile::{LayerProfile, has_14bit, has_extensions, layer_conforms_to};
use hevc_write_elements::rows::{flag, flag_if, zeros};
use std::alloc::AllocError;

/// Rows 6 to 13 of table 2.
pub(crate) fn write_constraints(w: &mut BitWriter, layer: &LayerProfile) -> Result<(), AllocError>
    ensures { (scope : table.Scope) → OnOk result
        (Writes (table.constraints scope) own.constraints_with_inputs_of
        (plain_layer_profile layer.now)
        w.old w.new) }
{
    write_either_constraints(w, has_extensions(layer), layer)?;
    Ok(())
}

/// Rows 6 to 9 of table 2, or rows 10 to 13.
fn write_either_constraints(
    w: &mut BitWriter,
    extensions: bool,
    layer: &LayerProfile,
) -> Result<(), AllocError>
    ensures { (scope : table.Scope) → OnOk result (WritesEither extensions
        (Writes (table.range_extensions_flags scope) own.constraints_with_inputs_of
        (plain_layer_profile layer.now))
        (Writes (own.other_constraints scope) own.constraints_with_inputs_of
        (plain_layer_profile layer.now)) w.old w.new) }
{
    if extensions {
        write_extensions(w, layer)
    } else {
        write_other_constraints(w, layer)
    }
}

/// Rows 10 to 13 of table 2.
fn write_other_constraints(w: &mut BitWriter, layer: &LayerProfile) -> Result<(), AllocError>
    ensures { (scope : table.Scope) → OnOk result
        (Writes (own.other_constraints scope) own.constraints_with_inputs_of
        (plain_layer_profile layer.now) w.old w.new) }
{
    write_either_rows(w, layer_conforms_to(layer, 2), layer)?;
    Ok(())
}

/// Rows 10 to 12 of table 2, or row 13.
fn write_either_rows(
    w: &mut BitWriter,
    main_10: bool,
    layer: &LayerProfile,
) -> Result<(), AllocError>
    ensures { (scope : table.Scope) → OnOk result (WritesEither main_10
        (Writes (table.main_10_flags scope) own.constraints_with_inputs_of
        (plain_layer_profile layer.now))
        (Writes (table.reserved_bits scope) own.constraints_with_inputs_of
        (plain_layer_profile layer.now)) w.old w.new) }
{
    if main_10 {
        write_main_10(w, layer)
    } else {
        write_reserved_bits(w, layer)
    }
}

/// Rows 6 to 9 of table 2.
fn write_extensions(w: &mut BitWriter, layer: &LayerProfile) -> Result<(), AllocError>
    ensures { (scope : table.Scope) → OnOk result
        (Writes (table.range_extensions_flags scope) own.constraints_with_inputs_of
        (plain_layer_profile layer.now) w.old w.new) }
{
    write_formats(w, layer)?;
    write_bit_depth_flag(w, layer)?;
    Ok(())
}

/// Row 6 of table 2.
fn write_formats(w: &mut BitWriter, layer: &LayerProfile) -> Result<(), AllocError>
    ensures { (scope : table.Scope) → OnOk result
        (Writes (table.formats scope) own.formats_of (plain_layer_profile layer.now) w.old w.new) }
{
    flag(w, layer.max_12bit_constraint_flag)?; // Row(2, 6)
    flag(w, layer.max_10bit_constraint_flag)?; // Row(2, 6)
    flag(w, layer.max_8bit_constraint_flag)?; // Row(2, 6)
    flag(w, layer.max_422chroma_constraint_flag)?; // Row(2, 6)
    flag(w, layer.max_420chroma_constraint_flag)?; // Row(2, 6)
    flag(w, layer.max_monochrome_constraint_flag)?; // Row(2, 6)
    flag(w, layer.intra_constraint_flag)?; // Row(2, 6)
    flag(w, layer.one_picture_only_constraint_flag)?; // Row(2, 6)
    flag(w, layer.lower_bit_rate_constraint_flag)?; // Row(2, 6)
    Ok(())
}

/// Rows 7 to 9 of table 2.
fn write_bit_depth_flag(w: &mut BitWriter, layer: &LayerProfile) -> Result<(), AllocError>
    ensures { (scope : table.Scope) → OnOk result
        (Writes (table.bit_depth_flag scope) own.bit_depth_flag_with_inputs_of
        (plain_layer_profile layer.now) w.old w.new) }
{
    let present = has_14bit(layer);
    flag_if(w, present, layer.max_14bit_constraint_flag)?; // Row(2, 7)
    write_either_zeros(w, present)?;
    Ok(())
}

/// Row 8 of table 2, or row 9.
fn write_either_zeros(w: &mut BitWriter, after_a_flag: bool) -> Result<(), AllocError>
    ensures { OnOk result (WritesEither after_a_flag (WritesZeros 33) (WritesZeros 34)
        w.old w.new) }
{
    if after_a_flag {
        zeros(w, 33) // Row(2, 8)
    } else {
        zeros(w, 34) // Row(2, 9)
    }
}

/// Rows 10 to 12 of table 2.
fn write_main_10(w: &mut BitWriter, layer: &LayerProfile) -> Result<(), AllocError>
    ensures { (scope : table.Scope) → OnOk result
        (Writes (table.main_10_flags scope) own.constraints_with_inputs_of
        (plain_layer_profile layer.now) w.old w.new) }
{
    zeros(w, 7)?; // Row(2, 10)
    flag(w, layer.one_picture_only_constraint_flag)?; // Row(2, 11)
    zeros(w, 35)?; // Row(2, 12)
    Ok(())
}

/// Row 13 of table 2.
fn write_reserved_bits(w: &mut BitWriter, layer: &LayerProfile) -> Result<(), AllocError>
    ensures { (scope : table.Scope) → OnOk result
        (Writes (table.reserved_bits scope) own.constraints_with_inputs_of
        (plain_layer_profile layer.now) w.old w.new) }
{
    let _ = layer;
    zeros(w, 43)?; // Row(2, 13)
    Ok(())
}
