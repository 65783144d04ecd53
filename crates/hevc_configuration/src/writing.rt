//! Writing a record.
ghost use Rattle.std.specs.Prelude.{◌≡◌, ◌<◌, ◌≤◌, ◌++◌, length, IfOk, OnOk, map, nat_lt};
ghost use Rattle.std.specs.List.{list_any};
ghost use Rattle.std.specs.Int.{w16, to_be_bytes};
ghost use Rattle.hevc_configuration.specs.Configuration.{array_rows, arrays_rows, configuration_rows, format_rows, front_rows, level_rows, profile_rows, unit_rows};
ghost use Rattle.hevc_configuration.specs.Rows.{bytes_of_rows};
ghost use Rattle.hevc_configuration.specs.Views.{plain, plain_array};
ghost use Rattle.hevc_configuration.specs.Writing.{unheld, has_too_many, has_long_unit, is_long_unit, TellsUnheld};

use crate::error::ConfigurationWriteError;
use crate::record::{HevcConfiguration, UnitArray};
use std::alloc::{AllocError, Global};

impl HevcConfiguration<'_> {
    /// The bytes of the record. Reserved bits are as the standard has them.
    ///
    /// Errors: `TooManyArrays`, more than 255; else `TooManyUnits`, more than 65,535 in an array;
    /// else `UnitTooLong`, more than 65,535 bytes in a unit; `NoMemory`.
    pub fn write(&self, alloc: Global) -> Result<Vec<u8>, ConfigurationWriteError>
        ensures bytes { IfOk result (λ bytes.
            bytes.items ≡ bytes_of_rows (configuration_rows (plain self.now))) }
        ensures refused { TellsUnheld result (unheld (plain self.now)) }
    {
        check_sizes(self)?;
        let mut out = Vec::new(alloc);
        append_front(self, &mut out)?;
        append_arrays(&self.arrays, &mut out)?;
        Ok(out)
    }
}

/// That all counts and lengths have their room.
fn check_sizes(configuration: &HevcConfiguration) -> Result<(), ConfigurationWriteError>
    ensures tells { TellsUnheld result (unheld (plain configuration.now)) }
    ensures few { OnOk result (length configuration.now.arrays.items ≤ 255) }
{
    let arrays = configuration.arrays.as_slice();
    if arrays.len() > 255 {
        return Err(ConfigurationWriteError::TooManyArrays);
    }
    if have_too_many(arrays) {
        return Err(ConfigurationWriteError::TooManyUnits);
    }
    if have_long_unit(arrays) {
        return Err(ConfigurationWriteError::UnitTooLong);
    }
    Ok(())
}

/// Whether an array has more than 65,535 units.
#[tactic(auto, using(crate::proofs::Steps::any_of_rest))]
fn have_too_many(arrays: &[UnitArray]) -> bool
    ensures { result ≡ list_any has_too_many (map plain_array arrays.now) }
{
    for array in arrays {
        if array.units.len() > 65535 {
            return true;
        }
    }
    false
}

/// Whether a unit of an array has more than 65,535 bytes.
#[tactic(auto, using(crate::proofs::Steps::any_of_rest))]
fn have_long_unit(arrays: &[UnitArray]) -> bool
    ensures { result ≡ list_any has_long_unit (map plain_array arrays.now) }
{
    for array in arrays {
        if is_long(&array.units) {
            return true;
        }
    }
    false
}

/// Whether a unit has more than 65,535 bytes.
#[tactic(auto, using(crate::proofs::Steps::any_of_rest))]
fn is_long(units: &[&[u8]]) -> bool
    ensures { result ≡ list_any is_long_unit (map (λ u. u.now) units.now) }
{
    for unit in units {
        if unit.len() > 65535 {
            return true;
        }
    }
    false
}

/// Adds the low 16 bits of a number.
fn push_u16(number: usize, out: &mut Vec<u8>) -> Result<(), AllocError>
    ensures { OnOk result (out.new.items ≡ out.old.items ++ to_be_bytes w16 number) }
{
    out.extend_from_slice(&((number % 65536) as u16).to_be_bytes())
}

/// Adds units, each after its length.
fn append_units(units: &[&[u8]], out: &mut Vec<u8>) -> Result<(), AllocError>
    ensures { OnOk result (out.new.items
        ≡ out.old.items ++ bytes_of_rows (unit_rows (map (λ u. u.now) units.now))) }
{
    for unit in units {
        push_u16(unit.len(), out)?;
        out.extend_from_slice(unit)?;
    }
    Ok(())
}

/// Adds the units of one type.
fn append_array(array: &UnitArray, out: &mut Vec<u8>) -> Result<(), AllocError>
    ensures { OnOk result (out.new.items
        ≡ out.old.items ++ bytes_of_rows (array_rows (plain_array array.now))) }
{
    out.push(u8::from(array.array_completeness) * 128 + array.nal_unit_type)?;
    push_u16(array.units.len(), out)?;
    append_units(&array.units, out)
}

/// Adds arrays.
fn append_arrays(arrays: &[UnitArray], out: &mut Vec<u8>) -> Result<(), AllocError>
    ensures { OnOk result (out.new.items
        ≡ out.old.items ++ bytes_of_rows (arrays_rows (map plain_array arrays.now))) }
{
    for array in arrays {
        append_array(array, out)?;
    }
    Ok(())
}

/// Adds the 23 bytes before the arrays.
fn append_front(c: &HevcConfiguration, out: &mut Vec<u8>) -> Result<(), AllocError>
    requires { length c.now.arrays.items ≤ 255 }
    ensures { OnOk result (out.new.items
        ≡ out.old.items ++ bytes_of_rows (front_rows (plain c.now))) }
{
    append_profile(c, out)?;
    append_level(c, out)?;
    append_format(c, out)
}

/// Adds the 6 bytes of the version, the profile and the tier.
fn append_profile(c: &HevcConfiguration, out: &mut Vec<u8>) -> Result<(), AllocError>
    ensures { OnOk result (out.new.items
        ≡ out.old.items ++ bytes_of_rows (profile_rows (plain c.now))) }
{
    let tier = u8::from(c.general_tier_flag);
    out.push(1)?;
    out.push(c.general_profile_space * 64 + tier * 32 + c.general_profile_idc)?;
    out.extend_from_slice(&c.general_profile_compatibility_flags.to_be_bytes())
}

/// Adds the 7 bytes of the constraint flags and the level.
fn append_level(c: &HevcConfiguration, out: &mut Vec<u8>) -> Result<(), AllocError>
    ensures { OnOk result (out.new.items
        ≡ out.old.items ++ bytes_of_rows (level_rows (plain c.now))) }
{
    let high_flags = (c.general_constraint_indicator_flags / 65536) as u32;
    let low_flags = (c.general_constraint_indicator_flags % 65536) as u16;
    out.extend_from_slice(&high_flags.to_be_bytes())?;
    out.extend_from_slice(&low_flags.to_be_bytes())?;
    out.push(c.general_level_idc)?;
    Ok(())
}

/// Adds the 10 bytes after these.
fn append_format(c: &HevcConfiguration, out: &mut Vec<u8>) -> Result<(), AllocError>
    requires { length c.now.arrays.items ≤ 255 }
    ensures { OnOk result (out.new.items
        ≡ out.old.items ++ bytes_of_rows (format_rows (plain c.now))) }
{
    let nested = u8::from(c.temporal_id_nested);
    out.extend_from_slice(&(0xf000 + c.min_spatial_segmentation_idc).to_be_bytes())?;
    out.extend_from_slice(&[
        0xfc + c.parallelism_type,
        0xfc + c.chroma_format_idc,
        0xf8 + c.bit_depth_luma_minus8,
        0xf8 + c.bit_depth_chroma_minus8,
    ])?;
    out.extend_from_slice(&c.avg_frame_rate.to_be_bytes())?;
    let layers = c.num_temporal_layers * 8 + nested * 4 + c.length_size.minus_one();
    out.push(c.constant_frame_rate * 64 + layers)?;
    out.push(c.arrays.len() as u8)?;
    Ok(())
}
