//! Reading a record.
ghost use Rattle.std.specs.Prelude.{◌≡◌, ◌+◌, ◌≤◌, length, map, drop, Ok, IfOk, OnOk};
ghost use Rattle.hevc_configuration.specs.Configuration.{PlainConfiguration, configuration_rows};
ghost use Rattle.hevc_configuration.specs.Rows.{AreRows};
ghost use Rattle.hevc_configuration.specs.Reading.{Gives, unit_at, units_at, array_at, arrays_at, field_beyond, front_at, with_front, configuration_at};
ghost use Rattle.std.specs.Int.{w16, w32, from_be_bytes};
ghost use Rattle.hevc_configuration.specs.Views.{plain, plain_array};

use crate::error::{ConfigurationError, ConfigurationField};
use crate::length_size::LengthSize;
use crate::record::{HevcConfiguration, UnitArray};
use std::alloc::Global;

/// A unit after its length, and the bytes after it.
#[tactic(auto, unfolding(crate::specs::Reading::unit_at))]
fn read_unit(bytes: &[u8]) -> Result<(&[u8], &[u8]), ConfigurationError>
    ensures { Gives (λ x. (x.0.now, x.1.now)) result (unit_at bytes.now) }
{
    if bytes.len() < 2 {
        return Err(ConfigurationError::TooShort(ConfigurationField::NalUnitLength));
    }
    let size = u16::from_be_bytes([bytes[0], bytes[1]]) as usize;
    let rest = &bytes[2..];
    if rest.len() < size {
        return Err(ConfigurationError::TooShort(ConfigurationField::NalUnit));
    }
    Ok(rest.split_at(size))
}

/// So many units, and the bytes after them.
fn read_units(
    alloc: Global,
    count: u16,
    bytes: &[u8],
) -> Result<(Vec<&[u8]>, &[u8]), ConfigurationError>
    ensures { Gives (λ x. (map (λ u. u.now) x.0.items, x.1.now)) result (units_at count bytes.now) }
{
    let mut units = Vec::new(alloc);
    let mut rest = bytes;
    for _ in 0..count {
        let (unit, after) = read_unit(rest)?;
        units.push(unit)?;
        rest = after;
    }
    Ok((units, rest))
}

/// The units of one type, and the bytes after them.
#[tactic(auto, unfolding(crate::specs::Reading::array_at))]
fn read_array(alloc: Global, bytes: &[u8]) -> Result<(UnitArray<'_>, &[u8]), ConfigurationError>
    ensures { Gives (λ x. (plain_array x.0, x.1.now)) result (array_at bytes.now) }
{
    if bytes.is_empty() {
        return Err(ConfigurationError::TooShort(ConfigurationField::ArrayCompleteness));
    }
    if bytes.len() < 3 {
        return Err(ConfigurationError::TooShort(ConfigurationField::NumNalus));
    }
    let first = bytes[0];
    let count = u16::from_be_bytes([bytes[1], bytes[2]]);
    let (units, rest) = read_units(alloc, count, &bytes[3..])?;
    let array = UnitArray {
        array_completeness: first / 128 % 2 == 1,
        nal_unit_type: first % 64,
        units,
    };
    Ok((array, rest))
}

/// So many arrays, and the bytes after them.
fn read_arrays(
    alloc: Global,
    count: u8,
    bytes: &[u8],
) -> Result<(Vec<UnitArray<'_>>, &[u8]), ConfigurationError>
    ensures { Gives (λ x. (map plain_array x.0.items, x.1.now)) result (arrays_at count bytes.now) }
{
    let mut arrays = Vec::new(alloc);
    let mut rest = bytes;
    for _ in 0..count {
        let (array, after) = read_array(alloc, rest)?;
        arrays.push(array)?;
        rest = after;
    }
    Ok((arrays, rest))
}

/// The first field that so many bytes don't have whole.
fn field_beyond(count: usize) -> ConfigurationField
    ensures { result ≡ field_beyond count }
{
    match count {
        0 => ConfigurationField::ConfigurationVersion,
        1 => ConfigurationField::GeneralProfileSpace,
        2..=5 => ConfigurationField::GeneralProfileCompatibilityFlags,
        6..=11 => ConfigurationField::GeneralConstraintIndicatorFlags,
        12 => ConfigurationField::GeneralLevelIdc,
        13..=14 => ConfigurationField::MinSpatialSegmentationIdc,
        15 => ConfigurationField::ParallelismType,
        16 => ConfigurationField::ChromaFormatIdc,
        17 => ConfigurationField::BitDepthLumaMinus8,
        18 => ConfigurationField::BitDepthChromaMinus8,
        19..=20 => ConfigurationField::AvgFrameRate,
        21 => ConfigurationField::ConstantFrameRate,
        _ => ConfigurationField::NumOfArrays,
    }
}

/// The size of lengths, where the bytes before the arrays have no fault.
#[tactic(auto, unfolding(crate::specs::Reading::front_at))]
fn check_front(bytes: &[u8]) -> Result<LengthSize, ConfigurationError>
    ensures gives { Gives (λ size. size) result (front_at bytes.now) }
    ensures long { OnOk result (23 ≤ length bytes.now) }
{
    if bytes.is_empty() {
        return Err(ConfigurationError::TooShort(ConfigurationField::ConfigurationVersion));
    }
    let version = bytes[0];
    if version != 1 {
        return Err(ConfigurationError::UnsupportedVersion(version));
    }
    if bytes.len() < 22 {
        return Err(ConfigurationError::TooShort(field_beyond(bytes.len())));
    }
    let length_size = LengthSize::from_minus_one(bytes[21] % 4)?;
    if bytes.len() < 23 {
        return Err(ConfigurationError::TooShort(ConfigurationField::NumOfArrays));
    }
    Ok(length_size)
}

fn u16_at(bytes: &[u8], place: usize) -> u16
    requires { place + 2 ≤ length bytes.now }
    ensures { result ≡ from_be_bytes w16 (drop place bytes.now) }
{
    u16::from_be_bytes([bytes[place], bytes[place + 1]])
}

fn u32_at(bytes: &[u8], place: usize) -> u32
    requires { place + 4 ≤ length bytes.now }
    ensures { result ≡ from_be_bytes w32 (drop place bytes.now) }
{
    u32::from_be_bytes([
        bytes[place],
        bytes[place + 1],
        bytes[place + 2],
        bytes[place + 3],
    ])
}

/// The record that begins so.
fn with_front<'a>(
    bytes: &[u8],
    length_size: LengthSize,
    arrays: Vec<UnitArray<'a>>,
) -> HevcConfiguration<'a>
    requires { 23 ≤ length bytes.now }
    ensures { plain result ≡ with_front bytes.now length_size (map plain_array arrays.entry.items) }
{
    let profile = bytes[1];
    let high_flags = u64::from(u32_at(bytes, 6));
    let low_flags = u64::from(u16_at(bytes, 10));
    let rates = bytes[21];
    HevcConfiguration {
        general_profile_space: profile / 64,
        general_tier_flag: profile / 32 % 2 == 1,
        general_profile_idc: profile % 32,
        general_profile_compatibility_flags: u32_at(bytes, 2),
        general_constraint_indicator_flags: high_flags * 65536 + low_flags,
        general_level_idc: bytes[12],
        min_spatial_segmentation_idc: u16_at(bytes, 13) % 4096,
        parallelism_type: bytes[15] % 4,
        chroma_format_idc: bytes[16] % 4,
        bit_depth_luma_minus8: bytes[17] % 8,
        bit_depth_chroma_minus8: bytes[18] % 8,
        avg_frame_rate: u16_at(bytes, 19),
        constant_frame_rate: rates / 64,
        num_temporal_layers: rates / 8 % 8,
        temporal_id_nested: rates / 4 % 2 == 1,
        length_size,
        arrays,
    }
}

impl<'a> HevcConfiguration<'a> {
    /// The record of which the bytes are.
    ///
    /// Reserved bits may be any, and bytes after the record aren't looked at.
    ///
    /// Errors: the first fault in the order of the bytes, as `ConfigurationError` names it, or
    /// `NoMemory`.
    pub fn read(alloc: Global, bytes: &'a [u8]) -> Result<HevcConfiguration<'a>, ConfigurationError>
        // What is read is in the rows of the table, in which reserved bits may be any.
        ensures found { IfOk result (λ c. AreRows (configuration_rows (plain c)) bytes.now) }
        // What is in the rows is read, unless memory runs out.
        ensures only { (c : PlainConfiguration) → AreRows (configuration_rows c) bytes.now
            → Gives plain result (Ok c) }
        // Which fault it is.
        ensures exact { Gives plain result (configuration_at bytes.now) }
    {
        read_all(alloc, bytes)
    }
}

/// The record, by the definition of reading.
#[tactic(auto, unfolding(crate::specs::Reading::configuration_at))]
fn read_all(alloc: Global, bytes: &[u8]) -> Result<HevcConfiguration<'_>, ConfigurationError>
    ensures { Gives plain result (configuration_at bytes.now) }
{
    let length_size = check_front(bytes)?;
    let (arrays, _after) = read_arrays(alloc, bytes[22], &bytes[23..])?;
    Ok(with_front(bytes, length_size, arrays))
}
