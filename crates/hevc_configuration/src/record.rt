//! The record.
ghost use Rattle.std.specs.Prelude.{◌<◌, ◌^◌};

use crate::length_size::LengthSize;

/// A decoder configuration record of version 1 (ISO/IEC 14496-15, 8.3.3.1), which lends its units
/// from the bytes that it was read from.
#[derive(Drop)]
pub struct HevcConfiguration<'a> {
    /// How the profile number and the compatibility flags are understood: 0 to 3.
    pub general_profile_space: u8,
    /// Whether the tier is High: Main otherwise.
    pub general_tier_flag: bool,
    /// The number of the profile: 0 to 31.
    pub general_profile_idc: u8,
    /// The flag of profile 0 in the highest bit, of profile 31 in the lowest.
    pub general_profile_compatibility_flags: u32,
    /// 48 bits, from `general_progressive_source_flag` in the highest on.
    pub general_constraint_indicator_flags: u64,
    /// 30 times the number of the level.
    pub general_level_idc: u8,
    /// As in E.2.1 of H.265: 0 to 4095.
    pub min_spatial_segmentation_idc: u16,
    /// 0 unknown or mixed, 1 slices, 2 tiles, 3 wavefronts.
    pub parallelism_type: u8,
    /// 0 to 3 (H.265, 6.2).
    pub chroma_format_idc: u8,
    /// 0 to 7.
    pub bit_depth_luma_minus8: u8,
    /// 0 to 7.
    pub bit_depth_chroma_minus8: u8,
    /// Frames in 256 seconds; 0 where it isn't told.
    pub avg_frame_rate: u16,
    /// 0 not told, 1 constant, 2 constant in each sub-layer.
    pub constant_frame_rate: u8,
    /// 0 to 7; 0 where it isn't known.
    pub num_temporal_layers: u8,
    /// Whether all sequence sets have `sps_temporal_id_nesting_flag` set.
    pub temporal_id_nested: bool,
    /// How many bytes the length of a unit has in a sample.
    pub length_size: LengthSize,
    /// Units, by their types.
    pub arrays: Vec<UnitArray<'a>>,
    ghost profile_space_bits: { general_profile_space < 4 },
    ghost profile_idc_bits: { general_profile_idc < 32 },
    ghost constraint_bits: { general_constraint_indicator_flags < 2 ^ 48 },
    ghost segmentation_bits: { min_spatial_segmentation_idc < 4096 },
    ghost parallelism_bits: { parallelism_type < 4 },
    ghost chroma_bits: { chroma_format_idc < 4 },
    ghost luma_bits: { bit_depth_luma_minus8 < 8 },
    ghost chroma_depth_bits: { bit_depth_chroma_minus8 < 8 },
    ghost frame_rate_bits: { constant_frame_rate < 4 },
    ghost layers_bits: { num_temporal_layers < 8 },
}

/// Units of one type.
#[derive(Drop)]
pub struct UnitArray<'a> {
    /// Whether all units of this type are here, and none in the samples.
    pub array_completeness: bool,
    /// `nal_unit_type`: 0 to 63.
    pub nal_unit_type: u8,
    pub units: Vec<&'a [u8]>,
    ghost type_bits: { nal_unit_type < 64 },
}
