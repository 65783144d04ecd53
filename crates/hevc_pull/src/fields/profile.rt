//! Profile, tier and level.
ghost use Rattle.std.specs.Prelude.{◌≡◌};
ghost use Rattle.hevc_set_parts.specs.ProfileTierLevel.{plain_profile_tier_level};
ghost use Rattle.hevc_pull.specs.Fields.Profile.{fields_of_profile, profile_flags};

use hevc_events::flag_bits;
use hevc_set_parts::ProfileTierLevel;

/// Profile, tier and level of the highest sub-layer (7.3.3), by their names in H.265.
#[repr(C)]
#[derive(Clone, Copy)]
pub struct ProfileFields {
    pub general_profile_space: u8,
    pub general_profile_idc: u8,
    /// Thirty times the level.
    pub general_level_idc: u8,
    /// Zero.
    pub reserved: u8,
    /// `general_profile_compatibility_flag[ j ]` is bit j.
    pub general_profile_compatibility_flags: u32,
    /// Tier, source and constraint flags, from bit 0 on.
    pub flags: u32,
}

/// The fields of a profile, tier and level.
pub fn profile_fields(profile: &ProfileTierLevel) -> ProfileFields
    ensures { result ≡ fields_of_profile (plain_profile_tier_level profile.now) }
{
    ProfileFields {
        general_profile_space: profile.general_profile_space,
        general_profile_idc: profile.general_profile_idc,
        general_level_idc: profile.general_level_idc.number(),
        reserved: 0,
        general_profile_compatibility_flags: flag_bits(
            &profile.general_profile_compatibility_flag,
        ) as u32,
        flags: profile_flags(profile),
    }
}

/// The flags, in the order of their bits.
fn profile_flags(profile: &ProfileTierLevel) -> u32
    ensures { result ≡ profile_flags (plain_profile_tier_level profile.now) }
{
    flag_bits(&[
        profile.general_tier_flag,
        profile.general_progressive_source_flag,
        profile.general_interlaced_source_flag,
        profile.general_non_packed_constraint_flag,
        profile.general_frame_only_constraint_flag,
        profile.general_max_12bit_constraint_flag,
        profile.general_max_10bit_constraint_flag,
        profile.general_max_8bit_constraint_flag,
        profile.general_max_422chroma_constraint_flag,
        profile.general_max_420chroma_constraint_flag,
        profile.general_max_monochrome_constraint_flag,
        profile.general_intra_constraint_flag,
        profile.general_one_picture_only_constraint_flag,
        profile.general_lower_bit_rate_constraint_flag,
        profile.general_max_14bit_constraint_flag,
        profile.general_inbld_flag,
    ]) as u32
}
