//! What is written of the profile of the whole stream.
ghost use Rattle.std.specs.Prelude.{◌≡◌};
ghost use Rattle.hevc_set_parts.specs.ProfileTierLevel.{plain_profile_tier_level};
ghost use Rattle.hevc_profile.specs.LayerProfile.{plain_layer_profile};
ghost use Rattle.hevc_write_set_parts.specs.GeneralProfile.{general_profile};

use hevc_profile::LayerProfile;
use hevc_set_parts::ProfileTierLevel;

/// The profile of the whole stream (rows 1 to 15 of table 2).
pub(crate) fn general_profile(all: &ProfileTierLevel) -> LayerProfile
    ensures { plain_layer_profile result ≡ general_profile (plain_profile_tier_level all.now) }
{
    LayerProfile {
        profile_space: all.general_profile_space,
        tier_flag: all.general_tier_flag,
        profile_idc: all.general_profile_idc,
        profile_compatibility_flag: all.general_profile_compatibility_flag,
        progressive_source_flag: all.general_progressive_source_flag,
        interlaced_source_flag: all.general_interlaced_source_flag,
        non_packed_constraint_flag: all.general_non_packed_constraint_flag,
        frame_only_constraint_flag: all.general_frame_only_constraint_flag,
        max_12bit_constraint_flag: all.general_max_12bit_constraint_flag,
        max_10bit_constraint_flag: all.general_max_10bit_constraint_flag,
        max_8bit_constraint_flag: all.general_max_8bit_constraint_flag,
        max_422chroma_constraint_flag: all.general_max_422chroma_constraint_flag,
        max_420chroma_constraint_flag: all.general_max_420chroma_constraint_flag,
        max_monochrome_constraint_flag: all.general_max_monochrome_constraint_flag,
        intra_constraint_flag: all.general_intra_constraint_flag,
        one_picture_only_constraint_flag: all.general_one_picture_only_constraint_flag,
        lower_bit_rate_constraint_flag: all.general_lower_bit_rate_constraint_flag,
        max_14bit_constraint_flag: all.general_max_14bit_constraint_flag,
        inbld_flag: all.general_inbld_flag,
    }
}
