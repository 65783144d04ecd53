//! What a set tells of the profile of a layer (7.3.3, rows 1 to 15 of table 2).
ghost use Rattle.std.specs.Prelude.{◌≡◌, ◌<◌};
ghost use Rattle.hevc_tables.specs.ProfileTierLevelTable as table;
ghost use Rattle.hevc_set_parts.specs.ProfileTierLevel.{plain_profile_tier_level};
ghost use Rattle.hevc_profile.specs.LayerProfile.{plain_layer_profile};

use hevc_set_parts::ProfileTierLevel;

/// The profile of the whole stream, or of a sub-layer. Fields have the names of their syntax
/// elements, without `general_` and `sub_layer_`.
#[derive(Clone, Copy)]
pub struct LayerProfile {
    /// 0 to 3.
    pub profile_space: u8,
    pub tier_flag: bool,
    /// 0 to 31.
    pub profile_idc: u8,
    pub profile_compatibility_flag: [bool; 32],
    pub progressive_source_flag: bool,
    pub interlaced_source_flag: bool,
    pub non_packed_constraint_flag: bool,
    pub frame_only_constraint_flag: bool,
    pub max_12bit_constraint_flag: bool,
    pub max_10bit_constraint_flag: bool,
    pub max_8bit_constraint_flag: bool,
    pub max_422chroma_constraint_flag: bool,
    pub max_420chroma_constraint_flag: bool,
    pub max_monochrome_constraint_flag: bool,
    pub intra_constraint_flag: bool,
    pub one_picture_only_constraint_flag: bool,
    pub lower_bit_rate_constraint_flag: bool,
    pub max_14bit_constraint_flag: bool,
    pub inbld_flag: bool,
}

impl LayerProfile {
    /// A layer of which nothing is told.
    pub fn new() -> LayerProfile
        ensures { plain_layer_profile result ≡ table.default_layer_profile }
    {
        LayerProfile {
            profile_space: 0,
            tier_flag: false,
            profile_idc: 0,
            profile_compatibility_flag: [false; 32],
            progressive_source_flag: false,
            interlaced_source_flag: false,
            non_packed_constraint_flag: false,
            frame_only_constraint_flag: false,
            max_12bit_constraint_flag: false,
            max_10bit_constraint_flag: false,
            max_8bit_constraint_flag: false,
            max_422chroma_constraint_flag: false,
            max_420chroma_constraint_flag: false,
            max_monochrome_constraint_flag: false,
            intra_constraint_flag: false,
            one_picture_only_constraint_flag: false,
            lower_bit_rate_constraint_flag: false,
            max_14bit_constraint_flag: false,
            inbld_flag: false,
        }
    }
}

/// Puts the profile of the whole stream.
#[tactic(auto, unfolding(hevc_tables::specs::ProfileTierLevelTable::with_general_profile))]
pub(crate) fn put_general_profile(all: &mut ProfileTierLevel, layer: &LayerProfile)
    ensures { plain_profile_tier_level all.new
        ≡ table.with_general_profile (plain_profile_tier_level all.old)
        (plain_layer_profile layer.now) }
{
    all.general_profile_space = layer.profile_space;
    all.general_tier_flag = layer.tier_flag;
    all.general_profile_idc = layer.profile_idc;
    all.general_profile_compatibility_flag = layer.profile_compatibility_flag;
    all.general_progressive_source_flag = layer.progressive_source_flag;
    all.general_interlaced_source_flag = layer.interlaced_source_flag;
    all.general_non_packed_constraint_flag = layer.non_packed_constraint_flag;
    all.general_frame_only_constraint_flag = layer.frame_only_constraint_flag;
    all.general_max_12bit_constraint_flag = layer.max_12bit_constraint_flag;
    all.general_max_10bit_constraint_flag = layer.max_10bit_constraint_flag;
    all.general_max_8bit_constraint_flag = layer.max_8bit_constraint_flag;
    all.general_max_422chroma_constraint_flag = layer.max_422chroma_constraint_flag;
    all.general_max_420chroma_constraint_flag = layer.max_420chroma_constraint_flag;
    all.general_max_monochrome_constraint_flag = layer.max_monochrome_constraint_flag;
    all.general_intra_constraint_flag = layer.intra_constraint_flag;
    all.general_one_picture_only_constraint_flag = layer.one_picture_only_constraint_flag;
    all.general_lower_bit_rate_constraint_flag = layer.lower_bit_rate_constraint_flag;
    all.general_max_14bit_constraint_flag = layer.max_14bit_constraint_flag;
    all.general_inbld_flag = layer.inbld_flag;
}

/// Puts the profile of a sub-layer at its index.
#[tactic(auto, unfolding(hevc_tables::specs::ProfileTierLevelTable::with_sub_layer_profile))]
pub(crate) fn put_sub_layer_profile(all: &mut ProfileTierLevel, i: usize, layer: &LayerProfile)
    requires { i < 6 }
    ensures { plain_profile_tier_level all.new
        ≡ table.with_sub_layer_profile (plain_profile_tier_level all.old) i
        (plain_layer_profile layer.now) }
{
    all.sub_layer_profile_space[i] = layer.profile_space;
    all.sub_layer_tier_flag[i] = layer.tier_flag;
    all.sub_layer_profile_idc[i] = layer.profile_idc;
    all.sub_layer_profile_compatibility_flag[i] = layer.profile_compatibility_flag;
    all.sub_layer_progressive_source_flag[i] = layer.progressive_source_flag;
    all.sub_layer_interlaced_source_flag[i] = layer.interlaced_source_flag;
    all.sub_layer_non_packed_constraint_flag[i] = layer.non_packed_constraint_flag;
    all.sub_layer_frame_only_constraint_flag[i] = layer.frame_only_constraint_flag;
    all.sub_layer_max_12bit_constraint_flag[i] = layer.max_12bit_constraint_flag;
    all.sub_layer_max_10bit_constraint_flag[i] = layer.max_10bit_constraint_flag;
    all.sub_layer_max_8bit_constraint_flag[i] = layer.max_8bit_constraint_flag;
    all.sub_layer_max_422chroma_constraint_flag[i] = layer.max_422chroma_constraint_flag;
    all.sub_layer_max_420chroma_constraint_flag[i] = layer.max_420chroma_constraint_flag;
    all.sub_layer_max_monochrome_constraint_flag[i] = layer.max_monochrome_constraint_flag;
    all.sub_layer_intra_constraint_flag[i] = layer.intra_constraint_flag;
    all.sub_layer_one_picture_only_constraint_flag[i] = layer.one_picture_only_constraint_flag;
    all.sub_layer_lower_bit_rate_constraint_flag[i] = layer.lower_bit_rate_constraint_flag;
    all.sub_layer_max_14bit_constraint_flag[i] = layer.max_14bit_constraint_flag;
    all.sub_layer_inbld_flag[i] = layer.inbld_flag;
}
