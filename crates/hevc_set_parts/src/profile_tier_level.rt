//! Profiles, tiers and levels.
ghost use Rattle.std.specs.Prelude.{◌≡◌};

use crate::level::Level;

/// The profile, tier and level of a stream and of its lower sub-layers (H.265 7.3.3, 7.4.4).
///
/// The arrays of six have a place for each sub-layer below the highest.
#[derive(Clone, Copy, PartialEq, Eq)]
pub struct ProfileTierLevel {
    /// How `general_profile_idc` and the compatibility flags are understood: 0 to 3, 0 for the
    /// profiles of Annex A.
    pub general_profile_space: u8,
    /// Whether the tier is High: Main otherwise.
    pub general_tier_flag: bool,
    /// The number of the profile that the stream conforms to: 0 to 31; `Profile` names those of
    /// Annex A.
    pub general_profile_idc: u8,
    /// For each profile number, whether the stream conforms to that profile.
    pub general_profile_compatibility_flag: [bool; 32],
    /// Whether the source of the pictures is progressive.
    pub general_progressive_source_flag: bool,
    /// Whether the source of the pictures is interlaced.
    pub general_interlaced_source_flag: bool,
    /// Whether no frame packing or segmented rectangular frame packing message is present.
    pub general_non_packed_constraint_flag: bool,
    /// Whether each picture is a frame and none a field.
    pub general_frame_only_constraint_flag: bool,
    /// Whether samples have at most 12 bits.
    pub general_max_12bit_constraint_flag: bool,
    /// Whether samples have at most 10 bits.
    pub general_max_10bit_constraint_flag: bool,
    /// Whether samples have at most 8 bits.
    pub general_max_8bit_constraint_flag: bool,
    /// Whether chroma is sampled at most as 4:2:2.
    pub general_max_422chroma_constraint_flag: bool,
    /// Whether chroma is sampled at most as 4:2:0.
    pub general_max_420chroma_constraint_flag: bool,
    /// Whether there is no chroma.
    pub general_max_monochrome_constraint_flag: bool,
    /// Whether all pictures are intra pictures.
    pub general_intra_constraint_flag: bool,
    /// Whether there is one picture alone.
    pub general_one_picture_only_constraint_flag: bool,
    /// Whether the lower of the two bounds on the bit rate holds.
    pub general_lower_bit_rate_constraint_flag: bool,
    /// Whether samples have at most 14 bits.
    pub general_max_14bit_constraint_flag: bool,
    /// Whether decoding needs the capability of an independent non-base layer.
    pub general_inbld_flag: bool,
    /// The level that the stream conforms to.
    pub general_level_idc: Level,
    /// For each sub-layer, whether its profile is present.
    pub sub_layer_profile_present_flag: [bool; 6],
    /// For each sub-layer, whether its level is present.
    pub sub_layer_level_present_flag: [bool; 6],
    /// For each sub-layer, how its profile number and compatibility flags are understood: 0 to 3.
    pub sub_layer_profile_space: [u8; 6],
    /// For each sub-layer, whether its tier is High.
    pub sub_layer_tier_flag: [bool; 6],
    /// For each sub-layer, the number of its profile: 0 to 31.
    pub sub_layer_profile_idc: [u8; 6],
    /// For each sub-layer and profile number, whether the sub-layer conforms to that profile.
    pub sub_layer_profile_compatibility_flag: [[bool; 32]; 6],
    /// For each sub-layer, whether the source of the pictures is progressive.
    pub sub_layer_progressive_source_flag: [bool; 6],
    /// For each sub-layer, whether the source of the pictures is interlaced.
    pub sub_layer_interlaced_source_flag: [bool; 6],
    /// For each sub-layer, whether no frame packing or segmented rectangular frame packing message
    /// is present.
    pub sub_layer_non_packed_constraint_flag: [bool; 6],
    /// For each sub-layer, whether each picture is a frame and none a field.
    pub sub_layer_frame_only_constraint_flag: [bool; 6],
    /// For each sub-layer, whether samples have at most 12 bits.
    pub sub_layer_max_12bit_constraint_flag: [bool; 6],
    /// For each sub-layer, whether samples have at most 10 bits.
    pub sub_layer_max_10bit_constraint_flag: [bool; 6],
    /// For each sub-layer, whether samples have at most 8 bits.
    pub sub_layer_max_8bit_constraint_flag: [bool; 6],
    /// For each sub-layer, whether chroma is sampled at most as 4:2:2.
    pub sub_layer_max_422chroma_constraint_flag: [bool; 6],
    /// For each sub-layer, whether chroma is sampled at most as 4:2:0.
    pub sub_layer_max_420chroma_constraint_flag: [bool; 6],
    /// For each sub-layer, whether there is no chroma.
    pub sub_layer_max_monochrome_constraint_flag: [bool; 6],
    /// For each sub-layer, whether all pictures are intra pictures.
    pub sub_layer_intra_constraint_flag: [bool; 6],
    /// For each sub-layer, whether there is one picture alone.
    pub sub_layer_one_picture_only_constraint_flag: [bool; 6],
    /// For each sub-layer, whether the lower of the two bounds on the bit rate holds.
    pub sub_layer_lower_bit_rate_constraint_flag: [bool; 6],
    /// For each sub-layer, whether samples have at most 14 bits.
    pub sub_layer_max_14bit_constraint_flag: [bool; 6],
    /// For each sub-layer, whether decoding needs the capability of an independent non-base layer.
    pub sub_layer_inbld_flag: [bool; 6],
    /// For each sub-layer, its level.
    pub sub_layer_level_idc: [Level; 6],
}

impl ProfileTierLevel {
    ghost use Rattle.hevc_records.specs.ProfileTierLevel.{default_profile_tier_level};
    ghost use Rattle.hevc_set_parts.specs.ProfileTierLevel.{plain_profile_tier_level};
    ghost use Rattle.hevc_records.specs.Level.{max_luma_ps_of_level};
    ghost use Rattle.hevc_records.specs.Profile.{max_dpb_pic_buf_of_profile};
    ghost use Rattle.hevc_set_parts.specs.Level.{level_number};

    /// All numbers 0, all flags not set, all levels `Level::L1`.
    pub fn new() -> ProfileTierLevel
        ensures { plain_profile_tier_level result ≡ default_profile_tier_level }
    {
        ProfileTierLevel {
            general_profile_space: 0,
            general_tier_flag: false,
            general_profile_idc: 0,
            general_profile_compatibility_flag: [false; 32],
            general_progressive_source_flag: false,
            general_interlaced_source_flag: false,
            general_non_packed_constraint_flag: false,
            general_frame_only_constraint_flag: false,
            general_max_12bit_constraint_flag: false,
            general_max_10bit_constraint_flag: false,
            general_max_8bit_constraint_flag: false,
            general_max_422chroma_constraint_flag: false,
            general_max_420chroma_constraint_flag: false,
            general_max_monochrome_constraint_flag: false,
            general_intra_constraint_flag: false,
            general_one_picture_only_constraint_flag: false,
            general_lower_bit_rate_constraint_flag: false,
            general_max_14bit_constraint_flag: false,
            general_inbld_flag: false,
            general_level_idc: Level::L1,
            sub_layer_profile_present_flag: [false; 6],
            sub_layer_level_present_flag: [false; 6],
            sub_layer_profile_space: [0; 6],
            sub_layer_tier_flag: [false; 6],
            sub_layer_profile_idc: [0; 6],
            sub_layer_profile_compatibility_flag: [[false; 32]; 6],
            sub_layer_progressive_source_flag: [false; 6],
            sub_layer_interlaced_source_flag: [false; 6],
            sub_layer_non_packed_constraint_flag: [false; 6],
            sub_layer_frame_only_constraint_flag: [false; 6],
            sub_layer_max_12bit_constraint_flag: [false; 6],
            sub_layer_max_10bit_constraint_flag: [false; 6],
            sub_layer_max_8bit_constraint_flag: [false; 6],
            sub_layer_max_422chroma_constraint_flag: [false; 6],
            sub_layer_max_420chroma_constraint_flag: [false; 6],
            sub_layer_max_monochrome_constraint_flag: [false; 6],
            sub_layer_intra_constraint_flag: [false; 6],
            sub_layer_one_picture_only_constraint_flag: [false; 6],
            sub_layer_lower_bit_rate_constraint_flag: [false; 6],
            sub_layer_max_14bit_constraint_flag: [false; 6],
            sub_layer_inbld_flag: [false; 6],
            sub_layer_level_idc: [Level::L1; 6],
        }
    }

    /// The most luma samples that the level allows in a picture (MaxLumaPs, A.4.1).
    pub fn max_luma_ps(&self) -> u32
        ensures { result ≡ max_luma_ps_of_level (level_number self.now.general_level_idc) }
    {
        match self.general_level_idc {
            Level::L1 => 36_864,
            Level::L2 => 122_880,
            Level::L2_1 => 245_760,
            Level::L3 => 552_960,
            Level::L3_1 => 983_040,
            Level::L4 | Level::L4_1 => 2_228_224,
            Level::L5 | Level::L5_1 | Level::L5_2 => 8_912_896,
            Level::L6 | Level::L6_1 | Level::L6_2 => 35_651_584,
        }
    }

    /// How many pictures of the largest size a decoded picture buffer holds (maxDpbPicBuf, A.4.2).
    pub fn max_dpb_pic_buf(&self) -> u32
        ensures { result ≡ max_dpb_pic_buf_of_profile self.now.general_profile_idc }
    {
        match self.general_profile_idc {
            1..=5 => 6,
            _ => 7,
        }
    }

    /// How `general_profile_idc` and the compatibility flags are understood.
    pub fn general_profile_space(&self) -> u8
        ensures { result ≡ self.now.general_profile_space }
    {
        self.general_profile_space
    }

    /// Whether the tier is High.
    pub fn general_tier_flag(&self) -> bool
        ensures { result ≡ self.now.general_tier_flag }
    {
        self.general_tier_flag
    }

    /// The number of the profile that the stream conforms to.
    pub fn general_profile_idc(&self) -> u8
        ensures { result ≡ self.now.general_profile_idc }
    {
        self.general_profile_idc
    }

    /// For each profile number, whether the stream conforms to that profile.
    pub fn general_profile_compatibility_flag(&self) -> [bool; 32]
        ensures { result ≡ self.now.general_profile_compatibility_flag }
    {
        self.general_profile_compatibility_flag
    }

    /// Whether the source of the pictures is progressive.
    pub fn general_progressive_source_flag(&self) -> bool
        ensures { result ≡ self.now.general_progressive_source_flag }
    {
        self.general_progressive_source_flag
    }

    /// Whether the source of the pictures is interlaced.
    pub fn general_interlaced_source_flag(&self) -> bool
        ensures { result ≡ self.now.general_interlaced_source_flag }
    {
        self.general_interlaced_source_flag
    }

    /// Whether no frame packing or segmented rectangular frame packing message is present.
    pub fn general_non_packed_constraint_flag(&self) -> bool
        ensures { result ≡ self.now.general_non_packed_constraint_flag }
    {
        self.general_non_packed_constraint_flag
    }

    /// Whether each picture is a frame and none a field.
    pub fn general_frame_only_constraint_flag(&self) -> bool
        ensures { result ≡ self.now.general_frame_only_constraint_flag }
    {
        self.general_frame_only_constraint_flag
    }

    /// Whether samples have at most 12 bits.
    pub fn general_max_12bit_constraint_flag(&self) -> bool
        ensures { result ≡ self.now.general_max_12bit_constraint_flag }
    {
        self.general_max_12bit_constraint_flag
    }

    /// Whether samples have at most 10 bits.
    pub fn general_max_10bit_constraint_flag(&self) -> bool
        ensures { result ≡ self.now.general_max_10bit_constraint_flag }
    {
        self.general_max_10bit_constraint_flag
    }

    /// Whether samples have at most 8 bits.
    pub fn general_max_8bit_constraint_flag(&self) -> bool
        ensures { result ≡ self.now.general_max_8bit_constraint_flag }
    {
        self.general_max_8bit_constraint_flag
    }

    /// Whether chroma is sampled at most as 4:2:2.
    pub fn general_max_422chroma_constraint_flag(&self) -> bool
        ensures { result ≡ self.now.general_max_422chroma_constraint_flag }
    {
        self.general_max_422chroma_constraint_flag
    }

    /// Whether chroma is sampled at most as 4:2:0.
    pub fn general_max_420chroma_constraint_flag(&self) -> bool
        ensures { result ≡ self.now.general_max_420chroma_constraint_flag }
    {
        self.general_max_420chroma_constraint_flag
    }

    /// Whether there is no chroma.
    pub fn general_max_monochrome_constraint_flag(&self) -> bool
        ensures { result ≡ self.now.general_max_monochrome_constraint_flag }
    {
        self.general_max_monochrome_constraint_flag
    }

    /// Whether all pictures are intra pictures.
    pub fn general_intra_constraint_flag(&self) -> bool
        ensures { result ≡ self.now.general_intra_constraint_flag }
    {
        self.general_intra_constraint_flag
    }

    /// Whether there is one picture alone.
    pub fn general_one_picture_only_constraint_flag(&self) -> bool
        ensures { result ≡ self.now.general_one_picture_only_constraint_flag }
    {
        self.general_one_picture_only_constraint_flag
    }

    /// Whether the lower of the two bounds on the bit rate holds.
    pub fn general_lower_bit_rate_constraint_flag(&self) -> bool
        ensures { result ≡ self.now.general_lower_bit_rate_constraint_flag }
    {
        self.general_lower_bit_rate_constraint_flag
    }

    /// Whether samples have at most 14 bits.
    pub fn general_max_14bit_constraint_flag(&self) -> bool
        ensures { result ≡ self.now.general_max_14bit_constraint_flag }
    {
        self.general_max_14bit_constraint_flag
    }

    /// Whether decoding needs the capability of an independent non-base layer.
    pub fn general_inbld_flag(&self) -> bool
        ensures { result ≡ self.now.general_inbld_flag }
    {
        self.general_inbld_flag
    }

    /// The level that the stream conforms to.
    pub fn general_level_idc(&self) -> Level
        ensures { result ≡ self.now.general_level_idc }
    {
        self.general_level_idc
    }

    /// For each sub-layer, whether its profile is present.
    pub fn sub_layer_profile_present_flag(&self) -> [bool; 6]
        ensures { result ≡ self.now.sub_layer_profile_present_flag }
    {
        self.sub_layer_profile_present_flag
    }

    /// For each sub-layer, whether its level is present.
    pub fn sub_layer_level_present_flag(&self) -> [bool; 6]
        ensures { result ≡ self.now.sub_layer_level_present_flag }
    {
        self.sub_layer_level_present_flag
    }

    /// For each sub-layer, how its profile number and compatibility flags are understood.
    pub fn sub_layer_profile_space(&self) -> [u8; 6]
        ensures { result ≡ self.now.sub_layer_profile_space }
    {
        self.sub_layer_profile_space
    }

    /// For each sub-layer, whether its tier is High.
    pub fn sub_layer_tier_flag(&self) -> [bool; 6]
        ensures { result ≡ self.now.sub_layer_tier_flag }
    {
        self.sub_layer_tier_flag
    }

    /// For each sub-layer, the number of its profile.
    pub fn sub_layer_profile_idc(&self) -> [u8; 6]
        ensures { result ≡ self.now.sub_layer_profile_idc }
    {
        self.sub_layer_profile_idc
    }

    /// For each sub-layer and profile number, whether the sub-layer conforms to that profile.
    pub fn sub_layer_profile_compatibility_flag(&self) -> [[bool; 32]; 6]
        ensures { result ≡ self.now.sub_layer_profile_compatibility_flag }
    {
        self.sub_layer_profile_compatibility_flag
    }

    /// For each sub-layer, whether the source of the pictures is progressive.
    pub fn sub_layer_progressive_source_flag(&self) -> [bool; 6]
        ensures { result ≡ self.now.sub_layer_progressive_source_flag }
    {
        self.sub_layer_progressive_source_flag
    }

    /// For each sub-layer, whether the source of the pictures is interlaced.
    pub fn sub_layer_interlaced_source_flag(&self) -> [bool; 6]
        ensures { result ≡ self.now.sub_layer_interlaced_source_flag }
    {
        self.sub_layer_interlaced_source_flag
    }

    /// For each sub-layer, whether no frame packing or segmented rectangular frame packing message
    /// is present.
    pub fn sub_layer_non_packed_constraint_flag(&self) -> [bool; 6]
        ensures { result ≡ self.now.sub_layer_non_packed_constraint_flag }
    {
        self.sub_layer_non_packed_constraint_flag
    }

    /// For each sub-layer, whether each picture is a frame and none a field.
    pub fn sub_layer_frame_only_constraint_flag(&self) -> [bool; 6]
        ensures { result ≡ self.now.sub_layer_frame_only_constraint_flag }
    {
        self.sub_layer_frame_only_constraint_flag
    }

    /// For each sub-layer, whether samples have at most 12 bits.
    pub fn sub_layer_max_12bit_constraint_flag(&self) -> [bool; 6]
        ensures { result ≡ self.now.sub_layer_max_12bit_constraint_flag }
    {
        self.sub_layer_max_12bit_constraint_flag
    }

    /// For each sub-layer, whether samples have at most 10 bits.
    pub fn sub_layer_max_10bit_constraint_flag(&self) -> [bool; 6]
        ensures { result ≡ self.now.sub_layer_max_10bit_constraint_flag }
    {
        self.sub_layer_max_10bit_constraint_flag
    }

    /// For each sub-layer, whether samples have at most 8 bits.
    pub fn sub_layer_max_8bit_constraint_flag(&self) -> [bool; 6]
        ensures { result ≡ self.now.sub_layer_max_8bit_constraint_flag }
    {
        self.sub_layer_max_8bit_constraint_flag
    }

    /// For each sub-layer, whether chroma is sampled at most as 4:2:2.
    pub fn sub_layer_max_422chroma_constraint_flag(&self) -> [bool; 6]
        ensures { result ≡ self.now.sub_layer_max_422chroma_constraint_flag }
    {
        self.sub_layer_max_422chroma_constraint_flag
    }

    /// For each sub-layer, whether chroma is sampled at most as 4:2:0.
    pub fn sub_layer_max_420chroma_constraint_flag(&self) -> [bool; 6]
        ensures { result ≡ self.now.sub_layer_max_420chroma_constraint_flag }
    {
        self.sub_layer_max_420chroma_constraint_flag
    }

    /// For each sub-layer, whether there is no chroma.
    pub fn sub_layer_max_monochrome_constraint_flag(&self) -> [bool; 6]
        ensures { result ≡ self.now.sub_layer_max_monochrome_constraint_flag }
    {
        self.sub_layer_max_monochrome_constraint_flag
    }

    /// For each sub-layer, whether all pictures are intra pictures.
    pub fn sub_layer_intra_constraint_flag(&self) -> [bool; 6]
        ensures { result ≡ self.now.sub_layer_intra_constraint_flag }
    {
        self.sub_layer_intra_constraint_flag
    }

    /// For each sub-layer, whether there is one picture alone.
    pub fn sub_layer_one_picture_only_constraint_flag(&self) -> [bool; 6]
        ensures { result ≡ self.now.sub_layer_one_picture_only_constraint_flag }
    {
        self.sub_layer_one_picture_only_constraint_flag
    }

    /// For each sub-layer, whether the lower of the two bounds on the bit rate holds.
    pub fn sub_layer_lower_bit_rate_constraint_flag(&self) -> [bool; 6]
        ensures { result ≡ self.now.sub_layer_lower_bit_rate_constraint_flag }
    {
        self.sub_layer_lower_bit_rate_constraint_flag
    }

    /// For each sub-layer, whether samples have at most 14 bits.
    pub fn sub_layer_max_14bit_constraint_flag(&self) -> [bool; 6]
        ensures { result ≡ self.now.sub_layer_max_14bit_constraint_flag }
    {
        self.sub_layer_max_14bit_constraint_flag
    }

    /// For each sub-layer, whether decoding needs the capability of an independent non-base layer.
    pub fn sub_layer_inbld_flag(&self) -> [bool; 6]
        ensures { result ≡ self.now.sub_layer_inbld_flag }
    {
        self.sub_layer_inbld_flag
    }

    /// For each sub-layer, its level.
    pub fn sub_layer_level_idc(&self) -> [Level; 6]
        ensures { result ≡ self.now.sub_layer_level_idc }
    {
        self.sub_layer_level_idc
    }
}
