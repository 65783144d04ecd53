//! Which profiles a layer conforms to, and which elements it has by them (7.3.3).
ghost use Rattle.std.specs.Prelude.{◌≡◌, ◌<◌};
ghost use Rattle.hevc_records.specs.ProfileConformance.{conforms_to as conforms_to_number};
ghost use Rattle.hevc_records.specs.ProfileConformance.{has_range_extensions_flags, has_inbld_flag};
ghost use Rattle.hevc_tables.specs.ProfileTierLevelTable as table;
ghost use Rattle.hevc_profile.specs.LayerProfile.{plain_layer_profile};

use crate::layer_profile::LayerProfile;

/// Whether a layer with this `profile_idc` and these compatibility flags conforms to the profile of
/// a number: it is the `profile_idc`, or its compatibility flag is set.
pub fn conforms_to(profile_idc: u8, compatibility_flags: &[bool; 32], number: u8) -> bool
    requires { number < 32 }
    ensures { result ≡ conforms_to_number profile_idc compatibility_flags.now number }
{
    profile_idc == number || compatibility_flags[usize::from(number)]
}

/// Whether constraint flags of the range extensions' profiles are in a set of a layer with this
/// `profile_idc` and these compatibility flags: it conforms to one of the profiles 4 to 11.
pub fn has_range_extensions(profile_idc: u8, compatibility_flags: &[bool; 32]) -> bool
    ensures { result ≡ has_range_extensions_flags profile_idc compatibility_flags.now }
{
    conforms_to(profile_idc, compatibility_flags, 4)
        || conforms_to(profile_idc, compatibility_flags, 5)
        || conforms_to(profile_idc, compatibility_flags, 6)
        || conforms_to(profile_idc, compatibility_flags, 7)
        || conforms_to(profile_idc, compatibility_flags, 8)
        || conforms_to(profile_idc, compatibility_flags, 9)
        || conforms_to(profile_idc, compatibility_flags, 10)
        || conforms_to(profile_idc, compatibility_flags, 11)
}

/// Whether a layer conforms to the profile of a number.
pub fn layer_conforms_to(layer: &LayerProfile, number: u8) -> bool
    requires { number < 32 }
    ensures { result ≡ table.layer_conforms_to (plain_layer_profile layer.now) number }
{
    conforms_to(layer.profile_idc, &layer.profile_compatibility_flag, number)
}

/// Whether constraint flags of the range extensions' profiles are there.
pub fn has_extensions(layer: &LayerProfile) -> bool
    ensures { result
        ≡ has_range_extensions_flags layer.now.profile_idc layer.now.profile_compatibility_flag }
{
    has_range_extensions(layer.profile_idc, &layer.profile_compatibility_flag)
}

/// Whether `max_14bit_constraint_flag` is among them.
pub fn has_14bit(layer: &LayerProfile) -> bool
    ensures { result ≡ table.has_14bit_flag (plain_layer_profile layer.now) }
{
    layer_conforms_to(layer, 5)
        || layer_conforms_to(layer, 9)
        || layer_conforms_to(layer, 10)
        || layer_conforms_to(layer, 11)
}

/// Whether `inbld_flag` is there.
pub fn has_inbld(layer: &LayerProfile) -> bool
    ensures { result ≡ has_inbld_flag layer.now.profile_idc layer.now.profile_compatibility_flag }
{
    layer_conforms_to(layer, 1)
        || layer_conforms_to(layer, 2)
        || layer_conforms_to(layer, 3)
        || layer_conforms_to(layer, 4)
        || layer_conforms_to(layer, 5)
        || layer_conforms_to(layer, 9)
        || layer_conforms_to(layer, 11)
}
