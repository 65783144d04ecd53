//! What the derived comparisons answer, `==` equality of all fields and order by number, and what
//! `default()` is.
//!
//! Each function is one operator at one type, with its meaning as a contract, for proofs that rest
//! on it.
ghost use Rattle.std.specs.Prelude.{◌≡◌, ◌↔◌, ◌<◌, IsTrue};
ghost use Rattle.std.specs.Ordering.{nat_cmp};
ghost use Rattle.hevc_set_parts.specs.Level.{level_number};
ghost use Rattle.hevc_set_parts.specs.Profile.{profile_number};
ghost use Rattle.hevc_set_parts.specs.SliceType.{slice_type_number};

use crate::{
    Level, PpsRangeExtension, PpsSccExtension, Profile, ProfileTierLevel, RefPicListModification,
    ScalingLists, ShortTermRefPicSet, SliceType,
};
use std::cmp::Ordering;

/// Whether two levels are the same, as `==` answers.
pub fn level_eq(a: Level, b: Level) -> bool
    ensures { IsTrue result ↔ (a ≡ b) }
{
    a == b
}

/// Whether the number of `a` is below that of `b`, as `<` answers.
pub fn level_lt(a: Level, b: Level) -> bool
    ensures { IsTrue result ↔ (level_number a < level_number b) }
{
    a < b
}

/// How the numbers of two levels compare, as `cmp` answers.
pub fn level_cmp(a: Level, b: Level) -> Ordering
    ensures { result ≡ nat_cmp (level_number a) (level_number b) }
{
    a.cmp(&b)
}

/// The level of the lowest number, 1, as `default()` gives.
pub fn level_default() -> Level
    ensures { level_number result ≡ 30 }
{
    Level::default()
}

/// Whether two profiles are the same, as `==` answers.
pub fn profile_eq(a: Profile, b: Profile) -> bool
    ensures { IsTrue result ↔ (a ≡ b) }
{
    a == b
}

/// Whether the number of `a` is below that of `b`, as `<` answers.
pub fn profile_lt(a: Profile, b: Profile) -> bool
    ensures { IsTrue result ↔ (profile_number a < profile_number b) }
{
    a < b
}

/// How the numbers of two profiles compare, as `cmp` answers.
pub fn profile_cmp(a: Profile, b: Profile) -> Ordering
    ensures { result ≡ nat_cmp (profile_number a) (profile_number b) }
{
    a.cmp(&b)
}

/// The profile of the lowest number, Main, as `default()` gives.
pub fn profile_default() -> Profile
    ensures { profile_number result ≡ 1 }
{
    Profile::default()
}

/// Whether two slice types are the same, as `==` answers.
pub fn slice_type_eq(a: SliceType, b: SliceType) -> bool
    ensures { IsTrue result ↔ (a ≡ b) }
{
    a == b
}

/// The type P, as `default()` gives.
pub fn slice_type_default() -> SliceType
    ensures { slice_type_number result ≡ 1 }
{
    SliceType::default()
}

/// Whether two values are equal in all fields, as `==` answers.
pub fn pps_range_extension_eq(a: &PpsRangeExtension, b: &PpsRangeExtension) -> bool
    ensures { IsTrue result ↔ (a.now ≡ b.now) }
{
    *a == *b
}

/// Whether two values are equal in all fields, as `==` answers.
pub fn pps_scc_extension_eq(a: &PpsSccExtension, b: &PpsSccExtension) -> bool
    ensures { IsTrue result ↔ (a.now ≡ b.now) }
{
    *a == *b
}

/// Whether two values are equal in all fields, as `==` answers.
pub fn profile_tier_level_eq(a: &ProfileTierLevel, b: &ProfileTierLevel) -> bool
    ensures { IsTrue result ↔ (a.now ≡ b.now) }
{
    *a == *b
}

/// Whether two values are equal in all fields, as `==` answers.
pub fn ref_pic_list_modification_eq(a: &RefPicListModification, b: &RefPicListModification) -> bool
    ensures { IsTrue result ↔ (a.now ≡ b.now) }
{
    *a == *b
}

/// Whether two values are equal in all fields, as `==` answers.
pub fn scaling_lists_eq(a: &ScalingLists, b: &ScalingLists) -> bool
    ensures { IsTrue result ↔ (a.now ≡ b.now) }
{
    *a == *b
}

/// Whether two values are equal in all fields, as `==` answers.
pub fn short_term_ref_pic_set_eq(a: &ShortTermRefPicSet, b: &ShortTermRefPicSet) -> bool
    ensures { IsTrue result ↔ (a.now ≡ b.now) }
{
    *a == *b
}
