//! Records of H.265 syntax that several parameter sets share.
//!
//! A record is plain data: each syntax element is a public field and has a getter of the field's
//! name. `new` gives the values that hold where nothing was read. What holds of every value of a
//! type, as a bound on a field, is one of its `ghost` fields.
#![tactic(auto)]

pub mod comparisons;
mod items;
mod level;
mod pps_range_extension;
mod pps_scc_extension;
mod profile;
mod profile_tier_level;
mod ref_pic_list_modification;
mod scaling_lists;
mod short_term_ref_pic_set;
mod slice_type;

pub use items::Items;
pub use level::Level;
pub use pps_range_extension::PpsRangeExtension;
pub use pps_scc_extension::PpsSccExtension;
pub use profile::Profile;
pub use profile_tier_level::ProfileTierLevel;
pub use ref_pic_list_modification::RefPicListModification;
pub use scaling_lists::ScalingLists;
pub use short_term_ref_pic_set::ShortTermRefPicSet;
pub use slice_type::SliceType;
