//! Profile, tier and level, and their reader.
#![tactic(auto)]

mod conformance;
mod constraints;
mod layer;
mod layer_profile;
mod level;
mod profile_tier_level;
mod scope;
mod sub_layers;

pub use conformance::{
    conforms_to, has_14bit, has_extensions, has_inbld, has_range_extensions, layer_conforms_to,
};
pub use layer_profile::LayerProfile;
pub use profile_tier_level::read_profile_tier_level;
