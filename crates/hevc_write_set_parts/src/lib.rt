//! The parts that parameter sets share, written.
#![tactic(auto)]

mod constraints;
mod general_profile;
mod hrd;
mod hrd_common;
mod hrd_schedules;
mod hrd_sub_layers;
mod laws;
mod layer;
mod profile_tier_level;
mod sub_layers;
mod vui;

pub use hrd::write_hrd_parameters;
pub use laws::{written_parts_are_formed, written_parts_are_read_back};
pub use profile_tier_level::write_profile_tier_level;
pub use vui::write_vui_parameters;
