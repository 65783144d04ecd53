//! Scaling lists (7.3.4): the default ones, and their reader.
#![tactic(auto)]

mod coded;
mod default_lists;
mod matrices;
mod records;
mod scaling_list_data;
mod size;

pub use default_lists::default_scaling_lists;
pub use scaling_list_data::read_scaling_list_data;
