//! Scaling lists, written (7.3.4, table 6).
#![tactic(auto)]

mod laws;
mod matrices;
mod scaling_list_data;

pub use laws::{written_scaling_lists_are_formed, written_scaling_lists_are_read_back};
pub use scaling_list_data::write_scaling_list_data;
