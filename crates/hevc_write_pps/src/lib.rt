//! Picture parameter sets, written (7.3.2.3.1, table 11).
#![tactic(auto)]

mod coding;
mod extensions;
mod filters;
mod laws;
mod picture_set;
mod tiles;

pub use laws::{written_picture_sets_are_formed, written_picture_sets_are_read_back};
pub use picture_set::write_pps;
