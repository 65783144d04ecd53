//! Picture parameter sets, and their reader.
#![tactic(auto)]

mod extensions;
mod filters;
mod picture_set;
mod range_extension;
mod scc_extension;
mod tile_sizes;
mod tiles;
mod tools;

pub use picture_set::{read_pps, tell_pps};
