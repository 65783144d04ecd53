//! Video parameter sets, and their reader.
#![tactic(auto)]

mod identity;
mod orderings;
mod structures;
mod video_set;

pub use video_set::{read_vps, tell_vps};
