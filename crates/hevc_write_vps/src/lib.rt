//! Video parameter sets, written (7.3.2.1, table 1).
#![tactic(auto)]

mod laws;
mod orderings;
mod timing;
mod video_set;

pub use laws::{written_video_sets_are_formed, written_video_sets_are_read_back};
pub use video_set::write_vps;
