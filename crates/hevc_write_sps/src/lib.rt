//! Sequence parameter sets, written (7.3.2.2.1, table 5).
#![tactic(auto)]

mod coding;
mod extensions;
mod format;
mod laws;
mod orderings;
mod pictures;
mod sequence_set;

pub use laws::{written_sequence_sets_are_formed, written_sequence_sets_are_read_back};
pub use sequence_set::write_sps;
