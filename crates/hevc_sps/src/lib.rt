//! Sequence parameter sets, and their reader.
#![tactic(auto)]

mod blocks;
mod extensions;
mod frame;
mod identity;
mod long_term;
mod orderings;
mod range_extension;
mod sample_format;
mod scc_extension;
mod sequence_set;
mod short_term;
mod tools;
mod usability;

pub use sequence_set::{read_sps, tell_sps};
