//! Slice segment headers, written (7.3.6.1, table 14).
#![tactic(auto)]

mod ending;
mod filters;
mod lists;
mod long_term;
mod prediction;
mod quantisers;
mod references;
mod rows;
mod segment;
mod slice_header;

pub use slice_header::write_slice_header;
