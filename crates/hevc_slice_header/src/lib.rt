//! Slice segment headers, and their reader.
#![tactic(auto)]

mod active_sets;
mod beginning;
mod entry_points;
mod filters;
mod kind;
mod prediction;
mod quantiser;
mod segment;
mod slice_header;

pub use active_sets::ActiveSets;
pub use prediction::parse_pred_weight_table;
pub use segment::slice_header_set_defaults;
pub use slice_header::{read_slice_header, tell_slice_header};
