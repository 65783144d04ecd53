//! Parameter sets that are kept, and slice segment headers that are read with them.
#![tactic(auto)]

mod parser;

pub use hevc_readers::ParseError;
pub use hevc_slice_header::{parse_pred_weight_table, slice_header_set_defaults};
pub use parser::Parser;
