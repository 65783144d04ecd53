//! Parameter sets that are kept, with the units of picture sets that wait for their sequence set
//! (7.4.2.4.2).
#![tactic(auto)]

mod kept_sets;
mod read_unit;
mod set_ids;
mod waiting_unit;

pub use hevc_options::Options;
pub use hevc_parser::{ParseError, Parser};
pub use kept_sets::KeptSets;
