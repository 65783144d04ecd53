//! Records of H.265 syntax: sequence parameter sets.
//!
//! A record is plain data: each syntax element is a public field and has a getter of the field's
//! name. `new` gives the values that hold where nothing was read. What holds of every value of a
//! type, as a bound on a field or the formula of a derived one, is one of its `ghost` fields.
#![tactic(auto)]

pub mod comparisons;
mod point;
mod rect;
mod sps;
mod sps_getters;
mod sps_range_extension;
mod sps_scc_extension;
mod sps_sizes;

pub use point::Point;
pub use rect::Rect;
pub use sps::Sps;
pub use sps_range_extension::SpsRangeExtension;
pub use sps_scc_extension::SpsSccExtension;
