//! Records of H.265 syntax: picture parameter sets, slice segment headers and slices.
//!
//! A record is plain data: each syntax element is a public field and has a getter of the field's
//! name. `new` gives the values that hold where nothing was read. What holds of every value of a
//! type, as a bound on a field, is one of its `ghost` fields.
#![tactic(auto)]

pub mod comparisons;
mod modification_copy;
mod pps;
mod slice;
mod slice_header;
mod slice_header_getters;

pub use pps::Pps;
pub use slice::{NotDependent, Slice};
pub use slice_header::SliceHeader;
