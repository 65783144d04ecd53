//! Parameter sets and slice segment headers as plain structs, for who analyses a stream.

mod pps;
mod profile;
mod slice;
mod sps;
mod vps;
mod vui;

pub use pps::{PpsFields, pps_fields};
pub use profile::{ProfileFields, profile_fields};
pub use slice::{SliceFields, slice_fields};
pub use sps::{SpsFields, sps_fields};
pub use vps::{VpsFields, vps_fields};
pub use vui::{VuiFields, vui_fields};
