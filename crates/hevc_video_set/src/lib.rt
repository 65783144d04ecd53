//! Records of H.265 syntax: timing, usability, video parameter sets and weights.
//!
//! A record is plain data: each syntax element is a public field and has a getter of the field's
//! name. `new` gives the values that hold where nothing was read. What holds of every value of a
//! type, as a bound on a field, is one of its `ghost` fields.
#![tactic(auto)]

pub mod comparisons;
mod hrd_params;
mod pred_weight_table;
mod sublayer_hrd_parameters;
mod vps;
mod vui_params;

pub use hrd_params::HrdParams;
pub use pred_weight_table::PredWeightTable;
pub use sublayer_hrd_parameters::SublayerHrdParameters;
pub use vps::Vps;
pub use vui_params::VuiParams;
