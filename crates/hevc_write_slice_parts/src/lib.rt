//! The parts of slice segment headers with tables of their own, written.
#![tactic(auto)]

mod laws;
mod list_modification;
mod list_weights;
mod weighted_prediction;

pub use laws::{written_slice_parts_are_formed, written_slice_parts_are_read_back};
pub use list_modification::write_ref_pic_list_modification;
pub use weighted_prediction::write_pred_weight_table;
