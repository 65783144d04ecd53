//! The parts of slice segment headers that stand alone, and their readers: list modification and
//! weighted prediction.
#![tactic(auto)]

mod list_modification;
mod list_weights;
mod logarithm;
mod records;
mod weighted_prediction;

pub use list_modification::read_ref_pic_list_modification;
pub use logarithm::ceil_log2;
pub use weighted_prediction::read_pred_weight_table;
