//! Short-term reference picture sets, written (7.3.7, table 7).
#![tactic(auto)]

mod laws;
mod listed;
mod member_flags;
mod members;
mod predicted;
mod short_term_set;

pub use laws::{written_short_term_sets_are_formed, written_short_term_sets_are_read_back};
pub use short_term_set::write_short_term_ref_pic_set;
