//! Short-term reference picture sets, and their reader.
#![tactic(auto)]

mod listed_members;
mod listed_set;
mod member_flags;
mod predicted_members;
mod predicted_set;
mod prediction;
mod set_of_members;
mod short_term_set;
mod side;
mod sides;

pub use short_term_set::read_short_term_set;
