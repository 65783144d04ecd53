//! What H.265 calls the elements of the tables' rows, and their bounds, for C.
#![tactic(auto)]

mod ended;
mod names;

pub use names::{element_bounds, element_name, write_text};
