//! Lines of elements: where each is in its unit, its name, how it is written, and its value.
#![tactic(auto)]

mod lines;
mod style;

pub use lines::{line_end, place_after, push_elements, push_indices, push_number};
pub use style::Style;
