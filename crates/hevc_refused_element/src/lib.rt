//! The element of a unit that is refused, with its value.
#![tactic(auto)]

mod refused;
mod telling;

pub use refused::{refused_among, refused_element};
pub use telling::elements_of;
