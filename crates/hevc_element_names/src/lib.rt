//! The names of elements, with their indices, by what was told before them in their unit.
#![tactic(auto)]

mod bounds;
mod elements;
mod layer;
mod name;
mod row_bounds;
mod rule;
mod seen;
mod texts;

pub use name::{ElementName, Indices};
pub use row_bounds::bounds_of;
pub use rule::Rule;
pub use seen::Seen;
pub use texts::text_at;
