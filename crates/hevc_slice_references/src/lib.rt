//! The pictures and lists that a slice segment header tells of, and their readers.
#![tactic(auto)]

mod active_counts;
mod index;
mod long_term;
mod pictures;
mod reference_lists;
mod reference_pictures;
mod short_term;
mod size;

pub use active_counts::is_b;
pub use reference_lists::read_reference_lists;
pub use reference_pictures::read_reference_pictures;
pub use size::bits_between;
