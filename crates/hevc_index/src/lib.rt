//! The points of an H.265 byte stream at which decoding can start, and the stream from such a point on.
#![tactic(auto)]

mod answer;
mod lines;
mod point;
mod points;
mod program;
mod splicing;
mod words;

pub use point::{IndexError, Point};
pub use points::index;
pub use program::run_index;
pub use splicing::splice;
