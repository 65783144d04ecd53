//! What H.265 calls the rows of its syntax tables.
#![tactic(auto)]

mod names;
mod rows;

pub use names::{RowName, row_name};
