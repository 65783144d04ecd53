//! Units of values: what a value is as the payload of a unit, and how the unit is written.
#![tactic(auto)]

mod error;
mod header;
mod trial;

pub use error::WriteError;
pub use header::header_bytes;
pub use trial::{trial_stream, trial_unit};
