//! The lower temporal sub-layers and layers of an H.265 byte stream, taken out of it without
//! decoding.
#![tactic(auto)]

mod extraction;
mod line;
mod program;
mod words;

pub use extraction::{ExtractError, Kept, extract, extract_layer};
pub use program::run_extract;
