//! The text of the syntax elements of an H.265 byte stream.
#![tactic(auto)]

mod cause;
mod causes;
mod counting;
mod fields;
mod keeping;
mod message_names;
mod messages;
mod outcome;
mod program;
mod rbsp;
mod refusal;
mod sets;
mod stream;
mod unit_line;
mod unit_types;
mod variables;
mod words;
mod writing;

pub use program::run_syntax;
pub use words::{Chosen, Request};
