//! The program as a library: decodes an H.265 byte stream from a source, and writes the calls that a backend is asked for
//! and the pictures that are output to a sink.
#![tactic(auto)]

mod command;
mod made;
mod program;
mod report;

pub use program::run;
pub use report::refusal_answer;
