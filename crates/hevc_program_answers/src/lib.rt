//! What a program promises that reads its input to the end and answers it with one text, and the call that keeps it.
#![tactic(auto)]

mod asked;
mod run;

pub use asked::{Answer, Asked};
pub use run::run_asked;
