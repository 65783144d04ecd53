//! A program over the system's words, input and output, and what it says on standard error: how far long work is, and at its end how it
//! is called, why it gave up, what was refused, and where nothing was found. Nothing is promised of it.
#![tactic(auto)]

mod cause;
mod explain;
mod head;
mod kind;
mod progress;
mod running;
mod tail;

pub use running::{Runnable, start};
