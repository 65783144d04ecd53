//! A value at a place of its own, which contracts see as the value.
#![tactic(auto)]

mod boxed;

pub use boxed::Boxed;
