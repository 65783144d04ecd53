//! Worked units, by which tests of several layers read, write and decode.
#![tactic(auto)]

pub mod sets;
pub mod streams;
pub mod units;
