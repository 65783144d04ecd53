//! The records of H.265 syntax as plain numbers, flags and lists.
//!
//! This crate holds definitions alone (specs/): contracts of the crates above cite them.
#![tactic(auto)]
