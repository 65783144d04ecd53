//! Tests of configuration records and of the units of samples, on what FFmpeg writes.
#![tactic(auto)]

#[cfg(test)]
mod tests;
