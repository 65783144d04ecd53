//! Tests of the readers of parameter sets and of slice segment headers, and of the sets that are
//! kept.
#![tactic(auto)]

#[cfg(test)]
mod tests;
