//! Tests of the crates that write records by syntax tables.
#![tactic(auto)]

#[cfg(test)]
mod tests;
