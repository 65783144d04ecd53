//! Tests of units and their bits, of the streams that are made of them, of input and output, of
//! records, of elements and their lines, and of the names of rows.
#![tactic(auto)]

#[cfg(test)]
mod tests;
