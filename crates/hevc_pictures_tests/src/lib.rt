//! Tests of pictures, of the buffer that stores them, and of what refers to them.
#![tactic(auto)]

#[cfg(test)]
mod tests;
