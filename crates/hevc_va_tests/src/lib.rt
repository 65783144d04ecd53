//! Tests of what VA-API takes: values from outside, and each call once.
#![tactic(auto)]

#[cfg(test)]
mod expect;
#[cfg(test)]
mod screen_content;
#[cfg(test)]
mod usual;
