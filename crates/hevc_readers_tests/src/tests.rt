//! The tests, by what they test.

mod bounds;
mod expect;
mod kept_sets;
mod sets;
mod slice;
mod streams;
