//! The tests, by what they test.

mod expect;
mod extensions;
mod lists;
mod parts;
mod records;
mod rewriting;
mod sets;
mod slices;
mod units;
mod written;
