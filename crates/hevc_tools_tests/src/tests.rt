//! The tests, by what they test.

mod check;
mod expect;
mod extract;
mod index;
mod runs;
mod streams;
mod syntax;
mod words;
