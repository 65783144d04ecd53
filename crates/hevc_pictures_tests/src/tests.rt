//! The tests, by what they test.

mod bumping;
mod dpb;
mod expect;
mod pictures;
mod refs;
