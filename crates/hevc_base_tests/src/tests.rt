//! The tests, by what they test.

mod bit_writer;
mod bits;
mod element_calls;
mod element_lines;
mod elements;
mod expect;
mod io;
mod made;
mod picture_slice;
mod row_names;
mod sequence_set;
mod set_parts;
mod video_set;
