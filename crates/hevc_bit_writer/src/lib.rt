//! Writing: elements as bits (7.2, 9.2), and units of a byte stream (7.3.1.1, Annex B).
#![tactic(auto)]

mod bit_writer;
mod laws;
mod unit;

pub use bit_writer::BitWriter;
pub use laws::{
    bits_are_packed_whole, elements_are_read_back, payload_is_read_back,
    signed_numbers_are_read_back, units_are_found, written_units_stay_whole,
};
pub use unit::append_unit;
