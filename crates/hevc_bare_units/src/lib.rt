//! Units of a byte stream that are found whatever their header is (Annex B).
#![tactic(auto)]

mod next;
mod piece;

pub use next::{next_piece, own_bytes};
pub use piece::Piece;
