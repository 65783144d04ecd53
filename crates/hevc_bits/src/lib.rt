//! Units of an H.265 byte stream (Annex B), their headers (7.3.1.2), and the bits of their payload
//! (7.3.1.1, 9.2).
#![tactic(auto)]

mod bit_error;
pub mod comparisons;
mod header;
mod load;
mod nalu;
mod nalu_header;
mod nalu_type;
mod reader;
mod start_code;
mod stream_limit;
mod word;

pub use bit_error::BitError;
pub use header::{Header, UnitError};
pub use nalu::Nalu;
pub use nalu_header::NaluHeader;
pub use nalu_type::NaluType;
pub use reader::NaluReader;
pub use stream_limit::STREAM_LIMIT;
