//! Samples of MP4 and Matroska: units after their lengths (ISO/IEC 14496-15, 4.3.3).
#![tactic(auto)]

mod error;
mod units;

pub use error::SampleError;
pub use hevc_configuration::LengthSize;
pub use units::{SampleUnits, take_unit, units_of};
