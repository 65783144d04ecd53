//! The decoder configuration record of H.265 in MP4 and Matroska, `hvcC` (ISO/IEC 14496-15,
//! 8.3.3.1).
#![tactic(auto)]

mod error;
mod laws;
mod length_size;
mod reading;
mod record;
mod writing;

pub use error::{ConfigurationError, ConfigurationField, ConfigurationWriteError};
pub use laws::written_rows_are_found;
pub use length_size::LengthSize;
pub use record::{HevcConfiguration, UnitArray};
