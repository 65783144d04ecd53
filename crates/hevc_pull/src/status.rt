//! Statuses.
ghost use Rattle.std.specs.Prelude.{◌≡◌};
ghost use Rattle.hevc_pull.specs.Status.{row_of, status_of, table_of};

use hevc_driver::DecodeError;

/// No format is awaited, so none is accepted.
pub const FORMAT_NOT_AWAITED: u32 = 16;

/// There are 2^60 bytes or more, or a place isn't among them.
pub const TOO_LONG: u32 = 17;

/// A picture parameter set names a sequence parameter set that isn't kept.
pub const MISSING_SPS: u32 = 18;

/// No struct of Linux's stateless decoders was filled.
pub const NO_CONTROLS: u32 = 19;

/// An allocation failed.
pub(crate) const NO_MEMORY: u32 = 4;

/// The status of an error. 0 is none.
pub(crate) fn status_of(error: &DecodeError) -> u32
    ensures { result ≡ status_of error.now }
{
    match error {
        DecodeError::NoNal => 1,
        DecodeError::CheckEvents => 2,
        DecodeError::NotEnoughOutputBuffers(_) => 3,
        DecodeError::NoMemory => 4,
        DecodeError::TruncatedNalu => 5,
        DecodeError::InvalidNaluType(_) => 6,
        DecodeError::OutOfBits => 7,
        DecodeError::OutOfRange { table: _, row: _ } => 8,
        DecodeError::MissingPps(_) => 9,
        DecodeError::NoIndependentSlice => 10,
        DecodeError::ChangedMidPicture {
            accepted: _,
            named: _,
        } => 11,
        DecodeError::PocOutOfRange => 12,
        DecodeError::DpbFull => 13,
        DecodeError::PictureNumbersSpent => 14,
        DecodeError::Backend => 15,
    }
}

/// Of an element that is out of range, its table in docs/TABLES.md.
pub(crate) fn table_of(error: &DecodeError) -> u32
    ensures { result ≡ table_of error.now }
{
    match *error {
        DecodeError::OutOfRange { table, row: _ } => u32::from(table),
        _ => 0,
    }
}

/// Of an element that is out of range, its row there; of a unit type that is unspecified, its
/// number; of a picture parameter set that isn't kept, its id.
pub(crate) fn row_of(error: &DecodeError) -> u32
    ensures { result ≡ row_of error.now }
{
    match *error {
        DecodeError::OutOfRange { table: _, row } => u32::from(row),
        DecodeError::InvalidNaluType(number) => u32::from(number),
        DecodeError::MissingPps(id) => u32::from(id),
        _ => 0,
    }
}
