//! Why a call of the decoder is refused.
ghost use Rattle.std.specs.Prelude.{◌≡◌};
ghost use Rattle.hevc_driver.specs.Errors.{backend_error, unit_error};
ghost use Rattle.hevc_driver.specs.declared.decode_error.DecodeError.TheVariants.{NoMemory};
ghost use Rattle.hevc_driver.specs.declared.decode_error.DecodeError.TheVariants.{DpbFull};
ghost use Rattle.hevc_driver.specs.declared.decode_error.DecodeError.TheVariants.{PocOutOfRange};

use hevc_backend::{BackendError, NegotiationInfo};
use hevc_bits::UnitError;
use std::alloc::{AllocError, AllocFailed};
use thiserror::Error;

/// Why a stream is refused, or a call of the decoder.
///
/// Of a unit: `NoNal`, there is none left; `TruncatedNalu`, it has fewer than two bytes;
/// `InvalidNaluType`, its type is one of 48 to 63 (Table 7-1); `OutOfBits`, its payload ends before
/// an element does; `OutOfRange`, an element's value isn't allowed, with its table and row in
/// docs/TABLES.md.
///
/// Of a slice: `MissingPps`, it names a picture parameter set that isn't kept (7.4.7.1);
/// `NoIndependentSlice`, it is dependent, and follows no independent slice whose header it could
/// take (7.4.7.1); `ChangedMidPicture`, it is a later slice of a picture, and names a sequence
/// parameter set of another format than the accepted one (7.4.2.4.2).
///
/// Of a picture: `PocOutOfRange`, its order count leaves the range of 32 bits (8.3.1); `DpbFull`,
/// it is to be stored while the decoded picture buffer is full (C.5.2.3); `PictureNumbersSpent`,
/// there is no number left for it.
///
/// Of the backend: `NotEnoughOutputBuffers`, it has no free frame, and so many are needed;
/// `CheckEvents`, a format was negotiated and is to be accepted first; `Backend`, it failed.
/// `NoMemory`: there is no memory.
#[derive(Clone, Copy, Debug, PartialEq, Eq, Drop, Error)]
pub enum DecodeError {
    #[error("no unit is left")]
    NoNal,
    #[error("the unit has fewer than two bytes")]
    TruncatedNalu,
    #[error("unit type {0} is unspecified")]
    InvalidNaluType(u8),
    #[error("the payload ends within an element")]
    OutOfBits,
    #[error("the element of table {table}, row {row} is out of range")]
    OutOfRange {
        table: u8,
        row: u8,
    },
    #[error("picture parameter set {0} is not kept")]
    MissingPps(u8),
    #[error("a dependent slice segment follows no independent one")]
    NoIndependentSlice,
    #[error("a later slice of a picture names another format")]
    ChangedMidPicture {
        accepted: NegotiationInfo,
        named: NegotiationInfo,
    },
    #[error("the order count is out of the range of 32 bits")]
    PocOutOfRange,
    #[error("the decoded picture buffer is full")]
    DpbFull,
    #[error("the backend has no free frame, and {0} are needed")]
    NotEnoughOutputBuffers(usize),
    #[error("a format was negotiated and is to be accepted")]
    CheckEvents,
    #[error("no number is left for a picture")]
    PictureNumbersSpent,
    #[error("the backend failed")]
    Backend,
    #[error("no memory")]
    NoMemory,
}

impl From<AllocError> for DecodeError {
    ghost from_gives = { λ _ e. e ≡ NoMemory };

    fn from(_error: AllocError) -> DecodeError {
        DecodeError::NoMemory
    }
}

impl<T: Drop> From<AllocFailed<T>> for DecodeError {
    ghost from_gives = { λ _ e. e ≡ NoMemory };

    fn from(_error: AllocFailed<T>) -> DecodeError {
        DecodeError::NoMemory
    }
}

impl From<BackendError> for DecodeError {
    ghost from_gives = { λ error e. e ≡ backend_error error };

    fn from(error: BackendError) -> DecodeError {
        match error {
            BackendError::Failed => DecodeError::Backend,
            BackendError::NoMemory => DecodeError::NoMemory,
        }
    }
}

impl From<UnitError> for DecodeError {
    ghost from_gives = { λ error e. e ≡ unit_error error };

    fn from(error: UnitError) -> DecodeError {
        match error {
            UnitError::NoNal => DecodeError::NoNal,
            UnitError::TruncatedNalu => DecodeError::TruncatedNalu,
            UnitError::InvalidNaluType(number) => DecodeError::InvalidNaluType(number),
            UnitError::TemporalIdZero => DecodeError::OutOfRange { table: 0, row: 1 },
        }
    }
}

impl From<hevc_dpb::DpbFull> for DecodeError {
    ghost from_gives = { λ _ e. e ≡ DpbFull };

    fn from(_error: hevc_dpb::DpbFull) -> DecodeError {
        DecodeError::DpbFull
    }
}

impl From<hevc_pictures::PocOutOfRange> for DecodeError {
    ghost from_gives = { λ _ e. e ≡ PocOutOfRange };

    fn from(_error: hevc_pictures::PocOutOfRange) -> DecodeError {
        DecodeError::PocOutOfRange
    }
}
