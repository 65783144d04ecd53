//! Why a value isn't written.
ghost use Rattle.std.specs.Prelude.{◌≡◌};

use std::alloc::AllocError;
use thiserror::Error;

/// Why a value isn't written.
#[derive(Clone, Copy, Debug, PartialEq, Eq, Drop, Error)]
pub enum WriteError {
    /// The value can't be read from a unit of this header, whatever its payload is.
    #[error("no unit of this header is read as the value")]
    NotFormed,
    /// The bytes after the slice header end in 00, which would be taken for zeros after the unit
    /// (B.2).
    #[error("the bytes after the slice header end in 00")]
    ZeroEnd,
    #[error("no memory")]
    NoMemory,
}

impl From<AllocError> for WriteError {
    ghost use Rattle.hevc_write_units.specs.declared.error.WriteError.TheVariants.{NoMemory};

    ghost from_gives = { λ _ e. e ≡ NoMemory };

    fn from(_error: AllocError) -> WriteError {
        WriteError::NoMemory
    }
}
