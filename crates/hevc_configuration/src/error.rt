//! Why no configuration is read.
ghost use Rattle.std.specs.Prelude.{◌≡◌};

use std::alloc::{AllocError, AllocFailed};
use thiserror::Error;

/// A field of the record, by its name in ISO/IEC 14496-15, 8.3.3.1.2. Of fields that share a byte
/// it is the first.
#[derive(Clone, Copy, Debug, PartialEq, Eq)]
pub enum ConfigurationField {
    ConfigurationVersion,
    GeneralProfileSpace,
    GeneralProfileCompatibilityFlags,
    GeneralConstraintIndicatorFlags,
    GeneralLevelIdc,
    MinSpatialSegmentationIdc,
    ParallelismType,
    ChromaFormatIdc,
    BitDepthLumaMinus8,
    BitDepthChromaMinus8,
    AvgFrameRate,
    ConstantFrameRate,
    NumOfArrays,
    ArrayCompleteness,
    NumNalus,
    NalUnitLength,
    NalUnit,
}

/// Why bytes are no configuration: the first fault in their order, or no memory.
#[derive(Clone, Copy, Debug, PartialEq, Eq, Drop, Error)]
pub enum ConfigurationError {
    /// The bytes end before this field or within it.
    #[error("the bytes end at {0:?}")]
    TooShort(ConfigurationField),
    /// configurationVersion isn't 1.
    #[error("configurationVersion is {0}")]
    UnsupportedVersion(u8),
    /// lengthSizeMinusOne is 2.
    #[error("lengthSizeMinusOne is 2")]
    UnsupportedLengthSize,
    #[error("no memory")]
    NoMemory,
}

impl From<AllocError> for ConfigurationError {
    ghost use Rattle.hevc_configuration.specs.declared.error.ConfigurationError.TheVariants.{NoMemory};

    ghost from_gives = { λ _ e. e ≡ NoMemory };

    fn from(_error: AllocError) -> ConfigurationError {
        ConfigurationError::NoMemory
    }
}

impl<T: Drop> From<AllocFailed<T>> for ConfigurationError {
    ghost use Rattle.hevc_configuration.specs.declared.error.ConfigurationError.TheVariants.{NoMemory};

    ghost from_gives = { λ _ e. e ≡ NoMemory };

    fn from(_error: AllocFailed<T>) -> ConfigurationError {
        ConfigurationError::NoMemory
    }
}

/// Why a record isn't written.
#[derive(Clone, Copy, Debug, PartialEq, Eq, Drop, Error)]
pub enum ConfigurationWriteError {
    /// There are more than 255 arrays.
    #[error("more than 255 arrays")]
    TooManyArrays,
    /// An array has more than 65,535 units.
    #[error("an array of more than 65,535 units")]
    TooManyUnits,
    /// A unit has more than 65,535 bytes.
    #[error("a unit of more than 65,535 bytes")]
    UnitTooLong,
    #[error("no memory")]
    NoMemory,
}

impl From<AllocError> for ConfigurationWriteError {
    ghost use Rattle.hevc_configuration.specs.declared.error.ConfigurationWriteError.TheVariants.{NoMemory};

    ghost from_gives = { λ _ e. e ≡ NoMemory };

    fn from(_error: AllocError) -> ConfigurationWriteError {
        ConfigurationWriteError::NoMemory
    }
}
