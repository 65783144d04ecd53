//! How many bytes the length of a unit has in a sample.
ghost use Rattle.std.specs.Prelude.{◌≡◌, ◌+◌};
ghost use Rattle.hevc_configuration.specs.LengthSizes.{byte_count, length_size_of, size_minus_one};

use crate::error::ConfigurationError;

/// How many bytes the length of a unit has in a sample: `lengthSizeMinusOne` plus 1.
#[derive(Clone, Copy, Debug, PartialEq, Eq)]
pub enum LengthSize {
    One,
    Two,
    Four,
}

impl LengthSize {
    /// The size of this `lengthSizeMinusOne`, 0, 1 or 3.
    pub(crate) fn from_minus_one(number: u8) -> Result<LengthSize, ConfigurationError>
        ensures { result ≡ length_size_of number }
    {
        match number {
            0 => Ok(LengthSize::One),
            1 => Ok(LengthSize::Two),
            2 => Err(ConfigurationError::UnsupportedLengthSize),
            _ => Ok(LengthSize::Four),
        }
    }

    /// `lengthSizeMinusOne`: 0, 1 or 3.
    pub fn minus_one(self) -> u8
        ensures { result ≡ size_minus_one self }
    {
        match self {
            LengthSize::One => 0,
            LengthSize::Two => 1,
            LengthSize::Four => 3,
        }
    }

    /// How many bytes it is: 1, 2 or 4.
    pub fn bytes(self) -> usize
        ensures { result ≡ byte_count self }
    {
        match self {
            LengthSize::One => 1,
            LengthSize::Two => 2,
            LengthSize::Four => 4,
        }
    }
}
