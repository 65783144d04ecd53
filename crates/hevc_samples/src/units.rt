//! The units of a sample.
ghost use Rattle.std.specs.Prelude.{◌≡◌, ◌≤◌, length};
ghost use Rattle.hevc_configuration.specs.LengthSizes.{byte_count};
ghost use Rattle.hevc_samples.specs.Units.{length_at, unit_at, SeenAs};

use crate::error::SampleError;
use hevc_configuration::LengthSize;
use std::marker::Model;

/// The first unit of a sample of which bytes are left, and the bytes after it. The unit is as many
/// bytes as its length says, whatever they are: it isn't cut where 00 00 01 is within.
///
/// Errors: `LengthCut`, there are fewer bytes than a length has; else `EmptyUnit`, the length is 0;
/// else `UnitBeyondSample`, fewer bytes than the length says come after it.
pub fn take_unit(sample: &[u8], length_size: LengthSize) -> Result<(&[u8], &[u8]), SampleError>
    ensures { SeenAs (λ x. (x.0.now, x.1.now)) result (unit_at length_size sample.now) }
{
    let width = length_size.bytes();
    if sample.len() < width {
        return Err(SampleError::LengthCut);
    }
    let size = read_length(sample, length_size);
    if size == 0 {
        return Err(SampleError::EmptyUnit);
    }
    let (_, after) = sample.split_at(width);
    if after.len() < size {
        return Err(SampleError::UnitBeyondSample);
    }
    Ok(after.split_at(size))
}

/// The length that the bytes begin with.
fn read_length(sample: &[u8], length_size: LengthSize) -> usize
    requires { byte_count length_size ≤ length sample.now }
    ensures { result ≡ length_at length_size sample.now }
{
    match length_size {
        LengthSize::One => sample[0] as usize,
        LengthSize::Two => u16::from_be_bytes([sample[0], sample[1]]) as usize,
        LengthSize::Four => {
            u32::from_be_bytes([sample[0], sample[1], sample[2], sample[3]]) as usize
        }
    }
}

/// The units of a sample, one after another. After an error there is none.
#[derive(Drop)]
pub struct SampleUnits<'a> {
    rest: &'a [u8],
    length_size: LengthSize,
}

impl<'a> Model for SampleUnits<'a> {
    ghost use Rattle.hevc_samples.specs.Left.{LeftOfSample};

    ghost Value = { LeftOfSample };

    ghost view = { λ s. record { length_size = s.length_size; rest = s.rest.now } };
}

/// The units of a sample, whose lengths have so many bytes.
pub fn units_of(sample: &[u8], length_size: LengthSize) -> SampleUnits<'_>
    ensures { result ≡ record { length_size = length_size; rest = sample.now } }
{
    SampleUnits {
        rest: sample,
        length_size,
    }
}

impl<'a> Iterator for SampleUnits<'a> {
    type Item = Result<&'a [u8], SampleError>;

    ghost use Rattle.std.specs.Prelude.{length};
    ghost use Rattle.std.specs.Iterator.{at_most};
    ghost use Rattle.hevc_samples.specs.Iterated.{GivesUnit};

    ghost next_gives = { GivesUnit };

    ghost remaining = { λ s. at_most (length s.rest) };

    fn next(&mut self) -> Option<Result<&'a [u8], SampleError>> {
        if self.rest.is_empty() {
            return None;
        }
        match take_unit(self.rest, self.length_size) {
            Ok((unit, after)) => {
                self.rest = after;
                Some(Ok(unit))
            }
            Err(error) => {
                self.rest = &[];
                Some(Err(error))
            }
        }
    }
}
