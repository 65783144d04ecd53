//! Why bytes are no sample.
use thiserror::Error;

/// Why no unit is taken from the bytes of a sample.
#[derive(Clone, Copy, Debug, PartialEq, Eq, Drop, Error)]
pub enum SampleError {
    /// The sample ends within the length of a unit.
    #[error("the sample ends within the length of a unit")]
    LengthCut,
    /// The length of a unit is 0.
    #[error("the length of a unit is 0")]
    EmptyUnit,
    /// A unit is longer than what is left of the sample.
    #[error("a unit is longer than what is left of the sample")]
    UnitBeyondSample,
}
