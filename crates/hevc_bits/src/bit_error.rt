//! Why bits are not read.

use thiserror::Error;

/// Why bits could not be read. `OutOfBits`: the payload ends before the element does. `OutOfRange`:
/// the value is outside its bounds, 32 zero bits are where an Exp-Golomb number is to begin, or
/// more bits were asked for than are read at once.
#[derive(Clone, Copy, Debug, PartialEq, Eq, Drop, Error)]
pub enum BitError {
    #[error("the payload ends before the element does")]
    OutOfBits,
    #[error("the value is out of range")]
    OutOfRange,
}
