//! A point at which decoding can start.
ghost use Rattle.std.specs.Prelude.{◌≡◌};

use hevc_bits::NaluType;
use hevc_decoder::{DecodeError, Refused};
use std::alloc::AllocError;
use thiserror::Error;

/// A picture at which decoding can start: an IDR or BLA picture of temporal id 0, whose coded video
/// sequence refers to nothing before it (7.4.2.2, 8.1.3, 8.3.2).
#[derive(Clone, Copy, PartialEq, Eq)]
pub struct Point {
    /// The picture's number, from 0 upwards in decoding order; pictures that are skipped count.
    pub number: u64,
    /// The number, from 0, of the unit of its first slice segment.
    pub unit: u64,
    /// The place of that unit's first header byte in the stream, in bytes.
    pub offset: u64,
    /// The type of that unit (Table 7-1), 16 to 20.
    pub nalu_type: NaluType,
    /// Its order count, PicOrderCntVal (8.3.1).
    pub order_count: i32,
}

/// Why there is no answer: the stream is refused as `decode_stream` refuses it, no point has the
/// number that is asked for, or there was no memory.
#[derive(Clone, Copy, Debug, PartialEq, Eq, Drop, Error)]
pub enum IndexError {
    #[error("{0}")]
    Refused(Refused),
    #[error("no point has this number")]
    NoSuchPoint,
    #[error("no memory")]
    NoMemory,
}

impl From<AllocError> for IndexError {
    ghost use Rattle.hevc_index.specs.declared.point.IndexError.TheVariants.{NoMemory};

    ghost from_gives = { λ _ e. e ≡ NoMemory };

    fn from(_error: AllocError) -> IndexError {
        IndexError::NoMemory
    }
}

impl From<Refused> for IndexError {
    ghost use Rattle.hevc_index.specs.Indexing.{error_for};

    ghost from_gives = { λ refused e. e ≡ error_for refused.error refused };

    fn from(refused: Refused) -> IndexError {
        match refused.error {
            DecodeError::NoMemory => IndexError::NoMemory,
            _ => IndexError::Refused(refused),
        }
    }
}
