//! What decoding a stream gives.
ghost use Rattle.std.specs.Prelude.{◌≡◌};
ghost use Rattle.hevc_decoder.specs.Names.{shown_at};

use hevc_stateless::{DecodeError, Frame};
use thiserror::Error;

/// An output: a picture at the moment that it is due (C.5.2).
#[derive(Clone, Copy, PartialEq, Eq)]
pub struct Shown<H> {
    /// The picture's number, from 0 upwards in decoding order.
    pub number: u64,
    /// What the backend gave for the picture as it was submitted.
    pub handle: H,
    /// Its order count, PicOrderCntVal (8.3.1).
    pub order_count: i32,
    /// The number, from 0, of the unit at which the picture is output; after the last unit the
    /// number of units.
    pub unit: u64,
}

impl<H: Copy> Shown<H> {
    /// A picture that was output, as an output of this unit.
    pub(crate) fn of(frame: Frame<H>, unit: u64) -> Shown<H>
        ensures { result ≡ shown_at unit frame }
    {
        Shown {
            number: frame.number,
            handle: frame.handle,
            order_count: frame.order_count,
            unit,
        }
    }
}

/// A refusal.
#[derive(Clone, Copy, Debug, PartialEq, Eq, Drop, Error)]
#[error("unit {unit} is refused: {error}")]
pub struct Refused {
    /// The number, from 0, of the unit at which it came; after the last unit the number of units.
    pub unit: u64,
    /// Why.
    pub error: DecodeError,
}

/// What is left of a decoding.
#[derive(Drop)]
pub struct Decoded<B> {
    /// The backend, after the last call that it took.
    pub backend: B,
    /// How the stream ended: with the number of its pictures, those included that are skipped, or
    /// refused.
    pub result: Result<u64, Refused>,
}
