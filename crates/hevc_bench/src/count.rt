//! What a stream has: its pictures, its units or its bytes, counted.
ghost use Rattle.std.specs.Prelude.{◌≡◌, ◌≤◌, ◌<◌, length, IfOk};
ghost use Rattle.std.specs.declared.option.Option.TheVariants.{Some};
ghost use Rattle.hevc_spec.specs.Units.{units};
ghost use Rattle.hevc_walk.specs.Results.{verdict};
ghost use Rattle.hevc_stream.specs.Options.{default_options};
ghost use Rattle.hevc_stream.specs.Stream.{meanings};
ghost use Rattle.hevc_bench.specs.Counts.{count_of, count_of_answer, count_of_pictures, count_of_units};
ghost use Rattle.hevc_bits.specs.declared.stream_limit.TheConstants.{STREAM_LIMIT};

use crate::work::Work;
use hevc_backend::SilentBackend;
use hevc_bits::{Nalu, NaluHeader, UnitError};
use hevc_decoder::{DecodeError, Refused, decode_stream};
use std::alloc::{AllocError, Global};

/// How many pictures, units or bytes a stream has, or the number, from 0, of the unit at which it is refused.
#[derive(Clone, Copy, Debug, PartialEq, Eq)]
pub enum Count {
    Pictures(u64),
    Units(u64),
    Bytes(u64),
    Refused(u64),
}

/// What the work finds in a stream.
pub(crate) fn find(alloc: Global, work: Work, stream: &[u8]) -> Result<Count, AllocError>
    requires { length stream.now < STREAM_LIMIT }
    ensures { IfOk result (λ found. found ≡ count_of work stream.now) }
{
    match work {
        Work::Decode => count_pictures(alloc, stream),
        Work::Cut => Ok(count_units(stream)),
        Work::Read => Ok(Count::Bytes(stream.len() as u64)),
    }
}

/// How many pictures there are, counted as the stream is decoded over a backend that keeps nothing.
fn count_pictures(alloc: Global, stream: &[u8]) -> Result<Count, AllocError>
    requires { length stream.now < STREAM_LIMIT }
    ensures { IfOk result
        (λ found. found ≡ count_of_pictures (verdict (meanings default_options stream.now))) }
{
    let mut shown = Vec::new(alloc);
    let decoded = decode_stream(alloc, SilentBackend::new(), stream, &mut shown);
    count_answered(decoded.result)
}

/// What an answer tells of, unless an allocation failed.
fn count_answered(answer: Result<u64, Refused>) -> Result<Count, AllocError>
    ensures { IfOk result (λ found. count_of_answer answer ≡ Some found) }
{
    match answer {
        Ok(pictures) => Ok(Count::Pictures(pictures)),
        Err(
            Refused {
                error: DecodeError::NoMemory,
                ..
            },
        ) => Err(AllocError),
        Err(Refused { unit, .. }) => Ok(Count::Refused(unit)),
    }
}

/// How many units there are, each with a header.
fn count_units(stream: &[u8]) -> Count
    requires { length stream.now < STREAM_LIMIT }
    ensures { result ≡ count_of_units 0 (units stream.now) }
{
    let mut number = 0;
    let mut position = 0;
    loop {
        match Nalu::<NaluHeader>::next(stream, &mut position) {
            Ok(unit) => position = unit.offset() + unit.size(),
            Err(UnitError::NoNal) => return Count::Units(number),
            Err(_) => return Count::Refused(number),
        }
        number += 1;
    }
}
