//! What a stream gives, by what is asked for.
ghost use Rattle.std.specs.Prelude.{◌≡◌, ◌<◌, IfOk, length};
ghost use Rattle.hevc_bits.specs.declared.stream_limit.TheConstants.{STREAM_LIMIT};
ghost use Rattle.hevc_index.specs.declared.words.Request.TheVariants.{Points, Splice};
ghost use Rattle.hevc_index.specs.Written.{status_of, written_of, BeginsAsAsked};

use crate::lines::{no_point_line, points_text};
use crate::point::IndexError;
use crate::points::index;
use crate::splicing::splice;
use crate::words::Request;
use hevc_program_answers::{Answer, Asked};
use hevc_report::refusal_answer;
use std::alloc::{AllocError, Global};

impl Asked for Request {
    ghost CanAsk = { λ request. Unit {0} };

    ghost text = { written_of };

    ghost status = { status_of };

    ghost highest = { 7 };

    ghost Holds = { λ request stream. BeginsAsAsked request stream (written_of request stream) };

    fn answer(&self, alloc: Global, stream: &[u8]) -> Result<Answer, AllocError> {
        match *self {
            Request::Points => points_answer(alloc, stream),
            Request::Splice(number) => splice_answer(alloc, stream, number),
        }
    }
}

/// The lines of its points.
fn points_answer(alloc: Global, stream: &[u8]) -> Result<Answer, AllocError>
    requires { length stream.now < STREAM_LIMIT }
    ensures written { IfOk result (λ answer. answer.bytes.items ≡ written_of Points stream.now) }
    ensures status { IfOk result (λ answer. answer.status ≡ status_of Points stream.now) }
{
    match index(alloc, stream) {
        Ok(points) => Ok(Answer {
            bytes: points_text(alloc, points.as_slice())?.into_bytes(),
            status: 0,
        }),
        Err(IndexError::Refused(refused)) => refusal_answer(alloc, refused),
        // `index` never answers `NoSuchPoint`.
        Err(IndexError::NoSuchPoint | IndexError::NoMemory) => Err(AllocError),
    }
}

/// The stream from one of its points on.
fn splice_answer(alloc: Global, stream: &[u8], number: u64) -> Result<Answer, AllocError>
    requires { length stream.now < STREAM_LIMIT }
    ensures written { IfOk result
        (λ answer. answer.bytes.items ≡ written_of (Splice number) stream.now) }
    ensures status { IfOk result
        (λ answer. answer.status ≡ status_of (Splice number) stream.now) }
    ensures begins { IfOk result (λ answer. answer.status ≡ 0
        → BeginsAsAsked (Splice number) stream.now (written_of (Splice number) stream.now)) }
{
    let mut bytes = Vec::new(alloc);
    match splice(alloc, stream, number, &mut bytes) {
        Ok(()) => Ok(Answer { bytes, status: 0 }),
        Err(IndexError::NoSuchPoint) => Ok(Answer {
            bytes: no_point_line(alloc, number)?.into_bytes(),
            status: 7,
        }),
        Err(IndexError::Refused(refused)) => refusal_answer(alloc, refused),
        Err(IndexError::NoMemory) => Err(AllocError),
    }
}
