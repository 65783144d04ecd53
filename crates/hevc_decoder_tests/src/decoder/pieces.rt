//! A stream that comes in pieces.
ghost use Rattle.std.specs.Prelude.{◌≤◌};

use super::TWO_PICTURES;
use crate::expect::{expect, expect_eq, ok};
use hevc_backend::Backend;
use hevc_decoder::{DecodeError, Options, Refused, Shown, decode_source_with};
use hevc_io::{Failed, InputError, MemorySource, Source};
use std::alloc::Global;
use std::process::Abort;

/// Bytes that are handed over a few at a time.
#[derive(Drop)]
struct Drip<'a> {
    rest: &'a [u8],
    most: usize,
}

impl Source for Drip<'_> {
    ghost use Rattle.std.specs.declared.option.Option.TheVariants.{None};

    ghost left = { λ _. None };

    ghost faults = { λ _. 0 };

    fn read(&mut self, buf: &mut [u8]) -> Result<usize, Failed> {
        let count = self.rest.len().min(self.most).min(buf.len());
        buf[..count].copy_from_slice(&self.rest[..count]);
        self.rest = &self.rest[count..];
        Ok(count)
    }
}

/// What a source's stream of at most `limit` bytes ends with, how many calls the backend got, and how many pictures were output.
fn ends<S: Source>(
    rt: &impl Abort,
    alloc: Global,
    source: &mut S,
    limit: usize,
    answer: Result<Result<u64, Refused>, InputError>,
    calls: usize,
    pictures: usize,
)
    requires { limit ≤ 1000 }
{
    let mut shown: Vec<Shown<u64>> = Vec::new(alloc);
    let backend = Backend::new(alloc);
    match decode_source_with(alloc, backend, Options::new(), source, limit, &mut shown) {
        Ok(decoded) => {
            expect(rt, answer == Ok(decoded.result));
            expect_eq(rt, decoded.backend.calls().len(), calls);
        }
        Err(error) => expect(rt, answer == Err(error)),
    }
    expect_eq(rt, shown.len(), pictures);
}

#[test]
fn a_stream_may_come_in_pieces(rt: HostRuntime) {
    let alloc = rt.alloc();
    for most in 1..=9 {
        let rest = TWO_PICTURES;
        let mut source = Drip { rest, most };
        ends(&rt, alloc, &mut source, 52, Ok(Ok(2)), 9, 2);
    }
}

#[test]
fn bytes_before_the_first_start_code_are_passed_over(rt: HostRuntime) {
    let rt = &rt;
    let alloc = rt.alloc();
    let mut bytes = ok(rt, Vec::with_capacity(alloc, 60));
    ok(rt, bytes.extend_from_slice(&[7, 0, 1, 0, 0, 0, 0, 0]));
    ok(rt, bytes.extend_from_slice(TWO_PICTURES));
    for most in 1..=9 {
        let rest = bytes.as_slice();
        let mut source = Drip { rest, most };
        ends(rt, alloc, &mut source, 60, Ok(Ok(2)), 9, 2);
    }
}

#[test]
fn a_stream_may_be_without_a_start_code(rt: HostRuntime) {
    let alloc = rt.alloc();
    for most in 1..=4 {
        let rest = &[0, 0, 0, 0, 2, 0, 0];
        let mut source = Drip { rest, most };
        ends(&rt, alloc, &mut source, 7, Ok(Ok(0)), 0, 0);
    }
}

#[test]
fn a_refused_stream_is_read_to_its_end(rt: HostRuntime) {
    let rt = &rt;
    let alloc = rt.alloc();
    // A unit of one byte, and two pictures after it.
    let rest = &[0, 0, 1, 0x26, 0, 0, 1, 0x26, 0x01, 0xaf, 0x80];
    let mut source = Drip { rest, most: 2 };
    let unit = 0;
    let error = DecodeError::TruncatedNalu;
    let refused = Err(Refused { unit, error });
    ends(rt, alloc, &mut source, 1000, Ok(refused), 0, 0);
    expect(rt, source.rest.is_empty());
}

#[test]
fn pictures_come_out_until_the_source_fails(rt: HostRuntime) {
    let rt = &rt;
    let alloc = rt.alloc();
    let mut bytes = ok(rt, Vec::with_capacity(alloc, 52));
    ok(rt, bytes.extend_from_slice(TWO_PICTURES));
    let mut source = MemorySource::new(bytes, ok(rt, vec![in alloc; 2]));
    // The last unit may go on as the second read fails, so the second picture hasn't begun, and the first one waits.
    ends(rt, alloc, &mut source, 52, Err(InputError::Failed), 0, 0);
}

#[test]
fn a_stream_may_be_no_longer_than_the_limit(rt: HostRuntime) {
    let alloc = rt.alloc();
    let rest = TWO_PICTURES;
    let mut source = Drip { rest, most: 3 };
    ends(&rt, alloc, &mut source, 51, Err(InputError::TooLong), 0, 0);
}
