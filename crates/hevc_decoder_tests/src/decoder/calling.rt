//! Callers of the decoder: one that gives units and takes events, one that gives a whole stream, and one that gives a source.
ghost use Rattle.std.specs.Prelude.{◌<◌, ◌≤◌, ◌^◌, IfOk, length};
ghost use Rattle.hevc_bits.specs.declared.stream_limit.TheConstants.{STREAM_LIMIT};

use hevc_backend::SilentBackend;
use hevc_decoder::{
    DecodeError, DecoderEvent, Options, Refused, Shown, StatelessDecoder,
    StatelessH265DecoderBackend, decode_source_with, decode_stream,
};
use hevc_io::{InputError, Source};
use std::alloc::{AllocError, Global};

/// The numbers of a stream's pictures in output order, told by events.
pub(crate) fn numbers_by_events(alloc: Global, mut rest: &[u8]) -> Result<Vec<u64>, DecodeError>
    requires { length rest.now < STREAM_LIMIT }
{
    let mut decoder = StatelessDecoder::new(alloc, SilentBackend::new());
    let mut numbers = Vec::new(alloc);
    loop {
        match give_first(&mut decoder, rest) {
            Ok(taken) => rest = &rest[taken..],
            Err(DecodeError::NoNal) => break,
            Err(error) => return Err(error),
        }
        take_events(&mut decoder, &mut numbers)?;
    }
    decoder.flush()?;
    take_events(&mut decoder, &mut numbers)?;
    Ok(numbers)
}

/// Gives the first unit. Where it opens a negotiation, the format is accepted, and it is given once more.
fn give_first<B: StatelessH265DecoderBackend>(
    decoder: &mut StatelessDecoder<B>,
    rest: &[u8],
) -> Result<usize, DecodeError>
    requires { length rest.now < STREAM_LIMIT }
    ensures { IfOk result (λ taken. (3 ≤ taken) × (taken ≤ length rest.now)) }
{
    let answer = decoder.decode(0, rest);
    if !decoder.awaiting_format() {
        return answer;
    }
    // Here a player makes new frames, of the size that `stream_info` tells.
    decoder.accept_format();
    decoder.decode(0, rest)
}

/// Takes the pictures that were output.
fn take_events<B: StatelessH265DecoderBackend>(
    decoder: &mut StatelessDecoder<B>,
    numbers: &mut Vec<u64>,
) -> Result<(), AllocError> {
    while let Some(DecoderEvent::FrameReady(frame)) = decoder.next_event() {
        numbers.push(frame.number)?;
    }
    Ok(())
}

/// The same of a whole stream.
pub(crate) fn numbers_of_stream(
    alloc: Global,
    stream: &[u8],
) -> Result<Result<Vec<u64>, Refused>, AllocError>
    requires { length stream.now < STREAM_LIMIT }
{
    let mut shown = Vec::new(alloc);
    let decoded = decode_stream(alloc, SilentBackend::new(), stream, &mut shown);
    if let Err(refused) = decoded.result {
        return Ok(Err(refused));
    }
    Ok(Ok(numbers(alloc, &shown)?))
}

/// The same of a stream of at most 2^40 bytes that comes in pieces, as from a file or a pipe.
pub(crate) fn numbers_of_source<S: Source>(
    alloc: Global,
    source: &mut S,
) -> Result<Result<Vec<u64>, Refused>, InputError> {
    let mut shown = Vec::new(alloc);
    let backend = SilentBackend::new();
    let decoded = decode_source_with(alloc, backend, Options::new(), source, 1 << 40, &mut shown)?;
    if let Err(refused) = decoded.result {
        return Ok(Err(refused));
    }
    Ok(Ok(numbers(alloc, &shown)?))
}

/// The numbers of these outputs.
fn numbers<H>(alloc: Global, shown: &[Shown<H>]) -> Result<Vec<u64>, AllocError> {
    let mut numbers = Vec::new(alloc);
    for output in shown {
        numbers.push(output.number)?;
    }
    Ok(numbers)
}
