//! A made stream, decoded, and one line of it.
ghost use Rattle.std.specs.Prelude.{◌≡◌, ◌≤◌, length, IfOk, is_ok, true};
ghost use Rattle.hevc_stream_maker.specs.Made.{made};
ghost use Rattle.hevc_walk.specs.Clean.{IsClean};
ghost use Rattle.hevc_stream.specs.Options.{default_options};
ghost use Rattle.hevc_stream.specs.Stream.{meanings};
ghost use Rattle.hevc_report.specs.Report.{ending_of};
ghost use Rattle.hevc_report.specs.Runs.{Makes};
ghost use Rattle.hevc_report.specs.Summary.{summary_of};

use crate::program::wants_memory;
use crate::report::summary_text;
use hevc_backend::Backend;
use hevc_decoder::{Options, decode_stream_with};
use hevc_io::{INPUT_LIMIT, Sink, SinkError, write_all};
use hevc_stream_maker::make_stream;
use std::alloc::{AllocError, Global};

/// A line on a stream, and whether the stream was decoded.
#[derive(Drop)]
struct Report {
    text: Vec<u8>,
    is_decoded: bool,
}

/// Makes a stream of so many pictures, decodes it over a backend that records its calls, and writes one line.
/// Answers the status of the program.
pub(crate) fn run_made<K: Sink>(alloc: Global, pictures: u32, sink: &mut K) -> u8
    requires { (1 ≤ pictures) × (pictures ≤ 100000) }
    ensures makes { Makes K.written K.faults (made pictures) sink.old sink.new result }
{
    let Ok(report) = summary_on(alloc, pictures) else {
        return 5;
    };
    match write_all(sink, &report.text) {
        Ok(()) if report.is_decoded => 0,
        Ok(()) => 1,
        Err(SinkError::Failed) => 4,
        Err(SinkError::NoMemory) => 5,
    }
}

/// The line of a stream of so many pictures.
fn summary_on(alloc: Global, pictures: u32) -> Result<Report, AllocError>
    requires { (1 ≤ pictures) × (pictures ≤ 100000) }
    ensures text { IfOk result (λ report.
        report.text.items ≡ summary_of (made pictures)) }
    ensures decoded { IfOk result (λ report.
        report.is_decoded ≡ is_ok (ending_of default_options (made pictures))) }
    ensures clean { IfOk result (λ report.
        IsClean (meanings default_options (made pictures)) → report.is_decoded ≡ true) }
{
    let stream = make_stream(alloc, pictures)?;
    decoded_line(alloc, &stream)
}

/// The line of a stream.
fn decoded_line(alloc: Global, stream: &[u8]) -> Result<Report, AllocError>
    requires { length stream.now ≤ INPUT_LIMIT }
    ensures text { IfOk result (λ report. report.text.items ≡ summary_of stream.now) }
    ensures decoded { IfOk result (λ report.
        report.is_decoded ≡ is_ok (ending_of default_options stream.now)) }
    ensures clean { IfOk result (λ report.
        IsClean (meanings default_options stream.now) → report.is_decoded ≡ true) }
{
    let mut shown = Vec::new(alloc);
    let backend = Backend::new(alloc);
    let decoded = decode_stream_with(alloc, backend, Options::new(), stream, &mut shown);
    if wants_memory(decoded.result) {
        return Err(AllocError);
    }
    let text = summary_text(alloc, &shown, decoded.result)?;
    Ok(Report {
        text: text.into_bytes(),
        is_decoded: decoded.result.is_ok(),
    })
}
