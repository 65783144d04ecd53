//! The top call: from the words of the command line to the status.
ghost use Rattle.std.specs.Prelude.{◌≡◌, ◌≤◌, ◌<◌, ◌↔◌, ◌++◌, ℕ, List, length, is_ok, IfOk, IfSome, IsErrOf, IsTrue, OnErr, OnOk};
ghost use Rattle.std.specs.Io.KnownBytes.{Appends, IsAtEnd};
ghost use Rattle.hevc_fault_counts.specs.Faults.{Rose};
ghost use Rattle.hevc_options.specs.Options.{options_of};
ghost use Rattle.hevc_decoder.specs.Sources.{OfSource};
ghost use Rattle.hevc_report.specs.Command.{command};
ghost use Rattle.hevc_io.specs.Prefix.{AppendsPrefix, AppendsLess};
ghost use Rattle.hevc_program_answers.specs.Answers.{ends_of, moment};
ghost use Rattle.hevc_report.specs.Lines.{rest_text};
ghost use Rattle.hevc_report.specs.Report.{report_of};
ghost use Rattle.hevc_report.specs.Runs.{Reports, Runs};
ghost use Rattle.hevc_report.specs.Status.{WantsMemory};
ghost use Rattle.hevc_report.specs.Tells.{Tells};

use crate::command::{read_command, read_make};
use crate::made::run_made;
use crate::report::{ReportBackend, push_rest};
use hevc_decoder::{DecodeError, Decoded, Options, Refused, Shown, decode_source_with};
use hevc_io::{INPUT_LIMIT, Sink, Source, Stop, Word, write_all};
use std::alloc::Global;

/// What a run over a source's stream leaves to be written: the lines of the calls, the outputs, and the answer.
#[derive(Drop)]
struct Trace {
    calls: Vec<u8>,
    shown: Vec<Shown<u64>>,
    verdict: Result<u64, Refused>,
}

/// Decodes the source's stream as it comes, over a backend that reports its calls, and writes the report. `words`
/// are those of the command line after the program's name; they are a command, which tells the options
/// that the stream is decoded with, or are refused. By `make N` a made stream of N pictures, from 1 to 100000,
/// takes the place of the source's, and one line that of the report. Answers the status of the program:
///
/// | status | where |
/// |---|---|
/// | 0 | the report is written, and the stream was decoded to its end |
/// | 1 | the report is written, and its last line tells why the stream was refused |
/// | 2 | the words are no command; nothing is read or written |
/// | 3 | the source failed; nothing is written |
/// | 4 | the sink failed |
/// | 5 | there was no memory |
/// | 6 | the stream has more than 268,435,456 bytes; nothing is written |
pub fn run<S: Source, K: Sink>(alloc: Global, words: &[Word], source: &mut S, sink: &mut K) -> u8
    ensures statuses { result ≤ 6 }
    ensures runs { Runs (ends_of S.left S.faults K.written K.faults)
        INPUT_LIMIT words.now (moment source.old sink.old) (moment source.new sink.new) result }
{
    if let Some(pictures) = read_make(words) {
        return run_made(alloc, pictures, sink);
    }
    run_report(alloc, words, source, sink)
}

/// The same where the words are those for a report, or for nothing.
fn run_report<S: Source, K: Sink>(alloc: Global, words: &[Word], source: &mut S, sink: &mut K) -> u8
    ensures statuses { result ≤ 6 }
    ensures reports { Reports (ends_of S.left S.faults K.written K.faults)
        INPUT_LIMIT (command words.now)
        (moment source.old sink.old) (moment source.new sink.new) result }
{
    let Some(options) = read_command(words) else {
        return 2;
    };
    match write_report(alloc, options, source, sink) {
        Ok(true) => 0,
        Ok(false) => 1,
        Err(stop) => stop.status(),
    }
}

/// Reads the input, and writes the report on it. Answers whether the stream was decoded.
fn write_report<S: Source, K: Sink>(
    alloc: Global,
    options: Options,
    source: &mut S,
    sink: &mut K,
) -> Result<bool, Stop>
    ensures whole { IfOk result
        (λ is_decoded. IsAtEnd (S.left source.new) × IfSome (S.left source.old) (λ s.
        Appends (K.written sink.old) (K.written sink.new) (report_of (options_of options) s)
        × Tells INPUT_LIMIT (options_of options) s is_decoded)) }
    ensures part { IfSome (S.left source.old) (λ s.
        AppendsPrefix (K.written sink.old) (K.written sink.new)
        (report_of (options_of options) s)) }
    ensures less { OnErr result (IfSome (S.left source.old) (λ s.
        AppendsLess (K.written sink.old) (K.written sink.new)
        (report_of (options_of options) s))) }
    ensures read { IsErrOf result Stop.Read
        → Rose (S.faults source.old) (S.faults source.new) × (sink.new ≡ sink.old) }
    ensures write { IsErrOf result Stop.Write → Rose (K.faults sink.old) (K.faults sink.new) }
    ensures long { IsErrOf result Stop.TooLong
        → (sink.new ≡ sink.old) × IfSome (S.left source.old) (λ s. INPUT_LIMIT < length s) }
{
    let trace = trace_of(alloc, options, source)?;
    let is_decoded = trace.verdict.is_ok();
    write_trace(alloc, trace, sink)?;
    Ok(is_decoded)
}

/// Writes the lines of the calls, and then the rest, which is rendered in the memory of these lines.
fn write_trace<K: Sink>(alloc: Global, trace: Trace, sink: &mut K) -> Result<(), Stop>
    ensures whole { OnOk result (Appends (K.written sink.old) (K.written sink.new)
        (trace.calls.items ++ rest_text trace.shown.items trace.verdict)) }
    ensures less { OnErr result (AppendsLess (K.written sink.old) (K.written sink.new)
        (trace.calls.items ++ rest_text trace.shown.items trace.verdict)) }
    ensures write { IsErrOf result Stop.Write → Rose (K.faults sink.old) (K.faults sink.new) }
    ensures reads_nothing { (IsErrOf result Stop.Read → ⊥) × (IsErrOf result Stop.TooLong → ⊥) }
{
    let Trace {
        calls: mut text,
        shown,
        verdict,
    } = trace;
    write_all(sink, &text)?;
    text.clear();
    push_rest(alloc, &mut text, &shown, verdict)?;
    write_all(sink, &text)?;
    Ok(())
}

/// What the stream that a source has left comes to.
fn trace_of<S: Source>(alloc: Global, options: Options, source: &mut S) -> Result<Trace, Stop>
    ensures end { OnOk result (IsAtEnd (S.left source.new)) }
    ensures text { OfSource result (S.left source.old) (λ trace s.
        trace.calls.items ++ rest_text trace.shown.items trace.verdict
        ≡ report_of (options_of options) s) }
    ensures tells { OfSource result (S.left source.old) (λ trace s.
        Tells INPUT_LIMIT (options_of options) s (is_ok trace.verdict)) }
    ensures read { IsErrOf result Stop.Read → Rose (S.faults source.old) (S.faults source.new) }
    ensures long { IsErrOf result Stop.TooLong
        → IfSome (S.left source.old) (λ s. INPUT_LIMIT < length s) }
    ensures writes_nothing { IsErrOf result Stop.Write → ⊥ }
{
    let mut shown = Vec::new(alloc);
    let backend = ReportBackend::new(alloc);
    let decoded = decode_source_with(alloc, backend, options, source, INPUT_LIMIT, &mut shown)?;
    let Decoded { backend, result } = decoded;
    if wants_memory(result) {
        return Err(Stop::NoMemory);
    }
    Ok(Trace {
        calls: backend.into_text(),
        shown,
        verdict: result,
    })
}

/// Whether the decoding ended since an allocation failed.
pub(crate) fn wants_memory(answer: Result<u64, Refused>) -> bool
    ensures { IsTrue result ↔ WantsMemory answer }
{
    match answer {
        Err(
            Refused {
                error: DecodeError::NoMemory,
                ..
            },
        ) => true,
        _ => false,
    }
}
