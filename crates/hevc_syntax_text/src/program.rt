//! The top call: from the words of the command line to the status.
ghost use Rattle.std.specs.Prelude.{◌≡◌, ◌≤◌, ◌<◌, length, IfOk, IfSome, OnErr, IsErrOf};
ghost use Rattle.std.specs.Io.KnownBytes.{Appends, IsAtEnd};
ghost use Rattle.hevc_fault_counts.specs.Faults.{Rose};
ghost use Rattle.hevc_io.specs.Prefix.{AppendsLess, AppendsPrefix};
ghost use Rattle.hevc_program_answers.specs.Answers.{ends_of, moment, Answers};
ghost use Rattle.hevc_syntax_text.specs.Requests.{asked_request};
ghost use Rattle.hevc_syntax_text.specs.Written.{status_of, syntax_program, written_of};

use crate::words::{Request, read_request};
use crate::writing::write_text;
use hevc_io::{INPUT_LIMIT, Sink, Source, Stop, Word, read_all};
use std::alloc::Global;

/// Reads the source's stream to its end, and writes for each unit a line with its number, place,
/// size and header, one for each message, one for each syntax element of a parameter set or slice
/// segment header as it was read, with the sets that are kept there, one for each variable that
/// follows, and where the unit is refused, one with the cause; and a last line with the number of
/// units and of refusals. `words` are those of the command line after the program's name: `json`
/// first for lines of JSON, then `type N` for the units of that nal_unit_type alone, or `unit A B`
/// for those from number A to B. Answers the status of the program:
///
/// | status | where |
/// |---|---|
/// | 0 | the text is written, and no unit that was told is refused |
/// | 1 | the text is written, and some unit is |
/// | 2 | the words are others; nothing is read or written |
/// | 3 | the source failed; nothing is written |
/// | 4 | the sink failed |
/// | 5 | there was no memory |
/// | 6 | the stream has more than 268,435,456 bytes; nothing is written |
pub fn run_syntax<S: Source, K: Sink>(
    alloc: Global,
    words: &[Word],
    source: &mut S,
    sink: &mut K,
) -> u8
    ensures statuses { result ≤ 6 }

    // What is read and written, by the status. On 0 and 1 the whole text.
    ensures answers { Answers (ends_of S.left S.faults K.written K.faults)
        syntax_program INPUT_LIMIT (asked_request words.now)
        (moment source.old sink.old) (moment source.new sink.new) result }
{
    let Some(request) = read_request(words) else {
        return 2;
    };
    match tell_source(alloc, request, source, sink) {
        Ok(status) => status,
        Err(stop) => stop.status(),
    }
}

/// Reads the source to its end, and writes the text of its stream. Answers the status.
fn tell_source<S: Source, K: Sink>(
    alloc: Global,
    request: Request,
    source: &mut S,
    sink: &mut K,
) -> Result<u8, Stop>
    ensures statuses { IfOk result (λ status. status ≤ 1) }
    ensures whole { IfOk result
        (λ status. IsAtEnd (S.left source.new) × IfSome (S.left source.old) (λ stream.
        Appends (K.written sink.old) (K.written sink.new) (written_of request stream)
        × (status ≡ status_of request stream) × (length stream ≤ INPUT_LIMIT))) }
    ensures part { IfSome (S.left source.old) (λ stream.
        AppendsPrefix (K.written sink.old) (K.written sink.new) (written_of request stream)) }
    ensures less { OnErr result (IfSome (S.left source.old) (λ stream.
        AppendsLess (K.written sink.old) (K.written sink.new) (written_of request stream))) }
    ensures read { IsErrOf result Stop.Read
        → Rose (S.faults source.old) (S.faults source.new) × (sink.new ≡ sink.old) }
    ensures write { IsErrOf result Stop.Write → Rose (K.faults sink.old) (K.faults sink.new) }
    ensures long { IsErrOf result Stop.TooLong → (sink.new ≡ sink.old)
        × IfSome (S.left source.old) (λ stream. INPUT_LIMIT < length stream) }
{
    let stream = read_all(alloc, source, INPUT_LIMIT)?;
    write_text(alloc, request, &stream, sink)
}
