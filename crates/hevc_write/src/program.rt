//! The top call: from the words of the command line to the status.
ghost use Rattle.std.specs.Prelude.{◌≡◌, ◌≤◌, ◌<◌, ℕ, List, length, IfOk, IfSome, IsErrOf};
ghost use Rattle.std.specs.Io.KnownBytes.{IsAtEnd};
ghost use Rattle.hevc_fault_counts.specs.Faults.{Rose};
ghost use Rattle.hevc_write.specs.Program.{AnswersRewritten};
ghost use Rattle.hevc_write.specs.Rewriting.{IsRewriting};

use crate::rewriting::rewrite;
use hevc_io::{INPUT_LIMIT, Sink, Source, Stop, Word, read_all, write_all};
use std::alloc::Global;

/// Reads the source's stream to its end, and writes it with its sets written anew, as `rewrite`
/// does. `words` are those of the command line after the program's name: none. Answers the status
/// of the program, which is never 1:
///
/// | status | where |
/// |---|---|
/// | 0 | the stream is written |
/// | 2 | there are words; nothing is read or written |
/// | 3 | the source failed; nothing is written |
/// | 4 | the sink failed |
/// | 5 | there was no memory |
/// | 6 | the stream has more than 268,435,456 bytes; nothing is written |
pub fn run_write<S: Source, K: Sink>(
    alloc: Global,
    words: &[Word],
    source: &mut S,
    sink: &mut K,
) -> u8
    ensures statuses { result ≤ 6 }
    ensures never { ¬ (result ≡ 1) }
    ensures answers { AnswersRewritten
        (record {
          left = S.left;
          failed_reads = S.faults;
          written = K.written;
          failed_writes = K.faults;
        })
        INPUT_LIMIT words.now (record { source = source.old; sink = sink.old })
        (record { source = source.new; sink = sink.new }) result }
{
    if !words.is_empty() {
        return 2;
    }
    match read_rewritten(alloc, source) {
        Ok(bytes) => match write_all(sink, &bytes) {
            Ok(()) => 0,
            Err(error) => Stop::from(error).status(),
        },
        Err(stop) => stop.status(),
    }
}

/// Reads the input, and gives it with its sets written anew.
fn read_rewritten<S: Source>(alloc: Global, source: &mut S) -> Result<Vec<u8>, Stop>
    ensures whole { IfOk result (λ bytes. IsAtEnd (S.left source.new)
        × IfSome (S.left source.old) (λ stream. IsRewriting stream bytes.items)) }
    ensures limit { IfOk result (λ _. IfSome (S.left source.old) (λ s. length s ≤ INPUT_LIMIT)) }
    ensures read { IsErrOf result Stop.Read → Rose (S.faults source.old) (S.faults source.new) }
    ensures long { IsErrOf result Stop.TooLong
        → IfSome (S.left source.old) (λ s. INPUT_LIMIT < length s) }
    ensures no_write { ¬ IsErrOf result Stop.Write }
{
    let input = read_all(alloc, source, INPUT_LIMIT)?;
    let mut bytes = Vec::new(alloc);
    rewrite(alloc, &input, &mut bytes)?;
    Ok(bytes)
}
