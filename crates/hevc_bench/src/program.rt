//! The top call: from the words of the command line to the status.
ghost use Rattle.std.specs.Prelude.{◌≡◌, ◌≤◌};
ghost use Rattle.hevc_program_answers.specs.Answers.{ends_of, moment, Answers};
ghost use Rattle.hevc_bench.specs.Words.{asked_work};
ghost use Rattle.hevc_bench.specs.Counts.{bench_program, count_of, line_of, status_of};

use crate::count::{Count, find};
use crate::line::line_text;
use crate::work::{Work, read_work};
use hevc_io::{INPUT_LIMIT, Sink, Source, Word};
use hevc_program_answers::{Answer, Asked, run_asked};
use std::alloc::{AllocError, Global};

/// Counts what the source's stream has, and writes one line. `words` are those of the command line after the program's
/// name: by none the stream is decoded and its pictures are counted, by `cut` it is cut into units and these are counted, by `read`
/// its bytes are counted.
/// Answers the status of the program:
///
/// | status | where |
/// |---|---|
/// | 0 | all was read and written, and nothing in the stream was refused |
/// | 1 | all was read and written, and a unit was refused, whose number the line has |
/// | 2 | the words are others; nothing is read or written |
/// | 3 | the source failed; nothing is written |
/// | 4 | the sink failed |
/// | 5 | there was no memory |
/// | 6 | the stream has more than 268,435,456 bytes; nothing is written |
pub fn run<S: Source, K: Sink>(alloc: Global, words: &[Word], source: &mut S, sink: &mut K) -> u8
    ensures statuses { result ≤ 6 }

    // What is read and written, by the status. On 0 and 1 the line.
    ensures answers { Answers (ends_of S.left S.faults K.written K.faults)
        bench_program INPUT_LIMIT (asked_work words.now)
        (moment source.old sink.old) (moment source.new sink.new) result }
{
    run_asked(alloc, read_work(words), source, sink)
}

impl Asked for Work {
    ghost CanAsk = { λ work. Unit {0} };

    ghost text = { λ work stream. line_of (count_of work stream) };

    ghost status = { λ work stream. status_of (count_of work stream) };

    ghost highest = { 1 };

    ghost Holds = { λ work stream. Unit {0} };

    fn answer(&self, alloc: Global, stream: &[u8]) -> Result<Answer, AllocError> {
        let found = find(alloc, *self, stream)?;
        Ok(Answer {
            bytes: line_text(alloc, found)?.into_bytes(),
            status: status_of(found),
        })
    }
}

/// The status by a count: 1 where a unit was refused.
fn status_of(count: Count) -> u8
    ensures { result ≡ status_of count }
{
    match count {
        Count::Refused(_) => 1,
        _ => 0,
    }
}
