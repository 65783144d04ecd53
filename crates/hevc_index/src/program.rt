//! The top call: from the words of the command line to the status.
ghost use Rattle.std.specs.Prelude.{◌≡◌, ◌≤◌, IfSome};
ghost use Rattle.hevc_index.specs.Requests.{asked_request};
ghost use Rattle.hevc_program_answers.specs.Answers.{ends_of, moment, Answers};
ghost use Rattle.hevc_index.specs.Written.{written_of, index_program, BeginsAsAsked};

use crate::words::read_request;
use hevc_io::{INPUT_LIMIT, Sink, Source, Word};
use hevc_program_answers::run_asked;
use std::alloc::Global;

/// Reads the source's stream to its end, and tells its points, or writes the stream from one of them
/// on. `words` are those of the command line after the program's name: none for a line for each
/// point, `point N unit U offset O type T poc C`, and `end points K` for their number; `splice N`, N
/// in decimal, for the stream that begins at the point of picture number N. Answers the status of the
/// program:
///
/// | status | where |
/// |---|---|
/// | 0 | the lines, or the stream, are written |
/// | 1 | one line is written, `refused unit U CAUSE`, since the stream is refused |
/// | 2 | the words are others; nothing is read or written |
/// | 3 | the source failed; nothing is written |
/// | 4 | the sink failed |
/// | 5 | there was no memory |
/// | 6 | the stream has more than 268,435,456 bytes; nothing is written |
/// | 7 | one line is written, `no point N`, since no point has that number |
pub fn run_index<S: Source, K: Sink>(
    alloc: Global,
    words: &[Word],
    source: &mut S,
    sink: &mut K,
) -> u8
    ensures statuses { result ≤ 7 }

    // What is read and written, by the status. On 0, 1 and 7 what is asked for, or a refusal's line.
    ensures answers { Answers (ends_of S.left S.faults K.written K.faults)
        index_program INPUT_LIMIT (asked_request words.now)
        (moment source.old sink.old) (moment source.new sink.new) result }
    // On 0 a stream that was asked for is decoded as the one that was read, from the point on.
    ensures begins { IfSome (asked_request words.now) (λ request. result ≡ 0
        → IfSome (S.left source.old) (λ s. BeginsAsAsked request s (written_of request s))) }
{
    run_asked(alloc, read_request(words), source, sink)
}
