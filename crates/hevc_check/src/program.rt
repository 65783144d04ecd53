//! The top call: from the words of the command line to the status.
ghost use Rattle.std.specs.Prelude.{◌≡◌, ◌≤◌, IfSome};
ghost use Rattle.hevc_stream.specs.Options.{default_options};
ghost use Rattle.hevc_stream.specs.Stream.{meanings};
ghost use Rattle.hevc_check.specs.Answers.{AreAllInOrder};
ghost use Rattle.hevc_check.specs.Requests.{asked_table};
ghost use Rattle.hevc_program_answers.specs.Answers.{ends_of, moment, Answers};
ghost use Rattle.hevc_check.specs.Written.{check_program};

use crate::words::read_table;
use hevc_io::{INPUT_LIMIT, Sink, Source, Word};
use hevc_program_answers::run_asked;
use std::alloc::Global;

/// Reads the source's stream to its end, checks it, and writes one line. `words` are those of the
/// command line after the program's name: none for the check of `check_stream`, `order` for that of
/// `check_order`. Answers the status of the program:
///
/// | status | where |
/// |---|---|
/// | 0 | `check yes sequences S pictures P` is written: nothing is broken |
/// | 1 | `refused unit U CAUSE` is written, since the stream is refused |
/// | 2 | the words are others; nothing is read or written |
/// | 3 | the source failed; nothing is written |
/// | 4 | the sink failed |
/// | 5 | there was no memory |
/// | 6 | the stream has more than 268,435,456 bytes; nothing is written |
/// | 7 | `check no picture N unit U BREACH` is written: the picture that breaks something |
pub fn run_check<S: Source, K: Sink>(
    alloc: Global,
    words: &[Word],
    source: &mut S,
    sink: &mut K,
) -> u8
    ensures statuses { result ≤ 7 }

    // What is read and written, by the status. On 0, 1 and 7 the line of the answer or of the refusal.
    ensures answers { Answers (ends_of S.left S.faults K.written K.faults)
        check_program INPUT_LIMIT (asked_table words.now)
        (moment source.old sink.old) (moment source.new sink.new) result }
    // On 0 the outputs of each sequence are its pictures that are to be output, in order.
    ensures order { result ≡ 0 → IfSome (S.left source.old)
        (λ s. AreAllInOrder (meanings default_options s)) }
{
    run_asked(alloc, read_table(words), source, sink)
}
