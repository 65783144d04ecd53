//! The top call: from the words of the command line to the status.
ghost use Rattle.std.specs.Prelude.{◌≡◌, ◌≤◌, IfSome};
ghost use Rattle.hevc_spec.specs.Units.{units};
ghost use Rattle.hevc_extract.specs.Alike.{DecodesAlike, HoldsKept};
ghost use Rattle.hevc_extract.specs.Extracting.{first_refused};
ghost use Rattle.hevc_extract.specs.Targets.{asked_targets};
ghost use Rattle.hevc_program_answers.specs.Answers.{ends_of, moment, Answers};
ghost use Rattle.hevc_extract.specs.Written.{extract_program, status_of, written_of, HoldsAsAsked};

use crate::extraction::{ExtractError, extract_layer};
use crate::line::refusal_line;
use crate::words::{Targets, read_targets};
use hevc_io::{INPUT_LIMIT, Sink, Source, Word};
use hevc_program_answers::{Answer, Asked, run_asked};
use std::alloc::{AllocError, Global};

/// Reads the source's stream to its end, and writes the units of the lower sub-layers and layers,
/// each after 00 00 01. `words` are those of the command line after the program's name: `T`, one
/// digit from 0 to 6, keeps the units whose temporal id is at most T; `T L`, L from 0 to 62, of
/// these the ones whose layer id is at most L. Where the header of a unit is refused, one line is
/// written in place of the units, `refused unit U CAUSE`, for the first such unit U, from 0.
/// Answers the status of the program:
///
/// | status | where |
/// |---|---|
/// | 0 | the units are written |
/// | 1 | the line is written, since the header of a unit is refused |
/// | 2 | the words are others; nothing is read or written |
/// | 3 | the source failed; nothing is written |
/// | 4 | the sink failed |
/// | 5 | there was no memory |
/// | 6 | the stream has more than 268,435,456 bytes; nothing is written |
pub fn run_extract<S: Source, K: Sink>(
    alloc: Global,
    words: &[Word],
    source: &mut S,
    sink: &mut K,
) -> u8
    ensures statuses { result ≤ 6 }

    // What is read and written, by the status. On 0 and 1 the kept units or the line of the refused one.
    ensures answers { Answers (ends_of S.left S.faults K.written K.faults)
        extract_program INPUT_LIMIT (asked_targets words.now)
        (moment source.old sink.old) (moment source.new sink.new) result }
    // On 0 the kept units are found in the bytes, and are decoded as in the stream.
    ensures holds { IfSome (asked_targets words.now) (λ targets. result ≡ 0
        → IfSome (S.left source.old) (λ s.
        HoldsKept targets.highest_tid targets.highest_layer s (written_of targets s))) }
    ensures alike { IfSome (asked_targets words.now) (λ targets. result ≡ 0
        → IfSome (S.left source.old) (λ s.
        DecodesAlike targets.highest_tid targets.highest_layer s (written_of targets s))) }
{
    run_asked(alloc, read_targets(words), source, sink)
}

impl Asked for Targets {
    ghost CanAsk = { λ targets. (targets.highest_tid ≤ 6) × (targets.highest_layer ≤ 63) };

    ghost text = { written_of };

    ghost status = { λ targets stream. status_of (first_refused 0 (units stream)) };

    ghost highest = { 1 };

    ghost Holds = { HoldsAsAsked };

    fn answer(&self, alloc: Global, stream: &[u8]) -> Result<Answer, AllocError> {
        let mut bytes = Vec::new(alloc);
        match extract_layer(stream, self.highest_tid, self.highest_layer, &mut bytes) {
            Ok(_) => Ok(Answer { bytes, status: 0 }),
            Err(ExtractError::Refused { unit, error }) => Ok(Answer {
                bytes: refusal_line(alloc, unit, error)?.into_bytes(),
                status: 1,
            }),
            Err(ExtractError::NoMemory) => Err(AllocError),
        }
    }
}
