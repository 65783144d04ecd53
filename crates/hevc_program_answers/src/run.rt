//! A run of a program that answers its whole input.
ghost use Rattle.std.specs.Prelude.{◌≡◌, ◌≤◌, ◌<◌, ◌⊎◌, ℕ, List, length, IfOk, IfSome, IsErrOf};
ghost use Rattle.std.specs.Io.KnownBytes.{Appends, IsAtEnd};
ghost use Rattle.hevc_fault_counts.specs.Faults.{Rose};
ghost use Rattle.hevc_io.specs.Prefix.{AppendsLess, AppendsPrefix};
ghost use Rattle.hevc_program_answers.specs.Answers.{answering, ends_of, moment, Answers, IsAnswerUpTo};

use crate::asked::Asked;
use hevc_io::{INPUT_LIMIT, Sink, Source, Stop, read_all, write_all};
use std::alloc::Global;

/// Reads the source to its end, and writes the answer to what is asked of it. Answers the exit status: that of the answer; 2 where
/// nothing is asked; 3 where the source failed, 4 where the sink did, 5 where there was no memory, 6 where the input is too long.
pub fn run_asked<A: Asked + Drop, S: Source, K: Sink>(
    alloc: Global,
    asked: Option<A>,
    source: &mut S,
    sink: &mut K,
) -> u8
    requires can { IfSome asked A.CanAsk }
    ensures statuses { IsAnswerUpTo A.highest result ⊎ ((2 ≤ result) × (result ≤ 6)) }
    ensures answers { Answers (ends_of S.left S.faults K.written K.faults)
        (answering A.text A.status A.highest) INPUT_LIMIT asked
        (moment source.old sink.old) (moment source.new sink.new) result }
    ensures holds { IfSome asked (λ a. result ≡ 0
        → IfSome (S.left source.old) (λ input. A.Holds a input)) }
{
    let Some(asked) = asked else {
        return 2;
    };
    match write_answer(alloc, &asked, source, sink) {
        Ok(status) => status,
        Err(stop) => stop.status(),
    }
}

/// Reads the input, and writes the answer to it. Answers the status.
fn write_answer<A: Asked, S: Source, K: Sink>(
    alloc: Global,
    asked: &A,
    source: &mut S,
    sink: &mut K,
) -> Result<u8, Stop>
    requires { A.CanAsk asked.now }
    ensures statuses { IfOk result (IsAnswerUpTo A.highest) }
    ensures whole { IfOk result
        (λ status. IsAtEnd (S.left source.new) × IfSome (S.left source.old) (λ input.
        Appends (K.written sink.old) (K.written sink.new) (A.text asked.now input)
        × (status ≡ A.status asked.now input)
        × (length input ≤ INPUT_LIMIT) × (status ≡ 0 → A.Holds asked.now input))) }
    ensures part { IfSome (S.left source.old) (λ input.
        AppendsPrefix (K.written sink.old) (K.written sink.new) (A.text asked.now input)) }
    ensures less { IsErrOf result Stop.Write → IfSome (S.left source.old) (λ input.
        AppendsLess (K.written sink.old) (K.written sink.new) (A.text asked.now input)) }
    ensures less_by_memory { IsErrOf result Stop.NoMemory → IfSome (S.left source.old) (λ input.
        0 < length (A.text asked.now input)
        → AppendsLess (K.written sink.old) (K.written sink.new) (A.text asked.now input)) }
    ensures read { IsErrOf result Stop.Read
        → Rose (S.faults source.old) (S.faults source.new) × (sink.new ≡ sink.old) }
    ensures write { IsErrOf result Stop.Write → Rose (K.faults sink.old) (K.faults sink.new) }
    ensures long { IsErrOf result Stop.TooLong
        → (sink.new ≡ sink.old) × IfSome (S.left source.old) (λ input. INPUT_LIMIT < length input) }
{
    let input = read_all(alloc, source, INPUT_LIMIT)?;
    let answer = asked.answer(alloc, &input)?;
    write_all(sink, &answer.bytes)?;
    Ok(answer.status)
}
