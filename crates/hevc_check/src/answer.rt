//! What is written of a stream, and the status.
ghost use Rattle.std.specs.Prelude.{◌≡◌, IfOk, Ok};
ghost use Rattle.hevc_stream.specs.Options.{default_options};
ghost use Rattle.hevc_stream.specs.Stream.{meanings};
ghost use Rattle.hevc_check.specs.Answers.{checked_of, AreAllInOrder, IsYes};
ghost use Rattle.hevc_check.specs.Written.{answer_for, checked_answer};

use crate::check::{CheckError, Checked, check_by};
use crate::lines::checked_line;
use crate::table::Table;
use hevc_program_answers::{Answer, Asked};
use hevc_report::refusal_answer;
use std::alloc::{AllocError, Global};

impl Asked for Table {
    ghost CanAsk = { λ table. Unit {0} };

    ghost text = { λ table stream. (answer_for table stream).0 };

    ghost status = { λ table stream. (answer_for table stream).1 };

    ghost highest = { 7 };

    ghost Holds = { λ table stream. AreAllInOrder (meanings default_options stream) };

    fn answer(&self, alloc: Global, stream: &[u8]) -> Result<Answer, AllocError> {
        match check_by(alloc, *self, stream) {
            Ok(checked) => checked_answer(alloc, checked),
            Err(CheckError::Refused(refused)) => refusal_answer(alloc, refused),
            Err(CheckError::NoMemory) => Err(AllocError),
        }
    }
}

/// The line of an answer.
fn checked_answer(alloc: Global, checked: Checked) -> Result<Answer, AllocError>
    ensures written { IfOk result
        (λ answer. answer.bytes.items ≡ (checked_answer (checked_of checked)).0) }
    ensures status { IfOk result (λ answer. answer.status ≡ (checked_answer (checked_of checked)).1) }
    ensures yes { IfOk result (λ answer. answer.status ≡ 0 → IsYes (Ok checked)) }
{
    Ok(Answer {
        bytes: checked_line(alloc, checked)?.into_bytes(),
        status: checked_status(checked),
    })
}

/// The status of an answer.
fn checked_status(checked: Checked) -> u8
    ensures status { result ≡ (checked_answer (checked_of checked)).1 }
    ensures yes { result ≡ 0 → IsYes (Ok checked) }
{
    match checked {
        Checked::Yes { .. } => 0,
        Checked::No { .. } => 7,
    }
}
