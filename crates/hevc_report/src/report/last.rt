//! The last line of the report.
ghost use Rattle.std.specs.Prelude.{◌≡◌, ◌++◌, IfOk, OnOk};
ghost use Rattle.std.specs.String.{string_bytes};
ghost use Rattle.hevc_report.specs.Report.{last_line, refusal_line, cause_numbers, cause_text};

use hevc_decoder::{DecodeError, Refused};
use hevc_program_answers::Answer;
use std::alloc::{AllocError, Global};

/// Adds the last line: how many pictures there were and how many were output, or the cause of a
/// refusal.
#[tactic(auto, using(std::proofs::Common::append_assoc))]
pub(crate) fn push_last(
    text: &mut String,
    shown: usize,
    verdict: Result<u64, Refused>,
) -> Result<(), AllocError>
    ensures { OnOk result
        (string_bytes text.new ≡ string_bytes text.old ++ last_line shown verdict) }
{
    match verdict {
        Ok(pictures) => writeln!(text, "end pictures {pictures} shown {shown}"),
        Err(refused) => push_refusal(text, refused),
    }
}

/// The line of a refusal: the number of its unit, and its cause.
///
/// Errors: no memory.
fn refusal_line(alloc: Global, refused: Refused) -> Result<String, AllocError>
    ensures { IfOk result (λ line. string_bytes line ≡ refusal_line refused) }
{
    let mut line = String::new(alloc);
    push_refusal(&mut line, refused)?;
    Ok(line)
}

/// The line of a refusal as a program's answer, with status 1.
///
/// Errors: no memory.
pub fn refusal_answer(alloc: Global, refused: Refused) -> Result<Answer, AllocError>
    ensures bytes { IfOk result (λ answer. answer.bytes.items ≡ refusal_line refused) }
    ensures status { IfOk result (λ answer. answer.status ≡ 1) }
{
    Ok(Answer {
        bytes: refusal_line(alloc, refused)?.into_bytes(),
        status: 1,
    })
}

/// Adds the line of a refusal.
#[tactic(auto, using(std::proofs::Common::append_assoc))]
fn push_refusal(text: &mut String, refused: Refused) -> Result<(), AllocError>
    ensures { OnOk result (string_bytes text.new ≡ string_bytes text.old ++ refusal_line refused) }
{
    let unit = refused.unit;
    let cause = cause_name(refused.error);
    write!(text, "refused unit {unit} {cause}")?;
    push_cause_numbers(text, refused.error)?;
    text.push_str("\n")?;
    Ok(())
}

/// The name of a cause.
fn cause_name(error: DecodeError) -> &'static str
    ensures { result.now ++ cause_numbers error ≡ cause_text error }
{
    match error {
        DecodeError::NoNal => "NoNal",
        DecodeError::TruncatedNalu => "TruncatedNalu",
        DecodeError::InvalidNaluType(_) => "InvalidNaluType",
        DecodeError::OutOfBits => "OutOfBits",
        DecodeError::OutOfRange { .. } => "OutOfRange",
        DecodeError::MissingPps(_) => "MissingPps",
        DecodeError::NoIndependentSlice => "NoIndependentSlice",
        DecodeError::ChangedMidPicture { .. } => "ChangedMidPicture",
        DecodeError::PocOutOfRange => "PocOutOfRange",
        DecodeError::DpbFull => "DpbFull",
        DecodeError::NotEnoughOutputBuffers(_) => "NotEnoughOutputBuffers",
        DecodeError::CheckEvents => "CheckEvents",
        DecodeError::PictureNumbersSpent => "PictureNumbersSpent",
        DecodeError::Backend => "Backend",
        DecodeError::NoMemory => "NoMemory",
    }
}

/// Adds the numbers of a cause, each after a blank.
#[tactic(auto, using(std::proofs::Common::append_assoc))]
fn push_cause_numbers(text: &mut String, error: DecodeError) -> Result<(), AllocError>
    ensures { OnOk result (string_bytes text.new ≡ string_bytes text.old ++ cause_numbers error) }
{
    match error {
        DecodeError::InvalidNaluType(number) => write!(text, " {number}"),
        DecodeError::OutOfRange { table, row } => write!(text, " {table} {row}"),
        DecodeError::MissingPps(id) => write!(text, " {id}"),
        _ => Ok(()),
    }
}
