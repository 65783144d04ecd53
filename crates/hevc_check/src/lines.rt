//! The lines that are written.
ghost use Rattle.std.specs.Prelude.{◌≡◌, IfOk};
ghost use Rattle.std.specs.String.{string_bytes};
ghost use Rattle.hevc_check_laws.specs.Checks as laws;
ghost use Rattle.hevc_check.specs.Answers.{checked_of};
ghost use Rattle.hevc_check.specs.Breaches.{breach_of};
ghost use Rattle.hevc_check.specs.Written.{breach_name, checked_answer};

use crate::breach::Breach;
use crate::check::Checked;
use std::alloc::{AllocError, Global};

/// The line of an answer.
pub(crate) fn checked_line(alloc: Global, checked: Checked) -> Result<String, AllocError>
    ensures { IfOk result (λ line. string_bytes line ≡ (checked_answer (checked_of checked)).0) }
{
    match checked {
        Checked::Yes {
            sequences,
            pictures,
        } => yes_line(alloc, sequences, pictures),
        Checked::No {
            number,
            unit,
            breach,
        } => no_line(alloc, number, unit, breach),
    }
}

/// The line where nothing is broken: how many sequences and pictures there are.
fn yes_line(alloc: Global, sequences: u64, pictures: u64) -> Result<String, AllocError>
    ensures { IfOk result
        (λ line. string_bytes line ≡ (checked_answer (laws.Yes sequences pictures)).0) }
{
    let mut line = String::new(alloc);
    writeln!(line, "check yes sequences {sequences} pictures {pictures}")?;
    Ok(line)
}

/// The line of a picture that breaks something: its number, the unit of its first slice, and what
/// it breaks.
fn no_line(alloc: Global, number: u64, unit: u64, breach: Breach) -> Result<String, AllocError>
    ensures { IfOk result (λ line. string_bytes line ≡ (checked_answer
        (laws.No (record { number = number; unit = unit; breach = breach_of breach }))).0) }
{
    let name = breach_name(breach);
    let mut line = String::new(alloc);
    writeln!(line, "check no picture {number} unit {unit} {name}")?;
    Ok(line)
}

/// The name of a breach.
fn breach_name(breach: Breach) -> &'static str
    ensures { result.now ≡ breach_name (breach_of breach) }
{
    match breach {
        Breach::Changed => "Changed",
        Breach::Latency => "Latency",
        Breach::SameCount => "SameCount",
        Breach::Full => "Full",
        Breach::Discards => "Discards",
        Breach::Reorder => "Reorder",
    }
}
