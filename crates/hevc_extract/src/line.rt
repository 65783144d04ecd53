//! The line of a refusal.
ghost use Rattle.std.specs.Prelude.{◌≡◌, ◌++◌, IfOk, OnOk};
ghost use Rattle.std.specs.String.{string_bytes};
ghost use Rattle.hevc_extract.specs.Written.{cause_text, refusal_line};

use hevc_bits::UnitError;
use std::alloc::{AllocError, Global};

/// The line of the unit whose header is refused.
pub(crate) fn refusal_line(alloc: Global, unit: u64, error: UnitError) -> Result<String, AllocError>
    ensures { IfOk result (λ line. string_bytes line ≡ refusal_line unit error) }
{
    let mut line = format!(in alloc; "refused unit {unit} ")?;
    push_cause(&mut line, error)?;
    line.push_str("\n")?;
    Ok(line)
}

/// Adds why it is refused.
#[tactic(auto, using(std::proofs::Common::append_assoc))]
fn push_cause(line: &mut String, error: UnitError) -> Result<(), AllocError>
    ensures { OnOk result (string_bytes line.new ≡ string_bytes line.old ++ cause_text error) }
{
    match error {
        UnitError::NoNal => line.push_str("NoNal"),
        UnitError::TruncatedNalu => line.push_str("TruncatedNalu"),
        UnitError::InvalidNaluType(number) => write!(line, "InvalidNaluType {number}"),
        UnitError::TemporalIdZero => line.push_str("TemporalIdZero"),
    }
}
