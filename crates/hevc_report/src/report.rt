//! The report of a run: a line for each call of the backend, one for each output, and a last one.
ghost use Rattle.std.specs.Prelude.{◌≡◌, ◌++◌, OnOk};
ghost use Rattle.std.specs.List.{flat_map};
ghost use Rattle.hevc_report.specs.Lines.{rest_text, shown_line};

mod backend;
mod field;
mod last;
mod line;
mod list;
mod number;
mod summary;

pub(crate) use backend::ReportBackend;
use hevc_decoder::{Refused, Shown};
use last::push_last;
pub use last::refusal_answer;
use line::push_shown;
use std::alloc::{AllocError, Global};
pub(crate) use summary::summary_text;

/// Adds what comes after the lines of the calls: those of these outputs, and the last one for this result.
#[tactic(auto, using(std::proofs::Common::append_assoc))]
pub(crate) fn push_rest(
    alloc: Global,
    text: &mut Vec<u8>,
    shown: &[Shown<u64>],
    verdict: Result<u64, Refused>,
) -> Result<(), AllocError>
    ensures { OnOk result (text.new.items ≡ text.old.items ++ rest_text shown.now verdict) }
{
    push_outputs(text, shown)?;
    let mut line = String::new(alloc);
    push_last(&mut line, shown.len(), verdict)?;
    text.extend_from_slice(line.as_bytes())
}

#[tactic(auto, using(std::proofs::Common::append_assoc))]
fn push_outputs(text: &mut Vec<u8>, shown: &[Shown<u64>]) -> Result<(), AllocError>
    ensures { OnOk result (text.new.items ≡ text.old.items ++ flat_map shown_line shown.now) }
{
    for output in shown {
        push_shown(text, output)?;
    }
    Ok(())
}
