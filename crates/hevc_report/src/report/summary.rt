//! The line of a made stream.
ghost use Rattle.std.specs.Prelude.{◌≡◌, ◌++◌, length, IfOk, OnOk};
ghost use Rattle.std.specs.String.{string_bytes};
ghost use Rattle.hevc_report.specs.Lines.{shown_counts, summary_text as line_of};
ghost use Rattle.hevc_report.specs.Summary.{counts_text, falls, highest, lowest, numbers_line, summary_line};

use super::last::push_last;
use hevc_decoder::{Refused, Shown};
use std::alloc::{AllocError, Global};

/// The line of a decoded stream with these outputs: how many pictures there are, how many are output, the
/// lowest and the highest order count of these, and how many of them don't rise above the one before; or the
/// line of a refusal.
pub(crate) fn summary_text(
    alloc: Global,
    shown: &[Shown<u64>],
    verdict: Result<u64, Refused>,
) -> Result<String, AllocError>
    ensures { IfOk result (λ text. string_bytes text ≡ line_of shown.now verdict) }
{
    let mut text = String::new(alloc);
    match verdict {
        Ok(pictures) => push_summary(&mut text, pictures, shown)?,
        Err(_) => push_last(&mut text, 0, verdict)?,
    }
    Ok(text)
}

/// The numbers of a decoded stream: its pictures, its outputs, the lowest and the highest order count of these,
/// and how many of them don't rise above the one before.
#[derive(Clone, Copy)]
struct Summary {
    pictures: u64,
    shown: usize,
    lowest: i32,
    highest: i32,
    falls: usize,
}

/// Adds the line of so many pictures with these outputs.
fn push_summary(text: &mut String, pictures: u64, shown: &[Shown<u64>]) -> Result<(), AllocError>
    ensures { OnOk result (string_bytes text.new
        ≡ string_bytes text.old ++ summary_line pictures (shown_counts shown.now)) }
{
    let summary = Summary {
        pictures,
        shown: shown.len(),
        lowest: lowest_count(shown),
        highest: highest_count(shown),
        falls: number_of_falls(shown),
    };
    push_numbers(text, &summary)
}

/// Adds the line of these numbers.
#[tactic(auto, using(std::proofs::Common::append_assoc))]
fn push_numbers(text: &mut String, summary: &Summary) -> Result<(), AllocError>
    ensures { OnOk result (string_bytes text.new
        ≡ string_bytes text.old ++ numbers_line summary.now.pictures summary.now.shown
        summary.now.lowest summary.now.highest summary.now.falls) }
{
    let pictures = summary.pictures;
    let shown = summary.shown;
    let falls = summary.falls;
    write!(text, "made {pictures} shown {shown} ")?;
    push_counts(text, summary)?;
    writeln!(text, " falls {falls}")
}

/// Adds the lowest and the highest order count.
#[tactic(auto, using(std::proofs::Common::append_assoc))]
fn push_counts(text: &mut String, summary: &Summary) -> Result<(), AllocError>
    ensures { OnOk result (string_bytes text.new
        ≡ string_bytes text.old ++ counts_text summary.now.lowest summary.now.highest) }
{
    let lowest = summary.lowest;
    let highest = summary.highest;
    write!(text, "lowest {lowest} highest {highest}")
}

/// The lowest order count of outputs, and 0 of none.
fn lowest_count(shown: &[Shown<u64>]) -> i32
    ensures { result ≡ lowest (shown_counts shown.now) }
{
    let [first, others @ ..] = shown else {
        return 0;
    };
    let mut lowest = first.order_count;
    for output in others {
        lowest = lowest.min(output.order_count);
    }
    lowest
}

/// The highest order count of outputs, and 0 of none.
fn highest_count(shown: &[Shown<u64>]) -> i32
    ensures { result ≡ highest (shown_counts shown.now) }
{
    let [first, others @ ..] = shown else {
        return 0;
    };
    let mut highest = first.order_count;
    for output in others {
        highest = highest.max(output.order_count);
    }
    highest
}

/// How many outputs have no higher order count than the one before.
fn number_of_falls(shown: &[Shown<u64>]) -> usize
    ensures { result ≡ falls (shown_counts shown.now) }
{
    let [first, others @ ..] = shown else {
        return 0;
    };
    let mut last = first.order_count;
    let mut falls = 0;
    for output in others {
        if output.order_count <= last {
            falls += 1;
        }
        last = output.order_count;
    }
    falls
}
