//! The fields of a line: a word, and a number after it.
ghost use Rattle.std.specs.Prelude.{◌≡◌, ◌++◌, codes, decimal, OnOk};
ghost use Rattle.std.specs.Fmt.{signed_decimal};
ghost use Rattle.hevc_report.specs.Grows.{Grows};

use super::number::{push_number, push_signed};
use std::alloc::AllocError;

/// Adds a word, and a number after it.
#[inline(always)]
#[tactic(auto, using(std::proofs::Common::append_assoc))]
pub(crate) fn push_field(text: &mut Vec<u8>, word: &[u8], number: u64) -> Result<(), AllocError>
    ensures ok { OnOk result (text.new.items ≡ text.old.items ++ word.now ++ decimal number) }
    ensures grows { Grows text.old.items text.new.items }
{
    text.extend_from_slice(word)?;
    push_number(text, number)
}

/// Adds the last field of a line: a word, a number after it, and the line's end.
#[inline(always)]
#[tactic(auto, using(std::proofs::Common::append_assoc))]
pub(crate) fn push_last_field(
    text: &mut Vec<u8>,
    word: &[u8],
    number: u64,
) -> Result<(), AllocError>
    ensures ok { OnOk result
        (text.new.items ≡ text.old.items ++ word.now ++ decimal number ++ codes "\n") }
    ensures grows { Grows text.old.items text.new.items }
{
    push_field(text, word, number)?;
    text.extend_from_slice(b"\n")
}

/// Adds a word, and a number after it that may be negative.
#[inline(always)]
#[tactic(auto, using(std::proofs::Common::append_assoc))]
pub(crate) fn push_signed_field(
    text: &mut Vec<u8>,
    word: &[u8],
    number: i32,
) -> Result<(), AllocError>
    ensures ok { OnOk result
        (text.new.items ≡ text.old.items ++ word.now ++ signed_decimal number) }
    ensures grows { Grows text.old.items text.new.items }
{
    text.extend_from_slice(word)?;
    push_signed(text, number)
}
