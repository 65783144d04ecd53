//! A source read to its end.
ghost use Rattle.std.specs.Prelude.{◌≡◌, ◌≤◌, ◌<◌, ◌+◌, ℕ, List, length, vec_len, IfOk, IsErrOf};
ghost use Rattle.std.specs.Io.KnownBytes.{Consumes, IsAtEnd};
ghost use Rattle.hevc_fault_counts.specs.Faults.{Rose};

use crate::source::{Failed, Source};
use std::alloc::{AllocError, Global};
use thiserror::Error;

/// The longest input that the programs take, in bytes.
pub const INPUT_LIMIT: usize = 268_435_456;

/// For how many bytes at least one read has room.
const BLOCK: usize = 65_536;

/// Why the input can't be had: a read failed, there are more bytes than may be, or there was no
/// memory for them.
#[derive(Clone, Copy, Debug, PartialEq, Eq, Drop, Error)]
pub enum InputError {
    #[error("a read failed")]
    Failed,
    #[error("the input is too long")]
    TooLong,
    #[error("no memory")]
    NoMemory,
}

impl From<Failed> for InputError {
    ghost use Rattle.hevc_io.specs.declared.input.InputError.TheVariants.{Failed};

    ghost from_gives = { λ _ e. e ≡ Failed };

    fn from(_error: Failed) -> InputError {
        InputError::Failed
    }
}

impl From<AllocError> for InputError {
    ghost use Rattle.hevc_io.specs.declared.input.InputError.TheVariants.{NoMemory};

    ghost from_gives = { λ _ e. e ≡ NoMemory };

    fn from(_error: AllocError) -> InputError {
        InputError::NoMemory
    }
}

/// Reads a source to its end, which gives at most `limit` bytes. Each piece is read into its place
/// in the input, after which room is kept for the next one.
///
/// `Failed` has a cause: a fault was counted, or no more can be. By `TooLong` more than `limit`
/// bytes left the source, at most 65,536 more. After a refusal what was read is lost.
pub fn read_all<S: Source>(
    alloc: Global,
    source: &mut S,
    limit: usize,
) -> Result<Vec<u8>, InputError>
    ensures all { IfOk result
        (λ input. Consumes (S.left source.old) (S.left source.new) input.items) }
    ensures end { IfOk result (λ _. IsAtEnd (S.left source.new)) }
    ensures limit { IfOk result (λ input. vec_len input ≤ limit) }
    ensures later { S.faults source.old ≤ S.faults source.new }
    ensures failed { IsErrOf result InputError.Failed
        → Rose (S.faults source.old) (S.faults source.new) }
    ensures too_long { IsErrOf result InputError.TooLong → (given : List ℕ)
        × Consumes (S.left source.old) (S.left source.new) given × (limit < length given)
        × (length given ≤ limit + 65536) }
{
    let mut input = Vec::new(alloc);
    let mut filled = 0;
    loop {
        input.resize(filled + BLOCK, 0)?;
        let count = source.read(&mut input[filled..])?;
        if count == 0 {
            input.truncate(filled);
            return Ok(input);
        }
        if count > limit - filled {
            return Err(InputError::TooLong);
        }
        filled += count;
    }
}

/// The longest input has 2^28 bytes.
pub fn inputs_have_a_limit()
    ensures { INPUT_LIMIT ≡ 268435456 }
{}
