//! The search for the start code 00 00 01, and what follows a unit.

ghost use Rattle.std.specs.Prelude.{◌≡◌, ◌↔◌, ◌≤◌, ◌<◌, ◌+◌, ℕ, length, slice_index, take};
ghost use Rattle.std.specs.Int.{bit_at};
ghost use Rattle.hevc_spec.specs.Units.{without_trailing_zeros};
ghost use Rattle.hevc_bits.specs.StartCode.{ArePairs, EndsFirst, IsFirstStart, NoneStands};
ghost use Rattle.hevc_bits.specs.StartCode.{StandsAt};

use memchr::memchr;
use std::simd::prelude::*;

/// How many bytes of a stream are looked at at once.
const BLOCK: usize = 64;

/// Where a block has this byte: a bit for each place, from the lowest on.
#[inline(always)]
fn places_of(byte: u8, block: u8x64) -> u64
    ensures { (k : ℕ) → (bit_at result k ≡ 1) ↔ ((k < 64) × (slice_index block k ≡ byte)) }
{
    block.simd_eq(u8x64::splat(byte)).to_bitmask()
}

/// Where a block has two zeros in a row, as few blocks of a coded slice have: a bit for each such
/// place, from the lowest on.
#[inline(always)]
fn pairs_of_zeros(block: u8x64) -> u64
    ensures { ArePairs block result }
{
    let zeros = places_of(0, block);
    zeros & (zeros >> 1)
}

/// The place of the first start code in a block: of the first pair of zeros that a 1 follows.
#[inline(always)]
fn find_in_block(block: u8x64, pairs: u64) -> Option<usize>
    requires { ArePairs block pairs }
    ensures { IsFirstStart block 0 result }
{
    let starts = pairs & (places_of(1, block) >> 2);
    if starts == 0 {
        return None;
    }
    Some(starts.trailing_zeros() as usize)
}

/// The first place at `from` or after it whose third byte is 1, as that of a start code is.
fn find_end(stream: &[u8], from: usize) -> Option<usize>
    requires { from + 2 ≤ length stream.now }
    ensures { EndsFirst stream.now from result }
{
    match memchr(1, &stream[from + 2..]) {
        Some(ahead) => Some(from + ahead),
        None => None,
    }
}

/// The place of the first start code at `from` or after it. After a block with two zeros in a row
/// but without a start code, the next 1 is looked for: there is none among zeros, or where each
/// third byte is 03.
pub fn find_start_code(stream: &[u8], from: usize) -> Option<usize>
    requires { from ≤ length stream.now }
    ensures { IsFirstStart stream.now from result }
{
    let mut at = from;
    while stream.len() - at >= BLOCK {
        let block = u8x64::from_slice(&stream[at..]);
        let pairs = pairs_of_zeros(block);
        if pairs == 0 {
            at += BLOCK - 1;
            continue;
        }
        if let Some(ahead) = find_in_block(block, pairs) {
            return Some(at + ahead);
        }
        at = find_end(stream, at + (BLOCK - 2))?;
    }
    find_in_last(stream, at)
}

/// The same, byte by byte: for the last bytes of a stream, fewer than a block.
fn find_in_last(stream: &[u8], from: usize) -> Option<usize>
    requires { from ≤ length stream.now }
    ensures { IsFirstStart stream.now from result }
{
    let mut at = from;
    while at + 2 < stream.len() {
        if stream[at] == 0 && stream[at + 1] == 0 && stream[at + 2] == 1 {
            return Some(at);
        }
        at += 1;
    }
    None
}

/// The place of the first start code at `from` or after it. After a unit it is mostly right there,
/// with or without a zero byte before it.
pub(crate) fn next_start_code(stream: &[u8], from: usize) -> Option<usize>
    requires { from ≤ length stream.now }
    ensures { IsFirstStart stream.now from result }
{
    match &stream[from..] {
        [0, 0, 1, ..] => Some(from),
        [0, 0, 0, 1, ..] => Some(from + 1),
        _ => find_start_code(stream, from),
    }
}

/// The place of the next start code after a unit's first byte, or the end of the stream.
pub fn end_of_unit(stream: &[u8], offset: usize) -> usize
    requires { offset ≤ length stream.now }
    ensures behind { offset ≤ result }
    ensures within { result ≤ length stream.now }
    ensures none_before { NoneStands stream.now offset result }
    ensures stands { result < length stream.now → StandsAt stream.now result }
{
    match find_start_code(stream, offset) {
        Some(end) => end,
        None => stream.len(),
    }
}

/// The bytes without the zeros at their end.
pub fn trim_trailing_zeros(bytes: &[u8]) -> &[u8]
    ensures trimmed { result.now ≡ without_trailing_zeros bytes.now }
    ensures front { result.now ≡ take (length result.now) bytes.now }
    ensures shorter { length result.now ≤ length bytes.now }
{
    let mut len = bytes.len();
    while len > 0 && bytes[len - 1] == 0 {
        len -= 1;
    }
    &bytes[..len]
}
