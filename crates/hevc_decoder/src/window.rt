//! What was read of a source and isn't decoded yet.
ghost use Rattle.std.specs.Prelude.{◌≡◌, ◌≤◌, ◌<◌, ◌+◌, ◌⊎◌, ◌++◌, [], ℕ, List, length, drop, true};
ghost use Rattle.std.specs.Prelude.{IfOk, OnOk, OnErr, IsErrOf};
ghost use Rattle.std.specs.Io.KnownBytes.{Consumes, IsAtEnd};
ghost use Rattle.hevc_decoder.specs.Sources.{CountsFailure};
ghost use Rattle.hevc_decoder.specs.Windows.{IsLastStart, lead_length};

use hevc_io::{InputError, Source};
use memchr::memrchr;
use std::alloc::Global;
use std::marker::Model;

/// For how many bytes at least a read has room.
const BLOCK: usize = 262_144;

/// The bytes of a source that were read and not yet decoded. Their memory is used again, so it
/// grows with the most bytes between two start codes alone.
#[derive(Drop)]
pub(crate) struct Window {
    bytes: Vec<u8>,
    /// How many of `bytes` are there; after them is room.
    filled: usize,
}

impl Model for Window {
    ghost use Rattle.std.specs.Prelude.{◌≤◌, ℕ, List, take, vec_len};

    ghost Value = { List ℕ };

    ghost view = { λ w. take w.filled w.bytes.items };

    ghost invariant = { λ w. w.filled ≤ vec_len w.bytes };
}

impl Window {
    /// Nothing yet.
    pub(crate) fn new(alloc: Global) -> Window
        ensures { result ≡ [] }
    {
        Window {
            bytes: Vec::new(alloc),
            filled: 0,
        }
    }

    /// How many bytes are there.
    pub(crate) fn len(&self) -> usize
        ensures { result ≡ length self.now }
    {
        self.filled
    }

    /// The bytes.
    pub(crate) fn as_slice(&self) -> &[u8]
        ensures { result.now ≡ self.now }
    {
        &self.bytes[..self.filled]
    }

    /// Reads more bytes after these, and gives their number; 0 says that the source is at its end.
    pub(crate) fn read<S: Source>(&mut self, source: &mut S) -> Result<usize, InputError>
        ensures more { IfOk result (λ count. (got : List ℕ) × (self.new ≡ self.old ++ got)
            × (length got ≡ count) × Consumes (S.left source.old) (S.left source.new) got) }
        ensures end { IfOk result (λ count. count ≡ 0 → IsAtEnd (S.left source.new)) }
        ensures bound { IfOk result (λ count. count + length self.old ≡ length self.new) }
        ensures stays { OnErr result (self.new ≡ self.old) }
        ensures faults { CountsFailure (IsErrOf result InputError.Failed)
            (S.faults source.old) (S.faults source.new) }
        ensures fits { IsErrOf result InputError.TooLong → ⊥ }
    {
        let room = self.bytes.len().max(self.filled + BLOCK);
        self.bytes.resize(room, 0)?;
        let count = source.read(&mut self.bytes[self.filled..])?;
        self.filled += count;
        Ok(count)
    }

    /// Gives up so many bytes at the front.
    pub(crate) fn drop_front(&mut self, count: usize)
        requires { count ≤ length self.old }
        ensures { self.new ≡ drop count self.old }
    {
        if count > 0 {
            self.bytes.copy_within(count..self.filled, 0);
            self.filled -= count;
        }
    }

    /// Gives up all bytes.
    fn clear(&mut self)
        ensures { self.new ≡ [] }
    {
        self.filled = 0;
    }

    /// Reads the source to its end, which gives at most `limit` bytes more, and keeps none of them.
    pub(crate) fn skip<S: Source>(&mut self, source: &mut S, limit: usize) -> Result<(), InputError>
        ensures all { OnOk result ((given : List ℕ) × (length given ≤ limit)
            × Consumes (S.left source.old) (S.left source.new) given) }
        ensures end { OnOk result (IsAtEnd (S.left source.new)) }
        ensures faults { CountsFailure (IsErrOf result InputError.Failed)
            (S.faults source.old) (S.faults source.new) }
        ensures too_long { IsErrOf result InputError.TooLong → (given : List ℕ)
            × (limit < length given)
            × Consumes (S.left source.old) (S.left source.new) given }
    {
        let mut left = limit;
        loop {
            self.clear();
            let count = self.read(source)?;
            if count == 0 {
                return Ok(());
            }
            if count > left {
                return Err(InputError::TooLong);
            }
            left -= count;
        }
    }
}

/// Up to where the units of these bytes are whole, whatever comes after: the place of the last
/// start code that ends after `seen` bytes, or 0 where there is none.
pub(crate) fn whole_units(bytes: &[u8], seen: usize) -> usize
    ensures within { result ≤ length bytes.now }
    ensures last { IsLastStart bytes.now seen result }
{
    let mut end = bytes.len();
    while end > seen {
        let Some(behind) = memrchr(1, &bytes[seen..end]) else {
            return 0;
        };
        let one = seen + behind;
        if one >= 2 && bytes[one - 1] == 0 && bytes[one - 2] == 0 {
            return one - 2;
        }
        end = one;
    }
    0
}

/// How many bytes at the front of a window belong to no unit, whatever comes after: where it
/// doesn't begin with a start code, its only one, all but the last two.
pub(crate) fn lead_length(bytes: &[u8]) -> usize
    ensures { result ≡ lead_length bytes.now }
{
    match bytes {
        [0, 0, 1, ..] => 0,
        _ => bytes.len().saturating_sub(2),
    }
}
