//! Units cut out of a stream (Annex B).

ghost use Rattle.std.specs.Prelude.{◌≡◌, ◌≢◌, ◌≤◌, ◌<◌, ◌+◌, ◌-◌, ◌↔◌, ◌∷◌, [], ℕ, List, length};
ghost use Rattle.std.specs.Prelude.{Ok, Err, IfOk, OnOk, IfErr, OnErr, IsErrOf, IfNone, IfSome};
ghost use Rattle.std.specs.Prelude.{take, drop};
ghost use Rattle.hevc_spec.specs.Units.{units_from, NalUnit};
ghost use Rattle.hevc_bits.specs.FoundUnit.{FoundUnit, IsCutOut, FindsNext, bytes_of};
ghost use Rattle.hevc_bits.specs.FoundUnit.{start_code_offset};
ghost use Rattle.hevc_bits.specs.StartCode.{IsFirstCut};

use crate::header::{Header, UnitError};
use crate::start_code::{end_of_unit, next_start_code, trim_trailing_zeros};
use std::convert::AsSlice;
use std::marker::Model;

/// The bytes of a unit before its header is read: those up to the next start code, without the
/// zeros at their end.
#[derive(Drop)]
struct Cut<'a> {
    offset: usize,
    bytes: &'a [u8],
}

/// The first unit whose start code is at `from` or after it.
fn first_cut(stream: &[u8], from: usize) -> Option<Cut<'_>>
    requires { from ≤ length stream.now }
    ensures none { IfNone result ((kept : List ℕ → List ℕ) → units_from kept from stream.now ≡ []) }
    ensures first { IfSome result (λ c. IsFirstCut from stream.now c.offset c.bytes.now) }
    ensures behind { IfSome result (λ c. from + 3 ≤ c.offset) }
    ensures front { IfSome result
        (λ c. c.bytes.now ≡ take (length c.bytes.now) (drop c.offset stream.now)) }
    ensures within { IfSome result (λ c. c.offset + length c.bytes.now ≤ length stream.now) }
{
    let start = next_start_code(stream, from)?;
    let offset = start + 3;
    let end = end_of_unit(stream, offset);
    let bytes = trim_trailing_zeros(&stream[offset..end]);
    Some(Cut { offset, bytes })
}

/// A unit that was found in a stream, which it borrows.
#[derive(Drop)]
pub struct Nalu<'a, U: Header> {
    header: U,
    stream: &'a [u8],
    offset: usize,
    size: usize,
}

impl<'a, U: Header> Model for Nalu<'a, U> {
    ghost use Rattle.std.specs.Prelude.{◌≡◌, ◌≤◌, ◌+◌, Ok, length, take, drop};
    ghost use Rattle.hevc_bits.specs.FoundUnit.{FoundUnit, IsCutOut};

    ghost Value = { FoundUnit U };

    ghost view = { λ n. record { header = n.header; stream = n.stream.now; offset = n.offset; size = n.size } };

    ghost invariant = { λ n. (3 ≤ n.offset) × (n.offset + n.size ≤ length n.stream.now) × (U.parsed (take n.size (drop n.offset n.stream.now)) ≡ Ok n.header) × (U.header_len n.header ≤ n.size) × IsCutOut U.kept (record { header = n.header; stream = n.stream.now; offset = n.offset; size = n.size }) };
}

impl<'a, U: Header> Nalu<'a, U> {
    /// The first unit of `stream` whose start code is at `position` or after it. A unit begins
    /// after 00 00 01 and ends before the next one or at the end of the stream, without the zeros
    /// there (B.2); an end unit is its header alone.
    ///
    /// On `Ok`, `position` is at the unit's first byte. `NoNal` tells that there is no start code
    /// from `position` on; the other refusals are those of the header. After a refusal `position`
    /// is unchanged.
    pub fn next(stream: &'a [u8], position: &mut usize) -> Result<Nalu<'a, U>, UnitError>
        requires { position.old ≤ length stream.now }
        ensures next { IfOk result (λ n. FindsNext U.kept U.parsed position.old stream.now n) }
        ensures none { IsErrOf result UnitError.NoNal
            ↔ (units_from U.kept position.old stream.now ≡ []) }
        // Any other refusal is the one of the first unit's bytes.
        ensures refused { IfErr result
            (λ e. e ≢ UnitError.NoNal
            → (u : NalUnit) × (others : List NalUnit)
            × (units_from U.kept position.old stream.now ≡ u ∷ others)
            × (U.parsed u.bytes ≡ Err e)) }
        ensures moves { IfOk result (λ n. position.new ≡ n.offset) }
        ensures stays { OnErr result (position.new ≡ position.old) }
        ensures within { position.new ≤ length stream.now }
    {
        let Some(cut) = first_cut(stream, *position) else {
            return Err(UnitError::NoNal);
        };
        let header = U::parse(cut.bytes)?;
        let size = if header.is_end() {
            header.len()
        } else {
            cut.bytes.len()
        };
        *position = cut.offset;
        Ok(Nalu {
            header,
            stream,
            offset: cut.offset,
            size,
        })
    }

    /// The header.
    pub fn header(&self) -> &U
        ensures value { result.now ≡ self.now.header }
        ensures parsed { U.parsed (bytes_of self.now) ≡ Ok result.now }
        // The unit is one of those of its stream.
        ensures cut { IsCutOut U.kept self.now }
    {
        &self.header
    }

    /// The whole stream.
    pub fn data(&self) -> &'a [u8]
        ensures { result.now ≡ self.now.stream }
    {
        self.stream
    }

    /// How many bytes the unit has, its header's among them.
    pub fn size(&self) -> usize
        ensures value { result ≡ self.now.size }
        ensures within { self.now.offset + result ≤ length self.now.stream }
    {
        self.size
    }

    /// The place of its first header byte in the stream.
    pub fn offset(&self) -> usize
        ensures value { result ≡ self.now.offset }
        ensures behind_start_code { 3 ≤ result }
    {
        self.offset
    }

    /// The place of its start code in the stream: that of 00 00 01, or of the zero byte directly
    /// before it, where there is one (B.2.1).
    pub fn sc_offset(&self) -> usize
        ensures { result ≡ start_code_offset self.now }
    {
        let start = self.offset - 3;
        if start > 0 && self.stream[start - 1] == 0 {
            start - 1
        } else {
            start
        }
    }

    /// The unit's bytes, a part of the stream.
    pub fn as_ref(&self) -> &[u8]
        ensures value { result.now ≡ bytes_of self.now }
        ensures long { length result.now ≡ self.now.size }
        ensures within { length result.now ≤ length self.now.stream }
    {
        &self.stream[self.offset..self.offset + self.size]
    }

    /// The unit's bytes after its header, a part of the stream.
    pub fn payload(&self) -> &'a [u8]
        ensures value { result.now ≡ drop (U.header_len self.now.header) (bytes_of self.now) }
        ensures shorter { length result.now < length self.now.stream }
    {
        &self.stream[self.offset + self.header.len()..self.offset + self.size]
    }
}

impl<'a, U: Header + Copy> Nalu<'a, U> {
    /// The same unit once more. Its bytes are lent, not copied.
    pub fn copy(&self) -> Nalu<'a, U>
        ensures { result ≡ self.now }
    {
        Nalu {
            header: self.header,
            stream: self.stream,
            offset: self.offset,
            size: self.size,
        }
    }
}

impl<'a, U: Header> AsSlice<u8> for Nalu<'a, U> {
    ghost items = { bytes_of };

    fn as_slice(&self) -> &[u8] {
        self.as_ref()
    }
}
