//! Where units lie, whatever their headers are.
ghost use Rattle.std.specs.Prelude.{◌≡◌, ◌≤◌, ◌<◌, ◌+◌, ◌^◌, Ok, false, length};
ghost use Rattle.hevc_spec.specs.Units.{kept_bytes, units_from};
ghost use Rattle.hevc_spec.specs.UnitTypes.{is_end};
ghost use Rattle.hevc_bits.specs.FoundUnit.{unit_of};
ghost use Rattle.hevc_pull.specs.declared.extent.AnyHeader.{AnyHeader};
ghost use Rattle.hevc_pull.specs.Extents.{extent_of, first_extent, no_extent};
ghost use Rattle.hevc_pull.specs.Units.{IsFirstFrom};

use hevc_bits::{Header, Nalu, NaluHeader, UnitError};

/// Where a unit lies among bytes.
#[derive(Clone, Copy)]
pub(crate) struct Extent {
    /// The place of its first header byte.
    pub(crate) offset: u64,
    /// How many bytes it has, its header's among them.
    pub(crate) size: u64,
    /// The place after it, from which on the next unit is sought.
    pub(crate) next: u64,
}

/// In the place of a header that isn't looked at: all bytes up to the next start code are a unit's,
/// without the zeros at their end.
#[derive(Clone, Copy)]
struct AnyHeader;

impl Header for AnyHeader {
    ghost parsed = { λ bytes. Ok (record {}) };

    ghost kept = { λ bytes. bytes };

    ghost ends = { λ header. false };

    ghost header_len = { λ header. 0 };

    fn parse(_bytes: &[u8]) -> Result<AnyHeader, UnitError> {
        Ok(AnyHeader)
    }

    fn is_end(&self) -> bool {
        false
    }

    fn len(&self) -> usize {
        0
    }
}

/// Whether this is the type of an end unit (Table 7-1).
fn is_end(nal_unit_type: u8) -> bool
    ensures { result ≡ is_end nal_unit_type }
{
    nal_unit_type == 36 || nal_unit_type == 37
}

/// How many of the bytes up to the next start code are a unit's own: an end unit has two.
fn own_size(bytes: &[u8]) -> usize
    ensures value { result ≡ length (kept_bytes bytes.now) }
    ensures within { result ≤ length bytes.now }
{
    match bytes {
        [first, _, ..] if is_end(*first / 2 % 64) => 2,
        _ => bytes.len(),
    }
}

/// A unit of this size that lies at a place.
fn extent_at(offset: usize, size: usize) -> Extent
    requires { offset + size < 2 ^ 64 }
    ensures { result ≡ record { offset = offset; size = size; next = offset + size } }
{
    Extent {
        offset: offset as u64,
        size: size as u64,
        next: (offset + size) as u64,
    }
}

/// Where the first unit whose start code is at a place or after it lies; 0 where there is none.
pub(crate) fn first_extent(bytes: &[u8], from: usize) -> Extent
    requires { from ≤ length bytes.now }
    ensures { result ≡ first_extent (units_from kept_bytes from bytes.now) }
{
    let mut position = from;
    let found: Result<Nalu<'_, AnyHeader>, UnitError> = Nalu::next(bytes, &mut position);
    match found {
        Ok(unit) => extent_at(unit.offset(), own_size(unit.as_ref())),
        Err(_) => no_extent(),
    }
}

/// That of no unit.
pub(crate) fn no_extent() -> Extent
    ensures { result ≡ no_extent }
{
    Extent {
        offset: 0,
        size: 0,
        next: 0,
    }
}

/// Where a unit lies that was found.
fn extent_of(nalu: &Nalu<'_, NaluHeader>) -> Extent
    requires { nalu.now.offset + nalu.now.size < 2 ^ 64 }
    ensures { result ≡ extent_of (unit_of nalu.now) }
{
    extent_at(nalu.offset(), nalu.size())
}

/// The same of the first unit from a place on, as it was found. Only where its header is refused
/// the bytes are searched once more.
pub(crate) fn extent_of_found(
    found: &Result<Nalu<'_, NaluHeader>, UnitError>,
    bytes: &[u8],
    from: usize,
) -> Extent
    requires within { from ≤ length bytes.now }
    requires first { IsFirstFrom from bytes.now found.now }
    ensures { result ≡ first_extent (units_from kept_bytes from bytes.now) }
{
    match found {
        Ok(nalu) => extent_of(nalu),
        Err(UnitError::NoNal) => no_extent(),
        Err(_) => first_extent(bytes, from),
    }
}
