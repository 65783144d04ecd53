//! The type of a unit.
ghost use Rattle.std.specs.Prelude.{◌≡◌, ◌↔◌, IsTrue};
ghost use Rattle.hevc_spec.specs.UnitTypes.{is_slice};

use hevc_bits::NaluHeader;

/// Whether a unit with this header is of the type of this number.
pub(crate) fn is_of_type(header: &NaluHeader, nal_unit_type: u8) -> bool
    ensures { IsTrue result ↔ (header.now.nal_unit_type ≡ nal_unit_type) }
{
    header.nalu_type() as u8 == nal_unit_type
}

/// Whether a unit with this header is a slice segment.
pub(crate) fn is_of_slice(header: &NaluHeader) -> bool
    ensures { result ≡ is_slice header.now.nal_unit_type }
{
    header.nalu_type().is_slice()
}
