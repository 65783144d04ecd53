//! What is passed over while an IRAP picture is sought.
ghost use Rattle.std.specs.Prelude.{◌≡◌};
ghost use Rattle.hevc_pull.specs.Seeking.{is_irap_slice, is_other_slice};

use crate::units::type_number;
use hevc_bits::{Nalu, NaluHeader};

/// Whether a unit is a slice segment of an IRAP picture of the base layer (Table 7-1), whose
/// TemporalId is 0 (7.4.2.2).
pub(crate) fn is_irap_slice(nalu: &Nalu<'_, NaluHeader>) -> bool
    ensures { result ≡ is_irap_slice nalu.now.header }
{
    let nal_unit_type = type_number(nalu);
    let header = nalu.header();
    16 <= nal_unit_type
        && nal_unit_type <= 21
        && header.layer_id() == 0
        && header.temporal_id_plus1() == 1
}

/// Whether a unit is another slice segment.
pub(crate) fn is_other_slice(nalu: &Nalu<'_, NaluHeader>) -> bool
    ensures { result ≡ is_other_slice nalu.now.header }
{
    type_number(nalu) <= 31 && !is_irap_slice(nalu)
}
