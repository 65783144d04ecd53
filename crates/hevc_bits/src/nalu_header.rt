//! The header of an H.265 unit (7.3.1.2).

ghost use Rattle.std.specs.Prelude.{◌≡◌, ◌≤◌, ◌<◌, ◌==◌, ◌⊎◌, ◌↔◌, None, IfSome};
ghost use Rattle.hevc_bits.specs.NaluType.{nalu_type_number};

use crate::header::{Header, UnitError};
use crate::nalu_type::NaluType;
use std::marker::Model;

/// The header of an H.265 unit: its type, layer id and temporal id. It has two bytes.
#[derive(Clone, Copy, Eq)]
pub struct NaluHeader {
    nalu_type: NaluType,
    layer_id: u8,
    temporal_id_plus1: u8,
}

impl Model for NaluHeader {
    ghost use Rattle.std.specs.Prelude.{◌≤◌};
    ghost use Rattle.hevc_spec.specs.UnitHeader.{UnitHeader};

    ghost Value = { UnitHeader };

    ghost use Rattle.hevc_bits.specs.NaluType.{nalu_type_number, nalu_type_of};
    ghost use Rattle.hevc_bits.specs.TypeNumbers.{header_given_back};

    ghost view = { λ h. record { nal_unit_type = nalu_type_number h.nalu_type; nuh_layer_id = h.layer_id; nuh_temporal_id_plus1 = h.temporal_id_plus1 } };

    ghost invariant = { λ h. (h.layer_id ≤ 63) × (1 ≤ h.temporal_id_plus1) × (h.temporal_id_plus1 ≤ 7) };

    ghost inverse = { λ v. record { nalu_type = nalu_type_of v.nal_unit_type; layer_id = v.nuh_layer_id; temporal_id_plus1 = v.nuh_temporal_id_plus1 } };

    ghost inverse_ok = { λ h _. header_given_back h.nalu_type (λ t. record { nalu_type = t; layer_id = h.layer_id; temporal_id_plus1 = h.temporal_id_plus1 }) };
}

impl NaluHeader {
    /// The header of this type, layer id and temporal id plus 1. `None` exactly where the layer id
    /// (`nuh_layer_id`) is above 63 or the temporal id plus 1 (`nuh_temporal_id_plus1`) isn't 1 to
    /// 7.
    pub fn new(nalu_type: NaluType, layer_id: u8, temporal_id_plus1: u8) -> Option<NaluHeader>
        ensures none { (result ≡ None)
            ↔ ((63 < layer_id) ⊎ ((temporal_id_plus1 ≡ 0) ⊎ (7 < temporal_id_plus1))) }
        ensures nalu_type { IfSome result (λ h. h.nal_unit_type ≡ nalu_type_number nalu_type) }
        ensures layer_id { IfSome result (λ h. h.nuh_layer_id ≡ layer_id) }
        ensures temporal_id { IfSome result (λ h. h.nuh_temporal_id_plus1 ≡ temporal_id_plus1) }
    {
        if layer_id > 63 || temporal_id_plus1 == 0 || temporal_id_plus1 > 7 {
            return None;
        }
        Some(NaluHeader {
            nalu_type,
            layer_id,
            temporal_id_plus1,
        })
    }

    /// The type (`nal_unit_type`).
    pub fn nalu_type(&self) -> NaluType
        ensures { nalu_type_number result ≡ self.now.nal_unit_type }
    {
        self.nalu_type
    }

    /// The layer (`nuh_layer_id`), 0 to 63.
    pub fn layer_id(&self) -> u8
        ensures value { result ≡ self.now.nuh_layer_id }
        ensures bound { result ≤ 63 }
    {
        self.layer_id
    }

    /// The temporal id plus 1 (`nuh_temporal_id_plus1`), 1 to 7.
    pub fn temporal_id_plus1(&self) -> u8
        ensures value { result ≡ self.now.nuh_temporal_id_plus1 }
        ensures positive { 1 ≤ result }
        ensures bound { result ≤ 7 }
    {
        self.temporal_id_plus1
    }
}

// Two types are equal where their numbers are.
fn same_type(a: NaluType, b: NaluType) -> bool
    ensures { result ≡ (nalu_type_number a == nalu_type_number b) }
{
    a == b
}

impl PartialEq for NaluHeader {
    ghost use Rattle.std.specs.Prelude.{◌==◌, ◌&&◌};
    ghost use Rattle.std.proofs.Common.{rules};
    ghost use Rattle.std.specs.Cmp.Rules.{comparing};

    ghost eq = { λ a b. a.nal_unit_type == b.nal_unit_type && a.nuh_layer_id == b.nuh_layer_id && a.nuh_temporal_id_plus1 == b.nuh_temporal_id_plus1 };

    ghost laws = { Prim.search (comparing, rules) };

    fn eq(&self, other: &NaluHeader) -> bool {
        same_type(self.nalu_type, other.nalu_type)
            && self.layer_id == other.layer_id
            && self.temporal_id_plus1 == other.temporal_id_plus1
    }
}

impl Header for NaluHeader {
    ghost use Rattle.std.specs.Prelude.{◌==◌};
    ghost use Rattle.hevc_spec.specs.UnitTypes.{is_end as is_end_number};
    ghost use Rattle.hevc_spec.specs.Units.{kept_bytes};
    ghost use Rattle.hevc_bits.specs.ParsedHeader.{parsed_header};

    ghost parsed = { parsed_header };

    ghost kept = { kept_bytes };

    ghost ends = { λ h. is_end_number h.nal_unit_type };

    ghost header_len = { λ _. 2 };

    fn parse(bytes: &[u8]) -> Result<NaluHeader, UnitError> {
        let &[first, second, ..] = bytes else {
            return Err(UnitError::TruncatedNalu);
        };
        let number = first / 2 % 64;
        let Some(nalu_type) = NaluType::n(u32::from(number)) else {
            return Err(UnitError::InvalidNaluType(number));
        };
        let temporal_id_plus1 = second % 8;
        if temporal_id_plus1 == 0 {
            return Err(UnitError::TemporalIdZero);
        }
        Ok(NaluHeader {
            nalu_type,
            layer_id: first % 2 * 32 + second / 8,
            temporal_id_plus1,
        })
    }

    fn is_end(&self) -> bool {
        matches!(self.nalu_type, NaluType::EosNut | NaluType::EobNut)
    }

    fn len(&self) -> usize {
        2
    }
}
