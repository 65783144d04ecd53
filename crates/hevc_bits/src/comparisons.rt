//! What the derived comparisons of `NaluType` and its `default()` answer: order goes by number.
//!
//! Each function is one operator, with its meaning as a contract, for proofs that rest on it.
ghost use Rattle.std.specs.Prelude.{◌≡◌, ◌↔◌, ◌<◌, IsTrue};
ghost use Rattle.std.specs.Ordering.{nat_cmp};
ghost use Rattle.hevc_bits.specs.NaluType.{nalu_type_number};

use crate::NaluType;
use std::cmp::Ordering;

/// Whether two types are the same, as `==` answers.
pub fn nalu_type_eq(a: NaluType, b: NaluType) -> bool
    ensures { IsTrue result ↔ (a ≡ b) }
{
    a == b
}

/// Whether the number of `a` is below that of `b`, as `<` answers.
pub fn nalu_type_lt(a: NaluType, b: NaluType) -> bool
    ensures { IsTrue result ↔ (nalu_type_number a < nalu_type_number b) }
{
    a < b
}

/// How the numbers of two types compare, as `cmp` answers.
pub fn nalu_type_cmp(a: NaluType, b: NaluType) -> Ordering
    ensures { result ≡ nat_cmp (nalu_type_number a) (nalu_type_number b) }
{
    a.cmp(&b)
}

/// The type of number 0, as `default()` gives.
pub fn nalu_type_default() -> NaluType
    ensures { nalu_type_number result ≡ 0 }
{
    NaluType::default()
}
