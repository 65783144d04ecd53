//! What the derived comparisons answer: `==` is equality of all fields.
//!
//! Each function is the operator at one type, with its meaning as a contract, for proofs that rest
//! on it.
ghost use Rattle.std.specs.Prelude.{◌≡◌, ◌↔◌, IsTrue};

use crate::{Point, Rect, Sps, SpsRangeExtension, SpsSccExtension};

/// Whether two values are equal in all fields, as `==` answers.
pub fn point_eq(a: &Point<u32>, b: &Point<u32>) -> bool
    ensures { IsTrue result ↔ (a.now ≡ b.now) }
{
    *a == *b
}

/// Whether two values are equal in all fields, as `==` answers.
pub fn rect_eq(a: &Rect<u32>, b: &Rect<u32>) -> bool
    ensures { IsTrue result ↔ (a.now ≡ b.now) }
{
    *a == *b
}

/// Whether two values are equal in all fields, as `==` answers.
pub fn sps_eq(a: &Sps, b: &Sps) -> bool
    ensures { IsTrue result ↔ (a.now ≡ b.now) }
{
    *a == *b
}

/// Whether two values are equal in all fields, as `==` answers.
pub fn sps_range_extension_eq(a: &SpsRangeExtension, b: &SpsRangeExtension) -> bool
    ensures { IsTrue result ↔ (a.now ≡ b.now) }
{
    *a == *b
}

/// Whether two values are equal in all fields, as `==` answers.
pub fn sps_scc_extension_eq(a: &SpsSccExtension, b: &SpsSccExtension) -> bool
    ensures { IsTrue result ↔ (a.now ≡ b.now) }
{
    *a == *b
}
