//! What the derived comparisons answer: `==` is equality of all fields.
//!
//! Each function is the operator at one type, with its meaning as a contract, for proofs that rest
//! on it.
ghost use Rattle.std.specs.Prelude.{◌≡◌, ◌↔◌, IsTrue};

use crate::{Pps, SliceHeader};

/// Whether two values are equal in all fields, as `==` answers.
pub fn pps_eq(a: &Pps, b: &Pps) -> bool
    ensures { IsTrue result ↔ (a.now ≡ b.now) }
{
    *a == *b
}

/// Whether two values are equal in all fields, as `==` answers.
pub fn slice_header_eq(a: &SliceHeader, b: &SliceHeader) -> bool
    ensures { IsTrue result ↔ (a.now ≡ b.now) }
{
    *a == *b
}
