//! What the derived comparisons answer, `==` equality of all fields, and what `default()` is.
//!
//! Each function is the operator at one type, with its meaning as a contract, for proofs that rest
//! on it.
ghost use Rattle.std.specs.Prelude.{◌≡◌, ◌↔◌, IsTrue};
ghost use Rattle.hevc_pictures.specs.Marks.{Unmarked};
ghost use Rattle.hevc_pictures.specs.declared.reference.Reference.TheVariants.{None};

use crate::{Limits, PictureData, Reference};

/// Whether two marks are the same, as `==` answers.
pub fn reference_eq(a: Reference, b: Reference) -> bool
    ensures { IsTrue result ↔ (a ≡ b) }
{
    a == b
}

/// The mark of what is unused for reference, as `default()` gives.
pub fn reference_default() -> Reference
    ensures { result ≡ None }
{
    Reference::default()
}

/// A picture of which nothing is known, as `default()` gives: numbers are 0, flags aren't set, and
/// it is unused for reference.
pub fn picture_data_default() -> PictureData
    ensures { Unmarked result }
{
    PictureData::default()
}

/// Whether two pictures' data are equal in all fields, as `==` answers.
pub fn picture_data_eq(a: &PictureData, b: &PictureData) -> bool
    ensures { IsTrue result ↔ (a.now ≡ b.now) }
{
    *a == *b
}

/// Whether two sub-layers' limits are equal in all fields, as `==` answers.
pub fn limits_eq(a: &Limits, b: &Limits) -> bool
    ensures { IsTrue result ↔ (a.now ≡ b.now) }
{
    *a == *b
}
