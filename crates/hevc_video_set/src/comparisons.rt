//! What the derived comparisons answer: `==` is equality of all fields.
//!
//! Each function is the operator at one type, with its meaning as a contract, for proofs that rest
//! on it.
ghost use Rattle.std.specs.Prelude.{◌≡◌, ◌↔◌, IsTrue};

use crate::{HrdParams, PredWeightTable, SublayerHrdParameters, Vps, VuiParams};

/// Whether two values are equal in all fields, as `==` answers.
pub fn hrd_params_eq(a: &HrdParams, b: &HrdParams) -> bool
    ensures { IsTrue result ↔ (a.now ≡ b.now) }
{
    *a == *b
}

/// Whether two values are equal in all fields, as `==` answers.
pub fn pred_weight_table_eq(a: &PredWeightTable, b: &PredWeightTable) -> bool
    ensures { IsTrue result ↔ (a.now ≡ b.now) }
{
    *a == *b
}

/// Whether two values are equal in all fields, as `==` answers.
pub fn sublayer_hrd_parameters_eq(a: &SublayerHrdParameters, b: &SublayerHrdParameters) -> bool
    ensures { IsTrue result ↔ (a.now ≡ b.now) }
{
    *a == *b
}

/// Whether two values are equal in all fields, as `==` answers.
pub fn vps_eq(a: &Vps, b: &Vps) -> bool
    ensures { IsTrue result ↔ (a.now ≡ b.now) }
{
    *a == *b
}

/// Whether two values are equal in all fields, as `==` answers.
pub fn vui_params_eq(a: &VuiParams, b: &VuiParams) -> bool
    ensures { IsTrue result ↔ (a.now ≡ b.now) }
{
    *a == *b
}
