//! The bounds of a row.
ghost use Rattle.std.specs.Prelude.{◌≡◌};
ghost use Rattle.hevc_element_names.specs.Names.{bounds_of};

use crate::bounds::{BOUND_SPANS, BOUNDS};
use crate::seen::row_place;
use crate::texts::text_at;
use hevc_spec::Row;

/// The bounds of the elements of a row (docs/TABLES.md), of a row that is a condition the
/// condition, and nothing where every value is allowed or there is no such row.
#[tactic(auto, unfolding(crate::specs::Names::bounds_of))]
pub fn bounds_of(row: Row) -> &'static [u8]
    ensures { result.now ≡ bounds_of row.0 row.1 }
{
    text_at(&BOUNDS, &BOUND_SPANS, row_place(row))
}
