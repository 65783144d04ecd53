//! What the derived comparison answers: `==` is equality of all fields.
ghost use Rattle.std.specs.Prelude.{◌≡◌, ◌↔◌, IsTrue};

use crate::RefPicListEntry;

/// Whether two places are the same, as `==` answers, for proofs that rest on it.
pub fn ref_pic_list_entry_eq(a: RefPicListEntry, b: RefPicListEntry) -> bool
    ensures { IsTrue result ↔ (a ≡ b) }
{
    a == b
}
