//! Whose profile is read.
ghost use Rattle.std.specs.Prelude.{◌≡◌};
ghost use Rattle.hevc_tables.specs.ProfileTierLevelTable.{row_of as row_of_scope};
ghost use Rattle.hevc_profile.specs.Scopes.{plain_scope};

use hevc_spec::Row;

/// Whose profile is read: the whole stream's, or a sub-layer's.
#[derive(Clone, Copy)]
pub(crate) enum Scope {
    General,
    SubLayer,
}

/// The row of table 2 at which an element of a profile is told: those of a sub-layer are all of row
/// 30.
pub(crate) fn row_of(scope: Scope, number: u8) -> Row
    ensures { result ≡ row_of_scope (plain_scope scope) number }
{
    match scope {
        Scope::General => Row(2, number),
        Scope::SubLayer => Row(2, 30),
    }
}
