//! What the words of the command line ask for.
ghost use Rattle.std.specs.Prelude.{◌≡◌};
ghost use Rattle.hevc_check.specs.Requests.{asked_table};

use crate::table::Table;
use hevc_io::Word;

/// What the words ask for: none for the plainer bounds, `order` for display order. None where they
/// are other words.
pub(crate) fn read_table(words: &[Word]) -> Option<Table>
    ensures { result ≡ asked_table words.now }
{
    match words {
        [] => Some(Table::Bounds),
        [word] => {
            if word.as_bytes() != "order".as_bytes() {
                return None;
            }
            Some(Table::Order)
        }
        _ => None,
    }
}
