//! The line that is written.
ghost use Rattle.std.specs.Prelude.{◌≡◌, IfOk};
ghost use Rattle.std.specs.String.{string_bytes};
ghost use Rattle.hevc_bench.specs.Counts.{line_of};

use crate::count::Count;
use std::alloc::{AllocError, Global};

/// The line of a count.
pub(crate) fn line_text(alloc: Global, count: Count) -> Result<String, AllocError>
    ensures { IfOk result (λ text. string_bytes text ≡ line_of count) }
{
    match count {
        Count::Pictures(number) => format!(in alloc; "pictures {number}\n"),
        Count::Bytes(number) => format!(in alloc; "bytes {number}\n"),
        Count::Units(number) => format!(in alloc; "units {number}\n"),
        Count::Refused(unit) => format!(in alloc; "refused unit {unit}\n"),
    }
}
