//! Which one of several the header means.
ghost use Rattle.std.specs.Prelude.{◌≡◌, ◌-◌, ◌≤◌, nat_lt, IfOk};
ghost use Rattle.hevc_spec.specs.Rows.{bits_row};
ghost use Rattle.hevc_elements.specs.Words.{when, Reads};
ghost use Rattle.hevc_tables.specs.MathFunctions.{ceil_log2 as logarithm};

use hevc_elements::rows::bits_u8;
use hevc_elements::{ElementReader, ParseError};
use hevc_slice_parts::ceil_log2;
use hevc_spec::Row;

/// The index of one of so many, which is there where there are several; else 0.
#[tactic(auto, unfolding(hevc_spec::specs::Rows::when))]
pub(crate) fn read_index(r: &mut ElementReader<'_>, row: Row, count: u8) -> Result<u8, ParseError>
    ensures read { Reads (λ n. n)
        (when (nat_lt 1 count) 0 (bits_row row (logarithm count) 0 (count - 1))) result r.old r.new }
    ensures bound { IfOk result (λ n. n ≤ count - 1) }
{
    if count > 1 {
        bits_u8(r, row, ceil_log2(u32::from(count)), 0, count - 1)
    } else {
        Ok(0)
    }
}
