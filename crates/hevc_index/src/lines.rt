//! The lines that are written.
ghost use Rattle.std.specs.Prelude.{◌≡◌, ◌++◌, IfOk, OnOk, map};
ghost use Rattle.std.specs.String.{string_bytes};
ghost use Rattle.hevc_index.specs.Indexing.{plain_point};
ghost use Rattle.hevc_index.specs.Written.{no_point_line, point_line, points_text};

use crate::point::Point;
use std::alloc::{AllocError, Global};

/// A line for each point, and a last one with their number.
#[tactic(auto, using(std::proofs::Common::append_assoc))]
pub(crate) fn points_text(alloc: Global, points: &[Point]) -> Result<String, AllocError>
    ensures { IfOk result (λ text.
        string_bytes text ≡ points_text (map plain_point points.now)) }
{
    let mut text = String::new(alloc);
    for point in points {
        push_point(&mut text, point)?;
    }
    let count = points.len();
    writeln!(text, "end points {count}")?;
    Ok(text)
}

/// Adds the line of a point: its number, the unit of its first slice segment, the place of that
/// unit's header, its type and its order count.
fn push_point(text: &mut String, point: &Point) -> Result<(), AllocError>
    ensures { OnOk result (string_bytes text.new
        ≡ string_bytes text.old ++ point_line (plain_point point.now)) }
{
    let number = point.number;
    let unit = point.unit;
    let offset = point.offset;
    let kind = point.nalu_type as u8;
    let count = point.order_count;
    writeln!(
        text,
        "point {number} unit {unit} offset {offset} type {kind} poc {count}"
    )
}

/// The line where no point has a number.
pub(crate) fn no_point_line(alloc: Global, number: u64) -> Result<String, AllocError>
    ensures { IfOk result (λ line. string_bytes line ≡ no_point_line number) }
{
    let mut line = String::new(alloc);
    writeln!(line, "no point {number}")?;
    Ok(line)
}
