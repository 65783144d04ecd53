//! Names of rows and their bounds.
ghost use Rattle.std.specs.Prelude.{◌≡◌};
ghost use Rattle.hevc_row_names.specs.Texts.{text_of};
ghost use Rattle.hevc_element_names.specs.Names.{bounds_of};
ghost use Rattle.hevc_element_calls.specs.Names.{TellsBounds, TellsName, TellsText, of_row};

use crate::ended::write_ended;
use hevc_row_names::row_name;
use hevc_spec::Row;

/// What H.265 calls the elements of a row, with their indices; both numbers are those of
/// docs/TABLES.md. As many of its bytes as there is room for are written, and zeros in all of the
/// room after them, of which there is one at least. The answer is how many bytes the name has, 0
/// where there is no such row.
pub fn element_name(table: u8, row: u8, text: &mut [u8]) -> usize
    ensures { TellsName table row text.old text.new result }
{
    write_text(name_of(table, row), text)
}

/// The bounds of the elements of a row (docs/TABLES.md), of a row that is a condition the
/// condition, as a name is told: 0 where every value is allowed or there is no such row.
pub fn element_bounds(table: u8, row: u8, text: &mut [u8]) -> usize
    ensures { TellsBounds table row text.old text.new result }
{
    write_text(bounds_of(table, row), text)
}

/// The elements of a row.
fn name_of(table: u8, row: u8) -> &'static [u8]
    ensures { result.now ≡ of_row text_of table row }
{
    match row_name(table, row) {
        Some(name) => name.element.as_bytes(),
        None => &[],
    }
}

/// The bounds of a row.
fn bounds_of(table: u8, row: u8) -> &'static [u8]
    ensures { result.now ≡ of_row bounds_of table row }
{
    match row_name(table, row) {
        Some(_) => hevc_element_names::bounds_of(Row(table, row)),
        None => &[],
    }
}

/// Writes as much of a text as there is room for, and zeros in all of the room after it, of which
/// there is one at least. The answer is how many bytes the text has.
pub fn write_text(text: &[u8], room: &mut [u8]) -> usize
    ensures { TellsText text.now room.old room.new result }
{
    write_ended(text, room);
    text.len()
}
