//! What H.265 calls the elements of the tables' rows, and their bounds.
ghost use Rattle.hevc_element_calls.specs.Names.{TellsBounds, TellsName};

use hevc_element_calls::{element_bounds, element_name};

/// What H.265 calls the elements of a row of a table of docs/TABLES.md. Answers how many bytes that
/// has, 0 where there is no such row.
#[unsafe(no_mangle)]
pub extern "C" fn fezhalum_element_name(table: u8, row: u8, text: &mut [u8]) -> usize
    ensures { TellsName table row text.old text.new result }
{
    element_name(table, row, text)
}

/// The bounds of the elements of a row. Answers how many bytes they have, 0 where every value is
/// allowed or there is no such row.
#[unsafe(no_mangle)]
pub extern "C" fn fezhalum_element_bounds(table: u8, row: u8, text: &mut [u8]) -> usize
    ensures { TellsBounds table row text.old text.new result }
{
    element_bounds(table, row, text)
}
