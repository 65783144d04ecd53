//! Levels (7.3.3, rows 27 and 31 of table 2).
ghost use Rattle.hevc_elements.specs.Reads.{Reads};
ghost use Rattle.hevc_tables.specs.ProfileTierLevelTable.{level as level_table};
ghost use Rattle.hevc_set_parts.specs.Level.{level_number};

use hevc_elements::rows::{out_of_range, refusal};
use hevc_elements::{Descriptor, ElementReader, ParseError};
use hevc_set_parts::Level;
use hevc_spec::Row;

/// The level whose number is there, u(8). Other numbers are out of range.
#[tactic(auto, using(crate::proofs::LevelNumbers::level_numbers), unfolding(hevc_tables::specs::ProfileTierLevelTable::level))]
pub(crate) fn read_level(r: &mut ElementReader<'_>, row: Row) -> Result<Level, ParseError>
    ensures read { Reads level_number (level_table row) result r.old r.new }
{
    r.tell_element(row, Descriptor::U(8));
    let mut ahead = r.fork();
    let value = match ahead.read_bits(8) {
        Ok(value) => value as u8,
        Err(error) => return Err(refusal(error, row)),
    };
    match Level::n(value) {
        Some(level) => {
            r.go_to(ahead);
            Ok(level)
        }
        None => Err(out_of_range(row)),
    }
}
