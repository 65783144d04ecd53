//! Sets whose members are written out (7.3.7, rows 7 to 12 of table 7).
ghost use Rattle.std.specs.Prelude.{◌≤◌};
ghost use Rattle.hevc_elements.specs.Words.{Fills};
ghost use Rattle.hevc_tables.specs.ShortTermTable as table;
ghost use Rattle.hevc_set_parts.specs.ShortTermRefPicSet.{plain_short_term_ref_pic_set};

use crate::listed_members::{read_listed_after, read_listed_before};
use crate::set_of_members::put_members;
use crate::side::Side;
use hevc_elements::rows::ue_u8;
use hevc_elements::{ElementReader, ParseError};
use hevc_set_parts::ShortTermRefPicSet;
use hevc_spec::Row;

/// Rows 7 to 12 of table 7.
#[tactic(auto, unfolding(hevc_tables::specs::ShortTermTable::listed_set))]
pub(crate) fn read_listed_set(
    r: &mut ElementReader<'_>,
    buffering: u8,
    set: &mut ShortTermRefPicSet,
) -> Result<(), ParseError>
    requires { buffering ≤ 16 }
    ensures { Fills plain_short_term_ref_pic_set
        (table.listed_set buffering) result set.old set.new r.old r.new }
{
    let num_negative_pics = ue_u8(r, Row(7, 7), 0, buffering)?;
    let num_positive_pics = ue_u8(r, Row(7, 8), 0, buffering - num_negative_pics)?;
    let mut before = Side::new();
    read_listed_before(r, num_negative_pics, &mut before)?;
    let mut after = Side::new();
    read_listed_after(r, num_positive_pics, &mut after)?;
    put_members(set, &before, &after);
    Ok(())
}
