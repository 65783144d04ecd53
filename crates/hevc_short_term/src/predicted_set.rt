//! Sets that are predicted from others (7.3.7, rows 2 to 6 of table 7).
ghost use Rattle.std.specs.Prelude.{length, map};
ghost use Rattle.std.specs.Prelude.{◌≤◌, ◌<◌};
ghost use Rattle.hevc_elements.specs.Words.{Fills};
ghost use Rattle.hevc_tables.specs.ShortTermTable as table;
ghost use Rattle.hevc_tables.specs.ShortTermTable.{deltas};
ghost use Rattle.hevc_set_parts.specs.ShortTermRefPicSet.{plain_short_term_ref_pic_set};
ghost use Rattle.hevc_short_term_laws.specs.Orders.{Rises};

use crate::member_flags::read_all_flags;
use crate::predicted_members::predicted_members;
use crate::prediction::{read_prediction, shift_of};
use crate::set_of_members::put_members;
use crate::sides::{has_room, members_after, members_before};
use hevc_elements::rows::check;
use hevc_elements::{ElementReader, ParseError};
use hevc_set_parts::ShortTermRefPicSet;
use hevc_spec::Row;
use hevc_tables::ShortTermMember;

/// Rows 2 to 6 of table 7, for number `st_rps_idx` of `count` sets or for one after them.
#[tactic(auto, using(crate::proofs::Parts::set_at), unfolding(hevc_tables::specs::ShortTermTable::predicted_set))]
pub(crate) fn read_predicted_set(
    r: &mut ElementReader<'_>,
    sets: &[ShortTermRefPicSet],
    count: u8,
    st_rps_idx: u8,
    set: &mut ShortTermRefPicSet,
) -> Result<(), ParseError>
    requires some { 0 < st_rps_idx }
    requires known { st_rps_idx ≤ length sets.now }
    ensures { Fills plain_short_term_ref_pic_set
        (table.predicted_set (map plain_short_term_ref_pic_set sets.now) count st_rps_idx)
        result set.old set.new r.old r.new }
{
    read_prediction(r, count, st_rps_idx, set)?;
    let other = &sets[usize::from(st_rps_idx - 1 - set.delta_idx_minus1)];
    let flags = read_all_flags(r, other.num_delta_pocs)?;
    let members = predicted_members(other, shift_of(set), flags.as_slice());
    fit_members(r, members.as_slice(), set)
}

/// Row 6 of table 7; then the set has these members.
#[tactic(auto, using(hevc_short_term_laws::proofs::Parts::room), unfolding(hevc_tables::specs::ShortTermTable::fitting_set))]
fn fit_members(
    r: &mut ElementReader<'_>,
    members: &[ShortTermMember],
    set: &mut ShortTermRefPicSet,
) -> Result<(), ParseError>
    requires { Rises (deltas members.now) }
    ensures { Fills plain_short_term_ref_pic_set
        (table.fitting_set members.now) result set.old set.new r.old r.new }
{
    check(r, Row(7, 6), has_room(members))?;
    let before = members_before(members);
    let after = members_after(members);
    put_members(set, &before, &after);
    Ok(())
}
