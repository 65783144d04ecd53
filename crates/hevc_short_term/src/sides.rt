//! The members on either side of the current picture (7.4.8).
ghost use Rattle.std.specs.Prelude.{◌≡◌, ◌≤◌, IsTrue, length};
ghost use Rattle.std.specs.List.{list_all};
ghost use Rattle.hevc_tables.specs.ShortTermTable.{deltas, is_i32};
ghost use Rattle.hevc_tables.specs.ShortTermTable.{members_before as before_by_table};
ghost use Rattle.hevc_tables.specs.ShortTermTable.{members_after as after_by_table};
ghost use Rattle.hevc_tables.specs.ShortTermTable.{has_room as has_room_by_table};
ghost use Rattle.hevc_short_term_laws.specs.Orders.{Rises};
ghost use Rattle.hevc_short_term_laws.specs.Sides.{LieBefore, LieAfter};

use crate::side::Side;
use hevc_tables::ShortTermMember;

/// The members before the current picture, nearest first, out of members in rising order.
#[tactic(auto, using(hevc_short_term_laws::proofs::Parts::parts), unfolding(hevc_tables::specs::ShortTermTable::members_before))]
pub(crate) fn members_before(members: &[ShortTermMember]) -> Side
    requires few { length members.now ≤ 16 }
    requires rises { Rises (deltas members.now) }
    requires fit { IsTrue (list_all is_i32 (deltas members.now)) }
    ensures items { result ≡ before_by_table members.now }
    ensures before { LieBefore result }
{
    let mut before = Side::new();
    for i in (0..members.len()).rev() {
        let member = members[i];
        if member.delta_poc < 0 {
            before.push(member);
        }
    }
    before
}

/// The members after the current picture, nearest first, out of members in rising order.
#[tactic(auto, using(hevc_short_term_laws::proofs::Parts::parts), unfolding(hevc_tables::specs::ShortTermTable::members_after))]
pub(crate) fn members_after(members: &[ShortTermMember]) -> Side
    requires few { length members.now ≤ 16 }
    requires rises { Rises (deltas members.now) }
    requires fit { IsTrue (list_all is_i32 (deltas members.now)) }
    ensures items { result ≡ after_by_table members.now }
    ensures after { LieAfter result }
{
    let mut after = Side::new();
    for i in 0..members.len() {
        let member = members[i];
        if 0 < member.delta_poc {
            after.push(member);
        }
    }
    after
}

/// Whether members are at most 16, with differences of 32 bits.
#[tactic(auto, unfolding(hevc_tables::specs::ShortTermTable::has_room))]
pub(crate) fn has_room(members: &[ShortTermMember]) -> bool
    ensures { result ≡ has_room_by_table members.now }
{
    members.len() <= 16 && have_32_bits(members)
}

/// Whether the differences of members are of 32 bits.
fn have_32_bits(members: &[ShortTermMember]) -> bool
    ensures { result ≡ list_all is_i32 (deltas members.now) }
{
    for i in 0..members.len() {
        let delta_poc = members[i].delta_poc;
        if delta_poc < i64::from(i32::MIN) || i64::from(i32::MAX) < delta_poc {
            return false;
        }
    }
    true
}
