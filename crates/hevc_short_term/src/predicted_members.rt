//! The members of a predicted set (7.4.8).
ghost use Rattle.std.specs.Prelude.{◌≡◌, ◌+◌, ◌≤◌, ◌<◌, [], ◌++◌, length, reverse};
ghost use Rattle.hevc_tables.specs.ShortTermTable.{deltas, shifted, shifted_one};
ghost use Rattle.hevc_tables.specs.ShortTermTable.{predicted_members as members_by_table};
ghost use Rattle.hevc_set_parts.specs.ShortTermRefPicSet.{plain_short_term_ref_pic_set};
ghost use Rattle.hevc_short_term_laws.specs.Orders.{Rises};

use arrayvec::ArrayVec;
use hevc_set_parts::ShortTermRefPicSet;
use hevc_tables::{MemberFlags, ShortTermMember};

/// The members of a set that is predicted from another, in rising order.
///
/// The other set's members before its picture fall and those after it rise, so those before are
/// taken from the last to the first, then the picture, then those after.
#[tactic(auto)]
pub(crate) fn predicted_members(
    other: &ShortTermRefPicSet,
    shift: i32,
    flags: &[MemberFlags],
) -> ArrayVec<ShortTermMember, 17>
    requires { length flags.now ≡ other.now.num_delta_pocs + 1 }
    ensures members { result.items
        ≡ members_by_table (plain_short_term_ref_pic_set other.now) shift flags.now }
    ensures rises { Rises (deltas result.items) }
{
    let num_before = usize::from(other.num_negative_pics);
    let num_after = usize::from(other.num_positive_pics);
    let mut members = ArrayVec::new();
    push_backwards(
        &mut members,
        &other.delta_poc_s0[..num_before],
        flags,
        shift,
    );
    push_shifted(&mut members, 0, flags[num_before + num_after], shift);
    push_forwards(
        &mut members,
        &other.delta_poc_s1[..num_after],
        &flags[num_before..],
        shift,
    );
    members
}

/// Appends what differences give, from the last to the first.
#[tactic(auto, using(crate::proofs::Shifts::shifts))]
fn push_backwards(
    members: &mut ArrayVec<ShortTermMember, 17>,
    differences: &[i32],
    flags: &[MemberFlags],
    shift: i32,
)
    requires room { length members.old.items + length differences.now ≤ 17 }
    requires flagged { length differences.now ≤ length flags.now }
    ensures items { members.new.items
        ≡ members.old.items ++ reverse (shifted shift differences.now flags.now) }
    ensures count { length members.new.items ≤ length members.old.items + length differences.now }
{
    for i in (0..differences.len()).rev() {
        push_shifted(members, differences[i], flags[i], shift);
    }
}

/// Appends what differences give, in their order.
#[tactic(auto, using(crate::proofs::Shifts::shifts))]
fn push_forwards(
    members: &mut ArrayVec<ShortTermMember, 17>,
    differences: &[i32],
    flags: &[MemberFlags],
    shift: i32,
)
    requires room { length members.old.items + length differences.now ≤ 17 }
    requires flagged { length differences.now ≤ length flags.now }
    ensures { members.new.items ≡ members.old.items ++ shifted shift differences.now flags.now }
{
    for i in 0..differences.len() {
        push_shifted(members, differences[i], flags[i], shift);
    }
}

/// Appends what one difference gives.
#[tactic(auto, unfolding(hevc_tables::specs::ShortTermTable::shifted_one))]
fn push_shifted(
    members: &mut ArrayVec<ShortTermMember, 17>,
    difference: i32,
    flags: MemberFlags,
    shift: i32,
)
    requires { length members.old.items < 17 }
    ensures items { members.new.items ≡ members.old.items ++ shifted_one shift difference flags }
    ensures count { length members.new.items ≤ length members.old.items + 1 }
{
    let delta_poc = i64::from(difference) + i64::from(shift);
    if flags.use_delta_flag && delta_poc != 0 {
        members.push(ShortTermMember {
            delta_poc,
            used_by_curr_pic: flags.used_by_curr_pic_flag,
        });
    }
}
