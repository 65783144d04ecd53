//! The members of a set.
ghost use Rattle.std.specs.Prelude.{◌≡◌, ◌+◌, ◌≤◌, ◌++◌, length, take};
ghost use Rattle.hevc_set_parts.specs.ShortTermRefPicSet.{plain_short_term_ref_pic_set};
ghost use Rattle.hevc_write_short_term.specs.Members as own;

use arrayvec::ArrayVec;
use hevc_set_parts::ShortTermRefPicSet;
use hevc_tables::ShortTermMember;

/// The members before the current picture, nearest first.
pub(crate) fn members_before(x: &ShortTermRefPicSet) -> ArrayVec<ShortTermMember, 16>
    ensures items { result.items ≡ own.before_of (plain_short_term_ref_pic_set x.now) }
    ensures count { length result.items ≡ x.now.num_negative_pics }
{
    let mut members = ArrayVec::new();
    let count = usize::from(x.num_negative_pics);
    push_members(
        &mut members,
        &x.delta_poc_s0[..count],
        &x.used_by_curr_pic_s0[..count],
    );
    members
}

/// The members after the current picture, nearest first.
pub(crate) fn members_after(x: &ShortTermRefPicSet) -> ArrayVec<ShortTermMember, 16>
    ensures items { result.items ≡ own.after_of (plain_short_term_ref_pic_set x.now) }
    ensures count { length result.items ≡ x.now.num_positive_pics }
{
    let mut members = ArrayVec::new();
    let count = usize::from(x.num_positive_pics);
    push_members(
        &mut members,
        &x.delta_poc_s1[..count],
        &x.used_by_curr_pic_s1[..count],
    );
    members
}

/// All members, those before the current picture first.
pub(crate) fn all_members(x: &ShortTermRefPicSet) -> ArrayVec<ShortTermMember, 16>
    ensures { result.items ≡ own.members_of (plain_short_term_ref_pic_set x.now) }
{
    let mut members = members_before(x);
    let count = usize::from(x.num_positive_pics);
    push_members(
        &mut members,
        &x.delta_poc_s1[..count],
        &x.used_by_curr_pic_s1[..count],
    );
    members
}

/// Appends the members of these differences.
#[tactic(auto)]
fn push_members(members: &mut ArrayVec<ShortTermMember, 16>, differences: &[i32], used: &[bool])
    requires room { length members.old.items + length differences.now ≤ 16 }
    requires pairs { length differences.now ≡ length used.now }
    ensures items { members.new.items ≡ members.old.items ++ own.members_from differences.now used.now }
    ensures count { length members.new.items ≡ length members.old.items + length differences.now }
{
    for i in 0..differences.len() {
        members.push(ShortTermMember {
            delta_poc: i64::from(differences[i]),
            used_by_curr_pic: used[i],
        });
    }
}
