//! A set with given members.
ghost use Rattle.std.specs.Prelude.{◌≡◌, ◌+◌, ◌≤◌, length};
ghost use Rattle.hevc_tables.specs.ShortTermTable.{with_members};
ghost use Rattle.hevc_set_parts.specs.ShortTermRefPicSet.{plain_short_term_ref_pic_set};
ghost use Rattle.hevc_short_term_laws.specs.Sides.{LieBefore, LieAfter};

use crate::side::Side;
use hevc_set_parts::ShortTermRefPicSet;

/// Puts the members before the current picture and those after it into a set.
#[tactic(auto, using(hevc_short_term_laws::proofs::FilledArrays::orders), unfolding(hevc_tables::specs::ShortTermTable::with_members))]
pub(crate) fn put_members(set: &mut ShortTermRefPicSet, before: &Side, after: &Side)
    requires falls { LieBefore before.now }
    requires rises { LieAfter after.now }
    requires room { length before.now + length after.now ≤ 16 }
    ensures { plain_short_term_ref_pic_set set.new
        ≡ with_members (plain_short_term_ref_pic_set set.old) before.now after.now }
{
    set.num_negative_pics = before.count();
    set.num_positive_pics = after.count();
    set.delta_poc_s0 = before.differences();
    set.used_by_curr_pic_s0 = before.used();
    set.delta_poc_s1 = after.differences();
    set.used_by_curr_pic_s1 = after.used();
    set.num_delta_pocs = u32::from(before.count() + after.count());
}
