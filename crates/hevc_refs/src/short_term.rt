//! The short-term members of a reference picture set (8.3.2).
ghost use Rattle.std.specs.Prelude.{◌≡◌, ◌≤◌, ◌+◌, ◌++◌, ◌&&◌, ◌+ℤ◌, not, map, filter};
ghost use Rattle.std.specs.Prelude.{if◌then◌else◌};
ghost use Rattle.std.specs.Ordering.{int_eq};
ghost use Rattle.arrayvec.specs.ArrayVec.{array_vec_len};
ghost use Rattle.hevc_walk_inputs.specs.Headers.{short_term_members, short_term_set_of};
ghost use Rattle.hevc_set_parts.specs.ShortTermRefPicSet.{plain_short_term_ref_pic_set};
ghost use Rattle.hevc_walk.specs.Pictures.{Head};
ghost use Rattle.hevc_walk.specs.ReferenceSets.{first_number, is_short_term, short_term_entry};
ghost use Rattle.hevc_walk.specs.ReferenceSets.{is_curr_short_term};
ghost use Rattle.hevc_dpb.specs.Views.{buffer_of};
ghost use Rattle.hevc_refs.specs.Marking.{is_wanted};

use crate::ref_pic_set::{RefPicSet, push_if};
use arrayvec::ArrayVec;
use hevc_dpb::{Dpb, Sought};
use hevc_set_parts::ShortTermRefPicSet;

/// The first short-term reference picture whose order count differs so from this one.
fn number_of<T: Copy>(dpb: &Dpb<T>, order_count: i32, delta: i32) -> Option<u64>
    ensures { result
        ≡ first_number (λ e. is_short_term e.mark && int_eq e.order_count (order_count +ℤ delta))
        (buffer_of dpb.now) }
{
    dpb.find(Sought::ShortTermCount(order_count as i128 + delta as i128))
}

/// Whether a member is one of those that the picture itself may refer to, or of the others.
fn is_wanted(is_used: bool, wanted: bool) -> bool
    ensures { result ≡ (if wanted then is_used else not is_used) }
{
    is_used == wanted
}

/// One half of a set: those of its members are pushed that the picture itself may refer to, or the
/// others.
fn push_members<T: Copy>(
    dpb: &Dpb<T>,
    order_count: i32,
    deltas: &[i32; 16],
    used: &[bool; 16],
    count: usize,
    wanted: bool,
    out: &mut ArrayVec<Option<u64>, 16>,
)
    requires half { count ≤ 16 }
    requires few { array_vec_len out.old + count ≤ 16 }
    ensures pushed { (p : Head) → order_count ≡ p.order_count → out.new.items ≡ out.old.items
        ++ map (short_term_entry p (buffer_of dpb.now))
        (filter (is_wanted wanted) (short_term_members count deltas.now used.now)) }
    ensures few { array_vec_len out.new ≤ array_vec_len out.old + count }
{
    for i in 0..count {
        let number = number_of(dpb, order_count, deltas[i]);
        push_if(out, number, is_wanted(used[i], wanted));
    }
}

/// RefPicSetStCurrBefore, RefPicSetStCurrAfter and RefPicSetStFoll: the short-term members, those
/// that the picture itself may refer to apart.
pub(crate) fn find_short_term<T: Copy>(
    dpb: &Dpb<T>,
    order_count: i32,
    set: &ShortTermRefPicSet,
    out: &mut RefPicSet,
)
    ensures before { (p : Head) → order_count ≡ p.order_count
        → out.new.st_curr_before.items ≡ map (short_term_entry p (buffer_of dpb.now))
        (filter is_curr_short_term
        (short_term_set_of (plain_short_term_ref_pic_set set.now)).negative_pics) }
    ensures after { (p : Head) → order_count ≡ p.order_count
        → out.new.st_curr_after.items ≡ map (short_term_entry p (buffer_of dpb.now))
        (filter is_curr_short_term
        (short_term_set_of (plain_short_term_ref_pic_set set.now)).positive_pics) }
    ensures foll { (p : Head) → order_count ≡ p.order_count
        → out.new.st_foll.items ≡ map (short_term_entry p (buffer_of dpb.now))
        (filter (λ m. not (is_curr_short_term m))
        ((short_term_set_of (plain_short_term_ref_pic_set set.now)).negative_pics
        ++ (short_term_set_of (plain_short_term_ref_pic_set set.now)).positive_pics)) }
    ensures others { out.new ≡ record out.old {
      st_curr_before = out.new.st_curr_before;
      st_curr_after = out.new.st_curr_after;
      st_foll = out.new.st_foll;
    } }
{
    let (num_negative, num_positive) = (
        set.num_negative_pics as usize,
        set.num_positive_pics as usize,
    );
    let (deltas0, used0) = (&set.delta_poc_s0, &set.used_by_curr_pic_s0);
    let (deltas1, used1) = (&set.delta_poc_s1, &set.used_by_curr_pic_s1);
    let before = &mut out.st_curr_before;
    before.clear();
    push_members(dpb, order_count, deltas0, used0, num_negative, true, before);
    let after = &mut out.st_curr_after;
    after.clear();
    push_members(dpb, order_count, deltas1, used1, num_positive, true, after);
    let foll = &mut out.st_foll;
    foll.clear();
    push_members(dpb, order_count, deltas0, used0, num_negative, false, foll);
    push_members(dpb, order_count, deltas1, used1, num_positive, false, foll);
}
