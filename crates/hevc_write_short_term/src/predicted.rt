//! Sets that are predicted from others (7.3.7, rows 2 to 6 of table 7).
ghost use Rattle.std.specs.Prelude.{◌≡◌, ◌≤◌, ◌++◌, [], ◌∷◌, pos, map, slice_index_or, OnOk};
ghost use Rattle.hevc_records.specs.ShortTermRefPicSet.{default_short_term_ref_pic_set};
ghost use Rattle.hevc_tables.specs.ShortTermTable as table;
ghost use Rattle.hevc_set_parts.specs.ShortTermRefPicSet.{plain_short_term_ref_pic_set};
ghost use Rattle.hevc_write_short_term.specs.Members as own;
ghost use Rattle.hevc_write_elements.specs.Filling.{Writes};

use crate::member_flags::write_flags_for;
use crate::members::all_members;
use hevc_bit_writer::BitWriter;
use hevc_set_parts::ShortTermRefPicSet;
use hevc_write_elements::rows::{flag, ue, ue_u8_if};
use std::alloc::AllocError;

/// Rows 2 to 6 of table 7, for number `st_rps_idx` of `count` sets or for one after them.
pub(crate) fn write_predicted_set(
    w: &mut BitWriter,
    sets: &[ShortTermRefPicSet],
    count: u8,
    st_rps_idx: u8,
    x: &ShortTermRefPicSet,
) -> Result<(), AllocError>
    ensures rows { OnOk result (Writes
        (table.predicted_set (map plain_short_term_ref_pic_set sets.now) count st_rps_idx)
        own.whole (plain_short_term_ref_pic_set x.now) w.old w.new) }
    ensures flags { OnOk result (own.EndsInFlags
        (own.flags_of_set (map plain_short_term_ref_pic_set sets.now) st_rps_idx
        (plain_short_term_ref_pic_set x.now)) w.new) }
{
    ue_u8_if(w, st_rps_idx == count, x.delta_idx_minus1)?; // Row(7, 2)
    flag(w, x.delta_rps_sign)?; // Row(7, 3)
    ue(w, u32::from(x.abs_delta_rps_minus1))?; // Row(7, 4)
    write_member_flags(w, &other_set(sets, st_rps_idx, x), x)?;
    Ok(())
}

/// The set that predicts this one, else the empty one.
fn other_set(
    sets: &[ShortTermRefPicSet],
    st_rps_idx: u8,
    x: &ShortTermRefPicSet,
) -> ShortTermRefPicSet
    ensures { plain_short_term_ref_pic_set result
        ≡ slice_index_or (map plain_short_term_ref_pic_set sets.now)
        (table.reference_index st_rps_idx (plain_short_term_ref_pic_set x.now))
        default_short_term_ref_pic_set }
{
    let i = st_rps_idx
        .saturating_sub(1)
        .saturating_sub(x.delta_idx_minus1);
    match sets.get(usize::from(i)) {
        Some(other) => *other,
        None => ShortTermRefPicSet::new(),
    }
}

/// Row 5 of table 7: what the set says of each member of another, and of that set's own picture.
fn write_member_flags(
    w: &mut BitWriter,
    other: &ShortTermRefPicSet,
    x: &ShortTermRefPicSet,
) -> Result<(), AllocError>
    ensures { OnOk result (own.WritesFlags
        (own.chosen_flags (table.shift_of (plain_short_term_ref_pic_set x.now))
        (table.differences (plain_short_term_ref_pic_set other.now) ++ pos 0 ∷ [])
        (own.members_of (plain_short_term_ref_pic_set x.now))) w.old w.new) }
{
    let members = all_members(x);
    let shift = shift_of(x);
    let before = &other.delta_poc_s0[..usize::from(other.num_negative_pics)];
    let after = &other.delta_poc_s1[..usize::from(other.num_positive_pics)];
    write_flags_for(w, before, shift, members.as_slice())?;
    write_flags_for(w, after, shift, members.as_slice())?;
    write_flags_for(w, &[0], shift, members.as_slice())?;
    Ok(())
}

/// deltaRps (7-60).
#[tactic(auto, unfolding(hevc_tables::specs::ShortTermTable::shift_of))]
fn shift_of(set: &ShortTermRefPicSet) -> i32
    ensures { result ≡ table.shift_of (plain_short_term_ref_pic_set set.now) }
{
    let size = i32::from(set.abs_delta_rps_minus1) + 1;
    if set.delta_rps_sign { -size } else { size }
}
