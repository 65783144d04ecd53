//! Sets whose members are written out (7.3.7, rows 7 to 12 of table 7).
ghost use Rattle.std.specs.Prelude.{◌≡◌, ◌+◌, ◌<◌, ◌^◌, ◌-ℤ◌, ℕ, pos, OnOk};
ghost use Rattle.hevc_tables.specs.ShortTermTable as table;
ghost use Rattle.hevc_set_parts.specs.ShortTermRefPicSet.{plain_short_term_ref_pic_set};
ghost use Rattle.hevc_write_short_term.specs.Members as own;
ghost use Rattle.hevc_write_elements.specs.Filling.{Writes, WritesTable};

use crate::members::{members_after, members_before};
use hevc_bit_writer::BitWriter;
use hevc_set_parts::ShortTermRefPicSet;
use hevc_tables::ShortTermMember;
use hevc_write_elements::rows::{flag, ue, ue_u8};
use std::alloc::AllocError;

/// Rows 7 to 12 of table 7.
pub(crate) fn write_listed_set(w: &mut BitWriter, x: &ShortTermRefPicSet) -> Result<(), AllocError>
    ensures { (max_dec_pic_buffering_minus1 : ℕ) → OnOk result
        (Writes (table.listed_set max_dec_pic_buffering_minus1) own.whole
        (plain_short_term_ref_pic_set x.now) w.old w.new) }
{
    ue_u8(w, x.num_negative_pics)?; // Row(7, 7)
    ue_u8(w, x.num_positive_pics)?; // Row(7, 8)
    write_members_before(w, members_before(x).as_slice())?;
    write_members_after(w, members_after(x).as_slice())?;
    Ok(())
}

/// Rows 9 and 10 of table 7, for each member.
fn write_members_before(w: &mut BitWriter, members: &[ShortTermMember]) -> Result<(), AllocError>
    ensures { (count : ℕ) → OnOk result
        (WritesTable (table.listed_before count) members.now w.old w.new) }
{
    for i in 0..members.len() {
        write_member_before(w, last_delta(&members[..i]), members[i])?;
    }
    Ok(())
}

/// Rows 9 and 10 of table 7, for one member after a difference.
fn write_member_before(
    w: &mut BitWriter,
    last: i64,
    member: ShortTermMember,
) -> Result<(), AllocError>
    ensures { OnOk result (WritesTable (table.member_before last) member w.old w.new) }
{
    ue(w, gap_minus1(last, member.delta_poc))?; // Row(7, 9)
    flag(w, member.used_by_curr_pic)?; // Row(7, 10)
    Ok(())
}

/// Rows 11 and 12 of table 7, for each member.
fn write_members_after(w: &mut BitWriter, members: &[ShortTermMember]) -> Result<(), AllocError>
    ensures { (count : ℕ) → OnOk result
        (WritesTable (table.listed_after count) members.now w.old w.new) }
{
    for i in 0..members.len() {
        write_member_after(w, last_delta(&members[..i]), members[i])?;
    }
    Ok(())
}

/// Rows 11 and 12 of table 7, for one member after a difference.
fn write_member_after(
    w: &mut BitWriter,
    last: i64,
    member: ShortTermMember,
) -> Result<(), AllocError>
    ensures { OnOk result (WritesTable (table.member_after last) member w.old w.new) }
{
    ue(w, gap_minus1(member.delta_poc, last))?; // Row(7, 11)
    flag(w, member.used_by_curr_pic)?; // Row(7, 12)
    Ok(())
}

/// The difference of the last member, else 0.
#[tactic(auto, using(hevc_short_term_laws::proofs::Listed::last_is))]
fn last_delta(members: &[ShortTermMember]) -> i64
    ensures { result ≡ table.last_delta members.now }
{
    match members.len() {
        0 => 0,
        count => members[count - 1].delta_poc,
    }
}

/// How far a number lies above another, less 1, where that is a number of 32 bits.
fn gap_minus1(high: i64, low: i64) -> u32
    ensures { (gap : ℕ) → gap < 2 ^ 32 → pos (gap + 1) ≡ high -ℤ low → result ≡ gap }
{
    u32::try_from(high.wrapping_sub(low).wrapping_sub(1)).unwrap_or(0)
}
