//! Members that are written out (7.3.7, rows 9 to 12 of table 7).
ghost use Rattle.std.specs.Prelude.{◌≡◌, ◌≤◌, ℤ, pos, negsuc, ◌+ℤ◌, ◌-ℤ◌, ◌<ℤ◌, ◌≤ℤ◌, [], IfOk};
ghost use Rattle.std.specs.Prelude.{OnOk, length};
ghost use Rattle.hevc_spec.specs.Payload.{bits, IsAhead};
ghost use Rattle.hevc_spec.specs.Table.{read};
ghost use Rattle.hevc_elements.specs.Reads.{Reads};
ghost use Rattle.hevc_tables.specs.ShortTermTable.{member_before, member_after, listed_before};
ghost use Rattle.hevc_tables.specs.ShortTermTable.{listed_after, last_delta};
ghost use Rattle.hevc_short_term_laws.specs.Sides.{LieBefore, LieAfter};

use crate::side::Side;
use hevc_elements::rows::{flag, ue};
use hevc_elements::{ElementReader, ParseError};
use hevc_spec::Row;
use hevc_tables::ShortTermMember;

/// Rows 9 and 10 of table 7, for so many members, into an empty list.
#[tactic(auto, using(hevc_elements::proofs::Loops::loops, hevc_short_term_laws::proofs::Listed::listed), unfolding(hevc_tables::specs::ShortTermTable::listed_before, hevc_tables::specs::ShortTermTable::next_member_before))]
pub(crate) fn read_listed_before(
    r: &mut ElementReader<'_>,
    count: u8,
    members: &mut Side,
) -> Result<(), ParseError>
    requires few { count ≤ 16 }
    requires none { members.old ≡ [] }
    ensures read { Reads (λ _. members.new) (listed_before count) result r.old r.new }
    ensures all { OnOk result (length members.new ≡ count) }
    ensures before { OnOk result (LieBefore members.new) }
{
    for _ in 0..count {
        let member = read_member_before(r, members)?;
        members.push(member);
    }
    Ok(())
}

/// Rows 9 and 10 of table 7, for the member after these.
#[tactic(auto, unfolding(hevc_tables::specs::ShortTermTable::member_before))]
fn read_member_before(
    r: &mut ElementReader<'_>,
    members: &Side,
) -> Result<ShortTermMember, ParseError>
    ensures read { Reads (λ m. m) (member_before (last_delta members.now)) result r.old r.new }
    ensures below { IfOk result (λ m. m.delta_poc <ℤ last_delta members.now) }
    ensures near { IfOk result (λ m. (last_delta members.now -ℤ pos 32768) ≤ℤ m.delta_poc) }
{
    let delta_poc_s0_minus1 = ue(r, Row(7, 9), 0, 32767)?;
    let used_by_curr_pic = flag(r, Row(7, 10))?;
    Ok(ShortTermMember {
        delta_poc: i64::from(members.last_difference()) - (i64::from(delta_poc_s0_minus1) + 1),
        used_by_curr_pic,
    })
}

/// Rows 11 and 12 of table 7, for so many members, into an empty list.
#[tactic(auto, using(hevc_elements::proofs::Loops::loops, hevc_short_term_laws::proofs::Listed::listed), unfolding(hevc_tables::specs::ShortTermTable::listed_after, hevc_tables::specs::ShortTermTable::next_member_after))]
pub(crate) fn read_listed_after(
    r: &mut ElementReader<'_>,
    count: u8,
    members: &mut Side,
) -> Result<(), ParseError>
    requires few { count ≤ 16 }
    requires none { members.old ≡ [] }
    ensures read { Reads (λ _. members.new) (listed_after count) result r.old r.new }
    ensures all { OnOk result (length members.new ≡ count) }
    ensures after { OnOk result (LieAfter members.new) }
{
    for _ in 0..count {
        let member = read_member_after(r, members)?;
        members.push(member);
    }
    Ok(())
}

/// Rows 11 and 12 of table 7, for the member after these.
#[tactic(auto, unfolding(hevc_tables::specs::ShortTermTable::member_after))]
fn read_member_after(
    r: &mut ElementReader<'_>,
    members: &Side,
) -> Result<ShortTermMember, ParseError>
    ensures read { Reads (λ m. m) (member_after (last_delta members.now)) result r.old r.new }
    ensures above { IfOk result (λ m. last_delta members.now <ℤ m.delta_poc) }
    ensures near { IfOk result (λ m. m.delta_poc ≤ℤ (last_delta members.now +ℤ pos 32768)) }
{
    let delta_poc_s1_minus1 = ue(r, Row(7, 11), 0, 32767)?;
    let used_by_curr_pic = flag(r, Row(7, 12))?;
    Ok(ShortTermMember {
        delta_poc: i64::from(members.last_difference()) + (i64::from(delta_poc_s1_minus1) + 1),
        used_by_curr_pic,
    })
}
