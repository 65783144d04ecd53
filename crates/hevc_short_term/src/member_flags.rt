//! Which members a predicted set takes of another (7.3.7, row 5 of table 7).
ghost use Rattle.std.specs.Prelude.{◌≡◌, ◌+◌, ◌≤◌, ◌<◌, IfOk, length};
ghost use Rattle.hevc_spec.specs.Payload.{bits, IsAhead};
ghost use Rattle.hevc_spec.specs.Table.{read};
ghost use Rattle.hevc_elements.specs.Reads.{Reads};
ghost use Rattle.hevc_tables.specs.ShortTermTable.{member_flags as member_flags_table};
ghost use Rattle.hevc_tables.specs.ShortTermTable.{all_member_flags};

use arrayvec::ArrayVec;
use hevc_elements::rows::{flag, flag_or};
use hevc_elements::{ElementReader, ParseError};
use hevc_spec::Row;
use hevc_tables::MemberFlags;

/// Row 5 of table 7, for each member of a set of so many, and for the set's own picture.
#[tactic(auto, using(hevc_elements::proofs::Loops::loops), unfolding(hevc_tables::specs::ShortTermTable::all_member_flags, hevc_tables::specs::ShortTermTable::next_member_flags))]
pub(crate) fn read_all_flags(
    r: &mut ElementReader<'_>,
    num_delta_pocs: u32,
) -> Result<ArrayVec<MemberFlags, 17>, ParseError>
    requires { num_delta_pocs ≤ 16 }
    ensures read { Reads (λ flags. flags.items) (all_member_flags num_delta_pocs) result r.old r.new }
    ensures all { IfOk result (λ flags. length flags.items ≡ num_delta_pocs + 1) }
{
    let mut flags = ArrayVec::new();
    for j in 0..num_delta_pocs + 1 {
        flags.push(read_flags(r)?);
    }
    Ok(flags)
}

/// Row 5 of table 7, for one member.
#[tactic(auto, unfolding(hevc_tables::specs::ShortTermTable::member_flags))]
fn read_flags(r: &mut ElementReader<'_>) -> Result<MemberFlags, ParseError>
    ensures read { Reads (λ f. f) member_flags_table result r.old r.new }
{
    let used_by_curr_pic_flag = flag(r, Row(7, 5))?;
    let use_delta_flag = flag_or(r, !used_by_curr_pic_flag, true, Row(7, 5))?;
    Ok(MemberFlags {
        used_by_curr_pic_flag,
        use_delta_flag,
    })
}
