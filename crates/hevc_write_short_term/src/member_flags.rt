//! Which members a predicted set takes of another (7.3.7, row 5 of table 7).
ghost use Rattle.std.specs.Prelude.{◌≡◌, [], ◌∷◌, OnOk};
ghost use Rattle.hevc_write_short_term.specs.Members as own;

use hevc_bit_writer::BitWriter;
use hevc_tables::{MemberFlags, ShortTermMember};
use std::alloc::AllocError;

/// Row 5 of table 7, for each of these differences, of a set with these members.
#[tactic(auto)]
pub(crate) fn write_flags_for(
    w: &mut BitWriter,
    differences: &[i32],
    shift: i32,
    members: &[ShortTermMember],
) -> Result<(), AllocError>
    ensures { OnOk result (own.WritesFlags
        (own.chosen_flags shift differences.now members.now) w.old w.new) }
{
    for i in 0..differences.len() {
        write_flags(
            w,
            flags_for(i64::from(differences[i]) + i64::from(shift), members),
        )?;
    }
    Ok(())
}

/// Row 5 of table 7, for one difference.
fn write_flags(w: &mut BitWriter, flags: MemberFlags) -> Result<(), AllocError>
    ensures { OnOk result (own.WritesFlags (flags ∷ []) w.old w.new) }
{
    w.write_flag(flags.used_by_curr_pic_flag)?; // Row(7, 5)
    if !flags.used_by_curr_pic_flag {
        w.write_flag(flags.use_delta_flag)?; // Row(7, 5)
    }
    Ok(())
}

/// What a set with these members says of a difference.
fn flags_for(delta_poc: i64, members: &[ShortTermMember]) -> MemberFlags
    ensures { result ≡ own.flags_of (own.use_of delta_poc members.now) }
{
    match use_of(delta_poc, members) {
        None => MemberFlags {
            used_by_curr_pic_flag: false,
            use_delta_flag: false,
        },
        Some(used) => MemberFlags {
            used_by_curr_pic_flag: used,
            use_delta_flag: true,
        },
    }
}

/// Whether the member of a difference is used, if there is one.
#[tactic(auto)]
fn use_of(delta_poc: i64, members: &[ShortTermMember]) -> Option<bool>
    ensures { result ≡ own.use_of delta_poc members.now }
{
    for i in 0..members.len() {
        if members[i].delta_poc == delta_poc {
            return Some(members[i].used_by_curr_pic);
        }
    }
    None
}
