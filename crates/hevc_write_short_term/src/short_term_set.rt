//! Short-term reference picture sets (7.3.7, table 7).
ghost use Rattle.std.specs.Prelude.{◌≡◌, ℕ, true, map, not, ◌==◌, OnOk};
ghost use Rattle.hevc_tables.specs.ShortTermTable as table;
ghost use Rattle.hevc_set_parts.specs.ShortTermRefPicSet.{plain_short_term_ref_pic_set};
ghost use Rattle.hevc_write_short_term.specs.Members as own;
ghost use Rattle.hevc_write_elements.specs.Filling.{Writes, WritesEither, WritesTable};

use crate::listed::write_listed_set;
use crate::predicted::write_predicted_set;
use hevc_bit_writer::BitWriter;
use hevc_set_parts::ShortTermRefPicSet;
use hevc_write_elements::rows::flag_if;
use std::alloc::AllocError;

/// Table 7, for number `st_rps_idx` of `count` sets of a sequence set or for one after them; `sets`
/// are those before it.
///
/// Row 5 of a predicted set is as the set says: used and kept where the sum is a member of it, and
/// both flags 0 where it isn't.
pub fn write_short_term_ref_pic_set(
    w: &mut BitWriter,
    sets: &[ShortTermRefPicSet],
    count: u8,
    st_rps_idx: u8,
    x: &ShortTermRefPicSet,
) -> Result<(), AllocError>
    ensures rows { (max_dec_pic_buffering_minus1 : ℕ) → OnOk result (WritesTable
        (table.short_term_ref_pic_set (map plain_short_term_ref_pic_set sets.now) count
        max_dec_pic_buffering_minus1 st_rps_idx)
        (plain_short_term_ref_pic_set x.now) w.old w.new) }
    ensures flags { x.now.inter_ref_pic_set_prediction_flag ≡ true
        → OnOk result (own.EndsInFlags
        (own.flags_of_set (map plain_short_term_ref_pic_set sets.now) st_rps_idx
        (plain_short_term_ref_pic_set x.now)) w.new) }
{
    flag_if(w, st_rps_idx != 0, x.inter_ref_pic_set_prediction_flag)?; // Row(7, 1)
    write_members(w, sets, count, st_rps_idx, x)?;
    Ok(())
}

/// Rows 2 to 12 of table 7.
fn write_members(
    w: &mut BitWriter,
    sets: &[ShortTermRefPicSet],
    count: u8,
    st_rps_idx: u8,
    x: &ShortTermRefPicSet,
) -> Result<(), AllocError>
    ensures rows { (max_dec_pic_buffering_minus1 : ℕ) → OnOk result
        (WritesEither x.now.inter_ref_pic_set_prediction_flag
        (Writes (table.predicted_set (map plain_short_term_ref_pic_set sets.now) count st_rps_idx)
        own.whole (plain_short_term_ref_pic_set x.now))
        (Writes (table.listed_set max_dec_pic_buffering_minus1)
        own.whole (plain_short_term_ref_pic_set x.now)) w.old w.new) }
    ensures flags { x.now.inter_ref_pic_set_prediction_flag ≡ true
        → OnOk result (own.EndsInFlags
        (own.flags_of_set (map plain_short_term_ref_pic_set sets.now) st_rps_idx
        (plain_short_term_ref_pic_set x.now)) w.new) }
{
    if x.inter_ref_pic_set_prediction_flag {
        write_predicted_set(w, sets, count, st_rps_idx, x)
    } else {
        write_listed_set(w, x)
    }
}
