//! The order count and the reference pictures (7.3.6.1, rows 10 to 21 of table 14).
ghost use Rattle.std.specs.Prelude.{◌≡◌, ℕ, OnOk};
ghost use Rattle.hevc_tables.specs.ShortTermTable.{short_term_ref_pic_set};
ghost use Rattle.hevc_set_parts.specs.ShortTermRefPicSet.{plain_short_term_ref_pic_set};
ghost use Rattle.hevc_tables.specs.SliceHeaderTable as table;
ghost use Rattle.hevc_sequence_set.specs.Sps.{plain_sps};
ghost use Rattle.hevc_picture_slice.specs.SliceHeader.{plain_slice_header};
ghost use Rattle.hevc_write_slice_header.specs.HeaderParts as own;
ghost use Rattle.hevc_write_elements.specs.Filling.{Writes, WritesEither, WritesIf, WritesTable};

use crate::long_term::write_long_term_if;
use crate::rows::{index_if, order_count};
use hevc_bit_writer::BitWriter;
use hevc_picture_slice::SliceHeader;
use hevc_sequence_set::Sps;
use hevc_write_elements::rows::{flag, flag_if};
use hevc_write_short_term::write_short_term_ref_pic_set;
use std::alloc::AllocError;

/// Rows 10 to 21 of table 14, where they are present.
pub(crate) fn write_reference_pictures_if(
    w: &mut BitWriter,
    present: bool,
    sps: &Sps,
    x: &SliceHeader,
) -> Result<(), AllocError>
    ensures { OnOk result (WritesIf present
        (Writes (own.reference_picture_rows (plain_sps sps.now))
        own.reference_pictures_elements_of (plain_slice_header x.now)) w.old w.new) }
{
    if !present {
        return Ok(());
    }
    write_short_term(w, sps, x)?;
    write_long_term_if(w, sps.long_term_ref_pics_present_flag, sps, x)?;
    flag_if(
        w,
        sps.temporal_mvp_enabled_flag,
        x.temporal_mvp_enabled_flag,
    )?; // Row(14, 21)
    Ok(())
}

/// Rows 10 to 13 of table 14.
fn write_short_term(w: &mut BitWriter, sps: &Sps, x: &SliceHeader) -> Result<(), AllocError>
    ensures { OnOk result (Writes (own.short_term_rows (plain_sps sps.now))
        own.short_term_elements_of (plain_slice_header x.now) w.old w.new) }
{
    order_count(w, sps, x.pic_order_cnt_lsb)?; // Row(14, 10)
    flag(w, x.short_term_ref_pic_set_sps_flag)?; // Row(14, 11)
    write_current_set(w, sps, x)?;
    Ok(())
}

/// Row 13 of table 14.
fn write_candidate_short_term_set(
    w: &mut BitWriter,
    sps: &Sps,
    x: &SliceHeader,
) -> Result<(), AllocError>
    ensures { OnOk result (Writes (table.candidate_short_term_set (plain_sps sps.now))
        own.short_term_set_elements_of (plain_slice_header x.now) w.old w.new) }
{
    index_if(
        w,
        sps.num_short_term_ref_pic_sets,
        x.short_term_ref_pic_set_idx,
    )?; // Row(14, 13)
    Ok(())
}

/// Row 12 of table 14.
fn write_own_short_term_set(w: &mut BitWriter, sps: &Sps, x: &SliceHeader) -> Result<(), AllocError>
    ensures { OnOk result (Writes (own.own_set_rows (plain_sps sps.now))
        own.short_term_set_elements_of (plain_slice_header x.now) w.old w.new) }
{
    write_own_set(w, sps, x)?;
    Ok(())
}

/// Row 12 of table 14: the set, which comes after all of the sequence set.
fn write_own_set(w: &mut BitWriter, sps: &Sps, x: &SliceHeader) -> Result<(), AllocError>
    ensures { (most : ℕ) → OnOk result (WritesTable
        (short_term_ref_pic_set (plain_sps sps.now).short_term_ref_pic_set
        sps.now.num_short_term_ref_pic_sets most sps.now.num_short_term_ref_pic_sets)
        (plain_short_term_ref_pic_set x.now.short_term_ref_pic_set) w.old w.new) }
{
    let count = sps.num_short_term_ref_pic_sets;
    let sets = sps.short_term_ref_pic_set.as_slice();
    write_short_term_ref_pic_set(w, sets, count, count, &x.short_term_ref_pic_set) // Row(14, 12)
}

/// Row 12 or 13 of table 14.
fn write_current_set(w: &mut BitWriter, sps: &Sps, x: &SliceHeader) -> Result<(), AllocError>
    ensures { OnOk result (WritesEither x.now.short_term_ref_pic_set_sps_flag
        (Writes (table.candidate_short_term_set (plain_sps sps.now))
        own.short_term_set_elements_of (plain_slice_header x.now))
        (Writes (own.own_set_rows (plain_sps sps.now))
        own.short_term_set_elements_of (plain_slice_header x.now)) w.old w.new) }
{
    if x.short_term_ref_pic_set_sps_flag {
        write_candidate_short_term_set(w, sps, x)
    } else {
        write_own_short_term_set(w, sps, x)
    }
}
