//! Reference picture sets, and long-term pictures (7.3.2.2.1, rows 35 to 40 of table 5).
ghost use Rattle.std.specs.Prelude.{◌≤◌, ◌<◌, ℕ, false, length, slice_index, slice_index_or, OnOk};
ghost use Rattle.hevc_tables.specs.SpsTable as table;
ghost use Rattle.hevc_sequence_set.specs.Sps.{plain_sps};
ghost use Rattle.hevc_write_sps.specs.SpsParts as own;
ghost use Rattle.hevc_write_elements.specs.Filling.{Writes, WritesBits, WritesFlag, WritesTable};
ghost use Rattle.hevc_write_elements.specs.Filling.{WritesTurn};

use hevc_bit_writer::BitWriter;
use hevc_sequence_set::Sps;
use hevc_write_elements::rows::{bits, flag, ue_u8, ue_u8_if};
use hevc_write_short_term::write_short_term_ref_pic_set;
use std::alloc::AllocError;

/// Rows 35 and 36 of table 5.
pub(crate) fn write_short_term(w: &mut BitWriter, x: &Sps) -> Result<(), AllocError>
    ensures { OnOk result (Writes table.short_term
        own.short_term_of (plain_sps x.now) w.old w.new) }
{
    ue_u8(w, x.num_short_term_ref_pic_sets)?; // Row(5, 35)
    write_short_term_sets(w, x)?;
    Ok(())
}

/// Rows 37 to 40 of table 5.
pub(crate) fn write_long_term(w: &mut BitWriter, x: &Sps) -> Result<(), AllocError>
    ensures { OnOk result (Writes table.long_term
        own.long_term_with_inputs_of (plain_sps x.now) w.old w.new) }
{
    flag(w, x.long_term_ref_pics_present_flag)?; // Row(5, 37)
    ue_u8_if(
        w,
        x.long_term_ref_pics_present_flag,
        x.num_long_term_ref_pics_sps,
    )?; // Row(5, 38)
    write_long_term_pictures(w, x)?;
    Ok(())
}

/// Row 36 of table 5, for each set.
fn write_short_term_sets(w: &mut BitWriter, x: &Sps) -> Result<(), AllocError>
    ensures { (most : ℕ) → OnOk result
        (WritesTable (table.short_term_sets x.now.num_short_term_ref_pic_sets most)
        (plain_sps x.now).short_term_ref_pic_set w.old w.new) }
{
    let sets = x.short_term_ref_pic_set.as_slice();
    let count = x.num_short_term_ref_pic_sets;
    for i in 0..sets.len() {
        write_short_term_ref_pic_set(w, &sets[..i], count, i as u8, &sets[i])?; // Row(5, 36)
    }
    Ok(())
}

/// Rows 39 and 40 of table 5, for each picture.
#[tactic(auto, using(hevc_write_elements::proofs::Loops::turns, crate::proofs::SpsKeeps::pictures_written))]
fn write_long_term_pictures(w: &mut BitWriter, x: &Sps) -> Result<(), AllocError>
    ensures { OnOk result (Writes table.long_term_pictures
        own.long_term_pictures_with_inputs_of (plain_sps x.now) w.old w.new) }
{
    for i in 0..usize::from(x.num_long_term_ref_pics_sps) {
        write_long_term_picture(w, i, x)?;
    }
    Ok(())
}

/// Rows 39 and 40 of table 5, for one picture.
fn write_long_term_picture(w: &mut BitWriter, i: usize, x: &Sps) -> Result<(), AllocError>
    requires { i < 32 }
    ensures { OnOk result (WritesTurn table.long_term_picture
        (own.same_pictures (plain_sps x.now)) i w.old w.new) }
{
    let num_bits = u32::from(x.log2_max_pic_order_cnt_lsb_minus4) + 4;
    write_lsb(w, num_bits, i, &x.lt_ref_pic_poc_lsb_sps)?; // Row(5, 39)
    write_used(w, i, &x.used_by_curr_pic_lt_sps_flag)?; // Row(5, 40)
    Ok(())
}

/// The low bits of the order count of one picture.
fn write_lsb(w: &mut BitWriter, num_bits: u32, i: usize, lsbs: &[u32; 32]) -> Result<(), AllocError>
    requires few { num_bits ≤ 32 }
    requires there { i < 32 }
    ensures { OnOk result ((i < length lsbs.now)
        × WritesBits num_bits (slice_index lsbs.now i) w.old w.new) }
{
    bits(w, num_bits, lsbs[i])
}

/// Whether the current picture may refer to one picture.
fn write_used(w: &mut BitWriter, i: usize, used: &[bool; 32]) -> Result<(), AllocError>
    requires { i < 32 }
    ensures { OnOk result ((i < length used.now)
        × WritesFlag (slice_index_or used.now i false) w.old w.new) }
{
    flag(w, used[i])
}
