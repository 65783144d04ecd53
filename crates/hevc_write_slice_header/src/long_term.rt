//! Long-term pictures (7.3.6.1, rows 14 to 20 of table 14).
ghost use Rattle.std.specs.Prelude.{◌≡◌, ◌<◌, ◌≤◌, ◌+◌, ◌-◌, ◌^◌, ◌==◌, ◌||◌, nat_lt};
ghost use Rattle.std.specs.Prelude.{if◌then◌else◌, ℕ, false, length, slice_index, slice_index_or};
ghost use Rattle.std.specs.Prelude.{OnOk};
ghost use Rattle.hevc_tables.specs.SliceHeaderTable as table;
ghost use Rattle.hevc_sequence_set.specs.Sps.{plain_sps};
ghost use Rattle.hevc_picture_slice.specs.SliceHeader.{plain_slice_header};
ghost use Rattle.hevc_write_slice_header.specs.HeaderParts as own;
ghost use Rattle.hevc_write_elements.specs.Filling.{Writes, WritesEither, WritesFlag, WritesIf};
ghost use Rattle.hevc_write_elements.specs.Filling.{WritesTurn};

use crate::rows::{index_if, order_count_bits};
use hevc_bit_writer::BitWriter;
use hevc_picture_slice::SliceHeader;
use hevc_sequence_set::Sps;
use hevc_write_elements::rows::{flag, ue_if, ue_u8, ue_u8_if};
use std::alloc::AllocError;

/// Rows 14 to 20 of table 14, where they are present.
pub(crate) fn write_long_term_if(
    w: &mut BitWriter,
    present: bool,
    sps: &Sps,
    x: &SliceHeader,
) -> Result<(), AllocError>
    ensures { OnOk result (WritesIf present
        (Writes (table.long_term (plain_sps sps.now))
        own.long_term_of (plain_slice_header x.now)) w.old w.new) }
{
    if !present {
        return Ok(());
    }
    write_long_term_counts(w, sps, x)?;
    write_long_term_pictures(w, sps, x)?;
    Ok(())
}

/// Rows 14 and 15 of table 14.
fn write_long_term_counts(w: &mut BitWriter, sps: &Sps, x: &SliceHeader) -> Result<(), AllocError>
    ensures { OnOk result (Writes (table.long_term_counts (plain_sps sps.now))
        own.long_term_counts_of (plain_slice_header x.now) w.old w.new) }
{
    ue_u8_if(w, sps.num_long_term_ref_pics_sps != 0, x.num_long_term_sps)?; // Row(14, 14)
    ue_u8(w, x.num_long_term_pics)?; // Row(14, 15)
    Ok(())
}

/// Rows 16 to 20 of table 14, for each picture.
fn write_long_term_pictures(w: &mut BitWriter, sps: &Sps, x: &SliceHeader) -> Result<(), AllocError>
    ensures { OnOk result (Writes (table.long_term_pictures (plain_sps sps.now))
        own.long_term_pictures_with_inputs_of (plain_slice_header x.now) w.old w.new) }
{
    for i in 0..usize::from(x.num_long_term_sps) + usize::from(x.num_long_term_pics) {
        write_long_term_picture(w, sps, i, x)?;
    }
    Ok(())
}

/// Rows 16 to 20 of table 14, for one picture.
fn write_long_term_picture(
    w: &mut BitWriter,
    sps: &Sps,
    i: usize,
    x: &SliceHeader,
) -> Result<(), AllocError>
    requires { i < 16 }
    ensures { OnOk result (WritesTurn (table.long_term_picture (plain_sps sps.now))
        (own.SameLongTerm (plain_slice_header x.now)) i w.old w.new) }
{
    write_place(w, sps, i, x)?;
    write_cycles(w, i, x)?;
    Ok(())
}

/// Row 16, or rows 17 and 18 of table 14: which picture it is.
fn write_place(w: &mut BitWriter, sps: &Sps, i: usize, x: &SliceHeader) -> Result<(), AllocError>
    requires { i < 16 }
    ensures { OnOk result (WritesEither (nat_lt i x.now.num_long_term_sps)
        (own.WritesCandidate (plain_sps sps.now) i x.now.lt_idx_sps)
        (own.WritesOther (plain_sps sps.now) i x.now.poc_lsb_lt x.now.used_by_curr_pic_lt)
        w.old w.new) }
{
    if i < usize::from(x.num_long_term_sps) {
        write_candidate(w, sps, i, &x.lt_idx_sps)
    } else {
        write_other(w, sps, i, &x.poc_lsb_lt, &x.used_by_curr_pic_lt)
    }
}

/// Row 16 of table 14.
fn write_candidate(
    w: &mut BitWriter,
    sps: &Sps,
    i: usize,
    indices: &[u8; 16],
) -> Result<(), AllocError>
    requires { i < 16 }
    ensures { OnOk result
        (own.WritesCandidate (plain_sps sps.now) i indices.now w.old w.new) }
{
    index_if(w, sps.num_long_term_ref_pics_sps, indices[i])?; // Row(14, 16)
    Ok(())
}

/// Rows 17 and 18 of table 14.
fn write_other(
    w: &mut BitWriter,
    sps: &Sps,
    i: usize,
    lsbs: &[u32; 16],
    used: &[bool; 16],
) -> Result<(), AllocError>
    requires { i < 16 }
    ensures { OnOk result
        (own.WritesOther (plain_sps sps.now) i lsbs.now used.now w.old w.new) }
{
    order_count_bits(w, sps, lsbs[i])?; // Row(14, 17)
    flag(w, used[i])?; // Row(14, 18)
    Ok(())
}

/// Rows 19 and 20 of table 14.
fn write_cycles(w: &mut BitWriter, i: usize, x: &SliceHeader) -> Result<(), AllocError>
    requires { i < 16 }
    ensures { OnOk result (own.WritesCycles (plain_slice_header x.now) i w.old w.new) }
{
    let cycles = own_cycles(i, x.num_long_term_sps, &x.delta_poc_msb_cycle_lt);
    let present = presence(i, &x.delta_poc_msb_present_flag);
    flag(w, present)?; // Row(14, 19)
    ue_if(w, present, cycles)?; // Row(14, 20)
    Ok(())
}

/// delta_poc_msb_present_flag of a picture.
fn presence(i: usize, flags: &[bool; 16]) -> bool
    requires { i < 16 }
    ensures there { i < length flags.now }
    ensures value { result ≡ slice_index_or flags.now i false }
{
    flags[i]
}

/// The cycles that a picture adds to those before it, if they have 32 bits.
fn own_cycles(i: usize, num_long_term_sps: u8, cycles: &[u64; 16]) -> u32
    requires { i < 16 }
    ensures there { i < length cycles.now }
    ensures value { (own : ℕ) → own < 2 ^ 32
        → own + (if i == 0 || i == num_long_term_sps then 0 else slice_index cycles.now (i - 1))
        ≡ slice_index cycles.now i → own ≡ result }
{
    let before = if i == 0 || i == usize::from(num_long_term_sps) {
        0
    } else {
        cycles[i - 1]
    };
    u32::try_from(cycles[i].saturating_sub(before)).unwrap_or(0)
}
