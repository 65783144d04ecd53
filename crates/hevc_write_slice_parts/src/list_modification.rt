//! Modifications of reference picture lists (7.3.6.2, table 15).
ghost use Rattle.std.specs.Prelude.{◌≡◌, ◌<◌, ◌^◌, ℕ, None, length, OnOk};
ghost use Rattle.hevc_spec.specs.declared.Row.{Row};
ghost use Rattle.hevc_tables.specs.RefPicListModificationTable as table;
ghost use Rattle.hevc_set_parts.specs.RefPicListModification.{plain_ref_pic_list_modification};
ghost use Rattle.hevc_write_slice_parts.specs.ListParts as own;
ghost use Rattle.hevc_write_elements.specs.Choices.{chosen_value};
ghost use Rattle.hevc_write_elements.specs.Filling.{Writes, WritesIf, WritesTable};

use hevc_bit_writer::BitWriter;
use hevc_set_parts::RefPicListModification;
use hevc_slice_parts::ceil_log2;
use hevc_write_elements::rows::{bits, flag};
use std::alloc::AllocError;

/// Table 15: of a B slice or not, with the number of pictures that it may refer to
/// (NumPicTotalCurr). Only a B slice has a list 1.
pub fn write_ref_pic_list_modification(
    w: &mut BitWriter,
    is_b: bool,
    num_pic_total_curr: u32,
    x: &RefPicListModification,
) -> Result<(), AllocError>
    ensures { (active_l0 active_l1 : ℕ) → OnOk result (WritesTable
        (table.ref_pic_list_modification is_b num_pic_total_curr active_l0 active_l1)
        (plain_ref_pic_list_modification x.now) w.old w.new) }
{
    write_l0(w, num_pic_total_curr, x)?;
    write_l1_if(w, is_b, num_pic_total_curr, x)?;
    Ok(())
}

/// Rows 1 and 2 of table 15.
fn write_l0(
    w: &mut BitWriter,
    num_pic_total_curr: u32,
    x: &RefPicListModification,
) -> Result<(), AllocError>
    ensures { (active_l0 : ℕ) → OnOk result
        (Writes (table.modification_l0 num_pic_total_curr active_l0) own.modification_l0_of
        (plain_ref_pic_list_modification x.now) w.old w.new) }
{
    let entries = x.list_entry_l0.as_slice();
    flag(w, x.ref_pic_list_modification_flag_l0)?; // Row(15, 1)
    write_entries_if(
        w,
        x.ref_pic_list_modification_flag_l0,
        num_pic_total_curr,
        entries,
    )?; // Row(15, 2)
    Ok(())
}

/// Rows 3 and 4 of table 15, where they are present.
fn write_l1_if(
    w: &mut BitWriter,
    present: bool,
    num_pic_total_curr: u32,
    x: &RefPicListModification,
) -> Result<(), AllocError>
    ensures { OnOk result ((active_l1 : ℕ) → WritesIf present
        (Writes (table.modification_l1 num_pic_total_curr active_l1) own.modification_l1_of
        (plain_ref_pic_list_modification x.now)) w.old w.new) }
{
    if !present {
        return Ok(());
    }
    let entries = x.list_entry_l1.as_slice();
    flag(w, x.ref_pic_list_modification_flag_l1)?; // Row(15, 3)
    write_entries_if(
        w,
        x.ref_pic_list_modification_flag_l1,
        num_pic_total_curr,
        entries,
    )?; // Row(15, 4)
    Ok(())
}

/// The entries of a list, where they are present.
fn write_entries_if(
    w: &mut BitWriter,
    present: bool,
    num_pic_total_curr: u32,
    entries: &[u32],
) -> Result<(), AllocError>
    ensures { OnOk result (WritesIf present
        (own.WritesEntries num_pic_total_curr entries.now) w.old w.new) }
{
    if present {
        write_entries(w, num_pic_total_curr, entries)
    } else {
        Ok(())
    }
}

/// The entries of a list.
fn write_entries(
    w: &mut BitWriter,
    num_pic_total_curr: u32,
    entries: &[u32],
) -> Result<(), AllocError>
    ensures { OnOk result (own.WritesEntries num_pic_total_curr entries.now w.old w.new) }
{
    let num_bits = ceil_log2(num_pic_total_curr) as u32;
    for i in 0..entries.len() {
        bits(w, num_bits, entries[i])?;
    }
    Ok(())
}
