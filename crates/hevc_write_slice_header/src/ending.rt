//! Entry points, and no extension (7.3.6.1, rows 48 to 52 of table 14).
ghost use Rattle.std.specs.Prelude.{◌≡◌, ◌≤◌, ◌+◌, ℕ, OnOk};
ghost use Rattle.hevc_tables.specs.SliceHeaderTable as table;
ghost use Rattle.hevc_sequence_set.specs.Sps.{plain_sps};
ghost use Rattle.hevc_picture_slice.specs.Pps.{plain_pps};
ghost use Rattle.hevc_picture_slice.specs.SliceHeader.{plain_slice_header};
ghost use Rattle.hevc_write_slice_header.specs.HeaderParts as own;
ghost use Rattle.hevc_write_elements.specs.Filling.{Writes, WritesIf, WritesTable};

use crate::rows::has_parallel_parts;
use hevc_bit_writer::BitWriter;
use hevc_picture_slice::{Pps, SliceHeader};
use hevc_sequence_set::Sps;
use hevc_write_elements::rows::{bits, ue, ue_u8};
use std::alloc::AllocError;

/// Rows 48 to 52 of table 14.
pub(crate) fn write_ending(
    w: &mut BitWriter,
    sps: &Sps,
    pps: &Pps,
    x: &SliceHeader,
) -> Result<(), AllocError>
    ensures { OnOk result (Writes (table.ending (plain_sps sps.now) (plain_pps pps.now))
        own.ending_of (plain_slice_header x.now) w.old w.new) }
{
    write_parallel_parts_if(w, has_parallel_parts(pps), sps, pps, x)?;
    write_header_extension_if(w, pps.slice_segment_header_extension_present_flag, x)?;
    Ok(())
}

/// Rows 48 to 50 of table 14, where they are present.
fn write_parallel_parts_if(
    w: &mut BitWriter,
    present: bool,
    sps: &Sps,
    pps: &Pps,
    x: &SliceHeader,
) -> Result<(), AllocError>
    ensures { OnOk result (WritesIf present
        (Writes (table.parallel_parts (plain_sps sps.now) (plain_pps pps.now))
        own.parallel_parts_of (plain_slice_header x.now)) w.old w.new) }
{
    if !present {
        return Ok(());
    }
    ue(w, x.num_entry_point_offsets)?; // Row(14, 48)
    write_entry_point_offsets_if(w, x.num_entry_point_offsets != 0, x)?;
    Ok(())
}

/// Rows 49 and 50 of table 14, where they are present.
fn write_entry_point_offsets_if(
    w: &mut BitWriter,
    present: bool,
    x: &SliceHeader,
) -> Result<(), AllocError>
    ensures { OnOk result (WritesIf present
        (Writes table.entry_point_offsets
        own.entry_point_offsets_of (plain_slice_header x.now)) w.old w.new) }
{
    if !present {
        return Ok(());
    }
    ue_u8(w, x.offset_len_minus1)?; // Row(14, 49)
    write_entry_points(
        w,
        offset_len_minus1(x),
        x.entry_point_offset_minus1.as_slice(),
    )?;
    Ok(())
}

/// Rows 51 and 52 of table 14: no extension, where they are present.
fn write_header_extension_if(
    w: &mut BitWriter,
    present: bool,
    x: &SliceHeader,
) -> Result<(), AllocError>
    ensures { OnOk result (WritesIf present
        (Writes table.header_extension
        own.header_extension_of (plain_slice_header x.now)) w.old w.new) }
{
    if !present {
        return Ok(());
    }
    ue(w, 0)?; // Row(14, 51): no byte of Row(14, 52) follows
    Ok(())
}

/// How many bits an entry point has, less 1: at most 31, which is what a table gives.
fn offset_len_minus1(x: &SliceHeader) -> u8
    ensures few { result ≤ 31 }
    ensures value { x.now.offset_len_minus1 ≤ 31 → result ≡ x.now.offset_len_minus1 }
{
    x.offset_len_minus1.min(31)
}

/// Row 50 of table 14, for each entry point.
fn write_entry_points(
    w: &mut BitWriter,
    num_bits_minus1: u8,
    offsets: &[u32],
) -> Result<(), AllocError>
    requires { num_bits_minus1 ≤ 31 }
    ensures { (count : ℕ) → OnOk result (WritesTable
        (table.entry_points (num_bits_minus1 + 1) count) offsets.now w.old w.new) }
{
    let num_bits = u32::from(num_bits_minus1) + 1;
    for i in 0..offsets.len() {
        bits(w, num_bits, offsets[i])?; // Row(14, 50)
    }
    Ok(())
}
