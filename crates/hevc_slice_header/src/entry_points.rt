//! Entry points and the header's extension (7.3.6.1, rows 48 to 52 of table 14).
ghost use Rattle.std.specs.Prelude.{◌≡◌, ◌+◌, ◌-◌, ◌^◌, ◌≤◌, ◌<◌, if◌then◌else◌};
ghost use Rattle.hevc_spec.specs.Rows.{row, bits_row};
ghost use Rattle.hevc_elements.specs.Words.{Reads, Fills, ReadsGrowing, FillsGrowing};
ghost use Rattle.hevc_tables.specs.SliceHeaderTable as table;
ghost use Rattle.hevc_sequence_set.specs.Sps.{plain_sps};
ghost use Rattle.hevc_picture_slice.specs.Pps.{plain_pps};
ghost use Rattle.hevc_picture_slice.specs.SliceHeader.{plain_slice_header};

use hevc_elements::rows::{bits_32, bits_u32, skip, ue, ue_u8};
use hevc_elements::{ElementReader, ParseError};
use hevc_picture_slice::{Pps, SliceHeader};
use hevc_sequence_set::Sps;
use hevc_set_parts::Items;
use hevc_spec::Row;
use std::alloc::Global;

/// Rows 48 to 52 of table 14.
#[tactic(auto, unfolding(hevc_tables::specs::SliceHeaderTable::ending, hevc_spec::specs::Rows::when))]
pub(crate) fn read_ending(
    alloc: Global,
    r: &mut ElementReader<'_>,
    sps: &Sps,
    pps: &Pps,
    h: &mut SliceHeader,
) -> Result<(), ParseError>
    ensures { FillsGrowing plain_slice_header
        (table.ending (plain_sps sps.now) (plain_pps pps.now)) result h.old h.new r.old r.new }
{
    if pps.tiles_enabled_flag || pps.entropy_coding_sync_enabled_flag {
        read_parallel_parts(alloc, r, sps, pps, h)?;
    }
    if pps.slice_segment_header_extension_present_flag {
        skip_extension(r, h)?;
    }
    Ok(())
}

/// Rows 48 to 50 of table 14.
#[tactic(auto, unfolding(hevc_tables::specs::SliceHeaderTable::parallel_parts, hevc_spec::specs::Rows::when))]
fn read_parallel_parts(
    alloc: Global,
    r: &mut ElementReader<'_>,
    sps: &Sps,
    pps: &Pps,
    h: &mut SliceHeader,
) -> Result<(), ParseError>
    ensures { FillsGrowing plain_slice_header
        (table.parallel_parts (plain_sps sps.now)
        (plain_pps pps.now)) result h.old h.new r.old r.new }
{
    let count = ue(r, Row(14, 48), 0, most_entry_points(sps, pps))?;
    h.num_entry_point_offsets = count;
    if count != 0 {
        read_offsets(alloc, r, h)?;
    }
    Ok(())
}

/// How many entry points a segment can have after its first.
fn most_entry_points(sps: &Sps, pps: &Pps) -> u32
    ensures value { result ≡ table.most_entry_points (plain_sps sps.now) (plain_pps pps.now) }
    ensures few { result < 2 ^ 20 }
{
    parts_across(pps) * parts_down(sps, pps) - 1
}

/// Tile columns, or 1.
fn parts_across(pps: &Pps) -> u32
    ensures value { result
        ≡ (if pps.now.tiles_enabled_flag then pps.now.num_tile_columns_minus1 + 1 else 1) }
    ensures range { (1 ≤ result) × (result ≤ 20) }
{
    if pps.tiles_enabled_flag {
        u32::from(pps.num_tile_columns_minus1) + 1
    } else {
        1
    }
}

/// Rows of blocks, or of tiles.
#[tactic(auto, using(crate::proofs::PictureSizes::picture_sizes))]
fn parts_down(sps: &Sps, pps: &Pps) -> u32
    ensures value { result ≡ (if pps.now.entropy_coding_sync_enabled_flag
        then sps.now.pic_height_in_ctbs_y else pps.now.num_tile_rows_minus1 + 1) }
    ensures range { (1 ≤ result) × (result ≤ 16888) }
{
    if pps.entropy_coding_sync_enabled_flag {
        sps.pic_height_in_ctbs_y
    } else {
        u32::from(pps.num_tile_rows_minus1) + 1
    }
}

/// Rows 49 and 50 of table 14.
#[tactic(auto, unfolding(hevc_tables::specs::SliceHeaderTable::entry_point_offsets))]
fn read_offsets(
    alloc: Global,
    r: &mut ElementReader<'_>,
    h: &mut SliceHeader,
) -> Result<(), ParseError>
    ensures { FillsGrowing plain_slice_header table.entry_point_offsets result
        h.old h.new r.old r.new }
{
    let num_bits_minus1 = ue_u8(r, Row(14, 49), 0, 31)?;
    let num_bits = usize::from(num_bits_minus1) + 1;
    let offsets = read_entry_points(alloc, r, num_bits, h.num_entry_point_offsets)?;
    h.offset_len_minus1 = num_bits_minus1;
    h.entry_point_offset_minus1 = offsets;
    Ok(())
}

/// Entry points for which room is made at once: those of a picture of 64 rows of blocks.
const USUAL_COUNT: u32 = 63;

/// Row 50 of table 14, for so many entry points.
#[tactic(auto, using(hevc_elements::proofs::Loops::growing_loops), unfolding(hevc_tables::specs::SliceHeaderTable::entry_points, hevc_tables::specs::SliceHeaderTable::entry_point))]
fn read_entry_points(
    alloc: Global,
    r: &mut ElementReader<'_>,
    num_bits: usize,
    count: u32,
) -> Result<Items<u32>, ParseError>
    requires { num_bits ≤ 32 }
    ensures read { ReadsGrowing (λ offsets. offsets) (table.entry_points num_bits count) result
        r.old r.new }
{
    let mut offsets = Items::new(alloc);
    offsets.reserve(count.min(USUAL_COUNT) as usize)?;
    for i in 0..count {
        let offset = read_entry_point(r, num_bits)?;
        offsets.push(offset)?;
    }
    Ok(offsets)
}

/// Row 50 of table 14, for one entry point.
fn read_entry_point(r: &mut ElementReader<'_>, num_bits: usize) -> Result<u32, ParseError>
    requires { num_bits ≤ 32 }
    ensures read { Reads (λ n. n) (bits_row (row 14 50) num_bits 0 (2 ^ num_bits - 1)) result r.old
        r.new }
{
    if num_bits == 32 {
        bits_32(r, Row(14, 50))
    } else {
        bits_u32(r, Row(14, 50), num_bits, 0, (1u32 << num_bits) - 1)
    }
}

/// Rows 51 and 52 of table 14.
#[tactic(auto, unfolding(hevc_tables::specs::SliceHeaderTable::header_extension))]
fn skip_extension(r: &mut ElementReader<'_>, h: &mut SliceHeader) -> Result<(), ParseError>
    ensures fills { Fills plain_slice_header table.header_extension result h.old h.new r.old r.new }
{
    let _ = h;
    let length = ue(r, Row(14, 51), 0, 256)?;
    skip(r, Row(14, 52), 8 * length as usize)
}
