//! Slice segment headers (7.3.6.1, table 14).
ghost use Rattle.std.specs.Prelude.{◌≡◌, ℕ, OnOk};
ghost use Rattle.std.specs.declared.option.Option.{Option};
ghost use Rattle.std.specs.declared.option.Option.TheVariants.{Some};
ghost use Rattle.hevc_bits.specs.NaluType.{nalu_type_number};
ghost use Rattle.hevc_tables.specs.SliceHeaderTable as table;
ghost use Rattle.hevc_sequence_set.specs.Sps.{plain_sps};
ghost use Rattle.hevc_picture_slice.specs.Pps.{plain_pps};
ghost use Rattle.hevc_picture_slice.specs.SliceHeader.{plain_slice_header};
ghost use Rattle.hevc_write_slice_header.specs.HeaderParts as own;
ghost use Rattle.hevc_write_units.specs.Slices.{WritesSized};
ghost use Rattle.hevc_write_elements.specs.Filling.{Writes, WritesIf};

use crate::ending::write_ending;
use crate::segment::{write_beginning, write_independent_segment_if, write_later_segment_if};
use hevc_bit_writer::BitWriter;
use hevc_bits::{NaluHeader, NaluType};
use hevc_picture_slice::{Pps, SliceHeader};
use hevc_sequence_set::Sps;
use std::alloc::AllocError;

/// Table 14 without its alignment, of a header in a unit with this unit header, with the sets that
/// it names. No extension is written.
pub fn write_slice_header(
    w: &mut BitWriter,
    header: &NaluHeader,
    sps: &Sps,
    pps: &Pps,
    x: &SliceHeader,
) -> Result<(), AllocError>
    ensures { (kept : ℕ → Option table.ActiveSets)
        → kept x.now.pic_parameter_set_id
        ≡ Some (record { sps = plain_sps sps.now; pps = plain_pps pps.now })
        → OnOk result (WritesSized (table.elements header.now.nal_unit_type kept)
        (plain_slice_header x.now) w.old w.new) }
{
    let nalu_type = header.nalu_type();
    write_beginning(w, nalu_type, x)?;
    write_header_rows(w, nalu_type, sps, pps, x)?;
    Ok(())
}

/// Rows 4 to 52 of table 14.
fn write_header_rows(
    w: &mut BitWriter,
    nalu_type: NaluType,
    sps: &Sps,
    pps: &Pps,
    x: &SliceHeader,
) -> Result<(), AllocError>
    ensures { OnOk result (Writes
        (own.header_rows (nalu_type_number nalu_type) (plain_sps sps.now) (plain_pps pps.now))
        own.header_with_inputs_of (plain_slice_header x.now) w.old w.new) }
{
    write_later_segment_if(w, !x.first_slice_segment_in_pic_flag, sps, pps, x)?;
    write_independent_segment_if(w, !x.dependent_slice_segment_flag, nalu_type, sps, pps, x)?;
    write_ending(w, sps, pps, x)?;
    Ok(())
}
