//! What a slice adds to the picture set's quantisers (7.3.6.1, rows 35 to 42 of table 14).
ghost use Rattle.std.specs.Prelude.{OnOk};
ghost use Rattle.hevc_tables.specs.SliceHeaderTable as table;
ghost use Rattle.hevc_picture_slice.specs.Pps.{plain_pps};
ghost use Rattle.hevc_picture_slice.specs.SliceHeader.{plain_slice_header};
ghost use Rattle.hevc_write_slice_header.specs.HeaderParts as own;
ghost use Rattle.hevc_write_elements.specs.Filling.{Writes, WritesIf};

use hevc_bit_writer::BitWriter;
use hevc_picture_slice::{Pps, SliceHeader};
use hevc_write_elements::rows::{flag_if, se_i8};
use std::alloc::AllocError;

/// Rows 35 to 42 of table 14.
pub(crate) fn write_quantisers(
    w: &mut BitWriter,
    pps: &Pps,
    x: &SliceHeader,
) -> Result<(), AllocError>
    ensures { OnOk result (Writes (table.quantisers (plain_pps pps.now))
        own.quantisers_of (plain_slice_header x.now) w.old w.new) }
{
    write_quantiser(w, pps, x)?;
    write_extension_offsets(w, pps, x)?;
    Ok(())
}

/// Rows 35 to 40 of table 14.
fn write_quantiser(w: &mut BitWriter, pps: &Pps, x: &SliceHeader) -> Result<(), AllocError>
    ensures { OnOk result (Writes (table.quantiser (plain_pps pps.now))
        own.quantiser_of (plain_slice_header x.now) w.old w.new) }
{
    se_i8(w, x.qp_delta)?; // Row(14, 35)
    write_chroma_offsets_if(w, pps.slice_chroma_qp_offsets_present_flag, pps, x)?;
    Ok(())
}

/// Rows 37 to 40 of table 14, where they are present.
fn write_chroma_offsets_if(
    w: &mut BitWriter,
    present: bool,
    pps: &Pps,
    x: &SliceHeader,
) -> Result<(), AllocError>
    ensures { OnOk result (WritesIf present
        (Writes (table.chroma_offsets (plain_pps pps.now))
        own.chroma_offsets_of (plain_slice_header x.now)) w.old w.new) }
{
    if !present {
        return Ok(());
    }
    se_i8(w, x.cb_qp_offset)?; // Row(14, 37)
    se_i8(w, x.cr_qp_offset)?; // Row(14, 39)
    Ok(())
}

/// Rows 41 and 42 of table 14.
fn write_extension_offsets(w: &mut BitWriter, pps: &Pps, x: &SliceHeader) -> Result<(), AllocError>
    ensures { OnOk result (Writes (table.extension_offsets (plain_pps pps.now))
        own.extension_offsets_of (plain_slice_header x.now) w.old w.new) }
{
    write_colour_transform_offsets_if(w, pps.scc_extension.slice_act_qp_offsets_present_flag, x)?;
    flag_if(
        w,
        pps.range_extension.chroma_qp_offset_list_enabled_flag,
        x.cu_chroma_qp_offset_enabled_flag,
    )?; // Row(14, 42)
    Ok(())
}

/// Row 41 of table 14, where it is present.
fn write_colour_transform_offsets_if(
    w: &mut BitWriter,
    present: bool,
    x: &SliceHeader,
) -> Result<(), AllocError>
    ensures { OnOk result (WritesIf present
        (Writes table.colour_transform_offsets
        own.colour_transform_offsets_of (plain_slice_header x.now)) w.old w.new) }
{
    if !present {
        return Ok(());
    }
    se_i8(w, x.slice_act_y_qp_offset)?; // Row(14, 41)
    se_i8(w, x.slice_act_cb_qp_offset)?; // Row(14, 41)
    se_i8(w, x.slice_act_cr_qp_offset)?; // Row(14, 41)
    Ok(())
}
