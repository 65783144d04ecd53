//! Where a segment is, and of which kind (7.3.6.1, rows 1 to 47 of table 14).
ghost use Rattle.std.specs.Prelude.{OnOk};
ghost use Rattle.hevc_bits.specs.NaluType.{nalu_type_number};
ghost use Rattle.hevc_tables.specs.SliceHeaderTable as table;
ghost use Rattle.hevc_sequence_set.specs.Sps.{plain_sps};
ghost use Rattle.hevc_picture_slice.specs.Pps.{plain_pps};
ghost use Rattle.hevc_picture_slice.specs.SliceHeader.{plain_slice_header};
ghost use Rattle.hevc_write_slice_header.specs.HeaderParts as own;
ghost use Rattle.hevc_write_elements.specs.Filling.{Writes, WritesIf};

use crate::filters::{write_adaptive_offset, write_filters};
use crate::prediction::write_prediction_if;
use crate::quantisers::write_quantisers;
use crate::references::write_reference_pictures_if;
use crate::rows::{index, is_i, slice_type, zeros_u8};
use hevc_bit_writer::BitWriter;
use hevc_bits::NaluType;
use hevc_picture_slice::{Pps, SliceHeader};
use hevc_sequence_set::Sps;
use hevc_write_elements::rows::{bits_u8_if, flag, flag_if, ue_u8};
use std::alloc::AllocError;

/// Rows 1 to 3 of table 14.
pub(crate) fn write_beginning(
    w: &mut BitWriter,
    nalu_type: NaluType,
    x: &SliceHeader,
) -> Result<(), AllocError>
    ensures { OnOk result (Writes (table.beginning (nalu_type_number nalu_type))
        own.beginning_of (plain_slice_header x.now) w.old w.new) }
{
    flag(w, x.first_slice_segment_in_pic_flag)?; // Row(14, 1)
    flag_if(w, nalu_type.is_irap(), x.no_output_of_prior_pics_flag)?; // Row(14, 2)
    ue_u8(w, x.pic_parameter_set_id)?; // Row(14, 3)
    Ok(())
}

/// Rows 4 and 5 of table 14, where they are present.
pub(crate) fn write_later_segment_if(
    w: &mut BitWriter,
    present: bool,
    sps: &Sps,
    pps: &Pps,
    x: &SliceHeader,
) -> Result<(), AllocError>
    ensures { OnOk result (WritesIf present
        (Writes (table.later_segment (plain_sps sps.now) (plain_pps pps.now))
        own.later_segment_of (plain_slice_header x.now)) w.old w.new) }
{
    if !present {
        return Ok(());
    }
    flag_if(
        w,
        pps.dependent_slice_segments_enabled_flag,
        x.dependent_slice_segment_flag,
    )?; // Row(14, 4)
    index(w, sps.pic_size_in_ctbs_y, x.segment_address)?; // Row(14, 5)
    Ok(())
}

/// Rows 6 to 47 of table 14, where they are present.
pub(crate) fn write_independent_segment_if(
    w: &mut BitWriter,
    present: bool,
    nalu_type: NaluType,
    sps: &Sps,
    pps: &Pps,
    x: &SliceHeader,
) -> Result<(), AllocError>
    ensures { OnOk result (WritesIf present
        (Writes (own.independent_rows (nalu_type_number nalu_type)
        (plain_sps sps.now) (plain_pps pps.now))
        own.independent_segment_elements_of (plain_slice_header x.now)) w.old w.new) }
{
    if !present {
        return Ok(());
    }
    write_kind(w, sps, pps, x)?;
    write_reference_pictures_if(w, !nalu_type.is_idr(), sps, x)?;
    write_adaptive_offset(w, sps, x)?;
    write_prediction_if(w, !is_i(x), sps, pps, x)?;
    write_quantisers(w, pps, x)?;
    write_filters(w, pps, x)?;
    Ok(())
}

/// Rows 6 to 9 of table 14.
fn write_kind(w: &mut BitWriter, sps: &Sps, pps: &Pps, x: &SliceHeader) -> Result<(), AllocError>
    ensures { OnOk result (Writes (table.kind (plain_sps sps.now) (plain_pps pps.now))
        own.kind_of (plain_slice_header x.now) w.old w.new) }
{
    zeros_u8(w, pps.num_extra_slice_header_bits)?; // Row(14, 6)
    slice_type(w, x.type_)?; // Row(14, 7)
    flag_if(w, pps.output_flag_present_flag, x.pic_output_flag)?; // Row(14, 8)
    bits_u8_if(w, sps.separate_colour_plane_flag, 2, x.colour_plane_id)?; // Row(14, 9)
    Ok(())
}
