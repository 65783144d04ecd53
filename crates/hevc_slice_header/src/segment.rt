//! Segments after the id of their picture set (7.3.6.1, rows 4 to 52 of table 14).
ghost use Rattle.std.specs.Prelude.{◌≡◌};
ghost use Rattle.hevc_bits.specs.NaluType.{nalu_type_number};
ghost use Rattle.hevc_elements.specs.Words.{when, Fills, FillsGrowing};
ghost use Rattle.hevc_tables.specs.SliceHeaderTable as table;
ghost use Rattle.hevc_sequence_set.specs.Sps.{plain_sps};
ghost use Rattle.hevc_picture_slice.specs.Pps.{plain_pps};
ghost use Rattle.hevc_picture_slice.specs.SliceHeader.{plain_slice_header};

use crate::beginning::read_later_segment;
use crate::entry_points::read_ending;
use crate::filters::read_filters;
use crate::kind::{read_adaptive_offset, read_kind};
use crate::prediction::{is_i, read_prediction};
use crate::quantiser::read_quantisers;
use hevc_bits::NaluType;
use hevc_elements::{ElementReader, ParseError};
use hevc_picture_slice::{Pps, SliceHeader};
use hevc_sequence_set::Sps;
use hevc_slice_references::read_reference_pictures;
use std::alloc::Global;

/// Rows 4 to 52 of table 14.
#[tactic(auto, unfolding(hevc_tables::specs::SliceHeaderTable::header_of, hevc_spec::specs::Rows::when))]
pub(crate) fn read_behind_sets(
    alloc: Global,
    r: &mut ElementReader<'_>,
    nalu_type: NaluType,
    sps: &Sps,
    pps: &Pps,
    h: &mut SliceHeader,
) -> Result<(), ParseError>
    ensures { FillsGrowing plain_slice_header
        (table.header_of (nalu_type_number nalu_type) (plain_sps sps.now)
        (plain_pps pps.now)) result h.old h.new r.old r.new }
{
    slice_header_set_defaults(h, sps, pps);
    if !h.first_slice_segment_in_pic_flag {
        read_later_segment(r, sps, pps, h)?;
    }
    if !h.dependent_slice_segment_flag {
        read_independent(r, nalu_type, sps, pps, h)?;
    }
    read_ending(alloc, r, sps, pps, h)
}

/// Sets what the sets of a slice infer for absent elements of its header (7.4.7.1), as
/// `SliceHeader::set_defaults` does with the numbers of `sps`.
pub fn slice_header_set_defaults(hdr: &mut SliceHeader, sps: &Sps, pps: &Pps)
    ensures { plain_slice_header hdr.new
        ≡ table.with_defaults (plain_sps sps.now) (plain_pps pps.now) (plain_slice_header hdr.old) }
{
    hdr.set_defaults(
        pps,
        sps.num_short_term_ref_pic_sets,
        sps.scc_extension.motion_vector_resolution_control_idc,
    );
}

/// Rows 6 to 47 of table 14.
#[tactic(auto, unfolding(hevc_tables::specs::SliceHeaderTable::independent_segment))]
fn read_independent(
    r: &mut ElementReader<'_>,
    nalu_type: NaluType,
    sps: &Sps,
    pps: &Pps,
    h: &mut SliceHeader,
) -> Result<(), ParseError>
    ensures { Fills plain_slice_header
        (table.independent_segment (nalu_type_number nalu_type) (plain_sps sps.now)
        (plain_pps pps.now)) result h.old h.new r.old r.new }
{
    read_kind(r, sps, pps, h)?;
    read_reference_pictures_if(r, !nalu_type.is_idr(), sps, h)?;
    read_adaptive_offset(r, sps, h)?;
    read_prediction_if(r, !is_i(h), sps, pps, h)?;
    read_quantisers(r, pps, h)?;
    read_filters(r, pps, h)
}

/// Rows 10 to 21 of table 14, where they are present.
#[tactic(auto, unfolding(hevc_spec::specs::Rows::when))]
fn read_reference_pictures_if(
    r: &mut ElementReader<'_>,
    present: bool,
    sps: &Sps,
    h: &mut SliceHeader,
) -> Result<(), ParseError>
    ensures { Fills plain_slice_header
        (λ h. when present h
        (table.reference_pictures (plain_sps sps.now) h)) result h.old h.new r.old r.new }
{
    if present {
        read_reference_pictures(r, sps, h)
    } else {
        Ok(())
    }
}

/// Rows 24 to 34 of table 14, where they are present.
#[tactic(auto, unfolding(hevc_spec::specs::Rows::when))]
fn read_prediction_if(
    r: &mut ElementReader<'_>,
    present: bool,
    sps: &Sps,
    pps: &Pps,
    h: &mut SliceHeader,
) -> Result<(), ParseError>
    ensures { Fills plain_slice_header
        (λ h. when present h
        (table.prediction (plain_sps sps.now)
        (plain_pps pps.now) h)) result h.old h.new r.old r.new }
{
    if present {
        read_prediction(r, sps, pps, h)
    } else {
        Ok(())
    }
}
