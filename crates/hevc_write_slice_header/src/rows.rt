//! Elements of slice headers, written: those whose number of bits a set tells, and conditions.
ghost use Rattle.std.specs.Prelude.{◌≡◌, ◌≤◌, ◌&&◌, ◌||◌, nat_lt, not, ◌==◌, OnOk};
ghost use Rattle.hevc_tables.specs.MathFunctions.{ceil_log2 as logarithm};
ghost use Rattle.hevc_tables.specs.SliceHeaderTable as table;
ghost use Rattle.hevc_tables.specs.SliceTypes as types;
ghost use Rattle.hevc_tables.specs.WeightedPredictionTable.{has_chroma as has_chroma_of};
ghost use Rattle.hevc_set_parts.specs.SliceType.{slice_type_number};
ghost use Rattle.hevc_sequence_set.specs.Sps.{plain_sps};
ghost use Rattle.hevc_picture_slice.specs.Pps.{plain_pps};
ghost use Rattle.hevc_picture_slice.specs.SliceHeader.{plain_slice_header};
ghost use Rattle.hevc_write_elements.specs.Filling.{WritesBits, WritesIf, WritesUe, WritesZeros};

use hevc_bit_writer::BitWriter;
use hevc_picture_slice::{Pps, SliceHeader};
use hevc_sequence_set::Sps;
use hevc_set_parts::SliceType;
use hevc_slice_parts::ceil_log2;
use hevc_write_elements::rows::{bits, ue, zeros};
use std::alloc::AllocError;

/// Writes so many zeros.
pub(crate) fn zeros_u8(w: &mut BitWriter, num_bits: u8) -> Result<(), AllocError>
    ensures { OnOk result (WritesZeros num_bits w.old w.new) }
{
    zeros(w, u32::from(num_bits))
}

/// Writes slice_type.
pub(crate) fn slice_type(w: &mut BitWriter, type_: SliceType) -> Result<(), AllocError>
    ensures { OnOk result (WritesUe (slice_type_number type_) w.old w.new) }
{
    ue(w, type_.number())
}

/// Writes which of so many things one is.
pub(crate) fn index(w: &mut BitWriter, count: u32, value: u32) -> Result<(), AllocError>
    ensures { OnOk result (WritesBits (logarithm count) value w.old w.new) }
{
    bits(w, ceil_log2(count) as u32, value)
}

/// Writes which of so many things one is, where there are several.
pub(crate) fn index_if(w: &mut BitWriter, count: u8, value: u8) -> Result<(), AllocError>
    ensures { OnOk result
        (WritesIf (nat_lt 1 count) (WritesBits (logarithm count) value) w.old w.new) }
{
    if count > 1 {
        index(w, u32::from(count), u32::from(value))
    } else {
        Ok(())
    }
}

/// Writes the low bits of an order count, as many as the sequence set tells.
pub(crate) fn order_count_bits(w: &mut BitWriter, sps: &Sps, value: u32) -> Result<(), AllocError>
    ensures { OnOk result (WritesBits (table.lsb_bits (plain_sps sps.now)) value w.old w.new) }
{
    bits(
        w,
        u32::from(sps.log2_max_pic_order_cnt_lsb_minus4) + 4,
        value,
    )
}

/// Writes the low bits of the picture's order count.
pub(crate) fn order_count(w: &mut BitWriter, sps: &Sps, value: u16) -> Result<(), AllocError>
    ensures { OnOk result (WritesBits (table.lsb_bits (plain_sps sps.now)) value w.old w.new) }
{
    order_count_bits(w, sps, u32::from(value))
}

/// Whether there are chroma planes that are coded with luma.
pub(crate) fn has_chroma(sps: &Sps) -> bool
    ensures { result ≡ has_chroma_of (plain_sps sps.now) }
{
    sps.chroma_array_type != 0
}

/// Whether a header tells of sample adaptive offset of chroma.
pub(crate) fn has_chroma_offset(sps: &Sps) -> bool
    ensures { result
        ≡ (sps.now.sample_adaptive_offset_enabled_flag && has_chroma_of (plain_sps sps.now)) }
{
    sps.sample_adaptive_offset_enabled_flag && has_chroma(sps)
}

/// Whether the slice has two lists.
pub(crate) fn is_b(x: &SliceHeader) -> bool
    ensures { result ≡ types.is_b (slice_type_number x.now.type_) }
{
    x.type_.number() == 0
}

/// Whether the slice has no list.
pub(crate) fn is_i(x: &SliceHeader) -> bool
    ensures { result ≡ types.is_i (slice_type_number x.now.type_) }
{
    x.type_.number() == 2
}

/// Whether predictions of the slice are weighted.
pub(crate) fn is_weighted(pps: &Pps, x: &SliceHeader) -> bool
    ensures { result ≡ table.is_weighted (plain_pps pps.now) (slice_type_number x.now.type_) }
{
    let number = x.type_.number();
    (pps.weighted_pred_flag && number == 1) || (pps.weighted_bipred_flag && number == 0)
}

/// Whether the lists' order may be told.
pub(crate) fn has_list_modification(pps: &Pps, x: &SliceHeader) -> bool
    ensures { result
        ≡ table.has_list_modification (plain_pps pps.now) (plain_slice_header x.now) }
{
    pps.lists_modification_present_flag && x.num_pic_total_curr > 1
}

/// Whether the header tells which list has the collocated picture.
pub(crate) fn has_collocated_list(x: &SliceHeader) -> bool
    ensures { result
        ≡ (x.now.temporal_mvp_enabled_flag && types.is_b (slice_type_number x.now.type_)) }
{
    x.temporal_mvp_enabled_flag && is_b(x)
}

/// Whether the header tells at which place the collocated picture is.
pub(crate) fn has_collocated_index(x: &SliceHeader) -> bool
    ensures { result ≡ (x.now.temporal_mvp_enabled_flag
        && not (table.last_collocated (plain_slice_header x.now) == 0)) }
{
    x.temporal_mvp_enabled_flag && last_collocated(x) != 0
}

/// The last active place of the list that has the collocated picture.
fn last_collocated(x: &SliceHeader) -> u8
    ensures { result ≡ table.last_collocated (plain_slice_header x.now) }
{
    if x.collocated_from_l0_flag {
        x.num_ref_idx_l0_active_minus1
    } else {
        x.num_ref_idx_l1_active_minus1
    }
}

/// Whether the header tells of filtering across the slice's borders.
pub(crate) fn goes_across(pps: &Pps, x: &SliceHeader) -> bool
    ensures { result ≡ (pps.now.loop_filter_across_slices_enabled_flag
        && table.has_filters (plain_slice_header x.now)) }
{
    pps.loop_filter_across_slices_enabled_flag && has_filters(x)
}

/// Whether the slice has filters.
fn has_filters(x: &SliceHeader) -> bool
    ensures { result ≡ table.has_filters (plain_slice_header x.now) }
{
    x.sao_luma_flag || x.sao_chroma_flag || !x.deblocking_filter_disabled_flag
}

/// Whether pictures have parts that can be decoded side by side.
pub(crate) fn has_parallel_parts(pps: &Pps) -> bool
    ensures { result
        ≡ (pps.now.tiles_enabled_flag || pps.now.entropy_coding_sync_enabled_flag) }
{
    pps.tiles_enabled_flag || pps.entropy_coding_sync_enabled_flag
}
