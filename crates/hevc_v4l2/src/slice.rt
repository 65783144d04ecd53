//! A slice segment: `struct v4l2_ctrl_hevc_slice_params`.
ghost use Rattle.std.specs.Prelude.{◌≡◌, ◌≤◌, ◌*◌, map, None, Some, IfNone, IfOk};
ghost use Rattle.std.specs.Prelude.{IfSome};
ghost use Rattle.std.specs.Result.{result_err};
ghost use Rattle.hevc_set_parts.specs.SliceType.{slice_type_number};
ghost use Rattle.hevc_sequence_set.specs.Sps.{plain_sps};
ghost use Rattle.hevc_picture_slice.specs.SliceHeader.{plain_slice_header};
ghost use Rattle.hevc_dpb.specs.Entries.{reference_numbers};
ghost use Rattle.hevc_dpb.specs.Views.{stored_entries};
ghost use Rattle.hevc_refs.specs.Lists.{places_of};
ghost use Rattle.hevc_v4l2.specs.declared.error.ControlError.TheVariants.{CurrentPicture};
ghost use Rattle.hevc_v4l2.specs.Arrays.{padded};
ghost use Rattle.hevc_v4l2.specs.Buffer.{place_index};
ghost use Rattle.hevc_v4l2.specs.Slice.{controls_of_slice, data_byte_offset, filled_control};
ghost use Rattle.hevc_v4l2.specs.Slice.{included_bits, lists_error, raw_data_byte_offset};
ghost use Rattle.hevc_v4l2.specs.Slice.{sizes_error, slice_error, slice_flags};

use crate::buffer::{has_current, place_indices};
use crate::error::ControlError;
use crate::long_term::long_term_size;
use crate::weights::{V4l2HevcPredWeightTable, half_range, weights_control};
use hevc_dpb::Dpb;
use hevc_events::flag_bits;
use hevc_picture_slice::{Slice, SliceHeader};
use hevc_pictures::PictureData;
use hevc_refs::RefPicList;
use hevc_sequence_set::Sps;
use hevc_set_parts::SliceType;

/// `struct v4l2_ctrl_hevc_slice_params`: a slice segment (7.3.6.1), its elements by their names in
/// H.265.
#[repr(C)]
#[derive(Clone, Copy)]
pub struct V4l2CtrlHevcSliceParams {
    /// The bits of the unit, its header's among them, without a start code.
    pub bit_size: u32,
    /// The bytes of the unit before the data of the slice, without emulation prevention bytes.
    pub data_byte_offset: u32,
    pub num_entry_point_offsets: u32,
    pub nal_unit_type: u8,
    pub nuh_temporal_id_plus1: u8,
    /// 0 for B, 1 for P, 2 for I (`V4L2_HEVC_SLICE_TYPE_*`).
    pub slice_type: u8,
    pub colour_plane_id: u8,
    /// PicOrderCntVal of the picture.
    pub slice_pic_order_cnt: i32,
    pub num_ref_idx_l0_active_minus1: u8,
    pub num_ref_idx_l1_active_minus1: u8,
    pub collocated_ref_idx: u8,
    pub five_minus_max_num_merge_cand: u8,
    pub slice_qp_delta: i8,
    pub slice_cb_qp_offset: i8,
    pub slice_cr_qp_offset: i8,
    pub slice_act_y_qp_offset: i8,
    pub slice_act_cb_qp_offset: i8,
    pub slice_act_cr_qp_offset: i8,
    pub slice_beta_offset_div2: i8,
    pub slice_tc_offset_div2: i8,
    /// 0, a frame: SEI messages aren't read.
    pub pic_struct: u8,
    /// Zeros.
    pub reserved0: [u8; 3],
    pub slice_segment_addr: u32,
    /// For each place of list 0, which of the `dpb` of the decode parameters it is; 255 where there
    /// is no such picture, and after the list.
    pub ref_idx_l0: [u8; 16],
    /// The same of list 1.
    pub ref_idx_l1: [u8; 16],
    /// The bits of the header's own short-term reference picture set, 0 in a dependent slice
    /// segment.
    pub short_term_ref_pic_set_size: u16,
    /// The bits of the header's part on long-term reference pictures, likewise.
    pub long_term_ref_pic_set_size: u16,
    pub pred_weight_table: V4l2HevcPredWeightTable,
    /// Zeros.
    pub reserved1: [u8; 2],
    /// `V4L2_HEVC_SLICE_PARAMS_FLAG_*`, from bit 0 on.
    pub flags: u64,
}

const _: () = prove!(size_of::<V4l2CtrlHevcSliceParams>() == 280);

/// That struct, and what it doesn't tell.
#[repr(C)]
#[derive(Clone, Copy)]
pub struct SliceControls {
    pub params: V4l2CtrlHevcSliceParams,
    /// The bytes of the unit before the data of the slice, emulation prevention bytes among them.
    pub raw_data_byte_offset: u32,
}

/// The sizes that a slice segment tells of itself.
#[derive(Clone, Copy)]
struct Sizes {
    bits: u32,
    data_byte_offset: u32,
    raw_data_byte_offset: u32,
    short_term_bits: u16,
}

/// The indices of both lists.
#[derive(Clone, Copy)]
struct Indices {
    l0: [u8; 16],
    l1: [u8; 16],
}

/// A slice segment as a stateless decoder takes it: of this picture, with this sequence set, buffer
/// and lists.
///
/// Errors, the first that there is: `UnitSize`, `ShortTermSize`, `ChromaDenominator`, `LumaOffset`,
/// `ChromaOffset`, `CurrentPicture`.
pub fn slice_controls(
    picture: &PictureData,
    slice: &Slice<'_>,
    sps: &Sps,
    dpb: &Dpb<u64>,
    ref_pic_list0: &RefPicList,
    ref_pic_list1: &RefPicList,
) -> Result<SliceControls, ControlError>
    ensures filled { IfOk result
        (λ controls. controls ≡ controls_of_slice picture.now slice.now (plain_sps sps.now)
        (reference_numbers (stored_entries dpb.now))
        (places_of ref_pic_list0.now) (places_of ref_pic_list1.now)) }
    ensures refused { result_err result
        ≡ slice_error slice.now (plain_sps sps.now)
        (places_of ref_pic_list0.now) (places_of ref_pic_list1.now) }
{
    let sizes = slice_sizes(slice)?;
    let weights = weights_control(&slice.header.pred_weight_table, half_range(sps))?;
    let Some(indices) = list_indices(dpb, ref_pic_list0, ref_pic_list1) else {
        return Err(ControlError::CurrentPicture);
    };
    Ok(SliceControls {
        params: filled_control(picture, slice, sps, sizes, weights, indices),
        raw_data_byte_offset: sizes.raw_data_byte_offset,
    })
}

/// The sizes, where they can be held.
fn slice_sizes(slice: &Slice<'_>) -> Result<Sizes, ControlError>
    ensures bits { IfOk result (λ sizes. sizes.bits ≡ 8 * slice.now.nalu.size) }
    ensures data { IfOk result (λ sizes. sizes.data_byte_offset
        ≡ data_byte_offset (plain_slice_header slice.now.header)) }
    ensures raw_data { IfOk result (λ sizes. sizes.raw_data_byte_offset
        ≡ raw_data_byte_offset (plain_slice_header slice.now.header)) }
    ensures short_term { IfOk result (λ sizes. sizes.short_term_bits
        ≡ included_bits (plain_slice_header slice.now.header) slice.now.header.st_rps_bits) }
    ensures refused { result_err result
        ≡ sizes_error slice.now.nalu.size (plain_slice_header slice.now.header) }
{
    let size = slice.nalu.size();
    let data_byte_offset = data_byte_offset(&slice.header);
    let raw = u64::from(data_byte_offset) + u64::from(slice.header.n_emulation_prevention_bytes);
    if size > 536870911 || raw > 4294967295 {
        return Err(ControlError::UnitSize);
    }
    let short_term_bits = included_bits(&slice.header, slice.header.st_rps_bits);
    if short_term_bits > 65535 {
        return Err(ControlError::ShortTermSize);
    }
    Ok(Sizes {
        bits: 8 * size as u32,
        data_byte_offset,
        raw_data_byte_offset: raw as u32,
        short_term_bits: short_term_bits as u16,
    })
}

/// The bytes before the data of the slice, without those that are inserted.
fn data_byte_offset(header: &SliceHeader) -> u32
    ensures { result ≡ data_byte_offset (plain_slice_header header.now) }
{
    ((u64::from(header.header_bit_size) + 7) / 8) as u32
}

/// The bits of a part of the header, none in a dependent slice segment.
fn included_bits(header: &SliceHeader, bits: u32) -> u32
    ensures value { result ≡ included_bits (plain_slice_header header.now) bits }
    ensures few { result ≤ bits }
{
    if header.dependent_slice_segment_flag {
        0
    } else {
        bits
    }
}

/// The indices of both lists; None where the current picture is in one.
fn list_indices(
    dpb: &Dpb<u64>,
    ref_pic_list0: &RefPicList,
    ref_pic_list1: &RefPicList,
) -> Option<Indices>
    ensures list0 { IfSome result (λ indices. indices.l0
        ≡ padded 255 (map (place_index (reference_numbers (stored_entries dpb.now)))
        (places_of ref_pic_list0.now))) }
    ensures list1 { IfSome result (λ indices. indices.l1
        ≡ padded 255 (map (place_index (reference_numbers (stored_entries dpb.now)))
        (places_of ref_pic_list1.now))) }
    ensures none { IfNone result
        (lists_error (places_of ref_pic_list0.now) (places_of ref_pic_list1.now)
        ≡ Some CurrentPicture) }
    ensures some { IfSome result
        (λ _. lists_error (places_of ref_pic_list0.now) (places_of ref_pic_list1.now) ≡ None) }
{
    if has_current(ref_pic_list0.as_slice()) || has_current(ref_pic_list1.as_slice()) {
        return None;
    }
    let numbers = dpb.get_all_references();
    Some(Indices {
        l0: place_indices(ref_pic_list0.as_slice(), numbers.as_slice()),
        l1: place_indices(ref_pic_list1.as_slice(), numbers.as_slice()),
    })
}

/// The control with these parts.
fn filled_control(
    picture: &PictureData,
    slice: &Slice<'_>,
    sps: &Sps,
    sizes: Sizes,
    weights: V4l2HevcPredWeightTable,
    indices: Indices,
) -> V4l2CtrlHevcSliceParams
    ensures { result ≡ filled_control picture.now slice.now (plain_sps sps.now)
        sizes.bits sizes.data_byte_offset sizes.short_term_bits weights indices.l0 indices.l1 }
{
    let header = &slice.header;
    let long_term_bits = u32::from(long_term_size(slice, sps));
    let Indices { l0, l1 } = indices;
    V4l2CtrlHevcSliceParams {
        bit_size: sizes.bits,
        data_byte_offset: sizes.data_byte_offset,
        num_entry_point_offsets: header.num_entry_point_offsets,
        nal_unit_type: nal_unit_type(slice),
        nuh_temporal_id_plus1: slice.nalu.header().temporal_id_plus1(),
        slice_type: slice_type(header.type_),
        colour_plane_id: header.colour_plane_id,
        slice_pic_order_cnt: picture.pic_order_cnt_val,
        num_ref_idx_l0_active_minus1: header.num_ref_idx_l0_active_minus1,
        num_ref_idx_l1_active_minus1: header.num_ref_idx_l1_active_minus1,
        collocated_ref_idx: header.collocated_ref_idx,
        five_minus_max_num_merge_cand: header.five_minus_max_num_merge_cand,
        slice_qp_delta: header.qp_delta,
        slice_cb_qp_offset: header.cb_qp_offset,
        slice_cr_qp_offset: header.cr_qp_offset,
        slice_act_y_qp_offset: header.slice_act_y_qp_offset,
        slice_act_cb_qp_offset: header.slice_act_cb_qp_offset,
        slice_act_cr_qp_offset: header.slice_act_cr_qp_offset,
        slice_beta_offset_div2: header.beta_offset_div2,
        slice_tc_offset_div2: header.tc_offset_div2,
        pic_struct: 0,
        reserved0: [0; 3],
        slice_segment_addr: header.segment_address,
        ref_idx_l0: l0,
        ref_idx_l1: l1,
        short_term_ref_pic_set_size: sizes.short_term_bits,
        long_term_ref_pic_set_size: included_bits(header, long_term_bits) as u16,
        pred_weight_table: weights,
        reserved1: [0; 2],
        flags: slice_flags(header),
    }
}

/// The type of the unit.
fn nal_unit_type(slice: &Slice<'_>) -> u8
    ensures { result ≡ slice.now.nalu.header.nal_unit_type }
{
    slice.nalu.header().nalu_type() as u8
}

/// The number of a slice type (Table 7-7).
fn slice_type(slice_type: SliceType) -> u8
    ensures { result ≡ slice_type_number slice_type }
{
    match slice_type {
        SliceType::B => 0,
        SliceType::P => 1,
        SliceType::I => 2,
    }
}

/// The flags, in the order of their bits.
fn slice_flags(header: &SliceHeader) -> u64
    ensures { result ≡ slice_flags (plain_slice_header header.now) }
{
    flag_bits(&[
        header.sao_luma_flag,
        header.sao_chroma_flag,
        header.temporal_mvp_enabled_flag,
        header.mvd_l1_zero_flag,
        header.cabac_init_flag,
        header.collocated_from_l0_flag,
        header.use_integer_mv_flag,
        header.deblocking_filter_disabled_flag,
        header.loop_filter_across_slices_enabled_flag,
        header.dependent_slice_segment_flag,
    ])
}
