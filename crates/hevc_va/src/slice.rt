//! A slice segment: `VASliceParameterBufferHEVC`.
ghost use Rattle.std.specs.Prelude.{◌≡◌, ◌≤◌, IfOk};
ghost use Rattle.std.specs.Result.{result_err};
ghost use Rattle.hevc_set_parts.specs.SliceType.{slice_type_number};
ghost use Rattle.hevc_sequence_set.specs.Sps.{plain_sps};
ghost use Rattle.hevc_picture_slice.specs.Pps.{plain_pps};
ghost use Rattle.hevc_picture_slice.specs.SliceHeader.{plain_slice_header};
ghost use Rattle.hevc_dpb.specs.Views.{stored_entries};
ghost use Rattle.hevc_refs.specs.Lists.{places_of};
ghost use Rattle.hevc_v4l2.specs.Slice.{data_byte_offset};
ghost use Rattle.hevc_va.specs.Slice.{active_l0_minus1, active_l1_minus1, buffer_of_slice};
ghost use Rattle.hevc_va.specs.Slice.{buffer_of_slice_extension, collocated_index};
ghost use Rattle.hevc_va.specs.Slice.{filled_extension, filled_slice, long_slice_flags};
ghost use Rattle.hevc_va.specs.Slice.{segment_error, slice_error, slice_extension_error};
ghost use Rattle.hevc_va.specs.Slice.{slice_extension_flags};

use crate::error::VaError;
use crate::lists::{Indices, list_indices};
use crate::offsets::{ByteOffsets, byte_offsets, no_offsets, wide_offsets};
use hevc_dpb::Dpb;
use hevc_events::flag_bits;
use hevc_picture_slice::{Pps, Slice, SliceHeader};
use hevc_refs::RefPicList;
use hevc_sequence_set::Sps;
use hevc_set_parts::SliceType;
use hevc_v4l2::ChromaOffsets;

/// `VASliceParameterBufferHEVC`: a slice segment (7.3.6.1), its elements by their names in H.265.
#[repr(C)]
#[derive(Clone, Copy)]
pub struct VaSliceParameterBufferHevc {
    /// The bytes of the unit, its header's among them, without a start code.
    pub slice_data_size: u32,
    /// 0: where the unit begins in its buffer is the caller's.
    pub slice_data_offset: u32,
    /// `VA_SLICE_DATA_FLAG_ALL`, 0.
    pub slice_data_flag: u32,
    /// The bytes of the unit before the data of the slice, without emulation prevention bytes.
    pub slice_data_byte_offset: u32,
    pub slice_segment_address: u32,
    /// For each place of list 0 and of list 1, which of `reference_frames` it is; 255 where there
    /// is no such picture, and after the list.
    pub ref_pic_list: [[u8; 15]; 2],
    /// `LastSliceOfPic` in bit 0, `dependent_slice_segment_flag` in bit 1, `slice_type` in bits 2
    /// and 3, `colour_plane_id` in bits 4 and 5, and flags after it.
    pub long_slice_flags: u32,
    /// 255 where motion vectors aren't predicted from another picture.
    pub collocated_ref_idx: u8,
    /// 0 in an I slice, which has no list 0.
    pub num_ref_idx_l0_active_minus1: u8,
    /// 0 where the slice has no list 1.
    pub num_ref_idx_l1_active_minus1: u8,
    pub slice_qp_delta: i8,
    pub slice_cb_qp_offset: i8,
    pub slice_cr_qp_offset: i8,
    pub slice_beta_offset_div2: i8,
    pub slice_tc_offset_div2: i8,
    pub luma_log2_weight_denom: u8,
    pub delta_chroma_log2_weight_denom: i8,
    pub delta_luma_weight_l0: [i8; 15],
    pub luma_offset_l0: [i8; 15],
    pub delta_chroma_weight_l0: [[i8; 2]; 15],
    /// ChromaOffsetL0 (7-56), which isn't the element of H.265 that it is computed from.
    pub chroma_offset_l0: [[i8; 2]; 15],
    pub delta_luma_weight_l1: [i8; 15],
    pub luma_offset_l1: [i8; 15],
    pub delta_chroma_weight_l1: [[i8; 2]; 15],
    /// ChromaOffsetL1.
    pub chroma_offset_l1: [[i8; 2]; 15],
    pub five_minus_max_num_merge_cand: u8,
    pub num_entry_point_offsets: u16,
    /// 0: how many entry points of earlier slice segments were given is the caller's.
    pub entry_offset_to_subset_array: u16,
    /// The emulation prevention bytes of the unit before the data of the slice.
    pub slice_data_num_emu_prevn_bytes: u16,
    /// Zeros.
    pub va_reserved: [u32; 2],
}

const _: () = prove!(size_of::<VaSliceParameterBufferHevc>() == 264);

/// `VASliceParameterBufferHEVCRext`: what a slice segment has besides in the profiles of the range
/// and the screen content coding extensions.
#[repr(C)]
#[derive(Clone, Copy)]
pub struct VaSliceParameterBufferHevcRext {
    pub luma_offset_l0: [i16; 15],
    /// ChromaOffsetL0 (7-56).
    pub chroma_offset_l0: [[i16; 2]; 15],
    pub luma_offset_l1: [i16; 15],
    /// ChromaOffsetL1.
    pub chroma_offset_l1: [[i16; 2]; 15],
    /// `cu_chroma_qp_offset_enabled_flag` in bit 0, `use_integer_mv_flag` in bit 1.
    pub slice_ext_flags: u32,
    pub slice_act_y_qp_offset: i8,
    pub slice_act_cb_qp_offset: i8,
    pub slice_act_cr_qp_offset: i8,
}

const _: () = prove!(size_of::<VaSliceParameterBufferHevcRext>() == 188);

/// `VASliceParameterBufferHEVCExtension`: a slice segment in those profiles.
#[repr(C)]
#[derive(Clone, Copy)]
pub struct VaSliceParameterBufferHevcExtension {
    /// What a slice segment has in any profile, but for the offsets of weighted prediction, which
    /// are 0 here.
    pub base: VaSliceParameterBufferHevc,
    /// What it has besides, and those offsets.
    pub rext: VaSliceParameterBufferHevcRext,
}

const _: () = prove!(size_of::<VaSliceParameterBufferHevcExtension>() == 452);

/// The numbers that a slice segment tells of its unit.
#[derive(Clone, Copy)]
struct Sizes {
    unit: u32,
    entry_points: u16,
    emulation_prevention: u16,
}

/// A slice segment as VA-API takes it in the profiles without extensions: with these sets, the
/// buffer and its lists, and whether it is the last one of its picture.
///
/// Errors, the first that there is: `UnitSize`, `EmulationPrevention`, `EntryPoints`,
/// `ColourPlane`, `References`, `ReferenceList`, `ChromaDenominator`, `LumaOffset`, `ChromaOffset`.
pub fn slice_buffer(
    slice: &Slice<'_>,
    sps: &Sps,
    pps: &Pps,
    dpb: &Dpb<u64>,
    ref_pic_list0: &RefPicList,
    ref_pic_list1: &RefPicList,
    is_last: bool,
) -> Result<VaSliceParameterBufferHevc, VaError>
    ensures filled { IfOk result (λ buffer. buffer
        ≡ buffer_of_slice slice.now (plain_sps sps.now) (plain_pps pps.now) (stored_entries dpb.now)
        (places_of ref_pic_list0.now) (places_of ref_pic_list1.now) is_last) }
    ensures refused { result_err result
        ≡ slice_error slice.now (plain_sps sps.now) (plain_pps pps.now) (stored_entries dpb.now)
        (places_of ref_pic_list0.now) (places_of ref_pic_list1.now) }
{
    let sizes = segment_sizes(slice)?;
    let indices = list_indices(pps, dpb, ref_pic_list0, ref_pic_list1)?;
    let wide = wide_offsets(&slice.header.pred_weight_table, sps)?;
    let offsets = byte_offsets(&slice.header.pred_weight_table, &wide)?;
    Ok(filled_slice(slice, sizes, indices, offsets, is_last))
}

/// A slice segment as VA-API takes it in the profiles of the extensions: with these sets, the
/// buffer and its lists, and whether it is the last one of its picture.
///
/// Errors: those of `slice_buffer`, but for `LumaOffset` and `ChromaOffset`.
pub fn slice_extension_buffer(
    slice: &Slice<'_>,
    sps: &Sps,
    pps: &Pps,
    dpb: &Dpb<u64>,
    ref_pic_list0: &RefPicList,
    ref_pic_list1: &RefPicList,
    is_last: bool,
) -> Result<VaSliceParameterBufferHevcExtension, VaError>
    ensures filled { IfOk result (λ buffer. buffer
        ≡ buffer_of_slice_extension slice.now (plain_sps sps.now) (plain_pps pps.now)
        (stored_entries dpb.now)
        (places_of ref_pic_list0.now) (places_of ref_pic_list1.now) is_last) }
    ensures refused { result_err result
        ≡ slice_extension_error slice.now (plain_pps pps.now) (stored_entries dpb.now)
        (places_of ref_pic_list0.now) (places_of ref_pic_list1.now) }
{
    let sizes = segment_sizes(slice)?;
    let indices = list_indices(pps, dpb, ref_pic_list0, ref_pic_list1)?;
    let wide = wide_offsets(&slice.header.pred_weight_table, sps)?;
    Ok(VaSliceParameterBufferHevcExtension {
        base: filled_slice(slice, sizes, indices, no_offsets(), is_last),
        rext: filled_extension(&slice.header, wide),
    })
}

/// The numbers, where they can be held, as the colour plane can.
fn segment_sizes(slice: &Slice<'_>) -> Result<Sizes, VaError>
    ensures unit { IfOk result (λ sizes. sizes.unit ≡ slice.now.nalu.size) }
    ensures entry_points { IfOk result
        (λ sizes. sizes.entry_points ≡ slice.now.header.num_entry_point_offsets) }
    ensures emulation_prevention { IfOk result
        (λ sizes. sizes.emulation_prevention ≡ slice.now.header.n_emulation_prevention_bytes) }
    ensures colour_plane { IfOk result (λ _. slice.now.header.colour_plane_id ≤ 3) }
    ensures refused { result_err result
        ≡ segment_error slice.now.nalu.size (plain_slice_header slice.now.header) }
{
    let unit = slice.nalu.size();
    let header = &slice.header;
    if unit > 4294967295 {
        return Err(VaError::UnitSize);
    }
    if header.n_emulation_prevention_bytes > 65535 {
        return Err(VaError::EmulationPrevention);
    }
    if header.num_entry_point_offsets > 65535 {
        return Err(VaError::EntryPoints);
    }
    if header.colour_plane_id > 3 {
        return Err(VaError::ColourPlane);
    }
    Ok(Sizes {
        unit: unit as u32,
        entry_points: header.num_entry_point_offsets as u16,
        emulation_prevention: header.n_emulation_prevention_bytes as u16,
    })
}

/// The bytes before the data of the slice, without those that are inserted.
fn data_byte_offset(header: &SliceHeader) -> u32
    ensures { result ≡ data_byte_offset (plain_slice_header header.now) }
{
    ((u64::from(header.header_bit_size) + 7) / 8) as u32
}

/// The buffer with these parts.
fn filled_slice(
    slice: &Slice<'_>,
    sizes: Sizes,
    indices: Indices,
    offsets: ByteOffsets,
    is_last: bool,
) -> VaSliceParameterBufferHevc
    requires { slice.now.header.colour_plane_id ≤ 3 }
    ensures { result
        ≡ filled_slice (plain_slice_header slice.now.header) sizes.unit sizes.entry_points
        sizes.emulation_prevention indices.l0 indices.l1
        offsets.luma_l0 offsets.chroma_l0 offsets.luma_l1 offsets.chroma_l1 is_last }
{
    let header = &slice.header;
    let weights = &header.pred_weight_table;
    let Indices { l0, l1 } = indices;
    let ByteOffsets {
        luma_l0,
        chroma_l0,
        luma_l1,
        chroma_l1,
    } = offsets;
    VaSliceParameterBufferHevc {
        slice_data_size: sizes.unit,
        slice_data_offset: 0,
        slice_data_flag: 0,
        slice_data_byte_offset: data_byte_offset(header),
        slice_segment_address: header.segment_address,
        ref_pic_list: [l0, l1],
        long_slice_flags: long_slice_flags(header, is_last),
        collocated_ref_idx: collocated_index(header),
        num_ref_idx_l0_active_minus1: active_l0_minus1(header),
        num_ref_idx_l1_active_minus1: active_l1_minus1(header),
        slice_qp_delta: header.qp_delta,
        slice_cb_qp_offset: header.cb_qp_offset,
        slice_cr_qp_offset: header.cr_qp_offset,
        slice_beta_offset_div2: header.beta_offset_div2,
        slice_tc_offset_div2: header.tc_offset_div2,
        luma_log2_weight_denom: weights.luma_log2_weight_denom,
        delta_chroma_log2_weight_denom: weights.delta_chroma_log2_weight_denom,
        delta_luma_weight_l0: weights.delta_luma_weight_l0,
        luma_offset_l0: luma_l0,
        delta_chroma_weight_l0: weights.delta_chroma_weight_l0,
        chroma_offset_l0: chroma_l0,
        delta_luma_weight_l1: weights.delta_luma_weight_l1,
        luma_offset_l1: luma_l1,
        delta_chroma_weight_l1: weights.delta_chroma_weight_l1,
        chroma_offset_l1: chroma_l1,
        five_minus_max_num_merge_cand: header.five_minus_max_num_merge_cand,
        num_entry_point_offsets: sizes.entry_points,
        entry_offset_to_subset_array: 0,
        slice_data_num_emu_prevn_bytes: sizes.emulation_prevention,
        va_reserved: [0; 2],
    }
}

/// What the extensions add, with these offsets of chroma.
fn filled_extension(header: &SliceHeader, offsets: ChromaOffsets) -> VaSliceParameterBufferHevcRext
    ensures { result
        ≡ filled_extension (plain_slice_header header.now) offsets.l0 offsets.l1 }
{
    let ChromaOffsets { l0, l1 } = offsets;
    VaSliceParameterBufferHevcRext {
        luma_offset_l0: header.pred_weight_table.luma_offset_l0,
        chroma_offset_l0: l0,
        luma_offset_l1: header.pred_weight_table.luma_offset_l1,
        chroma_offset_l1: l1,
        slice_ext_flags: slice_extension_flags(header),
        slice_act_y_qp_offset: header.slice_act_y_qp_offset,
        slice_act_cb_qp_offset: header.slice_act_cb_qp_offset,
        slice_act_cr_qp_offset: header.slice_act_cr_qp_offset,
    }
}

/// The number of a slice type (Table 7-7).
fn slice_type(slice_type: SliceType) -> u32
    ensures value { result ≡ slice_type_number slice_type }
    ensures few { result ≤ 2 }
{
    match slice_type {
        SliceType::B => 0,
        SliceType::P => 1,
        SliceType::I => 2,
    }
}

/// The active entries of list 0, less 1.
fn active_l0_minus1(header: &SliceHeader) -> u8
    ensures { result ≡ active_l0_minus1 (plain_slice_header header.now) }
{
    match header.type_ {
        SliceType::B | SliceType::P => header.num_ref_idx_l0_active_minus1,
        SliceType::I => 0,
    }
}

/// The active entries of list 1, less 1.
fn active_l1_minus1(header: &SliceHeader) -> u8
    ensures { result ≡ active_l1_minus1 (plain_slice_header header.now) }
{
    match header.type_ {
        SliceType::B => header.num_ref_idx_l1_active_minus1,
        SliceType::P | SliceType::I => 0,
    }
}

/// The place of the picture that motion vectors are predicted from.
fn collocated_index(header: &SliceHeader) -> u8
    ensures { result ≡ collocated_index (plain_slice_header header.now) }
{
    if header.temporal_mvp_enabled_flag {
        header.collocated_ref_idx
    } else {
        255
    }
}

/// The type and the colour plane of a slice, and the flags in the order of their bits.
fn long_slice_flags(header: &SliceHeader, is_last: bool) -> u32
    requires { header.now.colour_plane_id ≤ 3 }
    ensures { result ≡ long_slice_flags (plain_slice_header header.now) is_last }
{
    let first = flag_bits(&[is_last, header.dependent_slice_segment_flag]);
    let others = flag_bits(&[
        header.sao_luma_flag,
        header.sao_chroma_flag,
        header.mvd_l1_zero_flag,
        header.cabac_init_flag,
        header.temporal_mvp_enabled_flag,
        header.deblocking_filter_disabled_flag,
        header.collocated_from_l0_flag,
        header.loop_filter_across_slices_enabled_flag,
    ]);
    first as u32
        + 4 * slice_type(header.type_)
        + 16 * u32::from(header.colour_plane_id)
        + 64 * others as u32
}

/// The flags of the extensions, in the order of their bits.
fn slice_extension_flags(header: &SliceHeader) -> u32
    ensures { result ≡ slice_extension_flags (plain_slice_header header.now) }
{
    flag_bits(&[
        header.cu_chroma_qp_offset_enabled_flag,
        header.use_integer_mv_flag,
    ]) as u32
}
