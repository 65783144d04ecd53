//! The range extensions of the sets of a picture: `VAPictureParameterBufferHEVCRext`.
ghost use Rattle.std.specs.Prelude.{◌≡◌, IfOk, IsTrue};
ghost use Rattle.std.specs.List.{list_all};
ghost use Rattle.std.specs.Result.{result_err};
ghost use Rattle.hevc_picture_slice.specs.Pps.{plain_pps};
ghost use Rattle.hevc_sequence_set.specs.Sps.{plain_sps};
ghost use Rattle.hevc_set_parts.specs.PpsRangeExtension.{plain_pps_range_extension};
ghost use Rattle.hevc_v4l2.specs.Arrays.{is_byte, is_signed_byte};
ghost use Rattle.hevc_va.specs.Range.{buffer_of_ranges, numbers_of, range_error, range_flags};

use crate::arrays::{are_bytes, are_signed_bytes, bytes_of, signed_bytes_of};
use crate::error::VaError;
use hevc_events::flag_bits;
use hevc_picture_slice::Pps;
use hevc_sequence_set::Sps;
use hevc_set_parts::PpsRangeExtension;

/// `VAPictureParameterBufferHEVCRext`: the elements of the range extensions of a sequence and a
/// picture parameter set (7.3.2.2.2, 7.3.2.3.2), by their names in H.265.
#[repr(C)]
#[derive(Clone, Copy)]
pub struct VaPictureParameterBufferHevcRext {
    /// The flags, from bit 0 on.
    pub range_extension_pic_fields: u32,
    pub diff_cu_chroma_qp_offset_depth: u8,
    pub chroma_qp_offset_list_len_minus1: u8,
    pub log2_sao_offset_scale_luma: u8,
    pub log2_sao_offset_scale_chroma: u8,
    pub log2_max_transform_skip_block_size_minus2: u8,
    pub cb_qp_offset_list: [i8; 6],
    pub cr_qp_offset_list: [i8; 6],
}

const _: () = prove!(size_of::<VaPictureParameterBufferHevcRext>() == 24);

/// The range extensions of both sets as VA-API takes them; where a set has none, the values that
/// H.265 infers.
///
/// Errors: `RangeExtension`, one of the five numbers isn't 0 to 255; else `ChromaOffsetList`, an
/// offset isn't -128 to 127. No set that was read is refused.
pub fn range_extension_buffer(
    sps: &Sps,
    pps: &Pps,
) -> Result<VaPictureParameterBufferHevcRext, VaError>
    ensures filled { IfOk result (λ buffer. buffer
        ≡ buffer_of_ranges (plain_sps sps.now).range_extension
        (plain_pps pps.now).range_extension) }
    ensures refused { result_err result ≡ range_error (plain_pps pps.now).range_extension }
{
    let range = &pps.range_extension;
    if !are_bytes(&numbers_of(range)) {
        return Err(VaError::RangeExtension);
    }
    if !are_signed_bytes(&range.cb_qp_offset_list) || !are_signed_bytes(&range.cr_qp_offset_list) {
        return Err(VaError::ChromaOffsetList);
    }
    Ok(buffer_of_small(sps, range))
}

/// The five numbers, in the order of the fields.
fn numbers_of(range: &PpsRangeExtension) -> [u32; 5]
    ensures { result ≡ numbers_of (plain_pps_range_extension range.now) }
{
    [
        range.diff_cu_chroma_qp_offset_depth,
        range.chroma_qp_offset_list_len_minus1,
        range.log2_sao_offset_scale_luma,
        range.log2_sao_offset_scale_chroma,
        range.log2_max_transform_skip_block_size_minus2,
    ]
}

/// The extensions, whose numbers fit bytes.
fn buffer_of_small(sps: &Sps, range: &PpsRangeExtension) -> VaPictureParameterBufferHevcRext
    requires numbers { IsTrue (list_all is_byte (numbers_of (plain_pps_range_extension range.now))) }
    requires cb { IsTrue (list_all is_signed_byte range.now.cb_qp_offset_list) }
    requires cr { IsTrue (list_all is_signed_byte range.now.cr_qp_offset_list) }
    ensures { result ≡ buffer_of_ranges (plain_sps sps.now).range_extension
        (plain_pps_range_extension range.now) }
{
    let [depth, len, luma, chroma, size] = bytes_of(&numbers_of(range));
    VaPictureParameterBufferHevcRext {
        range_extension_pic_fields: range_flags(sps, range),
        diff_cu_chroma_qp_offset_depth: depth,
        chroma_qp_offset_list_len_minus1: len,
        log2_sao_offset_scale_luma: luma,
        log2_sao_offset_scale_chroma: chroma,
        log2_max_transform_skip_block_size_minus2: size,
        cb_qp_offset_list: signed_bytes_of(&range.cb_qp_offset_list),
        cr_qp_offset_list: signed_bytes_of(&range.cr_qp_offset_list),
    }
}

/// The flags, in the order of their bits.
fn range_flags(sps: &Sps, range: &PpsRangeExtension) -> u32
    ensures { result ≡ range_flags (plain_sps sps.now).range_extension
        (plain_pps_range_extension range.now) }
{
    flag_bits(&[
        sps.range_extension.transform_skip_rotation_enabled_flag,
        sps.range_extension.transform_skip_context_enabled_flag,
        sps.range_extension.implicit_rdpcm_enabled_flag,
        sps.range_extension.explicit_rdpcm_enabled_flag,
        sps.range_extension.extended_precision_processing_flag,
        sps.range_extension.intra_smoothing_disabled_flag,
        sps.range_extension.high_precision_offsets_enabled_flag,
        sps.range_extension.persistent_rice_adaptation_enabled_flag,
        sps.range_extension.cabac_bypass_alignment_enabled_flag,
        range.cross_component_prediction_enabled_flag,
        range.chroma_qp_offset_list_enabled_flag,
    ]) as u32
}
