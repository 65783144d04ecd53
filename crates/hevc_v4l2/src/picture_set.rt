//! The picture parameter set: `struct v4l2_ctrl_hevc_pps`.
ghost use Rattle.std.specs.Prelude.{◌≡◌, IfOk, IsTrue};
ghost use Rattle.std.specs.Result.{result_err};
ghost use Rattle.std.specs.List.{list_all};
ghost use Rattle.hevc_picture_slice.specs.Pps.{plain_pps};
ghost use Rattle.hevc_v4l2.specs.Arrays.{is_byte};
ghost use Rattle.hevc_v4l2.specs.PictureSet.{control_of_pps, pps_error};

use crate::arrays::{are_bytes, bytes_of};
use crate::error::ControlError;
use hevc_events::flag_bits;
use hevc_picture_slice::Pps;

/// `struct v4l2_ctrl_hevc_pps`: the elements of a picture parameter set (7.3.2.3.1), by their names
/// in H.265.
#[repr(C)]
#[derive(Clone, Copy)]
pub struct V4l2CtrlHevcPps {
    pub pic_parameter_set_id: u8,
    pub num_extra_slice_header_bits: u8,
    pub num_ref_idx_l0_default_active_minus1: u8,
    pub num_ref_idx_l1_default_active_minus1: u8,
    pub init_qp_minus26: i8,
    pub diff_cu_qp_delta_depth: u8,
    pub pps_cb_qp_offset: i8,
    pub pps_cr_qp_offset: i8,
    pub num_tile_columns_minus1: u8,
    pub num_tile_rows_minus1: u8,
    pub column_width_minus1: [u8; 20],
    pub row_height_minus1: [u8; 22],
    pub pps_beta_offset_div2: i8,
    pub pps_tc_offset_div2: i8,
    pub log2_parallel_merge_level_minus2: u8,
    /// Zero.
    pub reserved: u8,
    /// `V4L2_HEVC_PPS_FLAG_*`, from bit 0 on.
    pub flags: u64,
}

const _: () = prove!(size_of::<V4l2CtrlHevcPps>() == 64);

/// The picture set as a stateless decoder takes it.
///
/// Errors: `TileColumns`, a tile column is wider than 256 coding tree blocks; else `TileRows`, a
/// tile row is higher than that.
pub fn pps_control(pps: &Pps) -> Result<V4l2CtrlHevcPps, ControlError>
    ensures filled { IfOk result (λ control. control ≡ control_of_pps (plain_pps pps.now)) }
    ensures refused { result_err result ≡ pps_error (plain_pps pps.now) }
{
    if !are_bytes(&pps.column_width_minus1) {
        return Err(ControlError::TileColumns);
    }
    if !are_bytes(&pps.row_height_minus1) {
        return Err(ControlError::TileRows);
    }
    Ok(control_of_small_tiles(pps))
}

/// The picture set of tiles whose sizes fit bytes.
fn control_of_small_tiles(pps: &Pps) -> V4l2CtrlHevcPps
    requires columns { IsTrue (list_all is_byte pps.now.column_width_minus1) }
    requires rows { IsTrue (list_all is_byte pps.now.row_height_minus1) }
    ensures { result ≡ control_of_pps (plain_pps pps.now) }
{
    V4l2CtrlHevcPps {
        pic_parameter_set_id: pps.pic_parameter_set_id,
        num_extra_slice_header_bits: pps.num_extra_slice_header_bits,
        num_ref_idx_l0_default_active_minus1: pps.num_ref_idx_l0_default_active_minus1,
        num_ref_idx_l1_default_active_minus1: pps.num_ref_idx_l1_default_active_minus1,
        init_qp_minus26: pps.init_qp_minus26,
        diff_cu_qp_delta_depth: pps.diff_cu_qp_delta_depth,
        pps_cb_qp_offset: pps.cb_qp_offset,
        pps_cr_qp_offset: pps.cr_qp_offset,
        num_tile_columns_minus1: pps.num_tile_columns_minus1,
        num_tile_rows_minus1: pps.num_tile_rows_minus1,
        column_width_minus1: bytes_of(&pps.column_width_minus1),
        row_height_minus1: bytes_of(&pps.row_height_minus1),
        pps_beta_offset_div2: pps.beta_offset_div2,
        pps_tc_offset_div2: pps.tc_offset_div2,
        log2_parallel_merge_level_minus2: pps.log2_parallel_merge_level_minus2,
        reserved: 0,
        flags: pps_flags(pps),
    }
}

/// The flags, in the order of their bits.
fn pps_flags(pps: &Pps) -> u64
    ensures { result ≡ (control_of_pps (plain_pps pps.now)).flags }
{
    flag_bits(&[
        pps.dependent_slice_segments_enabled_flag,
        pps.output_flag_present_flag,
        pps.sign_data_hiding_enabled_flag,
        pps.cabac_init_present_flag,
        pps.constrained_intra_pred_flag,
        pps.transform_skip_enabled_flag,
        pps.cu_qp_delta_enabled_flag,
        pps.slice_chroma_qp_offsets_present_flag,
        pps.weighted_pred_flag,
        pps.weighted_bipred_flag,
        pps.transquant_bypass_enabled_flag,
        pps.tiles_enabled_flag,
        pps.entropy_coding_sync_enabled_flag,
        pps.loop_filter_across_tiles_enabled_flag,
        pps.loop_filter_across_slices_enabled_flag,
        pps.deblocking_filter_override_enabled_flag,
        pps.deblocking_filter_disabled_flag,
        pps.lists_modification_present_flag,
        pps.slice_segment_header_extension_present_flag,
        pps.deblocking_filter_control_present_flag,
        pps.uniform_spacing_flag,
    ])
}
