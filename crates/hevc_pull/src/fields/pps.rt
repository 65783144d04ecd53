//! The picture parameter set.
ghost use Rattle.std.specs.Prelude.{◌≡◌};
ghost use Rattle.hevc_picture_slice.specs.Pps.{plain_pps};
ghost use Rattle.hevc_pull.specs.Fields.Pps.{fields_of_pps, pps_flags};

use hevc_events::flag_bits;
use hevc_picture_slice::Pps;

/// The elements of a picture parameter set (7.3.2.3.1), by their names in H.265.
#[repr(C)]
#[derive(Clone, Copy)]
pub struct PpsFields {
    pub pps_pic_parameter_set_id: u8,
    pub pps_seq_parameter_set_id: u8,
    pub num_extra_slice_header_bits: u8,
    pub num_ref_idx_l0_default_active_minus1: u8,
    pub num_ref_idx_l1_default_active_minus1: u8,
    pub init_qp_minus26: i8,
    pub diff_cu_qp_delta_depth: u8,
    pub pps_cb_qp_offset: i8,
    pub pps_cr_qp_offset: i8,
    pub num_tile_columns_minus1: u8,
    pub num_tile_rows_minus1: u8,
    pub pps_beta_offset_div2: i8,
    pub pps_tc_offset_div2: i8,
    pub log2_parallel_merge_level_minus2: u8,
    /// Of each tile column and row but the last (7.4.3.3.1); of the others 0.
    pub column_width_minus1: [u32; 20],
    pub row_height_minus1: [u32; 22],
    /// Flags, from bit 0 on.
    pub flags: u32,
}

/// The fields of a picture parameter set.
pub fn pps_fields(pps: &Pps) -> PpsFields
    ensures { result ≡ fields_of_pps (plain_pps pps.now) }
{
    let column_width_minus1 = pps.column_width_minus1;
    let row_height_minus1 = pps.row_height_minus1;
    PpsFields {
        pps_pic_parameter_set_id: pps.pic_parameter_set_id,
        pps_seq_parameter_set_id: pps.seq_parameter_set_id,
        num_extra_slice_header_bits: pps.num_extra_slice_header_bits,
        num_ref_idx_l0_default_active_minus1: pps.num_ref_idx_l0_default_active_minus1,
        num_ref_idx_l1_default_active_minus1: pps.num_ref_idx_l1_default_active_minus1,
        init_qp_minus26: pps.init_qp_minus26,
        diff_cu_qp_delta_depth: pps.diff_cu_qp_delta_depth,
        pps_cb_qp_offset: pps.cb_qp_offset,
        pps_cr_qp_offset: pps.cr_qp_offset,
        num_tile_columns_minus1: pps.num_tile_columns_minus1,
        num_tile_rows_minus1: pps.num_tile_rows_minus1,
        pps_beta_offset_div2: pps.beta_offset_div2,
        pps_tc_offset_div2: pps.tc_offset_div2,
        log2_parallel_merge_level_minus2: pps.log2_parallel_merge_level_minus2,
        column_width_minus1: column_width_minus1,
        row_height_minus1: row_height_minus1,
        flags: pps_flags(pps),
    }
}

/// The flags, in the order of their bits.
fn pps_flags(pps: &Pps) -> u32
    ensures { result ≡ pps_flags (plain_pps pps.now) }
{
    flag_bits(&[
        pps.dependent_slice_segments_enabled_flag,
        pps.output_flag_present_flag,
        pps.sign_data_hiding_enabled_flag,
        pps.cabac_init_present_flag,
        pps.constrained_intra_pred_flag,
        pps.transform_skip_enabled_flag,
        pps.cu_qp_delta_enabled_flag,
        pps.slice_chroma_qp_offsets_present_flag,
        pps.weighted_pred_flag,
        pps.weighted_bipred_flag,
        pps.transquant_bypass_enabled_flag,
        pps.tiles_enabled_flag,
        pps.entropy_coding_sync_enabled_flag,
        pps.loop_filter_across_tiles_enabled_flag,
        pps.loop_filter_across_slices_enabled_flag,
        pps.deblocking_filter_override_enabled_flag,
        pps.deblocking_filter_disabled_flag,
        pps.lists_modification_present_flag,
        pps.slice_segment_header_extension_present_flag,
        pps.deblocking_filter_control_present_flag,
        pps.uniform_spacing_flag,
        pps.scaling_list_data_present_flag,
        pps.extension_present_flag,
        pps.range_extension_flag,
        pps.scc_extension_flag,
    ]) as u32
}
