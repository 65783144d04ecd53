//! The slice segment header.
ghost use Rattle.std.specs.Prelude.{◌≡◌};
ghost use Rattle.hevc_picture_slice.specs.SliceHeader.{plain_slice_header};
ghost use Rattle.hevc_pull.specs.Fields.Slice.{fields_of_slice, slice_flags};

use hevc_events::flag_bits;
use hevc_picture_slice::SliceHeader;

/// The elements of a slice segment header (7.3.6.1), by their names in H.265: those of a dependent
/// slice segment are its own alone.
#[repr(C)]
#[derive(Clone, Copy)]
pub struct SliceFields {
    pub slice_pic_parameter_set_id: u8,
    /// 0 for B, 1 for P, 2 for I (Table 7-7).
    pub slice_type: u32,
    pub colour_plane_id: u8,
    pub short_term_ref_pic_set_idx: u8,
    pub slice_segment_address: u32,
    pub slice_pic_order_cnt_lsb: u16,
    /// How many members the header's own short-term set has before and after the picture (7.4.8).
    pub num_negative_pics: u8,
    pub num_positive_pics: u8,
    pub num_long_term_sps: u8,
    pub num_long_term_pics: u8,
    pub num_ref_idx_l0_active_minus1: u8,
    pub num_ref_idx_l1_active_minus1: u8,
    pub collocated_ref_idx: u8,
    pub five_minus_max_num_merge_cand: u8,
    pub slice_qp_delta: i8,
    pub slice_cb_qp_offset: i8,
    pub slice_cr_qp_offset: i8,
    pub slice_act_y_qp_offset: i8,
    pub slice_act_cb_qp_offset: i8,
    pub slice_act_cr_qp_offset: i8,
    pub slice_beta_offset_div2: i8,
    pub slice_tc_offset_div2: i8,
    pub offset_len_minus1: u8,
    pub num_entry_point_offsets: u32,
    /// NumPicTotalCurr (7-55).
    pub num_pic_total_curr: u32,
    /// The bits of the header, and of its own short-term set; without emulation prevention bytes,
    /// whose number is the third.
    pub header_bit_size: u32,
    pub st_rps_bits: u32,
    pub n_emulation_prevention_bytes: u32,
    /// Flags, from bit 0 on.
    pub flags: u32,
}

/// The fields of a slice segment header.
pub fn slice_fields(header: &SliceHeader) -> SliceFields
    ensures { result ≡ fields_of_slice (plain_slice_header header.now) }
{
    SliceFields {
        slice_pic_parameter_set_id: header.pic_parameter_set_id,
        slice_type: header.type_.number(),
        colour_plane_id: header.colour_plane_id,
        short_term_ref_pic_set_idx: header.short_term_ref_pic_set_idx,
        slice_segment_address: header.segment_address,
        slice_pic_order_cnt_lsb: header.pic_order_cnt_lsb,
        num_negative_pics: header.short_term_ref_pic_set.num_negative_pics,
        num_positive_pics: header.short_term_ref_pic_set.num_positive_pics,
        num_long_term_sps: header.num_long_term_sps,
        num_long_term_pics: header.num_long_term_pics,
        num_ref_idx_l0_active_minus1: header.num_ref_idx_l0_active_minus1,
        num_ref_idx_l1_active_minus1: header.num_ref_idx_l1_active_minus1,
        collocated_ref_idx: header.collocated_ref_idx,
        five_minus_max_num_merge_cand: header.five_minus_max_num_merge_cand,
        slice_qp_delta: header.qp_delta,
        slice_cb_qp_offset: header.cb_qp_offset,
        slice_cr_qp_offset: header.cr_qp_offset,
        slice_act_y_qp_offset: header.slice_act_y_qp_offset,
        slice_act_cb_qp_offset: header.slice_act_cb_qp_offset,
        slice_act_cr_qp_offset: header.slice_act_cr_qp_offset,
        slice_beta_offset_div2: header.beta_offset_div2,
        slice_tc_offset_div2: header.tc_offset_div2,
        offset_len_minus1: header.offset_len_minus1,
        num_entry_point_offsets: header.num_entry_point_offsets,
        num_pic_total_curr: header.num_pic_total_curr,
        header_bit_size: header.header_bit_size,
        st_rps_bits: header.st_rps_bits,
        n_emulation_prevention_bytes: header.n_emulation_prevention_bytes,
        flags: slice_flags(header),
    }
}

/// The flags, in the order of their bits.
fn slice_flags(header: &SliceHeader) -> u32
    ensures { result ≡ slice_flags (plain_slice_header header.now) }
{
    flag_bits(&[
        header.first_slice_segment_in_pic_flag,
        header.no_output_of_prior_pics_flag,
        header.dependent_slice_segment_flag,
        header.pic_output_flag,
        header.short_term_ref_pic_set_sps_flag,
        header.temporal_mvp_enabled_flag,
        header.sao_luma_flag,
        header.sao_chroma_flag,
        header.num_ref_idx_active_override_flag,
        header.mvd_l1_zero_flag,
        header.cabac_init_flag,
        header.collocated_from_l0_flag,
        header.use_integer_mv_flag,
        header.cu_chroma_qp_offset_enabled_flag,
        header.deblocking_filter_override_flag,
        header.deblocking_filter_disabled_flag,
        header.loop_filter_across_slices_enabled_flag,
    ]) as u32
}
