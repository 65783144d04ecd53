//! The elements of a slice segment header.
ghost use Rattle.std.specs.Prelude.{◌≡◌};

use crate::slice_header::SliceHeader;
use hevc_set_parts::{RefPicListModification, ShortTermRefPicSet, SliceType};
use hevc_video_set::PredWeightTable;

impl SliceHeader {
    /// Whether the segment is the first of its picture.
    pub fn first_slice_segment_in_pic_flag(&self) -> bool
        ensures { result ≡ self.now.first_slice_segment_in_pic_flag }
    {
        self.first_slice_segment_in_pic_flag
    }

    /// Whether earlier pictures that are still needed for output are dropped.
    pub fn no_output_of_prior_pics_flag(&self) -> bool
        ensures { result ≡ self.now.no_output_of_prior_pics_flag }
    {
        self.no_output_of_prior_pics_flag
    }

    /// The number of the picture set.
    pub fn pic_parameter_set_id(&self) -> u8
        ensures { result ≡ self.now.pic_parameter_set_id }
    {
        self.pic_parameter_set_id
    }

    /// Whether the segment takes the rest of its header from the independent one before it.
    pub fn dependent_slice_segment_flag(&self) -> bool
        ensures { result ≡ self.now.dependent_slice_segment_flag }
    {
        self.dependent_slice_segment_flag
    }

    /// The first coding tree block of the segment, in raster scan.
    pub fn segment_address(&self) -> u32
        ensures { result ≡ self.now.segment_address }
    {
        self.segment_address
    }

    /// The coding type.
    pub fn type_(&self) -> SliceType
        ensures { result ≡ self.now.type_ }
    {
        self.type_
    }

    /// Whether the picture is output.
    pub fn pic_output_flag(&self) -> bool
        ensures { result ≡ self.now.pic_output_flag }
    {
        self.pic_output_flag
    }

    /// The colour plane of separate planes: 0 to 2 by 7.4.7.1, which reserves 3; that is read too.
    pub fn colour_plane_id(&self) -> u8
        ensures { result ≡ self.now.colour_plane_id }
    {
        self.colour_plane_id
    }

    /// The order count of the picture, modulo MaxPicOrderCntLsb.
    pub fn pic_order_cnt_lsb(&self) -> u16
        ensures { result ≡ self.now.pic_order_cnt_lsb }
    {
        self.pic_order_cnt_lsb
    }

    /// Whether the short-term set is one of the sequence set's.
    pub fn short_term_ref_pic_set_sps_flag(&self) -> bool
        ensures { result ≡ self.now.short_term_ref_pic_set_sps_flag }
    {
        self.short_term_ref_pic_set_sps_flag
    }

    /// The header's own short-term reference picture set.
    pub fn short_term_ref_pic_set(&self) -> &ShortTermRefPicSet
        ensures { result.now ≡ self.now.short_term_ref_pic_set }
    {
        &self.short_term_ref_pic_set
    }

    /// The header's own short-term reference picture set.
    pub fn short_term_ref_pic_sets(&self) -> &ShortTermRefPicSet
        ensures { result.now ≡ self.now.short_term_ref_pic_set }
    {
        &self.short_term_ref_pic_set
    }

    /// Which of the sequence set's short-term sets it is.
    pub fn short_term_ref_pic_set_idx(&self) -> u8
        ensures { result ≡ self.now.short_term_ref_pic_set_idx }
    {
        self.short_term_ref_pic_set_idx
    }

    /// The number of long-term members that are candidates of the sequence set.
    pub fn num_long_term_sps(&self) -> u8
        ensures { result ≡ self.now.num_long_term_sps }
    {
        self.num_long_term_sps
    }

    /// The number of long-term members that the header gives itself.
    pub fn num_long_term_pics(&self) -> u8
        ensures { result ≡ self.now.num_long_term_pics }
    {
        self.num_long_term_pics
    }

    /// For each long-term member, which candidate of the sequence set it is.
    pub fn lt_idx_sps(&self) -> [u8; 16]
        ensures { result ≡ self.now.lt_idx_sps }
    {
        self.lt_idx_sps
    }

    /// For each long-term member, its order count modulo MaxPicOrderCntLsb, as PocLsbLt.
    pub fn poc_lsb_lt(&self) -> [u32; 16]
        ensures { result ≡ self.now.poc_lsb_lt }
    {
        self.poc_lsb_lt
    }

    /// For each long-term member, whether the picture may refer to it, as UsedByCurrPicLt.
    pub fn used_by_curr_pic_lt(&self) -> [bool; 16]
        ensures { result ≡ self.now.used_by_curr_pic_lt }
    {
        self.used_by_curr_pic_lt
    }

    /// For each long-term member, whether the upper part of its order count is given.
    pub fn delta_poc_msb_present_flag(&self) -> [bool; 16]
        ensures { result ≡ self.now.delta_poc_msb_present_flag }
    {
        self.delta_poc_msb_present_flag
    }

    /// For each long-term member, how many times MaxPicOrderCntLsb the upper part of its order
    /// count is before that of the picture, as DeltaPocMsbCycleLt.
    pub fn delta_poc_msb_cycle_lt(&self) -> [u64; 16]
        ensures { result ≡ self.now.delta_poc_msb_cycle_lt }
    {
        self.delta_poc_msb_cycle_lt
    }

    /// Whether motion vectors are predicted from another picture.
    pub fn temporal_mvp_enabled_flag(&self) -> bool
        ensures { result ≡ self.now.temporal_mvp_enabled_flag }
    {
        self.temporal_mvp_enabled_flag
    }

    /// Whether luma has sample adaptive offsets.
    pub fn sao_luma_flag(&self) -> bool
        ensures { result ≡ self.now.sao_luma_flag }
    {
        self.sao_luma_flag
    }

    /// Whether chroma has sample adaptive offsets.
    pub fn sao_chroma_flag(&self) -> bool
        ensures { result ≡ self.now.sao_chroma_flag }
    {
        self.sao_chroma_flag
    }

    /// Whether the header gives the numbers of active entries.
    pub fn num_ref_idx_active_override_flag(&self) -> bool
        ensures { result ≡ self.now.num_ref_idx_active_override_flag }
    {
        self.num_ref_idx_active_override_flag
    }

    /// The number of active entries of list 0, less 1.
    pub fn num_ref_idx_l0_active_minus1(&self) -> u8
        ensures { result ≡ self.now.num_ref_idx_l0_active_minus1 }
    {
        self.num_ref_idx_l0_active_minus1
    }

    /// The number of active entries of list 1, less 1.
    pub fn num_ref_idx_l1_active_minus1(&self) -> u8
        ensures { result ≡ self.now.num_ref_idx_l1_active_minus1 }
    {
        self.num_ref_idx_l1_active_minus1
    }

    /// How the reference lists are ordered.
    pub fn ref_pic_list_modification(&self) -> &RefPicListModification
        ensures { result.now ≡ self.now.ref_pic_list_modification }
    {
        &self.ref_pic_list_modification
    }

    /// Whether motion vector differences of list 1 are 0 in bi-prediction.
    pub fn mvd_l1_zero_flag(&self) -> bool
        ensures { result ≡ self.now.mvd_l1_zero_flag }
    {
        self.mvd_l1_zero_flag
    }

    /// Whether the first contexts of P and B slices are exchanged.
    pub fn cabac_init_flag(&self) -> bool
        ensures { result ≡ self.now.cabac_init_flag }
    {
        self.cabac_init_flag
    }

    /// Whether the picture that motion vectors are predicted from is in list 0.
    pub fn collocated_from_l0_flag(&self) -> bool
        ensures { result ≡ self.now.collocated_from_l0_flag }
    {
        self.collocated_from_l0_flag
    }

    /// The place of that picture in its list.
    pub fn collocated_ref_idx(&self) -> u8
        ensures { result ≡ self.now.collocated_ref_idx }
    {
        self.collocated_ref_idx
    }

    /// The weights of predictions.
    pub fn pred_weight_table(&self) -> &PredWeightTable
        ensures { result.now ≡ self.now.pred_weight_table }
    {
        &self.pred_weight_table
    }

    /// The most merge candidates, taken from 5.
    pub fn five_minus_max_num_merge_cand(&self) -> u8
        ensures { result ≡ self.now.five_minus_max_num_merge_cand }
    {
        self.five_minus_max_num_merge_cand
    }

    /// Whether motion vectors are whole numbers of samples.
    pub fn use_integer_mv_flag(&self) -> bool
        ensures { result ≡ self.now.use_integer_mv_flag }
    {
        self.use_integer_mv_flag
    }

    /// What the first luma quantiser adds to the picture set's.
    pub fn qp_delta(&self) -> i8
        ensures { result ≡ self.now.qp_delta }
    {
        self.qp_delta
    }

    /// What the Cb quantiser offset adds to the picture set's.
    pub fn cb_qp_offset(&self) -> i8
        ensures { result ≡ self.now.cb_qp_offset }
    {
        self.cb_qp_offset
    }

    /// What the Cr quantiser offset adds to the picture set's.
    pub fn cr_qp_offset(&self) -> i8
        ensures { result ≡ self.now.cr_qp_offset }
    {
        self.cr_qp_offset
    }

    /// What the Y quantiser offset of the colour transform adds to the picture set's.
    pub fn slice_act_y_qp_offset(&self) -> i8
        ensures { result ≡ self.now.slice_act_y_qp_offset }
    {
        self.slice_act_y_qp_offset
    }

    /// What the Cb quantiser offset of the colour transform adds to the picture set's.
    pub fn slice_act_cb_qp_offset(&self) -> i8
        ensures { result ≡ self.now.slice_act_cb_qp_offset }
    {
        self.slice_act_cb_qp_offset
    }

    /// What the Cr quantiser offset of the colour transform adds to the picture set's.
    pub fn slice_act_cr_qp_offset(&self) -> i8
        ensures { result ≡ self.now.slice_act_cr_qp_offset }
    {
        self.slice_act_cr_qp_offset
    }

    /// Whether coding units may choose among chroma quantiser offsets.
    pub fn cu_chroma_qp_offset_enabled_flag(&self) -> bool
        ensures { result ≡ self.now.cu_chroma_qp_offset_enabled_flag }
    {
        self.cu_chroma_qp_offset_enabled_flag
    }

    /// Whether the header speaks of the deblocking filter.
    pub fn deblocking_filter_override_flag(&self) -> bool
        ensures { result ≡ self.now.deblocking_filter_override_flag }
    {
        self.deblocking_filter_override_flag
    }

    /// Whether the deblocking filter is off.
    pub fn deblocking_filter_disabled_flag(&self) -> bool
        ensures { result ≡ self.now.deblocking_filter_disabled_flag }
    {
        self.deblocking_filter_disabled_flag
    }

    /// Half the offset of the deblocking parameter beta.
    pub fn beta_offset_div2(&self) -> i8
        ensures { result ≡ self.now.beta_offset_div2 }
    {
        self.beta_offset_div2
    }

    /// Half the offset of the deblocking parameter tC.
    pub fn tc_offset_div2(&self) -> i8
        ensures { result ≡ self.now.tc_offset_div2 }
    {
        self.tc_offset_div2
    }

    /// Whether in-loop filters go across the upper and left boundary of the slice.
    pub fn loop_filter_across_slices_enabled_flag(&self) -> bool
        ensures { result ≡ self.now.loop_filter_across_slices_enabled_flag }
    {
        self.loop_filter_across_slices_enabled_flag
    }

    /// The number of entry points after the first.
    pub fn num_entry_point_offsets(&self) -> u32
        ensures { result ≡ self.now.num_entry_point_offsets }
    {
        self.num_entry_point_offsets
    }

    /// The bits of an entry of `entry_point_offset_minus1`, less 1.
    pub fn offset_len_minus1(&self) -> u8
        ensures { result ≡ self.now.offset_len_minus1 }
    {
        self.offset_len_minus1
    }

    /// The bytes from each entry point to the next one, less 1.
    pub fn entry_point_offset_minus1(&self) -> &[u32]
        ensures { result.now ≡ self.now.entry_point_offset_minus1 }
    {
        self.entry_point_offset_minus1.as_slice()
    }

    /// Which short-term set the picture has: one of the sequence set's, or the header's own after
    /// them.
    pub fn curr_rps_idx(&self) -> u8
        ensures { result ≡ self.now.curr_rps_idx }
    {
        self.curr_rps_idx
    }

    /// For P and B slices, the number of pictures that the picture may refer to.
    pub fn num_pic_total_curr(&self) -> u32
        ensures { result ≡ self.now.num_pic_total_curr }
    {
        self.num_pic_total_curr
    }

    /// The bits of the header: the 16 of the unit's header, and the payload bits of this one.
    pub fn header_bit_size(&self) -> u32
        ensures { result ≡ self.now.header_bit_size }
    {
        self.header_bit_size
    }

    /// How many emulation prevention bytes of the unit are before the byte in which the header
    /// ends.
    pub fn n_emulation_prevention_bytes(&self) -> u32
        ensures { result ≡ self.now.n_emulation_prevention_bytes }
    {
        self.n_emulation_prevention_bytes
    }

    /// The payload bits of the header's own short-term set.
    pub fn st_rps_bits(&self) -> u32
        ensures { result ≡ self.now.st_rps_bits }
    {
        self.st_rps_bits
    }
}
