//! Slice segment headers.
ghost use Rattle.std.specs.Prelude.{◌≡◌, ◌+◌, ◌≤◌, IsTrue, IfOk};
ghost use Rattle.arrayvec.specs.ArrayVec.{array_vec_len};

use crate::modification_copy::{copy_modification, modification_copy};
use crate::pps::Pps;
use hevc_set_parts::{Items, RefPicListModification, ShortTermRefPicSet, SliceType};
use hevc_video_set::PredWeightTable;
use std::alloc::{AllocError, Global};

/// A slice segment header (H.265 7.3.6.1, 7.4.7.1).
///
/// The arrays of sixteen have a place for each long-term member: first those that are candidates of
/// the sequence set, then those that the header gives itself.
#[derive(Drop, PartialEq, Eq)]
pub struct SliceHeader {
    /// Whether the segment is the first of its picture.
    pub first_slice_segment_in_pic_flag: bool,
    /// Whether earlier pictures that are still needed for output are dropped.
    pub no_output_of_prior_pics_flag: bool,
    /// The number of the picture set: 0 to 63.
    pub pic_parameter_set_id: u8,
    /// Whether the segment takes the rest of its header from the independent one before it.
    pub dependent_slice_segment_flag: bool,
    /// The first coding tree block of the segment, in raster scan: below PicSizeInCtbsY.
    pub segment_address: u32,
    /// The coding type.
    pub type_: SliceType,
    /// Whether the picture is output.
    pub pic_output_flag: bool,
    /// The colour plane of separate planes: 0 to 2 by 7.4.7.1, which reserves 3; that is read too.
    pub colour_plane_id: u8,
    /// The order count of the picture, modulo MaxPicOrderCntLsb.
    pub pic_order_cnt_lsb: u16,
    /// Whether the short-term set is one of the sequence set's.
    pub short_term_ref_pic_set_sps_flag: bool,
    /// The header's own short-term reference picture set.
    pub short_term_ref_pic_set: ShortTermRefPicSet,
    /// Which of the sequence set's short-term sets it is: 0 to 63.
    pub short_term_ref_pic_set_idx: u8,
    /// The number of long-term members that are candidates of the sequence set: 0 to 16.
    pub num_long_term_sps: u8,
    /// The number of long-term members that the header gives itself: 0 to 16.
    pub num_long_term_pics: u8,
    /// For each long-term member, which candidate of the sequence set it is: 0 to 31.
    pub lt_idx_sps: [u8; 16],
    /// For each long-term member, its order count modulo MaxPicOrderCntLsb, as PocLsbLt.
    pub poc_lsb_lt: [u32; 16],
    /// For each long-term member, whether the picture may refer to it, as UsedByCurrPicLt.
    pub used_by_curr_pic_lt: [bool; 16],
    /// For each long-term member, whether the upper part of its order count is given.
    pub delta_poc_msb_present_flag: [bool; 16],
    /// For each long-term member, how many times MaxPicOrderCntLsb the upper part of its order
    /// count is before that of the picture, as DeltaPocMsbCycleLt.
    pub delta_poc_msb_cycle_lt: [u64; 16],
    /// Whether motion vectors are predicted from another picture.
    pub temporal_mvp_enabled_flag: bool,
    /// Whether luma has sample adaptive offsets.
    pub sao_luma_flag: bool,
    /// Whether chroma has sample adaptive offsets.
    pub sao_chroma_flag: bool,
    /// Whether the header gives the numbers of active entries.
    pub num_ref_idx_active_override_flag: bool,
    /// The number of active entries of list 0, less 1: 0 to 14.
    pub num_ref_idx_l0_active_minus1: u8,
    /// The number of active entries of list 1, less 1: 0 to 14.
    pub num_ref_idx_l1_active_minus1: u8,
    /// How the reference lists are ordered.
    pub ref_pic_list_modification: RefPicListModification,
    /// Whether motion vector differences of list 1 are 0 in bi-prediction.
    pub mvd_l1_zero_flag: bool,
    /// Whether the first contexts of P and B slices are exchanged.
    pub cabac_init_flag: bool,
    /// Whether the picture that motion vectors are predicted from is in list 0.
    pub collocated_from_l0_flag: bool,
    /// The place of that picture in its list: 0 to 14.
    pub collocated_ref_idx: u8,
    /// The weights of predictions.
    pub pred_weight_table: PredWeightTable,
    /// The most merge candidates, taken from 5.
    pub five_minus_max_num_merge_cand: u8,
    /// Whether motion vectors are whole numbers of samples.
    pub use_integer_mv_flag: bool,
    /// What the first luma quantiser adds to the picture set's: -87 to 77.
    pub qp_delta: i8,
    /// What the Cb quantiser offset adds to the picture set's: -12 to 12.
    pub cb_qp_offset: i8,
    /// What the Cr quantiser offset adds to the picture set's: -12 to 12.
    pub cr_qp_offset: i8,
    /// What the Y quantiser offset of the colour transform adds to the picture set's: -12 to 12.
    pub slice_act_y_qp_offset: i8,
    /// What the Cb quantiser offset of the colour transform adds to the picture set's: -12 to 12.
    pub slice_act_cb_qp_offset: i8,
    /// What the Cr quantiser offset of the colour transform adds to the picture set's: -12 to 12.
    pub slice_act_cr_qp_offset: i8,
    /// Whether coding units may choose among chroma quantiser offsets.
    pub cu_chroma_qp_offset_enabled_flag: bool,
    /// Whether the header speaks of the deblocking filter.
    pub deblocking_filter_override_flag: bool,
    /// Whether the deblocking filter is off.
    pub deblocking_filter_disabled_flag: bool,
    /// Half the offset of the deblocking parameter beta: -6 to 6.
    pub beta_offset_div2: i8,
    /// Half the offset of the deblocking parameter tC: -6 to 6.
    pub tc_offset_div2: i8,
    /// Whether in-loop filters go across the upper and left boundary of the slice.
    pub loop_filter_across_slices_enabled_flag: bool,
    /// The number of entry points after the first.
    pub num_entry_point_offsets: u32,
    /// The bits of an entry of `entry_point_offset_minus1`, less 1: 0 to 31.
    pub offset_len_minus1: u8,
    /// The bytes from each entry point to the next one, less 1.
    pub entry_point_offset_minus1: Items<u32>,
    /// Which short-term set the picture has: one of the sequence set's, or the header's own after
    /// them: 0 to 64.
    pub curr_rps_idx: u8,
    /// For P and B slices, the number of pictures that the picture may refer to.
    pub num_pic_total_curr: u32,
    /// The bits of the header: the 16 of the unit's header, and the payload bits of this one.
    pub header_bit_size: u32,
    /// How many emulation prevention bytes of the unit are before the byte in which the header
    /// ends.
    pub n_emulation_prevention_bytes: u32,
    /// The payload bits of the header's own short-term set.
    pub st_rps_bits: u32,
    pub ghost active_l0: { num_ref_idx_l0_active_minus1 ≤ 14 },
    pub ghost active_l1: { num_ref_idx_l1_active_minus1 ≤ 14 },
    pub ghost long_term: { num_long_term_sps + num_long_term_pics ≤ 16 },
    pub ghost entries_l0: { IsTrue ref_pic_list_modification.ref_pic_list_modification_flag_l0 → array_vec_len ref_pic_list_modification.list_entry_l0 ≡ num_ref_idx_l0_active_minus1 + 1 },
    pub ghost entries_l1: { IsTrue ref_pic_list_modification.ref_pic_list_modification_flag_l1 → array_vec_len ref_pic_list_modification.list_entry_l1 ≡ num_ref_idx_l1_active_minus1 + 1 },
}

impl SliceHeader {
    ghost use Rattle.hevc_records.specs.SliceHeader.{completed_header, default_slice_header};
    ghost use Rattle.hevc_records.specs.SliceHeader.{with_inferred};
    ghost use Rattle.hevc_set_parts.specs.RefPicListModification.{plain_ref_pic_list_modification};
    ghost use Rattle.hevc_picture_slice.specs.Pps.{plain_pps};
    ghost use Rattle.hevc_picture_slice.specs.SliceHeader.{plain_slice_header};

    /// All numbers 0, all flags not set and all lists empty, but for `pic_output_flag` and
    /// `collocated_from_l0_flag`, which are set; the type is P. It takes memory from `alloc` as its
    /// list of entry points grows.
    pub fn new(alloc: Global) -> SliceHeader
        ensures { plain_slice_header result ≡ default_slice_header }
    {
        SliceHeader {
            first_slice_segment_in_pic_flag: false,
            no_output_of_prior_pics_flag: false,
            pic_parameter_set_id: 0,
            dependent_slice_segment_flag: false,
            segment_address: 0,
            type_: SliceType::P,
            pic_output_flag: true,
            colour_plane_id: 0,
            pic_order_cnt_lsb: 0,
            short_term_ref_pic_set_sps_flag: false,
            short_term_ref_pic_set: ShortTermRefPicSet::new(),
            short_term_ref_pic_set_idx: 0,
            num_long_term_sps: 0,
            num_long_term_pics: 0,
            lt_idx_sps: [0; 16],
            poc_lsb_lt: [0; 16],
            used_by_curr_pic_lt: [false; 16],
            delta_poc_msb_present_flag: [false; 16],
            delta_poc_msb_cycle_lt: [0; 16],
            temporal_mvp_enabled_flag: false,
            sao_luma_flag: false,
            sao_chroma_flag: false,
            num_ref_idx_active_override_flag: false,
            num_ref_idx_l0_active_minus1: 0,
            num_ref_idx_l1_active_minus1: 0,
            ref_pic_list_modification: RefPicListModification::new(),
            mvd_l1_zero_flag: false,
            cabac_init_flag: false,
            collocated_from_l0_flag: true,
            collocated_ref_idx: 0,
            pred_weight_table: PredWeightTable::new(),
            five_minus_max_num_merge_cand: 0,
            use_integer_mv_flag: false,
            qp_delta: 0,
            cb_qp_offset: 0,
            cr_qp_offset: 0,
            slice_act_y_qp_offset: 0,
            slice_act_cb_qp_offset: 0,
            slice_act_cr_qp_offset: 0,
            cu_chroma_qp_offset_enabled_flag: false,
            deblocking_filter_override_flag: false,
            deblocking_filter_disabled_flag: false,
            beta_offset_div2: 0,
            tc_offset_div2: 0,
            loop_filter_across_slices_enabled_flag: false,
            num_entry_point_offsets: 0,
            offset_len_minus1: 0,
            entry_point_offset_minus1: Items::new(alloc),
            curr_rps_idx: 0,
            num_pic_total_curr: 0,
            header_bit_size: 0,
            n_emulation_prevention_bytes: 0,
            st_rps_bits: 0,
        }
    }

    /// Sets what the sets infer for absent elements (7.4.7.1): the offsets and flags of in-loop
    /// filters from `pps`, `curr_rps_idx` to the number of the sequence set's short-term sets, and
    /// `use_integer_mv_flag` to whether `motion_vector_resolution_control_idc` isn't 0.
    pub fn set_defaults(
        &mut self,
        pps: &Pps,
        num_short_term_ref_pic_sets: u8,
        motion_vector_resolution_control_idc: u8,
    )
        ensures { plain_slice_header self.new
            ≡ with_inferred
            (plain_pps pps.now) num_short_term_ref_pic_sets motion_vector_resolution_control_idc
            (plain_slice_header self.old) }
    {
        self.deblocking_filter_disabled_flag = pps.deblocking_filter_disabled_flag;
        self.beta_offset_div2 = pps.beta_offset_div2;
        self.tc_offset_div2 = pps.tc_offset_div2;
        self.loop_filter_across_slices_enabled_flag = pps.loop_filter_across_slices_enabled_flag;
        self.curr_rps_idx = num_short_term_ref_pic_sets;
        self.use_integer_mv_flag = motion_vector_resolution_control_idc != 0;
    }

    /// Completes the header of a dependent segment by that of the independent one before it
    /// (7.4.7.1). What is before the slice type stays, and so do the entry points, the bit size and
    /// the number of emulation prevention bytes; all else is taken over.
    pub fn complete(&mut self, independent: &SliceHeader)
        ensures { plain_slice_header self.new
            ≡ completed_header (plain_slice_header self.old) (plain_slice_header independent.now) }
    {
        self.type_ = independent.type_;
        self.pic_output_flag = independent.pic_output_flag;
        self.colour_plane_id = independent.colour_plane_id;
        self.pic_order_cnt_lsb = independent.pic_order_cnt_lsb;
        self.short_term_ref_pic_set_sps_flag = independent.short_term_ref_pic_set_sps_flag;
        self.short_term_ref_pic_set = independent.short_term_ref_pic_set;
        self.short_term_ref_pic_set_idx = independent.short_term_ref_pic_set_idx;
        self.num_long_term_sps = independent.num_long_term_sps;
        self.num_long_term_pics = independent.num_long_term_pics;
        self.lt_idx_sps = independent.lt_idx_sps;
        self.poc_lsb_lt = independent.poc_lsb_lt;
        self.used_by_curr_pic_lt = independent.used_by_curr_pic_lt;
        self.delta_poc_msb_present_flag = independent.delta_poc_msb_present_flag;
        self.delta_poc_msb_cycle_lt = independent.delta_poc_msb_cycle_lt;
        self.complete_prediction(independent);
        self.pred_weight_table = independent.pred_weight_table;
        self.complete_quantisers(independent);
        self.curr_rps_idx = independent.curr_rps_idx;
        self.num_pic_total_curr = independent.num_pic_total_curr;
        self.st_rps_bits = independent.st_rps_bits;
    }

    /// Takes over what is between the long-term members and the weights. Neighbours are read before
    /// they are written, so that they move together.
    fn complete_prediction(&mut self, independent: &SliceHeader)
        ensures { plain_slice_header self.new ≡ record (plain_slice_header self.old) {
          temporal_mvp_enabled_flag = independent.now.temporal_mvp_enabled_flag;
          sao_luma_flag = independent.now.sao_luma_flag;
          sao_chroma_flag = independent.now.sao_chroma_flag;
          num_ref_idx_active_override_flag = independent.now.num_ref_idx_active_override_flag;
          num_ref_idx_l0_active_minus1 = independent.now.num_ref_idx_l0_active_minus1;
          num_ref_idx_l1_active_minus1 = independent.now.num_ref_idx_l1_active_minus1;
          ref_pic_list_modification =
              plain_ref_pic_list_modification independent.now.ref_pic_list_modification;
          mvd_l1_zero_flag = independent.now.mvd_l1_zero_flag;
          cabac_init_flag = independent.now.cabac_init_flag;
          collocated_from_l0_flag = independent.now.collocated_from_l0_flag;
          collocated_ref_idx = independent.now.collocated_ref_idx;
        } }
    {
        let &SliceHeader {
            temporal_mvp_enabled_flag,
            sao_luma_flag,
            sao_chroma_flag,
            num_ref_idx_active_override_flag,
            num_ref_idx_l0_active_minus1,
            num_ref_idx_l1_active_minus1,
            mvd_l1_zero_flag,
            cabac_init_flag,
            collocated_from_l0_flag,
            collocated_ref_idx,
            ..
        } = independent;
        self.temporal_mvp_enabled_flag = temporal_mvp_enabled_flag;
        self.sao_luma_flag = sao_luma_flag;
        self.sao_chroma_flag = sao_chroma_flag;
        self.num_ref_idx_active_override_flag = num_ref_idx_active_override_flag;
        self.num_ref_idx_l0_active_minus1 = num_ref_idx_l0_active_minus1;
        self.num_ref_idx_l1_active_minus1 = num_ref_idx_l1_active_minus1;
        copy_modification(
            &mut self.ref_pic_list_modification,
            &independent.ref_pic_list_modification,
        );
        self.mvd_l1_zero_flag = mvd_l1_zero_flag;
        self.cabac_init_flag = cabac_init_flag;
        self.collocated_from_l0_flag = collocated_from_l0_flag;
        self.collocated_ref_idx = collocated_ref_idx;
    }

    /// Takes over what is between the weights and the entry points.
    fn complete_quantisers(&mut self, independent: &SliceHeader)
        ensures { plain_slice_header self.new ≡ record (plain_slice_header self.old) {
          five_minus_max_num_merge_cand = independent.now.five_minus_max_num_merge_cand;
          use_integer_mv_flag = independent.now.use_integer_mv_flag;
          qp_delta = independent.now.qp_delta;
          cb_qp_offset = independent.now.cb_qp_offset;
          cr_qp_offset = independent.now.cr_qp_offset;
          slice_act_y_qp_offset = independent.now.slice_act_y_qp_offset;
          slice_act_cb_qp_offset = independent.now.slice_act_cb_qp_offset;
          slice_act_cr_qp_offset = independent.now.slice_act_cr_qp_offset;
          cu_chroma_qp_offset_enabled_flag = independent.now.cu_chroma_qp_offset_enabled_flag;
          deblocking_filter_override_flag = independent.now.deblocking_filter_override_flag;
          deblocking_filter_disabled_flag = independent.now.deblocking_filter_disabled_flag;
          beta_offset_div2 = independent.now.beta_offset_div2;
          tc_offset_div2 = independent.now.tc_offset_div2;
          loop_filter_across_slices_enabled_flag = independent.now.loop_filter_across_slices_enabled_flag;
        } }
    {
        let &SliceHeader {
            five_minus_max_num_merge_cand,
            use_integer_mv_flag,
            qp_delta,
            cb_qp_offset,
            cr_qp_offset,
            slice_act_y_qp_offset,
            slice_act_cb_qp_offset,
            slice_act_cr_qp_offset,
            cu_chroma_qp_offset_enabled_flag,
            deblocking_filter_override_flag,
            deblocking_filter_disabled_flag,
            beta_offset_div2,
            tc_offset_div2,
            loop_filter_across_slices_enabled_flag,
            ..
        } = independent;
        self.five_minus_max_num_merge_cand = five_minus_max_num_merge_cand;
        self.use_integer_mv_flag = use_integer_mv_flag;
        self.qp_delta = qp_delta;
        self.cb_qp_offset = cb_qp_offset;
        self.cr_qp_offset = cr_qp_offset;
        self.slice_act_y_qp_offset = slice_act_y_qp_offset;
        self.slice_act_cb_qp_offset = slice_act_cb_qp_offset;
        self.slice_act_cr_qp_offset = slice_act_cr_qp_offset;
        self.cu_chroma_qp_offset_enabled_flag = cu_chroma_qp_offset_enabled_flag;
        self.deblocking_filter_override_flag = deblocking_filter_override_flag;
        self.deblocking_filter_disabled_flag = deblocking_filter_disabled_flag;
        self.beta_offset_div2 = beta_offset_div2;
        self.tc_offset_div2 = tc_offset_div2;
        self.loop_filter_across_slices_enabled_flag = loop_filter_across_slices_enabled_flag;
    }

    /// An equal header.
    ///
    /// Errors: no memory.
    pub fn try_clone(&self) -> Result<SliceHeader, AllocError>
        ensures { IfOk result (λ copy. copy ≡ self.now) }
    {
        let entry_point_offset_minus1 = self.entry_point_offset_minus1.try_copy()?;
        Ok(SliceHeader {
            first_slice_segment_in_pic_flag: self.first_slice_segment_in_pic_flag,
            no_output_of_prior_pics_flag: self.no_output_of_prior_pics_flag,
            pic_parameter_set_id: self.pic_parameter_set_id,
            dependent_slice_segment_flag: self.dependent_slice_segment_flag,
            segment_address: self.segment_address,
            type_: self.type_,
            pic_output_flag: self.pic_output_flag,
            colour_plane_id: self.colour_plane_id,
            pic_order_cnt_lsb: self.pic_order_cnt_lsb,
            short_term_ref_pic_set_sps_flag: self.short_term_ref_pic_set_sps_flag,
            short_term_ref_pic_set: self.short_term_ref_pic_set,
            short_term_ref_pic_set_idx: self.short_term_ref_pic_set_idx,
            num_long_term_sps: self.num_long_term_sps,
            num_long_term_pics: self.num_long_term_pics,
            lt_idx_sps: self.lt_idx_sps,
            poc_lsb_lt: self.poc_lsb_lt,
            used_by_curr_pic_lt: self.used_by_curr_pic_lt,
            delta_poc_msb_present_flag: self.delta_poc_msb_present_flag,
            delta_poc_msb_cycle_lt: self.delta_poc_msb_cycle_lt,
            temporal_mvp_enabled_flag: self.temporal_mvp_enabled_flag,
            sao_luma_flag: self.sao_luma_flag,
            sao_chroma_flag: self.sao_chroma_flag,
            num_ref_idx_active_override_flag: self.num_ref_idx_active_override_flag,
            num_ref_idx_l0_active_minus1: self.num_ref_idx_l0_active_minus1,
            num_ref_idx_l1_active_minus1: self.num_ref_idx_l1_active_minus1,
            ref_pic_list_modification: modification_copy(&self.ref_pic_list_modification),
            mvd_l1_zero_flag: self.mvd_l1_zero_flag,
            cabac_init_flag: self.cabac_init_flag,
            collocated_from_l0_flag: self.collocated_from_l0_flag,
            collocated_ref_idx: self.collocated_ref_idx,
            pred_weight_table: self.pred_weight_table,
            five_minus_max_num_merge_cand: self.five_minus_max_num_merge_cand,
            use_integer_mv_flag: self.use_integer_mv_flag,
            qp_delta: self.qp_delta,
            cb_qp_offset: self.cb_qp_offset,
            cr_qp_offset: self.cr_qp_offset,
            slice_act_y_qp_offset: self.slice_act_y_qp_offset,
            slice_act_cb_qp_offset: self.slice_act_cb_qp_offset,
            slice_act_cr_qp_offset: self.slice_act_cr_qp_offset,
            cu_chroma_qp_offset_enabled_flag: self.cu_chroma_qp_offset_enabled_flag,
            deblocking_filter_override_flag: self.deblocking_filter_override_flag,
            deblocking_filter_disabled_flag: self.deblocking_filter_disabled_flag,
            beta_offset_div2: self.beta_offset_div2,
            tc_offset_div2: self.tc_offset_div2,
            loop_filter_across_slices_enabled_flag: self.loop_filter_across_slices_enabled_flag,
            num_entry_point_offsets: self.num_entry_point_offsets,
            offset_len_minus1: self.offset_len_minus1,
            entry_point_offset_minus1,
            curr_rps_idx: self.curr_rps_idx,
            num_pic_total_curr: self.num_pic_total_curr,
            header_bit_size: self.header_bit_size,
            n_emulation_prevention_bytes: self.n_emulation_prevention_bytes,
            st_rps_bits: self.st_rps_bits,
        })
    }
}
