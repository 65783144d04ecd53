//! A payload means one thing by the table of a parameter set or a slice header, and of a part of
//! one.
ghost use Rattle.std.specs.Prelude.{ℕ, Bool, List, Option};
ghost use Rattle.hevc_records.specs.HrdParams.{PlainHrdParams};
ghost use Rattle.hevc_records.specs.ShortTermRefPicSet.{PlainShortTermRefPicSet};
ghost use Rattle.hevc_records.specs.Sps.{PlainSps};
ghost use Rattle.hevc_tables.specs.HrdTable.{hrd_parameters, sub_layer_hrd_parameters};
ghost use Rattle.hevc_tables.specs.PpsRangeExtensionTable.{pps_range_extension};
ghost use Rattle.hevc_tables.specs.PpsSccExtensionTable.{pps_scc_extension};
ghost use Rattle.hevc_tables.specs.PpsTable.{picture_parameter_set};
ghost use Rattle.hevc_tables.specs.ProfileTierLevelTable.{profile_tier_level};
ghost use Rattle.hevc_tables.specs.RefPicListModificationTable.{ref_pic_list_modification};
ghost use Rattle.hevc_tables.specs.ScalingListTable.{scaling_list_data};
ghost use Rattle.hevc_tables.specs.ShortTermTable.{short_term_ref_pic_set};
ghost use Rattle.hevc_tables.specs.SliceHeaderTable.{ActiveSets, slice_segment_header};
ghost use Rattle.hevc_tables.specs.SpsRangeExtensionTable.{sps_range_extension};
ghost use Rattle.hevc_tables.specs.SpsSccExtensionTable.{SampleFormat, sps_scc_extension};
ghost use Rattle.hevc_tables.specs.SpsTable.{sequence_parameter_set};
ghost use Rattle.hevc_tables.specs.VpsTable.{video_parameter_set};
ghost use Rattle.hevc_tables.specs.VuiTable.{vui_parameters};
ghost use Rattle.hevc_tables.specs.WeightedPredictionTable.{pred_weight_table};
ghost use Rattle.hevc_table_laws.specs.OneMeaning.{HasOneMeaning};

/// Profile, tier and level (table 2), with the number of the highest sub-layer.
#[tactic(auto, using(crate::proofs::Laws::one_meaning))]
pub fn one_profile_tier_level_meaning()
    ensures { (max_sub_layers_minus1 : ℕ)
        → HasOneMeaning (profile_tier_level max_sub_layers_minus1) }
{}

/// Parameters of the hypothetical reference decoder (table 3), with what the table is given.
#[tactic(auto, using(crate::proofs::Laws::one_meaning))]
pub fn one_hrd_parameters_meaning()
    ensures { (common_inf_present_flag : Bool) (max_sub_layers_minus1 : ℕ) (before : PlainHrdParams)
        → HasOneMeaning (hrd_parameters common_inf_present_flag max_sub_layers_minus1 before) }
{}

/// The schedules of a sub-layer (table 4), with what the table is given.
#[tactic(auto, using(crate::proofs::Laws::one_meaning))]
pub fn one_sub_layer_hrd_parameters_meaning()
    ensures { (sub_pic_hrd_params_present_flag : Bool) (cpb_cnt_minus1 : ℕ)
        → HasOneMeaning (sub_layer_hrd_parameters sub_pic_hrd_params_present_flag cpb_cnt_minus1) }
{}

/// Scaling lists (table 6).
#[tactic(auto, using(crate::proofs::Laws::one_meaning))]
pub fn one_scaling_list_data_meaning()
    ensures { HasOneMeaning scaling_list_data }
{}

/// A short-term reference picture set (table 7), with the sets before it and what else the table is
/// given.
#[tactic(auto, using(crate::proofs::Laws::one_meaning))]
pub fn one_short_term_set_meaning()
    ensures { (sets : List PlainShortTermRefPicSet)
        (num_short_term_ref_pic_sets max_dec_pic_buffering_minus1 st_rps_idx : ℕ)
        → HasOneMeaning (short_term_ref_pic_set sets num_short_term_ref_pic_sets
        max_dec_pic_buffering_minus1 st_rps_idx) }
{}

/// Video usability information (table 8), with the number of the highest sub-layer.
#[tactic(auto, using(crate::proofs::Laws::one_meaning))]
pub fn one_vui_parameters_meaning()
    ensures { (max_sub_layers_minus1 : ℕ) → HasOneMeaning (vui_parameters max_sub_layers_minus1) }
{}

/// A video parameter set (table 1).
#[tactic(auto, using(crate::proofs::Laws::one_meaning))]
pub fn one_video_set_meaning()
    ensures { HasOneMeaning video_parameter_set }
{}

/// A sequence parameter set (table 5).
#[tactic(auto, using(crate::proofs::Laws::one_meaning))]
pub fn one_sequence_set_meaning()
    ensures { HasOneMeaning sequence_parameter_set }
{}

/// The range extension of a sequence parameter set (table 9).
#[tactic(auto, using(crate::proofs::Laws::one_meaning))]
pub fn one_sps_range_extension_meaning()
    ensures { HasOneMeaning sps_range_extension }
{}

/// The screen content coding extension of a sequence parameter set (table 10), with the format of
/// its samples.
#[tactic(auto, using(crate::proofs::Laws::one_meaning))]
pub fn one_sps_scc_extension_meaning()
    ensures { (format : SampleFormat) → HasOneMeaning (sps_scc_extension format) }
{}

/// A picture parameter set (table 11), with the temporal id of its unit and the sequence sets that
/// are kept.
#[tactic(auto, using(crate::proofs::Laws::one_meaning))]
pub fn one_picture_set_meaning()
    ensures { (temporal_id : ℕ) (kept : ℕ → Option PlainSps)
        → HasOneMeaning (picture_parameter_set temporal_id kept) }
{}

/// The range extension of a picture parameter set (table 12), with its sequence set and whether it
/// allows skipped transforms.
#[tactic(auto, using(crate::proofs::Laws::one_meaning))]
pub fn one_pps_range_extension_meaning()
    ensures { (sps : PlainSps) (transform_skip : Bool)
        → HasOneMeaning (pps_range_extension sps transform_skip) }
{}

/// The screen content coding extension of a picture parameter set (table 13), with what its
/// sequence set says of samples and palettes.
#[tactic(auto, using(crate::proofs::Laws::one_meaning))]
pub fn one_pps_scc_extension_meaning()
    ensures { (format : SampleFormat) (most : ℕ) → HasOneMeaning (pps_scc_extension format most) }
{}

/// A slice segment header (table 14), with the type of its unit, the bytes after the unit's header,
/// and the sets that the ids of kept picture sets make active.
#[tactic(auto, using(crate::proofs::Laws::one_meaning))]
pub fn one_slice_header_meaning()
    ensures { (nal_unit_type : ℕ) (payload_bytes : List ℕ) (kept : ℕ → Option ActiveSets)
        → HasOneMeaning (slice_segment_header nal_unit_type payload_bytes kept) }
{}

/// A modification of reference picture lists (table 15), of a B slice or not, with the number of
/// pictures and the active places, less 1.
#[tactic(auto, using(crate::proofs::Laws::one_meaning))]
pub fn one_ref_pic_list_modification_meaning()
    ensures { (b : Bool) (num_pic_total_curr active_l0 active_l1 : ℕ)
        → HasOneMeaning (ref_pic_list_modification b num_pic_total_curr active_l0 active_l1) }
{}

/// Weights of predictions (table 16), with the sequence set, of a B slice or not, and the active
/// places, less 1.
#[tactic(auto, using(crate::proofs::Laws::one_meaning))]
pub fn one_pred_weight_table_meaning()
    ensures { (sps : PlainSps) (b : Bool) (active_l0 active_l1 : ℕ)
        → HasOneMeaning (pred_weight_table sps b active_l0 active_l1) }
{}
