//! Laws of spellings (9.2) and of the tables (7.3, Annex E): what a payload's bits spell, they
//! spell in one way.
#![tactic(auto)]

mod forms;
mod tables;

pub use forms::{one_spelling, spellings_begin_apart};
pub use tables::{
    one_hrd_parameters_meaning, one_picture_set_meaning, one_pps_range_extension_meaning,
    one_pps_scc_extension_meaning, one_pred_weight_table_meaning, one_profile_tier_level_meaning,
    one_ref_pic_list_modification_meaning, one_scaling_list_data_meaning, one_sequence_set_meaning,
    one_short_term_set_meaning, one_slice_header_meaning, one_sps_range_extension_meaning,
    one_sps_scc_extension_meaning, one_sub_layer_hrd_parameters_meaning, one_video_set_meaning,
    one_vui_parameters_meaning,
};
