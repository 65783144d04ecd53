//! What is written decides whether a record has lines at all.
ghost use Rattle.std.specs.Prelude.{ℕ, Bool};
ghost use Rattle.hevc_records.specs.Sps.{PlainSps};
ghost use Rattle.hevc_tables.specs.RefPicListModificationTable.{ref_pic_list_modification};
ghost use Rattle.hevc_tables.specs.WeightedPredictionTable.{pred_weight_table};
ghost use Rattle.hevc_write_elements.specs.Deciding.{ReadsBack, WritesFormed};

/// What is written for a part that has lines which are allowed are lines of it, with the chosen
/// values.
#[tactic(auto, using(hevc_write_elements::proofs::Deciding::deciding))]
pub fn written_slice_parts_are_formed()
    ensures modification { (b : Bool) (num_pic_total_curr active_l0 active_l1 : ℕ)
        → WritesFormed (ref_pic_list_modification b num_pic_total_curr active_l0 active_l1) }
    ensures weights { (sps : PlainSps) (b : Bool) (active_l0 active_l1 : ℕ)
        → WritesFormed (pred_weight_table sps b active_l0 active_l1) }
{}

/// What is written for a part that any bits are read as is read as it. So one that isn't read back
/// is one that no bits are read as.
#[tactic(auto, using(hevc_write_elements::proofs::Deciding::deciding))]
pub fn written_slice_parts_are_read_back()
    ensures modification { (b : Bool) (num_pic_total_curr active_l0 active_l1 : ℕ)
        → ReadsBack (ref_pic_list_modification b num_pic_total_curr active_l0 active_l1) }
    ensures weights { (sps : PlainSps) (b : Bool) (active_l0 active_l1 : ℕ)
        → ReadsBack (pred_weight_table sps b active_l0 active_l1) }
{}
