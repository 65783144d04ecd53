//! What is written decides whether a record has lines at all.
ghost use Rattle.std.specs.Prelude.{ℕ, Bool};
ghost use Rattle.hevc_records.specs.HrdParams.{PlainHrdParams};
ghost use Rattle.hevc_tables.specs.HrdTable.{hrd_parameters};
ghost use Rattle.hevc_tables.specs.ProfileTierLevelTable.{profile_tier_level};
ghost use Rattle.hevc_tables.specs.VuiTable.{vui_parameters};
ghost use Rattle.hevc_write_elements.specs.Deciding.{ReadsBack, WritesFormed};

/// What is written for a part that has lines which are allowed are lines of it, with the chosen
/// values.
#[tactic(auto, using(hevc_write_elements::proofs::Deciding::deciding))]
pub fn written_parts_are_formed()
    ensures profile { (max_sub_layers_minus1 : ℕ)
        → WritesFormed (profile_tier_level max_sub_layers_minus1) }
    ensures hrd { (common : Bool) (max_sub_layers_minus1 : ℕ) (before : PlainHrdParams)
        → WritesFormed (hrd_parameters common max_sub_layers_minus1 before) }
    ensures vui { (max_sub_layers_minus1 : ℕ)
        → WritesFormed (vui_parameters max_sub_layers_minus1) }
{}

/// What is written for a part that any bits are read as is read as it. So one that isn't read back
/// is one that no bits are read as.
#[tactic(auto, using(hevc_write_elements::proofs::Deciding::deciding))]
pub fn written_parts_are_read_back()
    ensures profile { (max_sub_layers_minus1 : ℕ)
        → ReadsBack (profile_tier_level max_sub_layers_minus1) }
    ensures hrd { (common : Bool) (max_sub_layers_minus1 : ℕ) (before : PlainHrdParams)
        → ReadsBack (hrd_parameters common max_sub_layers_minus1 before) }
    ensures vui { (max_sub_layers_minus1 : ℕ) → ReadsBack (vui_parameters max_sub_layers_minus1) }
{}
