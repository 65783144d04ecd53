//! What is written decides whether a record has lines at all.
ghost use Rattle.std.specs.Prelude.{ℕ, Option};
ghost use Rattle.hevc_records.specs.Sps.{PlainSps};
ghost use Rattle.hevc_tables.specs.PpsTable.{picture_parameter_set};
ghost use Rattle.hevc_write_elements.specs.Deciding.{ReadsBack, WritesFormed};

/// What is written for a set that has lines which are allowed are lines of it, with the chosen
/// values.
#[tactic(auto, using(hevc_write_elements::proofs::Deciding::deciding))]
pub fn written_picture_sets_are_formed()
    ensures { (temporal_id : ℕ) (kept : ℕ → Option PlainSps)
        → WritesFormed (picture_parameter_set temporal_id kept) }
{}

/// What is written for a set that any bits are read as is read as it. So one that isn't read back
/// is one that no bits are read as.
#[tactic(auto, using(hevc_write_elements::proofs::Deciding::deciding))]
pub fn written_picture_sets_are_read_back()
    ensures { (temporal_id : ℕ) (kept : ℕ → Option PlainSps)
        → ReadsBack (picture_parameter_set temporal_id kept) }
{}
