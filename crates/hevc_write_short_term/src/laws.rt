//! What is written decides whether a record has lines at all.
ghost use Rattle.std.specs.Prelude.{ℕ, List};
ghost use Rattle.hevc_records.specs.ShortTermRefPicSet.{PlainShortTermRefPicSet};
ghost use Rattle.hevc_tables.specs.ShortTermTable.{short_term_ref_pic_set};
ghost use Rattle.hevc_write_elements.specs.Deciding.{ReadsBack, WritesFormed};

/// What is written for a set that has lines which are allowed are lines of it, with the chosen
/// values.
#[tactic(auto, using(hevc_write_elements::proofs::Deciding::deciding))]
pub fn written_short_term_sets_are_formed()
    ensures { (sets : List PlainShortTermRefPicSet) (count most idx : ℕ)
        → WritesFormed (short_term_ref_pic_set sets count most idx) }
{}

/// What is written for a set that any bits are read as is read as it. So one that isn't read back
/// is one that no bits are read as.
#[tactic(auto, using(hevc_write_elements::proofs::Deciding::deciding))]
pub fn written_short_term_sets_are_read_back()
    ensures { (sets : List PlainShortTermRefPicSet) (count most idx : ℕ)
        → ReadsBack (short_term_ref_pic_set sets count most idx) }
{}
