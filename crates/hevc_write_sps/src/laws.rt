//! What is written decides whether a record has lines at all.
ghost use Rattle.hevc_tables.specs.SpsTable.{sequence_parameter_set};
ghost use Rattle.hevc_write_elements.specs.Deciding.{ReadsBack, WritesFormed};

/// What is written for a set that has lines which are allowed are lines of it, with the chosen
/// values.
#[tactic(auto, using(hevc_write_elements::proofs::Deciding::deciding))]
pub fn written_sequence_sets_are_formed()
    ensures { WritesFormed sequence_parameter_set }
{}

/// What is written for a set that any bits are read as is read as it. So one that isn't read back
/// is one that no bits are read as.
#[tactic(auto, using(hevc_write_elements::proofs::Deciding::deciding))]
pub fn written_sequence_sets_are_read_back()
    ensures { ReadsBack sequence_parameter_set }
{}
