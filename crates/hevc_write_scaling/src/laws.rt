//! What is written decides whether a record has lines at all.
ghost use Rattle.hevc_tables.specs.ScalingListTable.{scaling_list_data};
ghost use Rattle.hevc_write_elements.specs.Deciding.{ReadsBack, WritesFormed};

/// What is written for scaling lists that have lines which are allowed are lines of them, with the
/// chosen values.
#[tactic(auto, using(hevc_write_elements::proofs::Deciding::deciding))]
pub fn written_scaling_lists_are_formed()
    ensures { WritesFormed scaling_list_data }
{}

/// What is written for scaling lists that any bits are read as is read as them. So lists that
/// aren't read back are lists that no bits are read as.
#[tactic(auto, using(hevc_write_elements::proofs::Deciding::deciding))]
pub fn written_scaling_lists_are_read_back()
    ensures { ReadsBack scaling_list_data }
{}
