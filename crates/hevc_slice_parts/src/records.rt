//! The weights of one reference picture list.
ghost use Rattle.std.specs.Prelude.{pos, negsuc};
ghost use Rattle.hevc_records.specs.Bounds.{Within};

/// The weights of one list, each for all places, as `PredWeightTable` has them.
#[derive(Clone, Copy)]
pub(crate) struct ListWeights {
    pub luma_weight_flag: [bool; 15],
    pub chroma_weight_flag: [bool; 15],
    pub delta_luma_weight: [i8; 15],
    pub luma_offset: [i16; 15],
    pub delta_chroma_weight: [[i8; 2]; 15],
    pub delta_chroma_offset: [[i16; 2]; 15],
    pub ghost offsets: { Within (negsuc 8191) (pos 8191) luma_offset },
}
