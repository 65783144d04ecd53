//! A record of the code is the values of its fields, as tables have them.
#![tactic(auto)]

ghost use Rattle.hevc_video_set.specs.Vps.{plain_vps};
ghost use Rattle.hevc_sequence_set.specs.Sps.{plain_sps};
ghost use Rattle.hevc_picture_slice.specs.Pps.{plain_pps};
ghost use Rattle.hevc_picture_slice.specs.SliceHeader.{plain_slice_header};
ghost use Rattle.hevc_record_laws.specs.Values.{IsItsValues};

/// Two parameter sets or slice headers whose fields have the same values are the same.
#[tactic(auto, using(crate::proofs::Values::VideoSet::vps, crate::proofs::Values::SequenceSet::sps, crate::proofs::Values::PictureSlice::pps, crate::proofs::Values::PictureSlice::slice_header))]
pub fn records_are_their_values()
    ensures vps { IsItsValues plain_vps }
    ensures sps { IsItsValues plain_sps }
    ensures pps { IsItsValues plain_pps }
    ensures slice_header { IsItsValues plain_slice_header }
{}
