//! What a sequence set declares of its pictures' order.
ghost use Rattle.std.specs.Prelude.{◌≡◌};
ghost use Rattle.hevc_sequence_set.specs.Sps.{plain_sps};

use hevc_sequence_set::Sps;

/// What a sequence set declares for the highest sub-layer that is decoded (7.4.3.2.1).
#[derive(Clone, Copy, PartialEq, Eq)]
pub struct Limits {
    /// The most pictures that precede one in decoding order and follow it in output order.
    pub reorder: u8,
    /// The latency beyond reordering, plus 1: 0 for no bound.
    pub latency_plus1: u8,
    /// The size of the decoded picture buffer in pictures, less 1.
    pub buffering: u8,
}

impl Limits {
    ghost use Rattle.hevc_walk_inputs.specs.Sequences.{limits_of_set};
    ghost use Rattle.hevc_pictures.specs.Limits.{limits_of};

    /// Those of a sequence set for the sub-layers up to `highest_tid`, or for all where it has
    /// fewer.
    pub fn of(sps: &Sps, highest_tid: u8) -> Limits
        ensures { limits_of result ≡ limits_of_set highest_tid (plain_sps sps.now) }
    {
        let top = highest_tid.min(sps.max_sub_layers_minus1) as usize;
        Limits {
            reorder: sps.max_num_reorder_pics[top],
            latency_plus1: sps.max_latency_increase_plus1[top],
            buffering: sps.max_dec_pic_buffering_minus1[top],
        }
    }
}
