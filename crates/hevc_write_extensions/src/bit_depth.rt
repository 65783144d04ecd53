//! The depth of samples (7.4.3.2.1).
ghost use Rattle.std.specs.Prelude.{◌≡◌, ◌≤◌};
ghost use Rattle.hevc_tables.specs.SpsSccExtensionTable.{bit_depth as bit_depth_of};
ghost use Rattle.hevc_tables.specs.SpsTable.{sample_format};
ghost use Rattle.hevc_sequence_set.specs.Sps.{plain_sps};

use hevc_sequence_set::Sps;

/// The bits of a sample of a component.
pub(crate) fn bit_depth(sps: &Sps, component: usize) -> u32
    ensures value { result ≡ bit_depth_of (sample_format (plain_sps sps.now)) component }
    ensures small { result ≤ 14 }
{
    if component == 0 {
        u32::from(sps.bit_depth_luma_minus8) + 8
    } else {
        u32::from(sps.bit_depth_chroma_minus8) + 8
    }
}
