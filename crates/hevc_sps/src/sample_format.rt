//! The format of samples that palettes are read by.
ghost use Rattle.std.specs.Prelude.{◌≡◌, ◌≤◌};
ghost use Rattle.hevc_tables.specs.SpsSccExtensionTable.{bit_depth as bit_depth_of};

/// The chroma format of a set, 0 to 3, and its bit depths less 8, 0 to 6.
#[derive(Clone, Copy)]
pub(crate) struct SampleFormat {
    pub chroma_format_idc: u8,
    pub bit_depth_luma_minus8: u8,
    pub bit_depth_chroma_minus8: u8,
    pub ghost luma: { bit_depth_luma_minus8 ≤ 6 },
    pub ghost chroma: { bit_depth_chroma_minus8 ≤ 6 },
}

impl SampleFormat {
    ghost use Rattle.hevc_sps.specs.Projections.{plain_format};

    /// The bits of a sample of a component.
    pub fn bit_depth(self, component: usize) -> usize
        ensures value { result ≡ bit_depth_of (plain_format self) component }
        ensures small { result ≤ 14 }
    {
        if component == 0 {
            usize::from(self.bit_depth_luma_minus8) + 8
        } else {
            usize::from(self.bit_depth_chroma_minus8) + 8
        }
    }
}
