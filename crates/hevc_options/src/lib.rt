//! What may be set for decoding by external means (8.1.2, 8.1.3).
#![tactic(auto)]

ghost use Rattle.std.specs.Prelude.{◌≡◌};
ghost use Rattle.hevc_stream.specs.Contents.{wants};
ghost use Rattle.hevc_stream.specs.Options.{default_options};

use hevc_bits::NaluHeader;

/// What may be set for decoding by external means (8.1.2, 8.1.3).
#[derive(Clone, Copy, PartialEq, Eq)]
pub struct Options {
    /// HandleCraAsBlaFlag: CRA pictures are handled as BLA pictures.
    pub handle_cra_as_bla: bool,
    /// The TemporalId of the highest sub-layer that is wanted: 0 to 6.
    pub highest_tid: u8,
    /// The nuh_layer_id of the highest layer that is wanted: 0, the base layer alone, to 63.
    pub highest_layer: u8,
}

impl Options {
    ghost use Rattle.hevc_options.specs.Options.{options_of};

    /// CRA pictures are handled as such, and all sub-layers and layers are wanted.
    pub fn new() -> Options
        ensures { options_of result ≡ default_options }
    {
        Options {
            handle_cra_as_bla: false,
            highest_tid: 6,
            highest_layer: 63,
        }
    }

    /// Whether a unit with this header is of a sub-layer and a layer that are wanted (8.1.2).
    pub fn wants(&self, header: &NaluHeader) -> bool
        ensures { result ≡ wants (options_of self.now) header.now }
    {
        header.temporal_id_plus1() - 1 <= self.highest_tid
            && header.layer_id() <= self.highest_layer
    }
}
